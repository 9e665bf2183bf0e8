//! What the rules of expressions read their parts with. It is a parameter, so that each rule is proved by itself.
ghost use Rattle.std.specs.Prelude.{◌<◌, ◌≡◌, ◌≤◌, ◌+◌, length, OnOk, IfOk};
ghost use Rattle.ix_grammar_rules.specs.ExprRules as spec;
ghost use Rattle.ix_grammar.specs.ExprNodes as nodes;
ghost use Rattle.ix_grammar_rules.specs.Reading.{ReadsParts};
ghost use Rattle.ix_grammar_rules.specs.Rule.{run};
ghost use Rattle.ix_grammar_rules.specs.Taking.{Follows};

use ix_grammar::found::{Form, Found};
use ix_grammar_rules::aims::{Aim, Part};
use ix_grammar_rules::stop::Stop;
use ix_parse_base::cursor::Cursor;
use std::alloc::Global;

/// The rules for nodes of a height of at most `left`, with what reads the parts of a lower height.
#[derive(Drop)]
pub struct Grammar<F> {
    pub alloc: Global,
    /// The height that is left for a node.
    pub left: u32,
    pub part: F,
}

/// How much higher than a primary of this form the node must be that it ends in.
pub fn extra(aim: Aim, form: Form) -> u32
    ensures { record {
      is : result ≡ spec.extra aim form;
      once : result ≤ 1;
    } }
{
    match (aim, form) {
        (Aim::Value, _) => 0,
        (Aim::Statement, Form::Statement) => 0,
        (Aim::Variable, Form::Variable) => 0,
        _ => 1,
    }
}

/// Whether it creates an array.
pub fn makes_array(form: Form) -> bool
    ensures { result ≡ nodes.makes_array form }
{
    match form {
        Form::Array => true,
        _ => false,
    }
}

impl<F: Fn(Global, &mut Cursor<'_>, u32, Part) -> Result<Found, Stop>> Grammar<F> {
    /// A part of a node.
    #[tactic(auto, using(crate::proofs::LowerParts::lower_parts))]
    pub fn whole_part(&self, cursor: &mut Cursor<'_>) -> Result<Found, Stop>
        requires { record {
          parts : ReadsParts self.now.left (F.pre self.now.part) (F.post self.now.part);
          few : length cursor.old ≤ 200000;
          room : 0 < self.now.left;
        } }
        ensures { record {
          reads : Follows (run (spec.below self.now.left).lower.whole cursor.old) result cursor.new;
          no_longer : OnOk result (length cursor.new ≤ length cursor.old);
          fits : IfOk result (λ f. f.height + 1 ≤ self.now.left);
        } }
    {
        (self.part)(self.alloc, cursor, self.left - 1, Part::Whole)
    }

    /// A part of a node with operators of the first levels, so many.
    #[tactic(auto, using(crate::proofs::LowerParts::lower_parts))]
    pub fn level_part(&self, cursor: &mut Cursor<'_>, level: u32) -> Result<Found, Stop>
        requires { record {
          parts : ReadsParts self.now.left (F.pre self.now.part) (F.post self.now.part);
          few : length cursor.old ≤ 200000;
          room : 0 < self.now.left;
        } }
        ensures { record {
          reads : Follows (run ((spec.below self.now.left).lower.level level) cursor.old) result cursor.new;
          no_longer : OnOk result (length cursor.new ≤ length cursor.old);
          fits : IfOk result (λ f. f.height + 1 ≤ self.now.left);
        } }
    {
        (self.part)(self.alloc, cursor, self.left - 1, Part::Level(level))
    }

    /// A part of a node that is a variable.
    #[tactic(auto, using(crate::proofs::LowerParts::lower_parts))]
    pub fn variable_part(&self, cursor: &mut Cursor<'_>) -> Result<Found, Stop>
        requires { record {
          parts : ReadsParts self.now.left (F.pre self.now.part) (F.post self.now.part);
          few : length cursor.old ≤ 200000;
          room : 0 < self.now.left;
        } }
        ensures { record {
          reads : Follows (run (spec.below self.now.left).lower.variable cursor.old) result cursor.new;
          no_longer : OnOk result (length cursor.new ≤ length cursor.old);
          fits : IfOk result (λ f. f.height + 1 ≤ self.now.left);
        } }
    {
        (self.part)(self.alloc, cursor, self.left - 1, Part::Variable)
    }

    /// An expression within a primary that must be wrapped so often.
    #[tactic(auto, using(crate::proofs::LowerParts::inner_parts))]
    pub fn inner(&self, cursor: &mut Cursor<'_>, extra: u32) -> Result<Found, Stop>
        requires { record {
          parts : ReadsParts self.now.left (F.pre self.now.part) (F.post self.now.part);
          few : length cursor.old ≤ 200000;
          room : extra < self.now.left;
          once : extra ≤ 1;
        } }
        ensures { record {
          reads : Follows (run (spec.inner (spec.below self.now.left) extra) cursor.old) result cursor.new;
          no_longer : OnOk result (length cursor.new ≤ length cursor.old);
          fits : IfOk result (λ f. f.height + extra + 1 ≤ self.now.left);
        } }
    {
        (self.part)(self.alloc, cursor, self.left - (extra + 1), Part::Whole)
    }

    /// An expression of a height of at most `height`.
    pub fn expr(&self, cursor: &mut Cursor<'_>, height: u32) -> Result<Found, Stop>
        requires { record {
          parts : ReadsParts (height + 1) (F.pre self.now.part) (F.post self.now.part);
          few : length cursor.old ≤ 200000;
        } }
        ensures { record {
          reads : Follows (run (spec.expr height) cursor.old) result cursor.new;
          no_longer : OnOk result (length cursor.new ≤ length cursor.old);
          fits : IfOk result (λ f. f.height ≤ height);
        } }
    {
        (self.part)(self.alloc, cursor, height, Part::Whole)
    }
}
