//! Initialisers (JLS 8.3, 10.6).
ghost use Rattle.std.specs.Prelude.{◌<◌, ◌≤◌, ◌+◌, length, OnOk, IfOk};
ghost use Rattle.ix_grammar.specs.ExprNodes as nodes;
ghost use Rattle.ix_grammar_rules.specs.ExprRules as spec;
ghost use Rattle.ix_grammar_rules.specs.Reading.{ReadsParts};
ghost use Rattle.ix_grammar_rules.specs.Rule.{run, bind, pure};
ghost use Rattle.ix_grammar_rules.specs.Taking.{Follows};

use crate::grammar::Grammar;
use ix_grammar::found::{Found, FoundInit, FoundItems};
use ix_grammar_rules::aims::Part;
use ix_grammar_rules::stop::Stop;
use ix_lexer::fixed::{CLOSE_BRACE, COMMA, OPEN_BRACE};
use ix_parse_base::cursor::Cursor;
use ix_parse_base::nodes::{closed_by, items_init, no_inits, value_init, with_init};
use ix_text::Span;
use std::alloc::Global;

impl<F: Fn(Global, &mut Cursor<'_>, u32, Part) -> Result<Found, Stop>> Grammar<F> {
    /// An expression as an initialiser of a height of at most `height`. Where that is 0, the expression is too high or isn't one.
    #[tactic(auto, unfolding(ix_grammar_rules::specs::Rule::run), using(crate::proofs::NothingBelow::lower_values, crate::proofs::LowerParts::fewer_parts))]
    fn value_init(&self, cursor: &mut Cursor<'_>, height: u32) -> Result<FoundInit, Stop>
        requires { record {
          parts : ReadsParts (height + 1) (F.pre self.now.part) (F.post self.now.part);
          few : length cursor.old ≤ 200000;
        } }
        ensures { record {
          reads : Follows (run (bind (spec.below height).lower.whole (λ f. pure (nodes.value_init f))) cursor.old) result cursor.new;
          no_longer : OnOk result (length cursor.new ≤ length cursor.old);
          fits : IfOk result (λ i. i.height ≤ height);
        } }
    {
        let value = self.expr(cursor, height.saturating_sub(1))?;
        value_init(self.alloc, height, value)
    }

    /// `Init = Expr | Items`, of a height of at most `height`
    #[cycle(initialisers)]
    #[tactic(auto, unfolding(ix_grammar_rules::specs::Rule::run, ix_grammar_rules::specs::ExprRules::init_of), using(crate::proofs::LowerParts::lower_parts, crate::proofs::LowerParts::fewer_parts))]
    pub fn init(&self, cursor: &mut Cursor<'_>, height: u32) -> Result<FoundInit, Stop>
        requires { record {
          parts : ReadsParts (height + 1) (F.pre self.now.part) (F.post self.now.part);
          few : length cursor.old ≤ 200000;
        } }
        ensures { record {
          reads : Follows (run (spec.init height) cursor.old) result cursor.new;
          no_longer : OnOk result (length cursor.new ≤ length cursor.old);
          fits : IfOk result (λ i. i.height ≤ height);
        } }
    {
        if let Some(left) = cursor.sign(OPEN_BRACE) {
            if height < 1 {
                return Err(Stop::TooDeep);
            }
            cursor.advance();
            let entries = self.items_within(cursor, height - 1, left)?;
            return items_init(self.alloc, height, left, entries);
        }
        self.value_init(cursor, height)
    }

    /// `[Init {"," Init} [","]] "}"`, behind the opening brace, each of a height of at most `height`
    #[cycle(initialisers)]
    #[tactic(auto, unfolding(ix_grammar_rules::specs::Rule::run, ix_grammar_rules::specs::ExprRules::items, ix_grammar_rules::specs::ExprRules::more_inits))]
    fn items_within(
        &self,
        cursor: &mut Cursor<'_>,
        height: u32,
        left: Span,
    ) -> Result<FoundItems, Stop>
        requires { record {
          parts : ReadsParts (height + 1) (F.pre self.now.part) (F.post self.now.part);
          few : length cursor.old ≤ 200000;
        } }
        ensures { record {
          reads : Follows (run (spec.items (spec.init height) left) cursor.old) result cursor.new;
          no_longer : OnOk result (length cursor.new ≤ length cursor.old);
          fits : IfOk result (λ s. s.height ≤ height);
        } }
    {
        let mut entries = no_inits(self.alloc, left);
        'reading: loop {
            if let Some(right) = cursor.sign(CLOSE_BRACE) {
                cursor.advance();
                return Ok(closed_by(entries, right));
            }
            let next = self.init(cursor, height)?;
            entries = with_init(entries, next)?;
            let Some(_comma) = cursor.sign(COMMA) else {
                let right = cursor.take_sign(CLOSE_BRACE)?;
                return Ok(closed_by(entries, right));
            };
            cursor.advance();
        }
    }

    /// `[Init {"," Init} [","]] "}"`, behind the opening brace, within a primary that must be wrapped so often
    #[tactic(auto, using(crate::proofs::LowerParts::inner_parts, crate::proofs::LowerParts::fewer_parts))]
    pub fn items(&self, cursor: &mut Cursor<'_>, extra: u32, left: Span) -> Result<FoundItems, Stop>
        requires { record {
          parts : ReadsParts self.now.left (F.pre self.now.part) (F.post self.now.part);
          few : length cursor.old ≤ 200000;
          room : extra < self.now.left;
          once : extra ≤ 1;
        } }
        ensures { record {
          reads : Follows (run (spec.items (spec.inner_init (spec.below self.now.left) extra) left) cursor.old) result cursor.new;
          no_longer : OnOk result (length cursor.new ≤ length cursor.old);
          fits : IfOk result (λ s. s.height + extra + 1 ≤ self.now.left);
        } }
    {
        self.items_within(cursor, self.left - (extra + 1), left)
    }
}
