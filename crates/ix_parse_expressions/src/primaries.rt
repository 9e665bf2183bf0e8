//! Primaries (JLS 15.8 to 15.12).
ghost use Rattle.std.specs.Prelude.{◌≡◌, ◌<◌, ◌≤◌, ◌+◌, if◌then◌else◌, nat_le, ℕ, true, Some, Ok, Err, length, OnOk, IfOk, MatchOption};
ghost use Rattle.ix_grammar.specs.declared.found.Form.TheVariants.{Value};
ghost use Rattle.ix_lexer.specs.declared.fixed.TheConstants.{OPEN_BRACKET};
ghost use Rattle.ix_grammar_rules.specs.ExprRules as spec;
ghost use Rattle.ix_grammar.specs.Patterns.{a_name, a_sign};
ghost use Rattle.ix_grammar_rules.specs.Reading.{GoesOn, ReadsParts};
ghost use Rattle.ix_grammar_rules.specs.Rule.{run, look, rest, take, loop, stop};
ghost use Rattle.ix_grammar_rules.specs.declared.aims.Aim.{Aim};
ghost use Rattle.ix_grammar_rules.specs.declared.stop.Stop.TheVariants.{Syntax, TooDeep};
ghost use Rattle.ix_grammar.specs.ExprNodes as nodes;
ghost use Rattle.ix_grammar_rules.specs.Taking.{Follows};

use crate::grammar::{Grammar, extra, makes_array};
use ix_grammar::found::{At, Form, Found};
use ix_grammar_rules::aims::{Aim, Part};
use ix_grammar_rules::stop::Stop;
use ix_lexer::fixed::{
    CLOSE_BRACKET, CLOSE_PAREN, DOT, FALSE, NEW, NULL, OPEN_BRACKET, OPEN_PAREN, THIS, TRUE,
};
use ix_parse_base::cursor::Cursor;
use ix_parse_base::nodes::{called, called_on, element, leaf, named, selected, within};
use ix_text::Span;
use ix_tree::{ExprKind, Ident};
use std::alloc::Global;

/// The word that comes next, where it is an expression.
#[tactic(auto, unfolding(ix_grammar_rules::specs::Rule::run, ix_grammar_rules::specs::ExprRules::word))]
fn word_kind(cursor: &Cursor<'_>) -> Option<At<ExprKind>>
    ensures { (aim : Aim) (left : ℕ) → MatchOption result (run (spec.word aim left stop) cursor.now ≡ Err (Syntax, cursor.now)) (λ found. run (spec.word aim left stop) cursor.now ≡ (if nat_le (spec.extra aim Value + 1) left then Ok (nodes.leaf found.value found.span, rest cursor.now) else Err (TooDeep, cursor.now))) }
{
    if let Some(span) = cursor.sign(TRUE) {
        let value = ExprKind::Bool(true);
        return Some(At { value, span });
    }
    if let Some(span) = cursor.sign(FALSE) {
        let value = ExprKind::Bool(false);
        return Some(At { value, span });
    }
    if let Some(span) = cursor.sign(NULL) {
        let value = ExprKind::Null;
        return Some(At { value, span });
    }
    let span = cursor.sign(THIS)?;
    let value = ExprKind::This;
    Some(At { value, span })
}

impl<F: Fn(Global, &mut Cursor<'_>, u32, Part) -> Result<Found, Stop>> Grammar<F> {
    /// Behind a name: a variable or a call
    #[tactic(auto, unfolding(ix_grammar_rules::specs::Rule::run, ix_grammar_rules::specs::ExprRules::name_or_call))]
    pub fn name_or_call(
        &self,
        cursor: &mut Cursor<'_>,
        aim: Aim,
        name: Ident,
    ) -> Result<Found, Stop>
        requires { record {
          parts : ReadsParts self.now.left (F.pre self.now.part) (F.post self.now.part);
          few : length cursor.old ≤ 200000;
          room : 2 ≤ self.now.left;
        } }
        ensures { record {
          reads : Follows (run (spec.name_or_call (spec.below self.now.left) aim self.now.left name) cursor.old) result cursor.new;
          no_longer : OnOk result (length cursor.new ≤ length cursor.old);
          fits : IfOk result (λ f. f.height ≤ self.now.left);
          some : IfOk result (λ f. 0 < f.height);
        } }
    {
        if let Some(_opening) = cursor.sign(OPEN_PAREN) {
            let extra = extra(aim, Form::Statement);
            if self.left < extra + 2 {
                return Err(Stop::TooDeep);
            }
            cursor.advance();
            let args = self.args(cursor, extra)?;
            return called(self.alloc, self.left, name, args);
        }
        named(self.alloc, name)
    }

    /// `Expr ")"`, behind the opening parenthesis
    #[tactic(auto, unfolding(ix_grammar_rules::specs::Rule::run, ix_grammar_rules::specs::ExprRules::enclosed))]
    fn enclosed(&self, cursor: &mut Cursor<'_>, aim: Aim, left: Span) -> Result<Found, Stop>
        requires { record {
          parts : ReadsParts self.now.left (F.pre self.now.part) (F.post self.now.part);
          few : length cursor.old ≤ 200000;
          room : spec.extra aim Value + 2 ≤ self.now.left;
        } }
        ensures { record {
          reads : Follows (run (spec.enclosed (spec.below self.now.left) aim left) cursor.old) result cursor.new;
          no_longer : OnOk result (length cursor.new ≤ length cursor.old);
          fits : IfOk result (λ f. f.height ≤ self.now.left);
          some : IfOk result (λ f. 0 < f.height);
        } }
    {
        let inside = self.inner(cursor, extra(aim, Form::Value))?;
        let right = cursor.take_sign(CLOSE_PAREN)?;
        Ok(within(self.left, left, right, inside))
    }

    /// `"true" | "false" | "null" | "this"`
    #[tactic(auto, unfolding(ix_grammar_rules::specs::Rule::run))]
    fn word(&self, cursor: &mut Cursor<'_>, aim: Aim) -> Result<Found, Stop>
        ensures { record {
          reads : Follows (run (spec.word aim self.now.left stop) cursor.old) result cursor.new;
          no_longer : OnOk result (length cursor.new ≤ length cursor.old);
          fits : IfOk result (λ f. f.height ≤ self.now.left);
          some : IfOk result (λ f. 0 < f.height);
        } }
    {
        let Some(found) = word_kind(cursor) else {
            return Err(Stop::Syntax);
        };
        if self.left < extra(aim, Form::Value) + 1 {
            return Err(Stop::TooDeep);
        }
        cursor.advance();
        leaf(self.alloc, found.value, found.span)
    }

    /// The first part of a primary: `IntLit | Ident | Ident Args | "(" Expr ")" | "new" Creation`, or a word
    #[tactic(auto, unfolding(ix_grammar_rules::specs::Rule::run, ix_grammar_rules::specs::ExprRules::first_part))]
    fn first_part(&self, cursor: &mut Cursor<'_>, aim: Aim) -> Result<Found, Stop>
        requires { record {
          parts : ReadsParts self.now.left (F.pre self.now.part) (F.post self.now.part);
          few : length cursor.old ≤ 200000;
        } }
        ensures { record {
          reads : Follows (run (spec.first_part (spec.below self.now.left) aim self.now.left) cursor.old) result cursor.new;
          no_longer : OnOk result (length cursor.new ≤ length cursor.old);
          fits : IfOk result (λ f. f.height ≤ self.now.left);
          some : IfOk result (λ f. 0 < f.height);
        } }
    {
        if let Some(number) = cursor.number() {
            if self.left < extra(aim, Form::Value) + 1 {
                return Err(Stop::TooDeep);
            }
            cursor.advance();
            return leaf(self.alloc, ExprKind::Int(number.value), number.span);
        }
        if let Some(name) = cursor.name(self.alloc)? {
            if self.left < 2 {
                return Err(Stop::TooDeep);
            }
            cursor.advance();
            return self.name_or_call(cursor, aim, name);
        }
        if let Some(left) = cursor.sign(OPEN_PAREN) {
            if self.left < extra(aim, Form::Value) + 2 {
                return Err(Stop::TooDeep);
            }
            cursor.advance();
            return self.enclosed(cursor, aim, left);
        }
        if let Some(start) = cursor.sign(NEW) {
            if self.left < extra(aim, Form::Statement) + 2 {
                return Err(Stop::TooDeep);
            }
            cursor.advance();
            return self.creation(cursor, aim, start);
        }
        self.word(cursor, aim)
    }

    /// Behind a primary, a dot and a name: a field or a call
    #[tactic(auto, unfolding(ix_grammar_rules::specs::Rule::run, ix_grammar_rules::specs::ExprRules::field_or_call))]
    pub fn field_or_call(
        &self,
        cursor: &mut Cursor<'_>,
        aim: Aim,
        object: Found,
        name: Ident,
    ) -> Result<Found, Stop>
        requires { record {
          parts : ReadsParts self.now.left (F.pre self.now.part) (F.post self.now.part);
          few : length cursor.old ≤ 200000;
          some : 0 < object.height;
          room : object.height < self.now.left;
        } }
        ensures { record {
          reads : GoesOn {B = Found} (run (spec.field_or_call (spec.below self.now.left) aim self.now.left object name) cursor.old) result cursor.new;
          no_longer : OnOk result (length cursor.new ≤ length cursor.old);
          fits : IfOk result (λ f. f.height ≤ self.now.left);
          some : IfOk result (λ f. 0 < f.height);
        } }
    {
        if let Some(_opening) = cursor.sign(OPEN_PAREN) {
            let extra = extra(aim, Form::Statement);
            if self.left - object.height <= extra {
                return Err(Stop::TooDeep);
            }
            cursor.advance();
            let args = self.args(cursor, extra)?;
            return called_on(self.alloc, self.left, object, name, args);
        }
        selected(self.alloc, self.left, object, name)
    }

    /// `Ident [Args]`, behind the dot
    #[tactic(auto, unfolding(ix_grammar_rules::specs::Rule::run))]
    fn behind_dot(&self, cursor: &mut Cursor<'_>, aim: Aim, object: Found) -> Result<Found, Stop>
        requires { record {
          parts : ReadsParts self.now.left (F.pre self.now.part) (F.post self.now.part);
          few : length cursor.old ≤ 200000;
          some : 0 < object.height;
          room : object.height < self.now.left;
        } }
        ensures { record {
          reads : GoesOn {B = Found} (run (take a_name true (spec.field_or_call (spec.below self.now.left) aim self.now.left object) stop) cursor.old) result cursor.new;
          no_longer : OnOk result (length cursor.new ≤ length cursor.old);
          fits : IfOk result (λ f. f.height ≤ self.now.left);
          some : IfOk result (λ f. 0 < f.height);
        } }
    {
        let name = cursor.take_name(self.alloc)?;
        self.field_or_call(cursor, aim, object, name)
    }

    /// `"[" Expr "]"`, at the opening bracket
    #[tactic(auto, unfolding(ix_grammar_rules::specs::Rule::run, ix_grammar_rules::specs::ExprRules::index))]
    fn index(
        &self,
        cursor: &mut Cursor<'_>,
        aim: Aim,
        array: Found,
        _opening: Span,
    ) -> Result<Found, Stop>
        requires { record {
          parts : ReadsParts self.now.left (F.pre self.now.part) (F.post self.now.part);
          few : length cursor.old ≤ 200000;
          next : look (a_sign OPEN_BRACKET) cursor.old ≡ Some _opening;
          there : 0 < length cursor.old;
          some : 0 < array.height;
          room : array.height ≤ self.now.left;
        } }
        ensures { record {
          reads : GoesOn {B = Found} (run (spec.index (spec.below self.now.left) aim self.now.left array) cursor.old) result cursor.new;
          shorter : OnOk result (length cursor.new < length cursor.old);
          fits : IfOk result (λ f. f.height ≤ self.now.left);
          some : IfOk result (λ f. 0 < f.height);
        } }
    {
        let extra = extra(aim, Form::Variable);
        if self.left - array.height <= extra {
            return Err(Stop::TooDeep);
        }
        cursor.advance();
        let index = self.inner(cursor, extra)?;
        let right = cursor.take_sign(CLOSE_BRACKET)?;
        element(self.alloc, self.left, array, index, right)
    }

    /// `{"." Ident [Args] | "[" Expr "]"}`, behind the first part of a primary
    #[tactic(auto, unfolding(ix_grammar_rules::specs::Rule::run, ix_grammar_rules::specs::ExprRules::further, ix_grammar_rules::specs::ExprRules::index_unless, ix_grammar_rules::specs::ExprRules::index))]
    pub fn chain(&self, cursor: &mut Cursor<'_>, aim: Aim, first: Found) -> Result<Found, Stop>
        requires { record {
          parts : ReadsParts self.now.left (F.pre self.now.part) (F.post self.now.part);
          few : length cursor.old ≤ 200000;
          some : 0 < first.height;
          room : first.height ≤ self.now.left;
        } }
        ensures reads { Follows (run (loop (spec.further (spec.below self.now.left) aim self.now.left) first) cursor.old) result cursor.new }
        ensures no_longer { OnOk result (length cursor.new ≤ length cursor.old) }
        ensures fits { IfOk result (λ f. f.height ≤ self.now.left) }
        ensures some { IfOk result (λ f. 0 < f.height) }
    {
        let mut found = first;
        'reading: loop {
            if let Some(_dot) = cursor.sign(DOT) {
                if found.height >= self.left {
                    return Err(Stop::TooDeep);
                }
                cursor.advance();
                found = self.behind_dot(cursor, aim, found)?;
                continue 'reading;
            }
            if makes_array(found.form) {
                return Ok(found);
            }
            let Some(opening) = cursor.sign(OPEN_BRACKET) else {
                return Ok(found);
            };
            found = self.index(cursor, aim, found, opening)?;
        }
    }

    /// An expression without operators, or with parentheses round it
    #[tactic(auto, unfolding(ix_grammar_rules::specs::Rule::run, ix_grammar_rules::specs::ExprRules::primary_of))]
    pub fn primary(&self, cursor: &mut Cursor<'_>, aim: Aim) -> Result<Found, Stop>
        requires { record {
          parts : ReadsParts self.now.left (F.pre self.now.part) (F.post self.now.part);
          few : length cursor.old ≤ 200000;
        } }
        ensures { record {
          reads : Follows (run (spec.primary_of (spec.below self.now.left) aim self.now.left) cursor.old) result cursor.new;
          no_longer : OnOk result (length cursor.new ≤ length cursor.old);
          fits : IfOk result (λ f. f.height ≤ self.now.left);
          some : IfOk result (λ f. 0 < f.height);
        } }
    {
        let first = self.first_part(cursor, aim)?;
        self.chain(cursor, aim, first)
    }
}
