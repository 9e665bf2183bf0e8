//! Expressions with operators (JLS 15.14 to 15.26), and those that may stand as statements (JLS 14.8).
ghost use Rattle.std.specs.Prelude.{◌<◌, ◌≤◌, length, OnOk, IfOk};
ghost use Rattle.ix_grammar.specs.declared.found.Form.TheVariants.{Variable};
ghost use Rattle.ix_grammar.specs.ExprNodes as nodes;
ghost use Rattle.ix_grammar_rules.specs.ExprRules as spec;
ghost use Rattle.ix_grammar_rules.specs.Reading.{ReadsParts};
ghost use Rattle.ix_grammar_rules.specs.Rule.{run, bind, pure, loop};
ghost use Rattle.ix_grammar_rules.specs.Taking.{Follows};

use crate::grammar::Grammar;
use ix_grammar::found::{At, Form, Found};
use ix_grammar_rules::aims::{Aim, Part};
use ix_grammar_rules::stop::Stop;
use ix_lexer::fixed::MINUS;
use ix_num::Arith;
use ix_parse_base::cursor::Cursor;
use ix_parse_base::nodes::{assigned, joined, least_int, stepped_after, stepped_before, unary};
use ix_parse_base::operators::{assign_sign, operator, step_sign, unary_sign};
use ix_text::Span;
use ix_tree::UnaryOp;
use std::alloc::Global;

impl<F: Fn(Global, &mut Cursor<'_>, u32, Part) -> Result<Found, Stop>> Grammar<F> {
    /// A variable (JLS 15.26)
    #[tactic(auto, unfolding(ix_grammar_rules::specs::Rule::run, ix_grammar_rules::specs::ExprRules::variable_of, ix_grammar_rules::specs::ExprRules::only_variable))]
    pub fn variable(&self, cursor: &mut Cursor<'_>) -> Result<Found, Stop>
        requires { record {
          parts : ReadsParts self.now.left (F.pre self.now.part) (F.post self.now.part);
          few : length cursor.old ≤ 200000;
        } }
        ensures { record {
          reads : Follows (run (spec.variable_of (spec.below self.now.left) self.now.left) cursor.old) result cursor.new;
          no_longer : OnOk result (length cursor.new ≤ length cursor.old);
          fits : IfOk result (λ f. f.height ≤ self.now.left);
        } }
    {
        let found = self.primary(cursor, Aim::Variable)?;
        match found.form {
            Form::Variable => Ok(found),
            _ => Err(Stop::Syntax),
        }
    }

    /// `["++" | "--"]`, behind a variable
    #[tactic(auto, unfolding(ix_grammar_rules::specs::Rule::run, ix_grammar_rules::specs::ExprRules::step_behind))]
    fn step_behind(&self, cursor: &mut Cursor<'_>, target: Found) -> Result<Found, Stop>
        requires room { target.height ≤ self.now.left }
        ensures { record {
          reads : Follows (run (spec.step_behind self.now.left target Variable) cursor.old) result cursor.new;
          no_longer : OnOk result (length cursor.new ≤ length cursor.old);
          fits : IfOk result (λ f. f.height ≤ self.now.left);
        } }
    {
        let Some(step) = step_sign(cursor) else {
            return Ok(target);
        };
        if target.height >= self.left {
            return Err(Stop::TooDeep);
        }
        cursor.advance();
        stepped_after(self.alloc, self.left, step.value, target, step.span)
    }

    /// `Primary | Variable ("++" | "--")`
    #[tactic(auto, unfolding(ix_grammar_rules::specs::Rule::run, ix_grammar_rules::specs::ExprRules::value_of, ix_grammar_rules::specs::ExprRules::step_behind))]
    fn value(&self, cursor: &mut Cursor<'_>) -> Result<Found, Stop>
        requires { record {
          parts : ReadsParts self.now.left (F.pre self.now.part) (F.post self.now.part);
          few : length cursor.old ≤ 200000;
        } }
        ensures { record {
          reads : Follows (run (spec.value_of (spec.below self.now.left) self.now.left) cursor.old) result cursor.new;
          no_longer : OnOk result (length cursor.new ≤ length cursor.old);
          fits : IfOk result (λ f. f.height ≤ self.now.left);
        } }
    {
        let found = self.primary(cursor, Aim::Value)?;
        match found.form {
            Form::Variable => self.step_behind(cursor, found),
            _ => Ok(found),
        }
    }

    /// `Variable`, behind `++` or `--`
    #[tactic(auto, unfolding(ix_grammar_rules::specs::Rule::run))]
    fn stepped(&self, cursor: &mut Cursor<'_>, step: At<bool>) -> Result<Found, Stop>
        requires { record {
          parts : ReadsParts self.now.left (F.pre self.now.part) (F.post self.now.part);
          few : length cursor.old ≤ 200000;
          room : 0 < self.now.left;
        } }
        ensures { record {
          reads : Follows (run (bind (spec.below self.now.left).lower.variable (λ f. pure (nodes.stepped_before step.value step.span f))) cursor.old) result cursor.new;
          no_longer : OnOk result (length cursor.new ≤ length cursor.old);
          fits : IfOk result (λ f. f.height ≤ self.now.left);
        } }
    {
        let target = self.variable_part(cursor)?;
        stepped_before(self.alloc, self.left, step.value, step.span, target)
    }

    /// `Unary`, behind its operator
    #[tactic(auto, unfolding(ix_grammar_rules::specs::Rule::run))]
    fn signed(&self, cursor: &mut Cursor<'_>, op: UnaryOp, start: Span) -> Result<Found, Stop>
        requires { record {
          parts : ReadsParts self.now.left (F.pre self.now.part) (F.post self.now.part);
          few : length cursor.old ≤ 200000;
          room : 0 < self.now.left;
        } }
        ensures { record {
          reads : Follows (run (bind ((spec.below self.now.left).lower.level 0) (λ f. pure (nodes.unary op start f))) cursor.old) result cursor.new;
          no_longer : OnOk result (length cursor.new ≤ length cursor.old);
          fits : IfOk result (λ f. f.height ≤ self.now.left);
        } }
    {
        let operand = self.level_part(cursor, 0)?;
        unary(self.alloc, self.left, op, start, operand)
    }

    /// `Unary = "-" MinLit | ("+" | "-" | "!" | "~") Unary | ("++" | "--") Variable | Variable ("++" | "--") | Primary`
    #[tactic(auto, unfolding(ix_grammar_rules::specs::Rule::run, ix_grammar_rules::specs::ExprRules::unary_of, ix_grammar_rules::specs::ExprRules::prefixed))]
    fn unary(&self, cursor: &mut Cursor<'_>) -> Result<Found, Stop>
        requires { record {
          parts : ReadsParts self.now.left (F.pre self.now.part) (F.post self.now.part);
          few : length cursor.old ≤ 200000;
        } }
        ensures { record {
          reads : Follows (run (spec.unary_of (spec.below self.now.left) self.now.left) cursor.old) result cursor.new;
          no_longer : OnOk result (length cursor.new ≤ length cursor.old);
          fits : IfOk result (λ f. f.height ≤ self.now.left);
        } }
    {
        if let Some(minus) = cursor.sign(MINUS) {
            if self.left < 1 {
                return Err(Stop::TooDeep);
            }
            cursor.advance();
            if let Some(literal) = cursor.least() {
                cursor.advance();
                return least_int(self.alloc, minus, literal);
            }
            return self.signed(cursor, UnaryOp::Minus, minus);
        }
        if let Some(op) = unary_sign(cursor) {
            if self.left < 2 {
                return Err(Stop::TooDeep);
            }
            cursor.advance();
            return self.signed(cursor, op.value, op.span);
        }
        if let Some(step) = step_sign(cursor) {
            if self.left < 3 {
                return Err(Stop::TooDeep);
            }
            cursor.advance();
            return self.stepped(cursor, step);
        }
        self.value(cursor)
    }

    /// `{Operator Operand}`, with the operators of a level, behind the first operand
    #[tactic(auto, unfolding(ix_grammar_rules::specs::Rule::run, ix_grammar_rules::specs::ExprRules::operand))]
    fn operands(&self, cursor: &mut Cursor<'_>, level: u32, first: Found) -> Result<Found, Stop>
        requires { record {
          parts : ReadsParts self.now.left (F.pre self.now.part) (F.post self.now.part);
          few : length cursor.old ≤ 200000;
          room : first.height ≤ self.now.left;
        } }
        ensures { record {
          reads : Follows (run (loop (spec.operand (spec.below self.now.left) self.now.left level) first) cursor.old) result cursor.new;
          no_longer : OnOk result (length cursor.new ≤ length cursor.old);
          fits : IfOk result (λ f. f.height ≤ self.now.left);
        } }
    {
        let mut found = first;
        'reading: while let Some(op) = operator(cursor, level) {
            if found.height >= self.left {
                return Err(Stop::TooDeep);
            }
            cursor.advance();
            let second = self.level_part(cursor, level)?;
            found = joined(self.alloc, self.left, op.value, found, second)?;
        }
        Ok(found)
    }

    /// An expression with operators with two operands of the first levels, so many
    #[tactic(auto, unfolding(ix_grammar_rules::specs::Rule::run, ix_grammar_rules::specs::ExprRules::level_of), using(crate::proofs::LowerParts::next_level))]
    pub fn level(&self, cursor: &mut Cursor<'_>, levels: u32) -> Result<Found, Stop>
        requires { record {
          parts : ReadsParts self.now.left (F.pre self.now.part) (F.post self.now.part);
          few : length cursor.old ≤ 200000;
        } }
        ensures { record {
          reads : Follows (run (spec.level_of (spec.below self.now.left) self.now.left levels) cursor.old) result cursor.new;
          no_longer : OnOk result (length cursor.new ≤ length cursor.old);
          fits : IfOk result (λ f. f.height ≤ self.now.left);
        } }
    {
        if levels == 0 {
            return self.unary(cursor);
        }
        let first = self.level(cursor, levels - 1)?;
        self.operands(cursor, levels - 1, first)
    }

    /// `Expr`, behind a variable and an assignment operator
    #[tactic(auto, unfolding(ix_grammar_rules::specs::Rule::run))]
    fn assigned(
        &self,
        cursor: &mut Cursor<'_>,
        op: Option<Arith>,
        target: Found,
    ) -> Result<Found, Stop>
        requires { record {
          parts : ReadsParts self.now.left (F.pre self.now.part) (F.post self.now.part);
          few : length cursor.old ≤ 200000;
          room : target.height < self.now.left;
        } }
        ensures { record {
          reads : Follows (run (bind (spec.below self.now.left).lower.whole (λ g. pure (nodes.assigned op target g))) cursor.old) result cursor.new;
          no_longer : OnOk result (length cursor.new ≤ length cursor.old);
          fits : IfOk result (λ f. f.height ≤ self.now.left);
        } }
    {
        let value = self.whole_part(cursor)?;
        assigned(self.alloc, self.left, op, target, value)
    }

    /// `[AssignOp Expr]`, behind a variable
    #[tactic(auto, unfolding(ix_grammar_rules::specs::Rule::run, ix_grammar_rules::specs::ExprRules::maybe_assigned, ix_grammar_rules::specs::ExprRules::assignment))]
    fn assignment(&self, cursor: &mut Cursor<'_>, target: Found) -> Result<Found, Stop>
        requires { record {
          parts : ReadsParts self.now.left (F.pre self.now.part) (F.post self.now.part);
          few : length cursor.old ≤ 200000;
          room : target.height ≤ self.now.left;
        } }
        ensures { record {
          reads : Follows (run (spec.maybe_assigned (spec.below self.now.left) self.now.left target Variable) cursor.old) result cursor.new;
          no_longer : OnOk result (length cursor.new ≤ length cursor.old);
          fits : IfOk result (λ f. f.height ≤ self.now.left);
        } }
    {
        let Some(op) = assign_sign(cursor) else {
            return Ok(target);
        };
        if target.height >= self.left {
            return Err(Stop::TooDeep);
        }
        cursor.advance();
        self.assigned(cursor, op.value, target)
    }

    /// `Expr = Binary | Variable AssignOp Expr`
    #[tactic(auto, unfolding(ix_grammar_rules::specs::Rule::run, ix_grammar_rules::specs::ExprRules::whole_of, ix_grammar_rules::specs::ExprRules::maybe_assigned))]
    pub fn whole(&self, cursor: &mut Cursor<'_>) -> Result<Found, Stop>
        requires { record {
          parts : ReadsParts self.now.left (F.pre self.now.part) (F.post self.now.part);
          few : length cursor.old ≤ 200000;
        } }
        ensures { record {
          reads : Follows (run (spec.whole_of (spec.below self.now.left) self.now.left) cursor.old) result cursor.new;
          no_longer : OnOk result (length cursor.new ≤ length cursor.old);
          fits : IfOk result (λ f. f.height ≤ self.now.left);
        } }
    {
        let found = self.level(cursor, 10)?;
        match found.form {
            Form::Variable => self.assignment(cursor, found),
            _ => Ok(found),
        }
    }

    /// `AssignOp Expr | "++" | "--"`, behind a variable
    #[tactic(auto, unfolding(ix_grammar_rules::specs::Rule::run, ix_grammar_rules::specs::ExprRules::to_statement, ix_grammar_rules::specs::ExprRules::assignment))]
    fn changed(&self, cursor: &mut Cursor<'_>, target: Found) -> Result<Found, Stop>
        requires { record {
          parts : ReadsParts self.now.left (F.pre self.now.part) (F.post self.now.part);
          few : length cursor.old ≤ 200000;
          room : target.height ≤ self.now.left;
        } }
        ensures { record {
          reads : Follows (run (spec.to_statement (spec.below self.now.left) self.now.left target Variable) cursor.old) result cursor.new;
          no_longer : OnOk result (length cursor.new ≤ length cursor.old);
          fits : IfOk result (λ f. f.height ≤ self.now.left);
        } }
    {
        if let Some(op) = assign_sign(cursor) {
            if target.height >= self.left {
                return Err(Stop::TooDeep);
            }
            cursor.advance();
            return self.assigned(cursor, op.value, target);
        }
        let Some(step) = step_sign(cursor) else {
            return Err(Stop::Syntax);
        };
        if target.height >= self.left {
            return Err(Stop::TooDeep);
        }
        cursor.advance();
        stepped_after(self.alloc, self.left, step.value, target, step.span)
    }

    /// Behind a primary: the rest of an expression that may stand as a statement
    #[tactic(auto, unfolding(ix_grammar_rules::specs::Rule::run, ix_grammar_rules::specs::ExprRules::to_statement))]
    pub fn to_statement(&self, cursor: &mut Cursor<'_>, first: Found) -> Result<Found, Stop>
        requires { record {
          parts : ReadsParts self.now.left (F.pre self.now.part) (F.post self.now.part);
          few : length cursor.old ≤ 200000;
          room : first.height ≤ self.now.left;
        } }
        ensures { record {
          reads : Follows (run (spec.to_statement (spec.below self.now.left) self.now.left first first.form) cursor.old) result cursor.new;
          no_longer : OnOk result (length cursor.new ≤ length cursor.old);
          fits : IfOk result (λ f. f.height ≤ self.now.left);
        } }
    {
        match first.form {
            Form::Variable => self.changed(cursor, first),
            Form::Statement => Ok(first),
            _ => Err(Stop::Syntax),
        }
    }

    /// An expression that may stand as a statement
    #[tactic(auto, unfolding(ix_grammar_rules::specs::Rule::run, ix_grammar_rules::specs::ExprRules::statement_of, ix_grammar_rules::specs::ExprRules::prefixed))]
    pub fn statement(&self, cursor: &mut Cursor<'_>) -> Result<Found, Stop>
        requires { record {
          parts : ReadsParts self.now.left (F.pre self.now.part) (F.post self.now.part);
          few : length cursor.old ≤ 200000;
        } }
        ensures { record {
          reads : Follows (run (spec.statement_of (spec.below self.now.left) self.now.left) cursor.old) result cursor.new;
          no_longer : OnOk result (length cursor.new ≤ length cursor.old);
          fits : IfOk result (λ f. f.height ≤ self.now.left);
        } }
    {
        if let Some(step) = step_sign(cursor) {
            if self.left < 3 {
                return Err(Stop::TooDeep);
            }
            cursor.advance();
            return self.stepped(cursor, step);
        }
        let first = self.primary(cursor, Aim::Statement)?;
        self.to_statement(cursor, first)
    }
}
