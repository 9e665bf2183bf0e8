//! The arguments of a call (JLS 15.12).
ghost use Rattle.std.specs.Prelude.{◌<◌, ◌≤◌, ◌+◌, length, OnOk, IfOk};
ghost use Rattle.ix_grammar.specs.ExprNodes as nodes;
ghost use Rattle.ix_grammar_rules.specs.ExprRules as spec;
ghost use Rattle.ix_grammar_rules.specs.Reading.{ReadsParts};
ghost use Rattle.ix_grammar_rules.specs.Rule.{run, loop};
ghost use Rattle.ix_grammar_rules.specs.Taking.{Follows};

use crate::grammar::Grammar;
use ix_grammar::found::{Args, Found, Several};
use ix_grammar_rules::aims::Part;
use ix_grammar_rules::stop::Stop;
use ix_lexer::fixed::{CLOSE_PAREN, COMMA};
use ix_parse_base::cursor::Cursor;
use ix_parse_base::nodes::{all_args, no_exprs, with_expr};
use std::alloc::Global;

impl<F: Fn(Global, &mut Cursor<'_>, u32, Part) -> Result<Found, Stop>> Grammar<F> {
    /// `{"," Expr}`, behind the first expression
    #[tactic(auto, unfolding(ix_grammar_rules::specs::Rule::run, ix_grammar_rules::specs::ExprRules::more_exprs))]
    fn more_exprs(
        &self,
        cursor: &mut Cursor<'_>,
        height: u32,
        first: Found,
    ) -> Result<Several, Stop>
        requires { record {
          parts : ReadsParts (height + 1) (F.pre self.now.part) (F.post self.now.part);
          few : length cursor.old ≤ 200000;
          first : first.height ≤ height;
        } }
        ensures { record {
          reads : Follows (run (loop (spec.more_exprs (spec.expr height)) (nodes.with_expr nodes.no_exprs first)) cursor.old) result cursor.new;
          no_longer : OnOk result (length cursor.new ≤ length cursor.old);
          fits : IfOk result (λ s. s.height ≤ height);
        } }
    {
        let mut several = with_expr(no_exprs(self.alloc), first)?;
        'reading: while let Some(_comma) = cursor.sign(COMMA) {
            cursor.advance();
            let found = self.expr(cursor, height)?;
            several = with_expr(several, found)?;
        }
        Ok(several)
    }

    /// `[Expr {"," Expr}] ")"`, behind the opening parenthesis, each of a height of at most `height`
    #[tactic(auto, unfolding(ix_grammar_rules::specs::Rule::run, ix_grammar_rules::specs::ExprRules::args))]
    pub fn args_within(&self, cursor: &mut Cursor<'_>, height: u32) -> Result<Args, Stop>
        requires { record {
          parts : ReadsParts (height + 1) (F.pre self.now.part) (F.post self.now.part);
          few : length cursor.old ≤ 200000;
        } }
        ensures { record {
          reads : Follows (run (spec.args (spec.expr height)) cursor.old) result cursor.new;
          no_longer : OnOk result (length cursor.new ≤ length cursor.old);
          fits : IfOk result (λ a. a.height ≤ height);
        } }
    {
        if let Some(right) = cursor.sign(CLOSE_PAREN) {
            cursor.advance();
            return Ok(all_args(no_exprs(self.alloc), right));
        }
        let first = self.expr(cursor, height)?;
        let several = self.more_exprs(cursor, height, first)?;
        let right = cursor.take_sign(CLOSE_PAREN)?;
        Ok(all_args(several, right))
    }

    /// `[Expr {"," Expr}] ")"`, behind the opening parenthesis, within a primary that must be wrapped so often
    #[tactic(auto, using(crate::proofs::LowerParts::inner_parts, crate::proofs::LowerParts::fewer_parts))]
    pub fn args(&self, cursor: &mut Cursor<'_>, extra: u32) -> Result<Args, Stop>
        requires { record {
          parts : ReadsParts self.now.left (F.pre self.now.part) (F.post self.now.part);
          few : length cursor.old ≤ 200000;
          room : extra < self.now.left;
          once : extra ≤ 1;
        } }
        ensures { record {
          reads : Follows (run (spec.args (spec.inner (spec.below self.now.left) extra)) cursor.old) result cursor.new;
          no_longer : OnOk result (length cursor.new ≤ length cursor.old);
          fits : IfOk result (λ a. a.height + extra + 1 ≤ self.now.left);
        } }
    {
        self.args_within(cursor, self.left - (extra + 1))
    }
}
