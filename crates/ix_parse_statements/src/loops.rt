//! `for` (JLS 14.14.1).
ghost use Rattle.std.specs.Prelude.{◌≡◌, ◌<◌, ◌≤◌, ◌+◌, ◌-◌, ◌^◌, length, OnOk, IfOk, MatchResult};
ghost use Rattle.ix_grammar_rules.specs.declared.stop.Stop.TheVariants.{Memory};
ghost use Rattle.ix_grammar.specs.ClassGrammar as block;
ghost use Rattle.ix_grammar.specs.ExprNodes as exprs;
ghost use Rattle.ix_grammar_rules.specs.ExprRules.{statement_expr as the_expr};
ghost use Rattle.ix_grammar_rules.specs.ListRules.{more_of};
ghost use Rattle.ix_grammar_rules.specs.ReadingStatements.{ReadsStatements, begun_fits};
ghost use Rattle.ix_grammar_rules.specs.Rule.{run};
ghost use Rattle.ix_grammar.specs.StmtGrammar as nodes;
ghost use Rattle.ix_grammar_rules.specs.StmtRules as spec;
ghost use Rattle.ix_grammar_rules.specs.Taking.{Follows};

use crate::plain_statements::begun;
use crate::statement_parts::Statements;
use ix_grammar::classes::Stmts;
use ix_grammar::declarations::FoundMods;
use ix_grammar::found::{Found, FoundDecls, FoundStmt, FoundType, Several};
use ix_grammar_rules::begun::Begun;
use ix_grammar_rules::stop::Stop;
use ix_lexer::fixed::{CLOSE_PAREN, COMMA, OPEN_PAREN, SEMICOLON};
use ix_parse_base::cursor::Cursor;
use ix_parse_base::nodes::{no_exprs, with_expr};
use ix_parse_base::statement_nodes::{for_stmt, local_stmt, no_stmts, run_part, with_stmt};
use ix_parse_expressions::expressions::{expr, statement_expr};
use ix_text::Span;
use std::alloc::Global;

/// `{"," SExpr}`, behind the first expression of an update
#[tactic(auto, unfolding(ix_grammar_rules::specs::Rule::run, ix_grammar_rules::specs::ListRules::next_of, ix_grammar_rules::specs::ListRules::more_of))]
fn updates(alloc: Global, cursor: &mut Cursor<'_>, left: u32, first: Found) -> Result<Several, Stop>
    requires { record {
      few : length cursor.old ≤ 200000;
      fits : first.height ≤ left;
    } }
    ensures { record {
      reads : Follows (run (more_of (the_expr left) exprs.with_expr (nodes.one_expr first)) cursor.old) result cursor.new;
      no_longer : OnOk result (length cursor.new ≤ length cursor.old);
      fits : IfOk result (λ found. found.height ≤ left);
    } }
{
    let mut found = with_expr(no_exprs(alloc), first)?;
    'reading: while let Some(_comma) = cursor.sign(COMMA) {
        cursor.advance();
        let next = statement_expr(alloc, cursor, left)?;
        found = with_expr(found, next)?;
    }
    Ok(found)
}

/// One more expression of a first part.
fn with_run(alloc: Global, found: Stmts, next: Found) -> Result<Stmts, Stop>
    requires room { next.height + 1 < 2 ^ 32 }
    ensures { MatchResult result (λ all. all ≡ nodes.with_run found next) (λ stop. stop ≡ Memory) }
{
    with_stmt(found, run_part(alloc, next)?)
}

/// `{"," SExpr}`, behind the first expression of a first part
#[tactic(auto, unfolding(ix_grammar_rules::specs::Rule::run, ix_grammar_rules::specs::ListRules::next_of, ix_grammar_rules::specs::ListRules::more_of))]
fn runs(alloc: Global, cursor: &mut Cursor<'_>, left: u32, first: Found) -> Result<Stmts, Stop>
    requires { record {
      few : length cursor.old ≤ 200000;
      fits : first.height + 2 ≤ left;
    } }
    ensures { record {
      reads : Follows (run (more_of (the_expr (left - 2)) nodes.with_run (nodes.one_run first)) cursor.old) result cursor.new;
      no_longer : OnOk result (length cursor.new ≤ length cursor.old);
      fits : IfOk result (λ found. found.height + 1 ≤ left);
    } }
{
    let mut found = with_run(alloc, no_stmts(alloc), first)?;
    'reading: while let Some(_comma) = cursor.sign(COMMA) {
        cursor.advance();
        let next = statement_expr(alloc, cursor, left - 2)?;
        found = with_run(alloc, found, next)?;
    }
    Ok(found)
}

/// Declarations of locals that are a first part.
fn local_part(
    alloc: Global,
    mods: FoundMods,
    ty: FoundType,
    found: FoundDecls,
) -> Result<Stmts, Stop>
    requires room { found.height + 1 < 2 ^ 32 }
    ensures { MatchResult result (λ made. made ≡ block.with_stmt block.no_stmts (nodes.local_stmt mods ty found found.end)) (λ stop. stop ≡ Memory) }
{
    let end = found.end;
    with_stmt(no_stmts(alloc), local_stmt(alloc, mods, ty, found, end)?)
}

/// The rest of a first part, whose statements are one lower
#[tactic(auto, unfolding(ix_grammar_rules::specs::Rule::run, ix_grammar_rules::specs::StmtRules::for_part))]
fn for_part(alloc: Global, cursor: &mut Cursor<'_>, left: u32, first: Begun) -> Result<Stmts, Stop>
    requires { record {
      few : length cursor.old ≤ 200000;
      fits : begun_fits (left - 1) first;
    } }
    ensures { record {
      reads : Follows (run (spec.for_part left first) cursor.old) result cursor.new;
      no_longer : OnOk result (length cursor.new ≤ length cursor.old);
      fits : IfOk result (λ found. found.height + 1 ≤ left);
    } }
{
    match first {
        Begun::Local(mods, ty, found) => local_part(alloc, mods, ty, found),
        Begun::Run(found) => runs(alloc, cursor, left, found),
        Begun::Print(_system) => Err(Stop::Syntax),
    }
}

impl<F: Fn(Global, &mut Cursor<'_>, u32, bool) -> Result<FoundStmt, Stop>> Statements<F> {
    /// `Stmt`, behind the head
    #[tactic(auto, unfolding(ix_grammar_rules::specs::Rule::run, ix_grammar_rules::specs::StmtRules::for_body))]
    fn for_body(
        &self,
        cursor: &mut Cursor<'_>,
        start: Span,
        first: Stmts,
        condition: Option<Found>,
        update: Several,
    ) -> Result<FoundStmt, Stop>
        requires { record {
          parts : ReadsStatements self.now.left (F.pre self.now.part) (F.post self.now.part);
          few : length cursor.old ≤ 200000;
          number : self.now.left < 2 ^ 32;
          first : first.height + 1 ≤ self.now.left;
          condition : nodes.maybe_height condition + 1 ≤ self.now.left;
          update : update.height + 1 ≤ self.now.left;
        } }
        ensures { record {
          reads : Follows (run (spec.for_body (spec.stmts_below self.now.left) start first condition update) cursor.old) result cursor.new;
          no_longer : OnOk result (length cursor.new ≤ length cursor.old);
          fits : IfOk result (λ found. found.height ≤ self.now.left);
        } }
    {
        let found = self.plain_part(cursor)?;
        for_stmt(self.alloc, start, first, condition, update, found)
    }

    /// `[SExpr {"," SExpr}] ")" Stmt`, behind the second semicolon
    #[tactic(auto, unfolding(ix_grammar_rules::specs::Rule::run, ix_grammar_rules::specs::StmtRules::for_update))]
    fn for_update(
        &self,
        cursor: &mut Cursor<'_>,
        start: Span,
        first: Stmts,
        condition: Option<Found>,
    ) -> Result<FoundStmt, Stop>
        requires { record {
          parts : ReadsStatements self.now.left (F.pre self.now.part) (F.post self.now.part);
          few : length cursor.old ≤ 200000;
          number : self.now.left < 2 ^ 32;
          first : first.height + 1 ≤ self.now.left;
          condition : nodes.maybe_height condition + 1 ≤ self.now.left;
        } }
        ensures { record {
          reads : Follows (run (spec.for_update (spec.stmts_below self.now.left) self.now.left start first condition) cursor.old) result cursor.new;
          no_longer : OnOk result (length cursor.new ≤ length cursor.old);
          fits : IfOk result (λ found. found.height ≤ self.now.left);
        } }
    {
        if let Some(_closing) = cursor.sign(CLOSE_PAREN) {
            cursor.advance();
            let update = no_exprs(self.alloc);
            return self.for_body(cursor, start, first, condition, update);
        }
        let found = statement_expr(self.alloc, cursor, self.left - 1)?;
        let update = updates(self.alloc, cursor, self.left - 1, found)?;
        cursor.take_sign(CLOSE_PAREN)?;
        self.for_body(cursor, start, first, condition, update)
    }

    /// `[Expr] ";" Update ")" Stmt`, behind the first semicolon
    #[tactic(auto, unfolding(ix_grammar_rules::specs::Rule::run, ix_grammar_rules::specs::StmtRules::for_condition))]
    fn for_condition(
        &self,
        cursor: &mut Cursor<'_>,
        start: Span,
        first: Stmts,
    ) -> Result<FoundStmt, Stop>
        requires { record {
          parts : ReadsStatements self.now.left (F.pre self.now.part) (F.post self.now.part);
          few : length cursor.old ≤ 200000;
          number : self.now.left < 2 ^ 32;
          first : first.height + 1 ≤ self.now.left;
        } }
        ensures { record {
          reads : Follows (run (spec.for_condition (spec.stmts_below self.now.left) self.now.left start first) cursor.old) result cursor.new;
          no_longer : OnOk result (length cursor.new ≤ length cursor.old);
          fits : IfOk result (λ found. found.height ≤ self.now.left);
        } }
    {
        if let Some(_end) = cursor.sign(SEMICOLON) {
            cursor.advance();
            return self.for_update(cursor, start, first, None);
        }
        let found = expr(self.alloc, cursor, self.left - 1)?;
        cursor.take_sign(SEMICOLON)?;
        self.for_update(cursor, start, first, Some(found))
    }

    /// `"(" First ";" [Expr] ";" Update ")" Stmt`, behind `for`
    #[tactic(auto, unfolding(ix_grammar_rules::specs::Rule::run, ix_grammar_rules::specs::StmtRules::for_rule))]
    pub fn for_rule(&self, cursor: &mut Cursor<'_>, start: Span) -> Result<FoundStmt, Stop>
        requires { record {
          parts : ReadsStatements self.now.left (F.pre self.now.part) (F.post self.now.part);
          few : length cursor.old ≤ 200000;
          number : self.now.left < 2 ^ 32;
          room : 2 ≤ self.now.left;
        } }
        ensures { record {
          reads : Follows (run (spec.for_rule (spec.stmts_below self.now.left) self.now.left start) cursor.old) result cursor.new;
          no_longer : OnOk result (length cursor.new ≤ length cursor.old);
          fits : IfOk result (λ found. found.height ≤ self.now.left);
        } }
    {
        cursor.take_sign(OPEN_PAREN)?;
        if let Some(_end) = cursor.sign(SEMICOLON) {
            cursor.advance();
            return self.for_condition(cursor, start, no_stmts(self.alloc));
        }
        let begun = begun(self.alloc, cursor, self.left - 1, false, true)?;
        let first = for_part(self.alloc, cursor, self.left, begun)?;
        cursor.take_sign(SEMICOLON)?;
        self.for_condition(cursor, start, first)
    }
}
