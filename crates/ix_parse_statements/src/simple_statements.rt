//! Statements with a word or a sign of their own that have no head of their own (JLS 14.2, 14.9, 14.12, 14.13, 14.15 to 14.18).
ghost use Rattle.std.specs.Prelude.{◌<◌, ◌≤◌, ◌+◌, ◌^◌, true, length, OnOk, IfOk};
ghost use Rattle.ix_tree.specs.declared.stmt.StmtKind.TheVariants as kinds;
ghost use Rattle.ix_grammar.specs.ClassGrammar.{no_stmts as none, with_stmt as one_more};
ghost use Rattle.ix_grammar_rules.specs.ListRules.{braces_of};
ghost use Rattle.ix_grammar_rules.specs.ReadingStatements.{ReadsStatements};
ghost use Rattle.ix_grammar.specs.Nodes.{across as the_span};
ghost use Rattle.ix_grammar.specs.Patterns.{a_sign};
ghost use Rattle.ix_grammar_rules.specs.Rule.{run, take, pure, stop};
ghost use Rattle.ix_grammar.specs.StmtGrammar as nodes;
ghost use Rattle.ix_grammar_rules.specs.StmtRules as spec;
ghost use Rattle.ix_grammar_rules.specs.Taking.{Follows};

use crate::statement_parts::Statements;
use ix_grammar::classes::Stmts;
use ix_grammar::found::{At, Found, FoundStmt};
use ix_grammar::spans::across;
use ix_grammar_rules::stop::Stop;
use ix_lexer::fixed::{CLOSE_BRACE, CLOSE_PAREN, ELSE, NEW, OPEN_PAREN, SEMICOLON, WHILE};
use ix_parse_base::cursor::Cursor;
use ix_parse_base::statement_nodes::{
    block_stmt, do_stmt, if_else_stmt, if_stmt, no_stmts, return_stmt, stmt_node, throw_stmt,
    while_stmt, with_stmt,
};
use ix_parse_expressions::expressions::expr;
use ix_text::Span;
use ix_tree::{Ident, StmtKind};
use std::alloc::Global;

/// `"(" Expr ")"`
#[tactic(auto, unfolding(ix_grammar_rules::specs::Rule::run, ix_grammar_rules::specs::StmtRules::condition))]
fn condition(alloc: Global, cursor: &mut Cursor<'_>, left: u32) -> Result<Found, Stop>
    requires { record {
      few : length cursor.old ≤ 200000;
      room : 0 < left;
    } }
    ensures { record {
      reads : Follows (run (spec.condition left) cursor.old) result cursor.new;
      no_longer : OnOk result (length cursor.new ≤ length cursor.old);
      fits : IfOk result (λ f. f.height + 1 ≤ left);
    } }
{
    cursor.take_sign(OPEN_PAREN)?;
    let found = expr(alloc, cursor, left - 1)?;
    cursor.take_sign(CLOSE_PAREN)?;
    Ok(found)
}

/// `";"`, behind `break`
#[tactic(auto, unfolding(ix_grammar_rules::specs::Rule::run))]
pub fn break_rule(alloc: Global, cursor: &mut Cursor<'_>, start: Span) -> Result<FoundStmt, Stop>
    ensures { record {
      reads : Follows (run (take (a_sign SEMICOLON) true (λ end. pure (nodes.stmt_node kinds.Break 0 (the_span start end))) stop) cursor.old) result cursor.new;
      no_longer : OnOk result (length cursor.new ≤ length cursor.old);
      fits : IfOk result (λ found. found.height ≤ 1);
    } }
{
    let end = cursor.take_sign(SEMICOLON)?;
    stmt_node(alloc, StmtKind::Break, 0, across(start, end))
}

/// `";"`, behind `continue`
#[tactic(auto, unfolding(ix_grammar_rules::specs::Rule::run))]
pub fn continue_rule(alloc: Global, cursor: &mut Cursor<'_>, start: Span) -> Result<FoundStmt, Stop>
    ensures { record {
      reads : Follows (run (take (a_sign SEMICOLON) true (λ end. pure (nodes.stmt_node kinds.Continue 0 (the_span start end))) stop) cursor.old) result cursor.new;
      no_longer : OnOk result (length cursor.new ≤ length cursor.old);
      fits : IfOk result (λ found. found.height ≤ 1);
    } }
{
    let end = cursor.take_sign(SEMICOLON)?;
    stmt_node(alloc, StmtKind::Continue, 0, across(start, end))
}

/// `[Expr] ";"`, behind `return`
#[tactic(auto, unfolding(ix_grammar_rules::specs::Rule::run, ix_grammar_rules::specs::StmtRules::return_rule))]
pub fn return_rule(
    alloc: Global,
    cursor: &mut Cursor<'_>,
    left: u32,
    start: Span,
) -> Result<FoundStmt, Stop>
    requires { record {
      few : length cursor.old ≤ 200000;
      room : 0 < left;
    } }
    ensures { record {
      reads : Follows (run (spec.return_rule left start) cursor.old) result cursor.new;
      no_longer : OnOk result (length cursor.new ≤ length cursor.old);
      fits : IfOk result (λ found. found.height ≤ left);
    } }
{
    if let Some(end) = cursor.sign(SEMICOLON) {
        cursor.advance();
        return return_stmt(alloc, start, None, end);
    }
    let found = expr(alloc, cursor, left - 1)?;
    let end = cursor.take_sign(SEMICOLON)?;
    return_stmt(alloc, start, Some(found), end)
}

/// `")" ";"`, behind the reason
#[tactic(auto, unfolding(ix_grammar_rules::specs::Rule::run, ix_grammar_rules::specs::StmtRules::throw_end))]
fn throw_end(
    alloc: Global,
    cursor: &mut Cursor<'_>,
    start: Span,
    name: Ident,
) -> Result<FoundStmt, Stop>
    ensures { record {
      reads : Follows (run (spec.throw_end start name) cursor.old) result cursor.new;
      no_longer : OnOk result (length cursor.new ≤ length cursor.old);
      fits : IfOk result (λ found. found.height ≤ 2);
    } }
{
    cursor.take_sign(CLOSE_PAREN)?;
    let end = cursor.take_sign(SEMICOLON)?;
    throw_stmt(alloc, start, name, end)
}

/// `"new" Ident "(" [String] ")" ";"`, behind `throw`
#[tactic(auto, unfolding(ix_grammar_rules::specs::Rule::run, ix_grammar_rules::specs::StmtRules::throw_rule))]
pub fn throw_rule(alloc: Global, cursor: &mut Cursor<'_>, start: Span) -> Result<FoundStmt, Stop>
    ensures { record {
      reads : Follows (run (spec.throw_rule start) cursor.old) result cursor.new;
      no_longer : OnOk result (length cursor.new ≤ length cursor.old);
      fits : IfOk result (λ found. found.height ≤ 2);
    } }
{
    cursor.take_sign(NEW)?;
    let name = cursor.take_name(alloc)?;
    cursor.take_sign(OPEN_PAREN)?;
    if let Some(_reason) = cursor.text(alloc)? {
        cursor.advance();
    }
    throw_end(alloc, cursor, start, name)
}

impl<F: Fn(Global, &mut Cursor<'_>, u32, bool) -> Result<FoundStmt, Stop>> Statements<F> {
    /// `{BStmt} "}"`, behind the opening brace
    #[tactic(auto, unfolding(ix_grammar_rules::specs::Rule::run, ix_grammar_rules::specs::ListRules::braces_of, ix_grammar_rules::specs::ListRules::next_inside))]
    fn statements(&self, cursor: &mut Cursor<'_>) -> Result<At<Stmts>, Stop>
        requires { record {
          parts : ReadsStatements self.now.left (F.pre self.now.part) (F.post self.now.part);
          few : length cursor.old ≤ 200000;
          room : 0 < self.now.left;
        } }
        ensures { record {
          reads : Follows (run (braces_of (spec.stmts_below self.now.left).block one_more none) cursor.old) result cursor.new;
          no_longer : OnOk result (length cursor.new ≤ length cursor.old);
          fits : IfOk result (λ found. found.value.height + 1 ≤ self.now.left);
        } }
    {
        let mut found = no_stmts(self.alloc);
        'reading: loop {
            if let Some(right) = cursor.sign(CLOSE_BRACE) {
                cursor.advance();
                return Ok(At {
                    value: found,
                    span: right,
                });
            }
            found = with_stmt(found, self.block_part(cursor)?)?;
        }
    }

    /// `{BStmt} "}"`, behind the opening brace
    #[tactic(auto, unfolding(ix_grammar_rules::specs::Rule::run, ix_grammar_rules::specs::StmtRules::block_rule))]
    pub fn block_rule(&self, cursor: &mut Cursor<'_>, left: Span) -> Result<FoundStmt, Stop>
        requires { record {
          parts : ReadsStatements self.now.left (F.pre self.now.part) (F.post self.now.part);
          few : length cursor.old ≤ 200000;
          number : self.now.left < 2 ^ 32;
          room : 0 < self.now.left;
        } }
        ensures { record {
          reads : Follows (run (spec.block_rule (spec.stmts_below self.now.left) left) cursor.old) result cursor.new;
          no_longer : OnOk result (length cursor.new ≤ length cursor.old);
          fits : IfOk result (λ found. found.height ≤ self.now.left);
        } }
    {
        let found = self.statements(cursor)?;
        block_stmt(self.alloc, left, found.value, found.span)
    }

    /// `["else" Stmt]`, behind the inner statement, so that it belongs to the nearest `if`
    #[tactic(auto, unfolding(ix_grammar_rules::specs::Rule::run, ix_grammar_rules::specs::StmtRules::else_part))]
    fn else_part(
        &self,
        cursor: &mut Cursor<'_>,
        start: Span,
        condition: Found,
        found: FoundStmt,
    ) -> Result<FoundStmt, Stop>
        requires { record {
          parts : ReadsStatements self.now.left (F.pre self.now.part) (F.post self.now.part);
          few : length cursor.old ≤ 200000;
          number : self.now.left < 2 ^ 32;
          condition : condition.height + 1 ≤ self.now.left;
          found : found.height + 1 ≤ self.now.left;
        } }
        ensures { record {
          reads : Follows (run (spec.else_part (spec.stmts_below self.now.left) start condition found) cursor.old) result cursor.new;
          no_longer : OnOk result (length cursor.new ≤ length cursor.old);
          fits : IfOk result (λ found. found.height ≤ self.now.left);
        } }
    {
        if let Some(_else) = cursor.sign(ELSE) {
            cursor.advance();
            let other = self.plain_part(cursor)?;
            return if_else_stmt(self.alloc, start, condition, found, other);
        }
        if_stmt(self.alloc, start, condition, found)
    }

    /// `"(" Expr ")" Stmt ["else" Stmt]`, behind `if`
    #[tactic(auto, unfolding(ix_grammar_rules::specs::Rule::run, ix_grammar_rules::specs::StmtRules::if_rule))]
    pub fn if_rule(&self, cursor: &mut Cursor<'_>, start: Span) -> Result<FoundStmt, Stop>
        requires { record {
          parts : ReadsStatements self.now.left (F.pre self.now.part) (F.post self.now.part);
          few : length cursor.old ≤ 200000;
          room : 0 < self.now.left;
        } }
        ensures { record {
          reads : Follows (run (spec.if_rule (spec.stmts_below self.now.left) self.now.left start) cursor.old) result cursor.new;
          no_longer : OnOk result (length cursor.new ≤ length cursor.old);
          fits : IfOk result (λ found. found.height ≤ self.now.left);
        } }
    {
        let condition = condition(self.alloc, cursor, self.left)?;
        let found = self.plain_part(cursor)?;
        self.else_part(cursor, start, condition, found)
    }

    /// `"(" Expr ")" Stmt`, behind `while`
    #[tactic(auto, unfolding(ix_grammar_rules::specs::Rule::run, ix_grammar_rules::specs::StmtRules::while_rule))]
    pub fn while_rule(&self, cursor: &mut Cursor<'_>, start: Span) -> Result<FoundStmt, Stop>
        requires { record {
          parts : ReadsStatements self.now.left (F.pre self.now.part) (F.post self.now.part);
          few : length cursor.old ≤ 200000;
          room : 0 < self.now.left;
        } }
        ensures { record {
          reads : Follows (run (spec.while_rule (spec.stmts_below self.now.left) self.now.left start) cursor.old) result cursor.new;
          no_longer : OnOk result (length cursor.new ≤ length cursor.old);
          fits : IfOk result (λ found. found.height ≤ self.now.left);
        } }
    {
        let condition = condition(self.alloc, cursor, self.left)?;
        let found = self.plain_part(cursor)?;
        while_stmt(self.alloc, start, condition, found)
    }

    /// `Stmt "while" "(" Expr ")" ";"`, behind `do`
    #[tactic(auto, unfolding(ix_grammar_rules::specs::Rule::run, ix_grammar_rules::specs::StmtRules::do_rule))]
    pub fn do_rule(&self, cursor: &mut Cursor<'_>, start: Span) -> Result<FoundStmt, Stop>
        requires { record {
          parts : ReadsStatements self.now.left (F.pre self.now.part) (F.post self.now.part);
          few : length cursor.old ≤ 200000;
          room : 0 < self.now.left;
        } }
        ensures { record {
          reads : Follows (run (spec.do_rule (spec.stmts_below self.now.left) self.now.left start) cursor.old) result cursor.new;
          no_longer : OnOk result (length cursor.new ≤ length cursor.old);
          fits : IfOk result (λ found. found.height ≤ self.now.left);
        } }
    {
        let found = self.plain_part(cursor)?;
        cursor.take_sign(WHILE)?;
        let condition = condition(self.alloc, cursor, self.left)?;
        let end = cursor.take_sign(SEMICOLON)?;
        do_stmt(self.alloc, start, found, condition, end)
    }
}
