//! Statements (JLS 14).
ghost use Rattle.std.specs.Prelude.{◌<◌, ◌≤◌, length, OnOk, IfOk};
ghost use Rattle.ix_grammar_rules.specs.ReadingStatements as reading;
ghost use Rattle.ix_grammar_rules.specs.ReadingStatements.{ReadsStatements};
ghost use Rattle.ix_grammar_rules.specs.Rule.{run};
ghost use Rattle.ix_grammar_rules.specs.StmtRules as spec;
ghost use Rattle.ix_grammar_rules.specs.Taking.{Follows};

use crate::finished_statements::finished;
use crate::plain_statements::begun;
use crate::simple_statements::{break_rule, continue_rule, return_rule, throw_rule};
use crate::statement_parts::Statements;
use ix_grammar::found::FoundStmt;
use ix_grammar_rules::stop::Stop;
use ix_lexer::fixed::{BREAK, CONTINUE, DO, FOR, IF, OPEN_BRACE, RETURN, SEMICOLON, THROW, WHILE};
use ix_parse_base::cursor::Cursor;
use ix_parse_base::statement_nodes::stmt_node;
use ix_tree::StmtKind;
use std::alloc::Global;

/// `Local ";"`, where locals may be declared, `SExpr ";"` or a print statement
#[tactic(auto, unfolding(ix_grammar_rules::specs::Rule::run))]
fn begun_statement(
    alloc: Global,
    cursor: &mut Cursor<'_>,
    left: u32,
    locals: bool,
) -> Result<FoundStmt, Stop>
    requires few { length cursor.old ≤ 200000 }
    ensures { record {
      reads : Follows (run (reading.begun_stmt locals left) cursor.old) result cursor.new;
      shorter : OnOk result (length cursor.new < length cursor.old);
      fits : IfOk result (λ found. found.height ≤ left);
    } }
{
    let begun = begun(alloc, cursor, left, true, locals)?;
    finished(alloc, cursor, left, begun)
}

/// `break`, `continue`, `return` or `throw`, or a statement with no word of its own
#[tactic(auto, unfolding(ix_grammar_rules::specs::Rule::run))]
fn jump_or_begun(
    alloc: Global,
    cursor: &mut Cursor<'_>,
    left: u32,
    locals: bool,
) -> Result<FoundStmt, Stop>
    requires few { length cursor.old ≤ 200000 }
    ensures { record {
      reads : Follows (run (reading.jump_or_begun locals left) cursor.old) result cursor.new;
      shorter : OnOk result (length cursor.new < length cursor.old);
      fits : IfOk result (λ found. found.height ≤ left);
    } }
{
    if let Some(start) = cursor.sign(BREAK) {
        if left < 1 {
            return Err(Stop::TooDeep);
        }
        cursor.advance();
        return break_rule(alloc, cursor, start);
    }
    if let Some(start) = cursor.sign(CONTINUE) {
        if left < 1 {
            return Err(Stop::TooDeep);
        }
        cursor.advance();
        return continue_rule(alloc, cursor, start);
    }
    if let Some(start) = cursor.sign(RETURN) {
        if left < 1 {
            return Err(Stop::TooDeep);
        }
        cursor.advance();
        return return_rule(alloc, cursor, left, start);
    }
    if let Some(start) = cursor.sign(THROW) {
        if left < 2 {
            return Err(Stop::TooDeep);
        }
        cursor.advance();
        return throw_rule(alloc, cursor, start);
    }
    begun_statement(alloc, cursor, left, locals)
}

impl<F: Fn(Global, &mut Cursor<'_>, u32, bool) -> Result<FoundStmt, Stop>> Statements<F> {
    /// `while`, `do` or `for`, or another statement
    #[tactic(auto, unfolding(ix_grammar_rules::specs::Rule::run))]
    fn loop_or_other(&self, cursor: &mut Cursor<'_>, locals: bool) -> Result<FoundStmt, Stop>
        requires { record {
          parts : ReadsStatements self.now.left (F.pre self.now.part) (F.post self.now.part);
          few : length cursor.old ≤ 200000;
        } }
        ensures { record {
          reads : Follows (run (reading.loop_or_other (spec.stmts_below self.now.left) locals self.now.left) cursor.old) result cursor.new;
          shorter : OnOk result (length cursor.new < length cursor.old);
          fits : IfOk result (λ found. found.height ≤ self.now.left);
        } }
    {
        if let Some(start) = cursor.sign(WHILE) {
            if self.left < 2 {
                return Err(Stop::TooDeep);
            }
            cursor.advance();
            return self.while_rule(cursor, start);
        }
        if let Some(start) = cursor.sign(DO) {
            if self.left < 2 {
                return Err(Stop::TooDeep);
            }
            cursor.advance();
            return self.do_rule(cursor, start);
        }
        if let Some(start) = cursor.sign(FOR) {
            if self.left < 2 {
                return Err(Stop::TooDeep);
            }
            cursor.advance();
            return self.for_rule(cursor, start);
        }
        jump_or_begun(self.alloc, cursor, self.left, locals)
    }

    /// `Stmt`, or where locals may be declared `BStmt`
    #[tactic(auto, unfolding(ix_grammar_rules::specs::Rule::run, ix_grammar_rules::specs::StmtRules::stmt_of))]
    fn statement(&self, cursor: &mut Cursor<'_>, locals: bool) -> Result<FoundStmt, Stop>
        requires { record {
          parts : ReadsStatements self.now.left (F.pre self.now.part) (F.post self.now.part);
          few : length cursor.old ≤ 200000;
        } }
        ensures { record {
          reads : Follows (run (spec.stmt_of (spec.stmts_below self.now.left) locals self.now.left) cursor.old) result cursor.new;
          shorter : OnOk result (length cursor.new < length cursor.old);
          fits : IfOk result (λ found. found.height ≤ self.now.left);
        } }
    {
        if let Some(start) = cursor.sign(OPEN_BRACE) {
            if self.left < 1 {
                return Err(Stop::TooDeep);
            }
            cursor.advance();
            return self.block_rule(cursor, start);
        }
        if let Some(end) = cursor.sign(SEMICOLON) {
            if self.left < 1 {
                return Err(Stop::TooDeep);
            }
            cursor.advance();
            return stmt_node(self.alloc, StmtKind::Empty, 0, end);
        }
        if let Some(start) = cursor.sign(IF) {
            if self.left < 2 {
                return Err(Stop::TooDeep);
            }
            cursor.advance();
            return self.if_rule(cursor, start);
        }
        self.loop_or_other(cursor, locals)
    }
}

/// A statement of a height of at most `left`, which may declare locals where it is one of a block.
fn statement(
    alloc: Global,
    cursor: &mut Cursor<'_>,
    left: u32,
    locals: bool,
) -> Result<FoundStmt, Stop>
    requires few { length cursor.old ≤ 200000 }
    ensures { record {
      reads : Follows (run (reading.stmt_rule locals left) cursor.old) result cursor.new;
      shorter : OnOk result (length cursor.new < length cursor.old);
      fits : IfOk result (λ found. found.height ≤ left);
    } }
{
    let rules = Statements {
        alloc,
        left,
        part: statement,
    };
    rules.statement(cursor, locals)
}

/// A statement of a block, of a height of at most `left`.
pub fn block_statement(alloc: Global, cursor: &mut Cursor<'_>, left: u32) -> Result<FoundStmt, Stop>
    requires few { length cursor.old ≤ 200000 }
    ensures { record {
      reads : Follows (run (spec.block_statement left) cursor.old) result cursor.new;
      shorter : OnOk result (length cursor.new < length cursor.old);
      fits : IfOk result (λ found. found.height ≤ left);
    } }
{
    statement(alloc, cursor, left, true)
}
