//! The ends of statements that begin with no word of their own (JLS 14.4, 14.8).
ghost use Rattle.std.specs.Prelude.{◌<◌, ◌≤◌, ◌+◌, ◌^◌, true, length, OnOk, IfOk};
ghost use Rattle.ix_grammar_rules.specs.declared.begun.Begun.TheVariants.{Print};
ghost use Rattle.ix_grammar.specs.Patterns.{a_sign};
ghost use Rattle.ix_grammar_rules.specs.ReadingStatements.{begun_fits};
ghost use Rattle.ix_grammar_rules.specs.Rule.{run, take, pure, stop};
ghost use Rattle.ix_grammar.specs.StmtGrammar as nodes;
ghost use Rattle.ix_grammar_rules.specs.StmtRules as spec;
ghost use Rattle.ix_grammar_rules.specs.Taking.{Follows};

use ix_grammar::declarations::FoundMods;
use ix_grammar::found::{Found, FoundDecls, FoundStmt, FoundType};
use ix_grammar_rules::begun::Begun;
use ix_grammar_rules::stop::Stop;
use ix_lexer::fixed::{CLOSE_PAREN, SEMICOLON};
use ix_parse_base::cursor::Cursor;
use ix_parse_base::statement_nodes::{local_stmt, print_stmt, run_stmt};
use ix_parse_expressions::expressions::expr;
use ix_text::Span;
use std::alloc::Global;

/// `";"`, behind declarations of locals
#[tactic(auto, unfolding(ix_grammar_rules::specs::Rule::run))]
fn local_end(
    alloc: Global,
    cursor: &mut Cursor<'_>,
    mods: FoundMods,
    ty: FoundType,
    found: FoundDecls,
) -> Result<FoundStmt, Stop>
    requires room { found.height + 1 < 2 ^ 32 }
    ensures { record {
      reads : Follows (run (take (a_sign SEMICOLON) true (λ end. pure (nodes.local_stmt mods ty found end)) stop) cursor.old) result cursor.new;
      shorter : OnOk result (length cursor.new < length cursor.old);
      fits : IfOk result (λ made. made.height ≤ found.height + 1);
    } }
{
    let end = cursor.take_sign(SEMICOLON)?;
    local_stmt(alloc, mods, ty, found, end)
}

/// `";"`, behind an expression
#[tactic(auto, unfolding(ix_grammar_rules::specs::Rule::run))]
fn run_end(alloc: Global, cursor: &mut Cursor<'_>, found: Found) -> Result<FoundStmt, Stop>
    requires room { found.height + 1 < 2 ^ 32 }
    ensures { record {
      reads : Follows (run (take (a_sign SEMICOLON) true (λ end. pure (nodes.run_stmt found end)) stop) cursor.old) result cursor.new;
      shorter : OnOk result (length cursor.new < length cursor.old);
      fits : IfOk result (λ made. made.height ≤ found.height + 1);
    } }
{
    let end = cursor.take_sign(SEMICOLON)?;
    run_stmt(alloc, found, end)
}

/// `Expr ")" ";"`, behind `System.out.println(`
#[tactic(auto, unfolding(ix_grammar_rules::specs::Rule::run, ix_grammar_rules::specs::StmtRules::finished))]
fn print_end(
    alloc: Global,
    cursor: &mut Cursor<'_>,
    left: u32,
    system: Span,
) -> Result<FoundStmt, Stop>
    requires { record {
      few : length cursor.old ≤ 200000;
      room : 1 ≤ left;
    } }
    ensures { record {
      reads : Follows (run (spec.finished left (Print system)) cursor.old) result cursor.new;
      shorter : OnOk result (length cursor.new < length cursor.old);
      fits : IfOk result (λ made. made.height ≤ left);
    } }
{
    let found = expr(alloc, cursor, left - 1)?;
    cursor.take_sign(CLOSE_PAREN)?;
    let end = cursor.take_sign(SEMICOLON)?;
    print_stmt(alloc, system, found, end)
}

/// The rest of a statement, behind its beginning
#[tactic(auto, unfolding(ix_grammar_rules::specs::Rule::run, ix_grammar_rules::specs::StmtRules::finished))]
pub fn finished(
    alloc: Global,
    cursor: &mut Cursor<'_>,
    left: u32,
    begun: Begun,
) -> Result<FoundStmt, Stop>
    requires { record {
      few : length cursor.old ≤ 200000;
      room : begun_fits left begun;
    } }
    ensures { record {
      reads : Follows (run (spec.finished left begun) cursor.old) result cursor.new;
      shorter : OnOk result (length cursor.new < length cursor.old);
      fits : IfOk result (λ made. made.height ≤ left);
    } }
{
    match begun {
        Begun::Local(mods, ty, found) => local_end(alloc, cursor, mods, ty, found),
        Begun::Run(found) => run_end(alloc, cursor, found),
        Begun::Print(system) => print_end(alloc, cursor, left, system),
    }
}
