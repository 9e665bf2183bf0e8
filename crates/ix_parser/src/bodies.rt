//! What stands in the braces of a method or a constructor (JLS 8.4.7, 8.8.7).
ghost use Rattle.std.specs.Prelude.{◌≡◌, ◌≤◌, length, OnOk, IfOk};
ghost use Rattle.ix_grammar.specs.ClassGrammar as nodes;
ghost use Rattle.ix_grammar_rules.specs.ClassRules as spec;
ghost use Rattle.ix_grammar_rules.specs.Rule.{run};
ghost use Rattle.ix_grammar_rules.specs.SourceRules.{parts, super_args as the_args};
ghost use Rattle.ix_grammar_rules.specs.Taking.{Follows};

use ix_grammar::classes::{Body, Stmts};
use ix_grammar::found::{Args, At};
use ix_grammar_rules::stop::Stop;
use ix_lexer::fixed::{CLOSE_BRACE, OPEN_PAREN, SEMICOLON, SUPER};
use ix_parse_base::cursor::Cursor;
use ix_parse_base::statement_nodes::{no_stmts, with_stmt};
use ix_parse_statements::expressions::args;
use ix_parse_statements::statement_rules::block_statement;
use ix_text::Span;
use std::alloc::Global;

/// `{BStmt} "}"`
#[tactic(auto, unfolding(ix_grammar_rules::specs::Rule::run, ix_grammar_rules::specs::ClassRules::statements, ix_grammar_rules::specs::ListRules::next_inside, ix_grammar_rules::specs::ListRules::braces_of))]
fn statements(alloc: Global, cursor: &mut Cursor<'_>, left: u32) -> Result<At<Stmts>, Stop>
    requires few { length cursor.old ≤ 200000 }
    ensures { record {
      reads : Follows (run (spec.statements parts left) cursor.old) result cursor.new;
      no_longer : OnOk result (length cursor.new ≤ length cursor.old);
      fits : IfOk result (λ found. found.value.height ≤ left);
    } }
{
    let mut found = no_stmts(alloc);
    'reading: loop {
        if let Some(right) = cursor.sign(CLOSE_BRACE) {
            cursor.advance();
            return Ok(At {
                value: found,
                span: right,
            });
        }
        let next = block_statement(alloc, cursor, left)?;
        found = with_stmt(found, next)?;
    }
}

/// The body of a method, and of a constructor with no line `super(..)`.
fn body_of(found: Stmts, right: Span) -> Body
    ensures { result ≡ nodes.body_of found right }
{
    Body {
        parent_args: None,
        stmts: found.stmts,
        height: found.height,
        end: right,
    }
}

/// The body of a constructor with that line.
fn body_with(args: Args, found: Stmts, right: Span) -> Body
    ensures { result ≡ nodes.body_with args found right }
{
    let height = args.height.max(found.height);
    Body {
        parent_args: Some(args.items),
        stmts: found.stmts,
        height,
        end: right,
    }
}

/// `{BStmt} "}"`, with no line `super(..)`
#[tactic(auto, unfolding(ix_grammar_rules::specs::Rule::run, ix_grammar_rules::specs::ClassRules::block))]
fn block(alloc: Global, cursor: &mut Cursor<'_>, left: u32) -> Result<Body, Stop>
    requires few { length cursor.old ≤ 200000 }
    ensures { record {
      reads : Follows (run (spec.block parts left) cursor.old) result cursor.new;
      no_longer : OnOk result (length cursor.new ≤ length cursor.old);
      fits : IfOk result (λ found. found.height ≤ left);
    } }
{
    let found = statements(alloc, cursor, left)?;
    Ok(body_of(found.value, found.span))
}

/// `Args = "(" [Expr {"," Expr}] ")"`
#[tactic(auto, unfolding(ix_grammar_rules::specs::Rule::run, ix_grammar_rules::specs::SourceRules::super_args))]
fn super_args(alloc: Global, cursor: &mut Cursor<'_>, left: u32) -> Result<Args, Stop>
    requires few { length cursor.old ≤ 200000 }
    ensures { record {
      reads : Follows (run (the_args left) cursor.old) result cursor.new;
      no_longer : OnOk result (length cursor.new ≤ length cursor.old);
      fits : IfOk result (λ found. found.height ≤ left);
    } }
{
    cursor.take_sign(OPEN_PAREN)?;
    args(alloc, cursor, left)
}

/// `Args ";" {BStmt} "}"`, behind `super`
#[tactic(auto, unfolding(ix_grammar_rules::specs::Rule::run, ix_grammar_rules::specs::ClassRules::super_behind))]
fn super_behind(alloc: Global, cursor: &mut Cursor<'_>, left: u32) -> Result<Body, Stop>
    requires few { length cursor.old ≤ 200000 }
    ensures { record {
      reads : Follows (run (spec.super_behind parts left) cursor.old) result cursor.new;
      no_longer : OnOk result (length cursor.new ≤ length cursor.old);
      fits : IfOk result (λ found. found.height ≤ left);
    } }
{
    let found = super_args(alloc, cursor, left)?;
    cursor.take_sign(SEMICOLON)?;
    let stmts = statements(alloc, cursor, left)?;
    Ok(body_with(found, stmts.value, stmts.span))
}

/// Behind the opening brace: `{BStmt} "}"`, or of a constructor `["super" Args ";"] {BStmt} "}"`
#[tactic(auto, unfolding(ix_grammar_rules::specs::Rule::run, ix_grammar_rules::specs::ClassRules::body))]
pub fn body(
    alloc: Global,
    cursor: &mut Cursor<'_>,
    left: u32,
    constructor: bool,
) -> Result<Body, Stop>
    requires few { length cursor.old ≤ 200000 }
    ensures { record {
      reads : Follows (run (spec.body parts left constructor) cursor.old) result cursor.new;
      no_longer : OnOk result (length cursor.new ≤ length cursor.old);
      fits : IfOk result (λ found. found.height ≤ left);
    } }
{
    if constructor {
        if let Some(_super) = cursor.sign(SUPER) {
            cursor.advance();
            return super_behind(alloc, cursor, left);
        }
    }
    block(alloc, cursor, left)
}
