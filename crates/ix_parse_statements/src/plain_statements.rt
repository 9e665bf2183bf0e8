//! Statements that begin with no word of their own, as far as their semicolon (JLS 14.4, 14.8).
ghost use Rattle.std.specs.Prelude.{◌≡◌, ◌≤◌, ◌-◌, length, OnOk, IfOk};
ghost use Rattle.ix_grammar_rules.specs.declared.begun.Begun.TheVariants.{Run};
ghost use Rattle.ix_grammar_rules.specs.ExprRules.{statement_expr as the_expr};
ghost use Rattle.ix_grammar_rules.specs.ReadingStatements as reading;
ghost use Rattle.ix_grammar_rules.specs.ReadingStatements.{begun_fits};
ghost use Rattle.ix_grammar_rules.specs.Rule.{run, bind, pure};
ghost use Rattle.ix_grammar_rules.specs.StmtRules as spec;
ghost use Rattle.ix_grammar_rules.specs.Taking.{Follows};

use crate::beginnings::named_first;
use crate::locals::{final_local, noted_local, plain_local};
use crate::printing::{system_part, word};
use ix_grammar_rules::begun::Begun;
use ix_grammar_rules::stop::Stop;
use ix_lexer::fixed::{AT, BOOLEAN, FINAL, INT};
use ix_parse_base::cursor::Cursor;
use ix_parse_base::type_trees::based;
use ix_parse_expressions::expressions::statement_expr;
use ix_tree::BaseTree;
use std::alloc::Global;

/// `SExpr`
#[tactic(auto, using(crate::proofs::LowExpressions::statement_expr_below), unfolding(ix_grammar_rules::specs::Rule::run))]
fn expression(alloc: Global, cursor: &mut Cursor<'_>, left: u32) -> Result<Begun, Stop>
    requires few { length cursor.old ≤ 200000 }
    ensures { record {
      reads : Follows (run (bind (the_expr (left - 1)) (λ f. pure (Run f))) cursor.old) result cursor.new;
      no_longer : OnOk result (length cursor.new ≤ length cursor.old);
      fits : IfOk result (λ begun. begun_fits left begun);
    } }
{
    let found = statement_expr(alloc, cursor, left.saturating_sub(1))?;
    Ok(Begun::Run(found))
}

/// `SExpr`, or where locals may be declared, `Type Decls` with a type that begins with a name
#[tactic(auto, unfolding(ix_grammar_rules::specs::Rule::run))]
fn named_or_run(
    alloc: Global,
    cursor: &mut Cursor<'_>,
    left: u32,
    locals: bool,
) -> Result<Begun, Stop>
    requires few { length cursor.old ≤ 200000 }
    ensures { record {
      reads : Follows (run (reading.named_or_run locals left) cursor.old) result cursor.new;
      no_longer : OnOk result (length cursor.new ≤ length cursor.old);
      fits : IfOk result (λ begun. begun_fits left begun);
    } }
{
    let Some(name) = cursor.name(alloc)? else {
        return expression(alloc, cursor, left);
    };
    if left < 3 {
        return Err(Stop::TooDeep);
    }
    cursor.advance();
    named_first(alloc, cursor, left, locals, name)
}

/// Likewise, and `"System" "." "out" "." "println" "("` where it may be printed.
#[tactic(auto, unfolding(ix_grammar_rules::specs::Rule::run, ix_grammar_rules::specs::StmtRules::print_or))]
fn printed_or_named(
    alloc: Global,
    cursor: &mut Cursor<'_>,
    left: u32,
    prints: bool,
    locals: bool,
) -> Result<Begun, Stop>
    requires few { length cursor.old ≤ 200000 }
    ensures { record {
      reads : Follows (run (reading.printed_or_named prints locals left) cursor.old) result cursor.new;
      no_longer : OnOk result (length cursor.new ≤ length cursor.old);
      fits : IfOk result (λ begun. begun_fits left begun);
    } }
{
    if !prints {
        return named_or_run(alloc, cursor, left, locals);
    }
    let Some(system) = word(alloc, cursor, "System")? else {
        return named_or_run(alloc, cursor, left, locals);
    };
    if left < 2 {
        return Err(Stop::TooDeep);
    }
    cursor.advance();
    system_part(alloc, cursor, left, locals, system)
}

/// `Type Decls` with a type that begins with a word, or what begins with a name or an expression
#[tactic(auto, unfolding(ix_grammar_rules::specs::Rule::run))]
fn based_or_named(
    alloc: Global,
    cursor: &mut Cursor<'_>,
    left: u32,
    prints: bool,
) -> Result<Begun, Stop>
    requires few { length cursor.old ≤ 200000 }
    ensures { record {
      reads : Follows (run (reading.based_or_named prints left) cursor.old) result cursor.new;
      no_longer : OnOk result (length cursor.new ≤ length cursor.old);
      fits : IfOk result (λ begun. begun_fits left begun);
    } }
{
    if let Some(span) = cursor.sign(INT) {
        if left < 3 {
            return Err(Stop::TooDeep);
        }
        cursor.advance();
        return plain_local(alloc, cursor, left, based(BaseTree::Int, span));
    }
    if let Some(span) = cursor.sign(BOOLEAN) {
        if left < 3 {
            return Err(Stop::TooDeep);
        }
        cursor.advance();
        return plain_local(alloc, cursor, left, based(BaseTree::Boolean, span));
    }
    printed_or_named(alloc, cursor, left, prints, true)
}

/// `{"final" | Annot} Type Decls` where locals may be declared, or another beginning
#[tactic(auto, unfolding(ix_grammar_rules::specs::Rule::run, ix_grammar_rules::specs::StmtRules::begun, ix_grammar_rules::specs::StmtRules::local_or))]
pub fn begun(
    alloc: Global,
    cursor: &mut Cursor<'_>,
    left: u32,
    prints: bool,
    locals: bool,
) -> Result<Begun, Stop>
    requires few { length cursor.old ≤ 200000 }
    ensures { record {
      reads : Follows (run (spec.begun prints locals left) cursor.old) result cursor.new;
      no_longer : OnOk result (length cursor.new ≤ length cursor.old);
      fits : IfOk result (λ begun. begun_fits left begun);
    } }
{
    if !locals {
        return printed_or_named(alloc, cursor, left, prints, false);
    }
    if let Some(span) = cursor.sign(FINAL) {
        if left < 3 {
            return Err(Stop::TooDeep);
        }
        cursor.advance();
        return final_local(alloc, cursor, left, span);
    }
    if let Some(at) = cursor.sign(AT) {
        if left < 4 {
            return Err(Stop::TooDeep);
        }
        cursor.advance();
        return noted_local(alloc, cursor, left, at);
    }
    based_or_named(alloc, cursor, left, prints)
}
