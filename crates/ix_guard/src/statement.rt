//! What is inserted for statements.

ghost use Rattle.std.specs.Prelude.{◌≡◌, ◌++◌, [], if◌then◌else◌, option_map, OnOk};
ghost use Rattle.ix_guard.specs.Guards as spec;
ghost use Rattle.ix_guard.specs.Shown.{site_of};
ghost use Rattle.ix_guard.specs.Tests.{declaration_tests};

use crate::insertion::{Insertion, insert_before, insert_closing, insert_opening};
use crate::site::Site;
use crate::test::{declaration_tests, expression_tests};
use ix_text::{Boxed, Span};
use ix_tree::{Expr, LocalDecl, Stmt, StmtKind};
use std::alloc::{AllocError, Global};

/// Tests before a declaration in a list of statements.
fn add_declaration(
    alloc: Global,
    site: &Site<'_>,
    span: Span,
    decls: &[LocalDecl],
    listed: bool,
    out: &mut Vec<Insertion>,
) -> Result<(), AllocError>
    ensures { OnOk result (out.new.items ≡ out.old.items ++ (if listed then spec.before span (declaration_tests (site_of site.now) decls.now) else [])) }
{
    if !listed {
        return Ok(());
    }
    let tests = declaration_tests(alloc, site, decls)?;
    insert_before(out, span, tests)
}

/// A block around a statement that evaluates this expression and has no statement within.
fn add_around(
    alloc: Global,
    site: &Site<'_>,
    span: Span,
    expr: &Expr,
    out: &mut Vec<Insertion>,
) -> Result<(), AllocError>
    ensures { OnOk result (out.new.items ≡ out.old.items ++ spec.evaluating (site_of site.now) span expr.now) }
{
    let tests = expression_tests(alloc, site, expr)?;
    insert_opening(alloc, out, span, &tests).and(insert_closing(alloc, out, span, &tests))
}

/// Adds what is inserted for a statement, which stands in a list of statements or doesn't.
#[cycle(statements)]
fn add_statement(
    alloc: Global,
    site: &Site<'_>,
    stmt: &Stmt,
    listed: bool,
    out: &mut Vec<Insertion>,
) -> Result<(), AllocError>
    ensures { OnOk result (out.new.items ≡ out.old.items ++ spec.inserting (site_of site.now) stmt.now listed) }
{
    match &stmt.kind {
        StmtKind::Block(statements) => add_listed(alloc, site, statements.as_slice(), out),
        StmtKind::Local(decls) => {
            add_declaration(alloc, site, stmt.span, decls.as_slice(), listed, out)
        }
        StmtKind::If(condition, first, second) => {
            let tests = expression_tests(alloc, site, condition)?;
            add_first(alloc, site, stmt.span, &tests, first.get(), out).and(add_second(
                alloc, site, stmt.span, &tests, second, out,
            ))
        }
        StmtKind::While(_, body) | StmtKind::Do(body, _) | StmtKind::For(_, _, _, body) => {
            add_statement(alloc, site, body.get(), false, out)
        }
        StmtKind::Return(Some(expr)) | StmtKind::Print(expr) | StmtKind::Run(expr) => {
            add_around(alloc, site, stmt.span, expr, out)
        }
        StmtKind::Return(None)
        | StmtKind::Throw(_)
        | StmtKind::Empty
        | StmtKind::Break
        | StmtKind::Continue => Ok(()),
    }
}

/// The beginning of a block with these tests, and what is inserted for the first branch of an `if`.
#[cycle(statements)]
fn add_first(
    alloc: Global,
    site: &Site<'_>,
    span: Span,
    tests: &str,
    first: &Stmt,
    out: &mut Vec<Insertion>,
) -> Result<(), AllocError>
    ensures { OnOk result (out.new.items ≡ out.old.items ++ (spec.opening span tests.now ++ spec.alone (spec.inserting (site_of site.now) first.now))) }
{
    insert_opening(alloc, out, span, tests).and(add_statement(alloc, site, first, false, out))
}

/// What is inserted for the second branch of an `if`, and the end of a block with these tests.
#[cycle(statements)]
fn add_second(
    alloc: Global,
    site: &Site<'_>,
    span: Span,
    tests: &str,
    second: &Option<Boxed<Stmt>>,
    out: &mut Vec<Insertion>,
) -> Result<(), AllocError>
    ensures { OnOk result (out.new.items ≡ out.old.items ++ (spec.alone_maybe (option_map (spec.inserting (site_of site.now)) second.now) ++ spec.closing span tests.now)) }
{
    match second {
        None => insert_closing(alloc, out, span, tests),
        Some(second) => {
            add_statement(alloc, site, second.get(), false, out).and(insert_closing(
                alloc, out, span, tests,
            ))
        }
    }
}

/// Adds what is inserted for the statements of a list.
#[cycle(statements)]
pub(crate) fn add_listed(
    alloc: Global,
    site: &Site<'_>,
    statements: &[Stmt],
    out: &mut Vec<Insertion>,
) -> Result<(), AllocError>
    ensures { OnOk result (out.new.items ≡ out.old.items ++ spec.listed (site_of site.now) statements.now) }
{
    for stmt in statements {
        add_statement(alloc, site, stmt, true, out)?;
    }
    Ok(())
}
