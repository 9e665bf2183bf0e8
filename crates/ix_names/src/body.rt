//! The pass over the statements of a body.

ghost use Rattle.std.specs.Prelude.{◌≡◌, ◌++◌, ◌+◌, ◌<◌, ◌^◌, OnOk, map};
ghost use Rattle.ix_meaning.specs.Bodies as spec;
ghost use Rattle.ix_meaning.specs.Declarators as declared;
ghost use Rattle.ix_meaning.specs.Rules as rules;
ghost use Rattle.ix_class_members.specs.Begun.{Begins};
ghost use Rattle.ix_expression_types.specs.Here.{here, Extends};
ghost use Rattle.ix_names.specs.Told.{Told};

use crate::locals::declare;
use ix_class_members::{Begun, World, begin_with, further_annotations, own_annotations};
use ix_expression_types::{Scopes, check, value, wrong, wrong_if};
use ix_meaning::{Note, Rule};
use ix_symbols::{BOOLEAN, Need};
use ix_text::{List, Span};
use ix_tree::{Expr, LocalDecl, Stmt, StmtKind};
use std::alloc::{AllocError, Global};

fn condition(
    alloc: Global,
    world: &World,
    scopes: &Scopes<'_>,
    notes: &mut List<Note>,
    e: &Expr,
) -> Result<(), AllocError>
    ensures { OnOk result (notes.new ≡ notes.old ++ spec.condition e.now (here world.now scopes.now)) }
{
    check(alloc, world, scopes, notes, e, Need::Of(&BOOLEAN))
}

fn condition_or_none(
    alloc: Global,
    world: &World,
    scopes: &Scopes<'_>,
    notes: &mut List<Note>,
    e: &Option<Expr>,
) -> Result<(), AllocError>
    ensures { OnOk result (notes.new ≡ notes.old ++ spec.condition_or_none e.now (here world.now scopes.now)) }
{
    match e {
        None => Ok(()),
        Some(e) => condition(alloc, world, scopes, notes, e),
    }
}

fn run_all(
    alloc: Global,
    world: &World,
    scopes: &Scopes<'_>,
    notes: &mut List<Note>,
    es: &[Expr],
) -> Result<(), AllocError>
    ensures { OnOk result (notes.new ≡ notes.old ++ spec.all_run es.now (here world.now scopes.now)) }
{
    for e in es {
        value(alloc, world, scopes, notes, e)?;
    }
    Ok(())
}

/// The first so many bytes of a statement.
fn keyword(span: Span, length: u32) -> Span
    ensures { result ≡ spec.keyword span length }
{
    let end = span.from as u64 + length as u64;
    if end < span.to as u64 {
        return Span {
            from: span.from,
            to: end as u32,
        };
    }
    span
}

fn returned(
    alloc: Global,
    world: &World,
    scopes: &Scopes<'_>,
    notes: &mut List<Note>,
    e: &Option<Expr>,
    span: Span,
) -> Result<(), AllocError>
    ensures { OnOk result (notes.new ≡ notes.old ++ spec.returned e.now span (here world.now scopes.now)) }
{
    match e {
        None => match scopes.result {
            None => Ok(()),
            Some(_) => wrong(notes, Rule::TypeMismatch, keyword(span, 6)),
        },
        Some(e) => match scopes.result {
            None => check(alloc, world, scopes, notes, e, Need::Never),
            Some(need) => check(alloc, world, scopes, notes, e, need),
        },
    }
}

/// The declarators behind the first of a declaration.
#[tactic(auto, using(crate::proofs::Prefix::extends))]
fn declare_further<'a>(
    alloc: Global,
    world: &World,
    scopes: &mut Scopes<'a>,
    notes: &mut List<Note>,
    first: &'a LocalDecl,
    decls: &'a [LocalDecl],
) -> Result<(), AllocError>
    requires { scopes.old.next + (spec.all_declared (map (declared.further first.now) decls.now)).declares < 2 ^ 32 }
    ensures { OnOk result (Told (here world.now) (spec.all_declared (map (declared.further first.now) decls.now)) scopes.old scopes.new notes.old notes.new) }
{
    let begun = begin_with(alloc, first)?;
    for decl in decls {
        declare_one_more(alloc, world, scopes, notes, &begun, decl)?;
    }
    Ok(())
}

fn declare_one_more<'a>(
    alloc: Global,
    world: &World,
    scopes: &mut Scopes<'a>,
    notes: &mut List<Note>,
    begun: &Begun<'_>,
    decl: &'a LocalDecl,
) -> Result<(), AllocError>
    requires { record {
      begins : Begins begun.now;
      room : scopes.old.next + 1 < 2 ^ 32;
    } }
    ensures { OnOk result (Told (here world.now) (spec.declared (declared.further begun.now.first.now decl.now)) scopes.old scopes.new notes.old notes.new) }
{
    let own = further_annotations(alloc, begun, decl)?;
    declare(alloc, world, scopes, notes, &own, decl)
}

fn declare_first<'a>(
    alloc: Global,
    world: &World,
    scopes: &mut Scopes<'a>,
    notes: &mut List<Note>,
    decl: &'a LocalDecl,
) -> Result<(), AllocError>
    requires { scopes.old.next + 1 < 2 ^ 32 }
    ensures { OnOk result (Told (here world.now) (spec.declared decl.now) scopes.old scopes.new notes.old notes.new) }
{
    let own = own_annotations(alloc, decl)?;
    declare(alloc, world, scopes, notes, &own, decl)
}

#[tactic(auto, using(crate::proofs::Prefix::extends))]
fn declare_all<'a>(
    alloc: Global,
    world: &World,
    scopes: &mut Scopes<'a>,
    notes: &mut List<Note>,
    decls: &'a [LocalDecl],
) -> Result<(), AllocError>
    requires { scopes.old.next + (spec.all_declared (declared.declarators decls.now)).declares < 2 ^ 32 }
    ensures { OnOk result (Told (here world.now) (spec.all_declared (declared.declarators decls.now)) scopes.old scopes.new notes.old notes.new) }
{
    match decls {
        [] => Ok(()),
        [first, rest @ ..] => {
            declare_first(alloc, world, scopes, notes, first)?;
            declare_further(alloc, world, scopes, notes, first, rest)
        }
    }
}

/// Notes a statement, and leaves the scope that stands behind it.
#[cycle(statements)]
#[tactic(auto, using(crate::proofs::Prefix::extends))]
pub fn statement<'a>(
    alloc: Global,
    world: &World,
    scopes: &mut Scopes<'a>,
    notes: &mut List<Note>,
    s: &'a Stmt,
) -> Result<(), AllocError>
    requires { scopes.old.next + (spec.telling s.now).declares < 2 ^ 32 }
    ensures { record {
      notes : OnOk result (notes.new ≡ notes.old ++ (spec.telling s.now).notes (here world.now scopes.old));
      scope : OnOk result (here world.now scopes.new ≡ spec.after (spec.telling s.now) (here world.now scopes.old));
      keeps : OnOk result (Extends scopes.old scopes.new);
    } }
{
    statement_kind(alloc, world, scopes, notes, &s.kind, s.span)
}

#[cycle(statements)]
#[tactic(auto, using(crate::proofs::Prefix::extends))]
pub fn statements<'a>(
    alloc: Global,
    world: &World,
    scopes: &mut Scopes<'a>,
    notes: &mut List<Note>,
    ss: &'a [Stmt],
) -> Result<(), AllocError>
    requires { scopes.old.next + (spec.all_told (map spec.telling ss.now)).declares < 2 ^ 32 }
    ensures { record {
      notes : OnOk result (notes.new ≡ notes.old ++ (spec.all_told (map spec.telling ss.now)).notes (here world.now scopes.old));
      scope : OnOk result (here world.now scopes.new ≡ spec.after (spec.all_told (map spec.telling ss.now)) (here world.now scopes.old));
      keeps : OnOk result (Extends scopes.old scopes.new);
    } }
{
    for s in ss {
        statement(alloc, world, scopes, notes, s)?;
    }
    Ok(())
}

/// The statements of a block, whose locals end with it.
#[cycle(statements)]
#[tactic(auto, using(crate::proofs::Prefix::extends))]
fn block<'a>(
    alloc: Global,
    world: &World,
    scopes: &mut Scopes<'a>,
    notes: &mut List<Note>,
    ss: &'a [Stmt],
) -> Result<(), AllocError>
    requires { scopes.old.next + (spec.all_told (map spec.telling ss.now)).declares < 2 ^ 32 }
    ensures { OnOk result (Told (here world.now) (spec.closed (spec.all_told (map spec.telling ss.now))) scopes.old scopes.new notes.old notes.new) }
{
    scopes.enter()?;
    let told = statements(alloc, world, scopes, notes, ss);
    scopes.leave();
    told
}

/// The body of a loop.
#[cycle(statements)]
#[tactic(auto, using(crate::proofs::Prefix::extends))]
fn looped<'a>(
    alloc: Global,
    world: &World,
    scopes: &mut Scopes<'a>,
    notes: &mut List<Note>,
    s: &'a Stmt,
) -> Result<(), AllocError>
    requires { scopes.old.next + (spec.telling s.now).declares < 2 ^ 32 }
    ensures { OnOk result (Told (here world.now) (spec.looped (spec.telling s.now)) scopes.old scopes.new notes.old notes.new) }
{
    let outside = scopes.in_loop;
    scopes.in_loop = true;
    let told = statement(alloc, world, scopes, notes, s);
    scopes.in_loop = outside;
    told
}

/// What stands in a `for` beside its first part and its body.
fn condition_and_updates(
    alloc: Global,
    world: &World,
    scopes: &Scopes<'_>,
    notes: &mut List<Note>,
    e: &Option<Expr>,
    updates: &[Expr],
) -> Result<(), AllocError>
    ensures { OnOk result (notes.new ≡ notes.old ++ (spec.condition_or_none e.now (here world.now scopes.now) ++ spec.all_run updates.now (here world.now scopes.now))) }
{
    condition_or_none(alloc, world, scopes, notes, e).and(run_all(
        alloc, world, scopes, notes, updates,
    ))
}

fn break_outside(
    scopes: &Scopes<'_>,
    notes: &mut List<Note>,
    span: Span,
    length: u32,
) -> Result<(), AllocError>
    ensures { OnOk result (notes.new ≡ notes.old ++ rules.break_outside_in scopes.now.in_loop (spec.keyword span length)) }
{
    wrong_if(
        notes,
        !scopes.in_loop,
        Rule::BreakOutside,
        keyword(span, length),
    )
}

#[cycle(statements)]
#[tactic(auto, using(crate::proofs::Prefix::extends))]
fn statement_kind<'a>(
    alloc: Global,
    world: &World,
    scopes: &mut Scopes<'a>,
    notes: &mut List<Note>,
    k: &'a StmtKind,
    span: Span,
) -> Result<(), AllocError>
    requires { scopes.old.next + (spec.kind_telling k.now span).declares < 2 ^ 32 }
    ensures { OnOk result (Told (here world.now) (spec.kind_telling k.now span) scopes.old scopes.new notes.old notes.new) }
{
    match k {
        StmtKind::Block(ss) => block(alloc, world, scopes, notes, ss.as_slice()),
        StmtKind::Empty => Ok(()),
        StmtKind::Local(decls) => declare_all(alloc, world, scopes, notes, decls.as_slice()),
        StmtKind::If(e, then, other) => {
            condition(alloc, world, scopes, notes, e)?;
            statement(alloc, world, scopes, notes, then.get())?;
            match other {
                None => Ok(()),
                Some(other) => statement(alloc, world, scopes, notes, other.get()),
            }
        }
        StmtKind::While(e, body) => {
            condition(alloc, world, scopes, notes, e).and(looped(
                alloc,
                world,
                scopes,
                notes,
                body.get(),
            ))
        }
        StmtKind::Do(body, e) => {
            looped(alloc, world, scopes, notes, body.get()).and(condition(
                alloc, world, scopes, notes, e,
            ))
        }
        StmtKind::For(first, e, next, body) => {
            scopes.enter()?;
            statements(alloc, world, scopes, notes, first.as_slice())?;
            let updates = next.as_slice();
            let told = condition_and_updates(alloc, world, scopes, notes, e, updates).and(looped(
                alloc,
                world,
                scopes,
                notes,
                body.get(),
            ));
            scopes.leave();
            told
        }
        StmtKind::Break => break_outside(scopes, notes, span, 5),
        StmtKind::Continue => break_outside(scopes, notes, span, 8),
        StmtKind::Return(e) => returned(alloc, world, scopes, notes, e, span),
        StmtKind::Throw(_) => Ok(()),
        StmtKind::Print(e) => check(alloc, world, scopes, notes, e, Need::Printed),
        StmtKind::Run(e) => value(alloc, world, scopes, notes, e).and(Ok(())),
    }
}
