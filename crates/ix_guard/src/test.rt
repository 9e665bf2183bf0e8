//! Which accesses of a statement are guarded, and by which tests.

ghost use Rattle.std.specs.Prelude.{◌≡◌, ◌++◌, [], ◌∷◌, List, map, IfOk, OnOk, string_bytes};
ghost use Rattle.std.specs.List.{list_any};
ghost use Rattle.ix_guard.specs.Accesses.{Access as Seen};
ghost use Rattle.ix_guard.specs.Shown.{seen, site_of, changes_of, parts_seen};
ghost use Rattle.ix_guard.specs.Tests as spec;

use crate::parts::{Access, Parts, add_all_declared, add_parts};
use crate::site::Site;
use ix_meaning::Meaning;
use ix_text::Span;
use ix_tree::{Expr, Ident, LocalDecl};
use std::alloc::{AllocError, Global};

fn is_variable(meaning: Option<Meaning>) -> bool
    ensures { result ≡ spec.is_variable meaning }
{
    match meaning {
        Some(Meaning::Local(_)) => true,
        Some(Meaning::Param(_)) => true,
        _ => false,
    }
}

fn same_variable(meaning: Option<Meaning>, other: Option<Meaning>) -> bool
    ensures { result ≡ spec.same_variable meaning other }
{
    match (meaning, other) {
        (Some(Meaning::Local(number)), Some(Meaning::Local(other))) => number == other,
        (Some(Meaning::Param(number)), Some(Meaning::Param(other))) => number == other,
        _ => false,
    }
}

/// Whether the variable is one of those that are assigned.
fn is_assigned(assigned: &[Option<Meaning>], meaning: Option<Meaning>) -> bool
    ensures { result ≡ list_any (spec.same_variable meaning) assigned.now }
{
    for other in assigned {
        if same_variable(meaning, *other) {
            return true;
        }
    }
    false
}

/// Whether one of the declared locals has that name.
fn is_declared(declared: &[LocalDecl], name: &Ident) -> bool
    ensures { result ≡ list_any (spec.is_called name.now) declared.now }
{
    for decl in declared {
        if decl.name.text.as_str() == name.text.as_str() {
            return true;
        }
    }
    false
}

/// What a statement changes: the meanings of the names that it assigns, and the locals that it declares.
#[derive(Clone, Copy)]
pub struct Changes<'a> {
    pub assigned: &'a [Option<Meaning>],
    pub declared: &'a [LocalDecl],
}

/// Whether the name is one of a variable that the statement neither assigns nor declares.
fn is_kept(site: &Site<'_>, changes: &Changes<'_>, name: &Ident) -> bool
    ensures { result ≡ spec.is_kept (site_of site.now) (changes_of changes.now) name.now }
{
    let meaning = site.table.meaning(name.span);
    is_variable(meaning)
        && !is_assigned(changes.assigned, meaning)
        && !is_declared(changes.declared, name)
}

fn is_guarded(site: &Site<'_>, changes: &Changes<'_>, access: &Access<'_>) -> bool
    ensures { result ≡ spec.is_guarded (site_of site.now) (changes_of changes.now) (seen access.now) }
{
    site.has_bound_error(access.index.span)
        && is_kept(site, changes, access.array)
        && is_kept(site, changes, access.index)
}

fn pair_of(site: &Site<'_>, access: &Access<'_>) -> (Option<Meaning>, Option<Meaning>)
    ensures { result ≡ spec.pair_of (site_of site.now) (seen access.now) }
{
    (
        site.table.meaning(access.array.span),
        site.table.meaning(access.index.span),
    )
}

/// Whether the pair is one of those that were tested.
fn was_tested(
    pairs: &[(Option<Meaning>, Option<Meaning>)],
    pair: (Option<Meaning>, Option<Meaning>),
) -> bool
    ensures { result ≡ list_any (spec.same_pair pair) pairs.now }
{
    for other in pairs {
        if same_variable(pair.0, other.0) && same_variable(pair.1, other.1) {
            return true;
        }
    }
    false
}

/// Adds the test of an index in an array.
fn add_test_of(text: &mut String, array: &str, index: &str) -> Result<(), AllocError>
    ensures { OnOk result (string_bytes text.new ≡ string_bytes text.old ++ spec.test_of array.now index.now) }
{
    write!(
        text,
        "if ({array} == null || {index} < 0 || {index} >= {array}.length) throw new IndexOutOfBoundsException(\"guard\"); "
    )
}

/// Adds the test of an access.
fn add_test(text: &mut String, access: &Access<'_>) -> Result<(), AllocError>
    ensures { OnOk result (string_bytes text.new ≡ string_bytes text.old ++ spec.test (seen access.now)) }
{
    add_test_of(text, access.array.text.as_str(), access.index.text.as_str())
}

fn is_tested(
    site: &Site<'_>,
    changes: &Changes<'_>,
    pairs: &[(Option<Meaning>, Option<Meaning>)],
    access: &Access<'_>,
) -> bool
    ensures { result ≡ spec.is_tested (site_of site.now) (changes_of changes.now) pairs.now (seen access.now) }
{
    is_guarded(site, changes, access) && !was_tested(pairs, pair_of(site, access))
}

/// Adds the test of an access that is guarded, where no test of its pair is written.
fn add_tested(
    site: &Site<'_>,
    changes: &Changes<'_>,
    access: &Access<'_>,
    pairs: &mut Vec<(Option<Meaning>, Option<Meaning>)>,
    text: &mut String,
) -> Result<(), AllocError>
    ensures { OnOk result ((rest : List Seen) → string_bytes text.new ++ spec.tests_behind (site_of site.now) (changes_of changes.now) pairs.new.items rest
        ≡ string_bytes text.old ++ spec.tests_behind (site_of site.now) (changes_of changes.now) pairs.old.items (seen access.now ∷ rest)) }
{
    if !is_tested(site, changes, pairs, access) {
        return Ok(());
    }
    add_test(text, access).and(pairs.push(pair_of(site, access)).map_err(AllocError::from))
}

/// The tests of these accesses, each pair of variables once.
fn tests_of(
    alloc: Global,
    site: &Site<'_>,
    changes: &Changes<'_>,
    accesses: &[Access<'_>],
) -> Result<String, AllocError>
    ensures { IfOk result (λ text. string_bytes text ≡ spec.tests_behind (site_of site.now) (changes_of changes.now) [] (map seen accesses.now)) }
{
    let mut text = String::new(alloc);
    let mut pairs = Vec::new(alloc);
    for access in accesses {
        add_tested(site, changes, access, &mut pairs, &mut text)?;
    }
    Ok(text)
}

/// What the names at these places mean.
fn meanings_at(
    alloc: Global,
    site: &Site<'_>,
    places: &[Span],
) -> Result<Vec<Option<Meaning>>, AllocError>
    ensures { IfOk result (λ meanings. meanings.items ≡ map (site_of site.now).names.meaning places.now) }
{
    let mut meanings = Vec::new(alloc);
    for place in places {
        meanings.push(site.table.meaning(*place))?;
    }
    Ok(meanings)
}

/// The tests of a statement in which these are, and that declares these locals.
fn tests(
    alloc: Global,
    site: &Site<'_>,
    declared: &[LocalDecl],
    parts: &Parts<'_>,
) -> Result<String, AllocError>
    ensures { IfOk result (λ text. string_bytes text ≡ spec.tests (site_of site.now) declared.now (parts_seen parts.now)) }
{
    let assigned = meanings_at(alloc, site, &parts.assigned)?;
    let changes = Changes {
        assigned: &assigned,
        declared,
    };
    tests_of(alloc, site, &changes, &parts.accesses)
}

/// The tests of a statement that evaluates this expression.
pub(crate) fn expression_tests(
    alloc: Global,
    site: &Site<'_>,
    expr: &Expr,
) -> Result<String, AllocError>
    ensures { IfOk result (λ text. string_bytes text ≡ spec.expression_tests (site_of site.now) expr.now) }
{
    let mut parts = Parts::new(alloc);
    add_parts(expr, &mut parts).and(tests(alloc, site, &[], &parts))
}

/// The tests of a declaration of these locals.
pub(crate) fn declaration_tests(
    alloc: Global,
    site: &Site<'_>,
    decls: &[LocalDecl],
) -> Result<String, AllocError>
    ensures { IfOk result (λ text. string_bytes text ≡ spec.declaration_tests (site_of site.now) decls.now) }
{
    let mut parts = Parts::new(alloc);
    add_all_declared(decls, &mut parts).and(tests(alloc, site, decls, &parts))
}
