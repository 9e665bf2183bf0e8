//! What is known of a source whose accesses are guarded.

ghost use Rattle.std.specs.Prelude.{◌≡◌, ◌||◌, IfOk, OnOk};
ghost use Rattle.std.specs.List.{list_any};
ghost use Rattle.std.specs.HashSet.{contains};
ghost use Rattle.ix_meaning.specs.Listed.{same_span};
ghost use Rattle.ix_text.specs.declared.span.Span.{Span};
ghost use Rattle.ix_guard.specs.Tests as spec;

use ix_core::Error;
use ix_symbols::Table;
use ix_text::Span;
use std::alloc::{AllocError, Global};
use std::collections::HashSet;

/// What is known of a source: what its names mean, and its errors.
#[derive(Drop)]
pub struct Site<'a> {
    pub table: &'a Table,
    pub errors: &'a [Error],
    /// The places of indexes that aren't within their bounds by an error.
    unproved: HashSet<Span>,
    ghost places: { (place : Span) → contains same_span unproved place ≡ list_any (spec.is_bound_error place) errors.now },
}

fn is_of_bounds(rule: u8) -> bool
    ensures { result ≡ spec.is_of_bounds rule }
{
    rule == 1 || rule == 2
}

/// Adds the place of an error, if it says that an index isn't within its bounds.
fn add_place(places: &mut HashSet<Span>, error: &Error) -> Result<(), AllocError>
    ensures { OnOk result ((place : Span) → contains same_span places.new place ≡ (contains same_span places.old place || spec.is_bound_error place error.now)) }
{
    if is_of_bounds(error.rule) {
        places.insert(error.span)?;
    }
    Ok(())
}

/// The places of the errors that say that an index isn't within its bounds.
fn unproved_places(alloc: Global, errors: &[Error]) -> Result<HashSet<Span>, AllocError>
    ensures { IfOk result (λ places. (place : Span) → contains same_span places place ≡ list_any (spec.is_bound_error place) errors.now) }
{
    let mut places = HashSet::new(alloc);
    for error in errors {
        add_place(&mut places, error)?;
    }
    Ok(places)
}

impl<'a> Site<'a> {
    pub(crate) fn new(
        alloc: Global,
        table: &'a Table,
        errors: &'a [Error],
    ) -> Result<Site<'a>, AllocError>
        ensures { IfOk result (λ site. (site.table.now ≡ table.now) × (site.errors.now ≡ errors.now)) }
    {
        let unproved = unproved_places(alloc, errors)?;
        Ok(Site {
            table,
            errors,
            unproved,
        })
    }

    /// Whether one of the errors says that the index at that place isn't within its bounds.
    pub(crate) fn has_bound_error(&self, place: Span) -> bool
        ensures { result ≡ list_any (spec.is_bound_error place) self.now.errors.now }
    {
        self.unproved.contains(&place)
    }
}
