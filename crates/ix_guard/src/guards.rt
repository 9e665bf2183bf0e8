//! The text of a source with its guards.

ghost use Rattle.std.specs.Prelude.{◌≡◌, ◌++◌, take, drop, IfOk, OnOk};
ghost use Rattle.ix_symbols.specs.Numbered.{shown};
ghost use Rattle.ix_guard.specs.Guards as spec;
ghost use Rattle.ix_guard.specs.Kept.{IsSourceWith};
ghost use Rattle.ix_guard.specs.Shown.{site_of};

use crate::insertion::Insertion;
use crate::site::Site;
use crate::statement::add_listed;
use ix_core::Error;
use ix_symbols::Table;
use ix_tree::{Member, Unit};
use std::alloc::{AllocError, Global};

fn add_member(
    alloc: Global,
    site: &Site<'_>,
    member: &Member,
    out: &mut Vec<Insertion>,
) -> Result<(), AllocError>
    ensures { OnOk result (out.new.items ≡ out.old.items ++ spec.in_member (site_of site.now) member.now) }
{
    match member {
        Member::Field(_) => Ok(()),
        Member::Method(method) => add_listed(alloc, site, method.body.as_slice(), out),
    }
}

fn add_members(
    alloc: Global,
    site: &Site<'_>,
    members: &[Member],
    out: &mut Vec<Insertion>,
) -> Result<(), AllocError>
    ensures { OnOk result (out.new.items ≡ out.old.items ++ spec.in_members (site_of site.now) members.now) }
{
    for member in members {
        add_member(alloc, site, member, out)?;
    }
    Ok(())
}

/// What is inserted at a site with this tree, in the order of the tree.
fn insertions(alloc: Global, site: &Site<'_>, unit: &Unit) -> Result<Vec<Insertion>, AllocError>
    ensures { IfOk result (λ out. out.items ≡ spec.insertions (site_of site.now) unit.now) }
{
    let mut out = Vec::new(alloc);
    for class in unit.classes.as_slice() {
        add_members(alloc, site, class.members.as_slice(), &mut out)?;
    }
    Ok(out)
}

/// What is inserted in a source.
fn source_insertions(
    alloc: Global,
    unit: &Unit,
    table: &Table,
    errors: &[Error],
) -> Result<Vec<Insertion>, AllocError>
    ensures { IfOk result (λ out. out.items ≡ spec.source_insertions unit.now (shown table.now) errors.now) }
{
    let site = Site::new(alloc, table, errors)?;
    insertions(alloc, &site, unit)
}

/// The first bytes, at most so many, and those behind them.
fn cut(bytes: &[u8], count: usize) -> (&[u8], &[u8])
    ensures { record {
      first : result.0.now ≡ take count bytes.now;
      rest : result.1.now ≡ drop count bytes.now;
    } }
{
    if count < bytes.len() {
        (&bytes[..count], &bytes[count..])
    } else {
        (bytes, &[])
    }
}

/// The bytes with the texts inserted.
fn with_texts(alloc: Global, bytes: &[u8], insertions: &[Insertion]) -> Result<Vec<u8>, AllocError>
    ensures { IfOk result (λ out. out.items ≡ spec.with_texts 0 bytes.now insertions.now) }
{
    let mut out = Vec::new(alloc);
    let mut rest = bytes;
    let mut at = 0;
    for insertion in insertions {
        let (first, behind) = cut(rest, insertion.place.saturating_sub(at) as usize);
        out.extend_from_slice(first)?;
        out.extend_from_slice(insertion.text.as_str().as_bytes())?;
        rest = behind;
        at = insertion.place;
    }
    out.extend_from_slice(rest)?;
    Ok(out)
}

/// The source with a test and a throw before each access on names that isn't proved, where a statement can hold them: its tree, the table of its names and its errors
/// are those of these bytes. The one error is want of memory.
pub fn guard(
    alloc: Global,
    source: &[u8],
    unit: &Unit,
    table: &Table,
    errors: &[Error],
) -> Result<Vec<u8>, AllocError>
    ensures text { IfOk result (λ bytes. bytes.items ≡ spec.guarded source.now unit.now (shown table.now) errors.now) }
    ensures kept { IfOk result (λ bytes. IsSourceWith source.now (spec.texts unit.now (shown table.now) errors.now) bytes.items) }
{
    let insertions = source_insertions(alloc, unit, table, errors)?;
    with_texts(alloc, source, &insertions)
}
