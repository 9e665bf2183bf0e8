//! Each line once.
ghost use Rattle.std.specs.Prelude.{◌≡◌, ◌≤◌, IfOk};
ghost use Rattle.std.specs.List.{list_any};
ghost use Rattle.ix_report.specs.EarlierStarts.{Earlier};
ghost use Rattle.ix_report.specs.Names as spec;

use crate::names::key;
use crate::once::Starts;
use ix_meaning::NameError;
use std::alloc::{AllocError, Global};

/// Whether two errors have one line.
fn have_one_line(one: &NameError, other: &NameError) -> bool
    ensures { result ≡ spec.have_one_line one.now other.now }
{
    one.span.from == other.span.from && key(one.rule) == key(other.rule)
}

/// Whether one of these errors has the line of this one.
fn is_among(told: &[NameError], error: &NameError) -> bool
    ensures { result ≡ list_any (spec.have_one_line error.now) told.now }
{
    for other in told {
        if have_one_line(error, other) {
            return true;
        }
    }
    false
}

/// What start comes last once an error was met that starts there.
fn moved(told: &[NameError], was: Starts, from: u32) -> Starts
    requires { Earlier spec.start told.now was.earlier was.last }
    ensures { record {
      earlier : Earlier spec.start told.now result.earlier result.last;
      within : from ≤ result.last;
    } }
{
    if was.last < from {
        return Starts {
            earlier: told.len(),
            last: from,
        };
    }
    was
}

/// Whether the line of an error was told. An error that starts where the last of what was told do is compared with these alone, so that
/// errors in the order of their starts take no more time than there are.
fn was_told(told: &[NameError], starts: Starts, error: &NameError) -> bool
    requires { Earlier spec.start told.now starts.earlier starts.last }
    ensures { result ≡ list_any (spec.have_one_line error.now) told.now }
{
    if error.span.from < starts.last {
        return is_among(told, error);
    }
    is_among(&told[starts.earlier..], error)
}

/// The errors without those whose line was told before.
pub(crate) fn told(alloc: Global, errors: &[NameError]) -> Result<Vec<NameError>, AllocError>
    ensures told { IfOk result (λ told. told.items ≡ spec.told errors.now) }
{
    let mut told = Vec::new(alloc);
    let mut starts = Starts {
        earlier: 0,
        last: 0,
    };
    for error in errors {
        starts = moved(&told, starts, error.span.from);
        if !was_told(&told, starts, error) {
            told.push(*error)?;
        }
    }
    Ok(told)
}
