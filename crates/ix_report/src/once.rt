//! Each line once.
ghost use Rattle.std.specs.Prelude.{◌≡◌, ◌≤◌, IfOk};
ghost use Rattle.std.specs.List.{list_any};
ghost use Rattle.std.specs.Str.{bytes_eq};
ghost use Rattle.ix_report.specs.EarlierStarts.{Earlier};
ghost use Rattle.ix_report.specs.Reports as spec;

use crate::reports::add_detail;
use ix_core::{Detail, Error, Program};
use std::alloc::{AllocError, Global};

/// Whether two details are printed alike.
fn same_detail(
    alloc: Global,
    program: &Program,
    one: Detail,
    other: Detail,
) -> Result<bool, AllocError>
    ensures { IfOk result (λ same. same ≡ bytes_eq (spec.detail_text program.now one) (spec.detail_text program.now other)) }
{
    let mut first = String::new(alloc);
    let mut second = String::new(alloc);
    add_detail(&mut first, program, one)
        .and(add_detail(&mut second, program, other))
        .and(Ok(first.as_str() == second.as_str()))
}

/// Whether two errors have one line.
fn have_one_line(
    alloc: Global,
    program: &Program,
    one: &Error,
    other: &Error,
) -> Result<bool, AllocError>
    ensures { IfOk result (λ same. same ≡ spec.have_one_line program.now one.now other.now) }
{
    if one.span.from == other.span.from && one.rule == other.rule {
        return same_detail(alloc, program, one.detail, other.detail);
    }
    Ok(false)
}

/// Whether one of these errors has the line of this one.
fn is_among(
    alloc: Global,
    program: &Program,
    told: &[Error],
    error: &Error,
) -> Result<bool, AllocError>
    ensures { IfOk result (λ is. is ≡ list_any (spec.have_one_line program.now error.now) told.now) }
{
    for other in told {
        if have_one_line(alloc, program, error, other)? {
            return Ok(true);
        }
    }
    Ok(false)
}

/// How many of what was told start before `last`, the greatest start of all of it.
#[derive(Clone, Copy)]
pub(crate) struct Starts {
    pub(crate) earlier: usize,
    pub(crate) last: u32,
}

/// What start comes last once an error was met that starts there.
fn moved(told: &[Error], was: Starts, from: u32) -> Starts
    requires { Earlier spec.start told.now was.earlier was.last }
    ensures { record {
      earlier : Earlier spec.start told.now result.earlier result.last;
      within : from ≤ result.last;
    } }
{
    if was.last < from {
        return Starts {
            earlier: told.len(),
            last: from,
        };
    }
    was
}

/// Whether the line of an error was told. An error that starts where the last of what was told do is compared with these alone, so that
/// errors in the order of their starts take no more time than there are.
fn was_told(
    alloc: Global,
    program: &Program,
    told: &[Error],
    starts: Starts,
    error: &Error,
) -> Result<bool, AllocError>
    requires { Earlier spec.start told.now starts.earlier starts.last }
    ensures { IfOk result (λ is. is ≡ list_any (spec.have_one_line program.now error.now) told.now) }
{
    if error.span.from < starts.last {
        return is_among(alloc, program, told, error);
    }
    is_among(alloc, program, &told[starts.earlier..], error)
}

/// The errors without those whose line was told before.
pub fn told(alloc: Global, program: &Program, errors: &[Error]) -> Result<Vec<Error>, AllocError>
    ensures told { IfOk result (λ told. told.items ≡ spec.told program.now errors.now) }
{
    let mut told = Vec::new(alloc);
    let mut starts = Starts {
        earlier: 0,
        last: 0,
    };
    for error in errors {
        starts = moved(&told, starts, error.span.from);
        if !was_told(alloc, program, &told, starts, error)? {
            told.push(*error)?;
        }
    }
    Ok(told)
}
