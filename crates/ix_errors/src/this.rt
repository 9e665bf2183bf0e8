//! Errors of places where `this` is used.

ghost use Rattle.std.specs.Prelude.{◌≡◌, ◌++◌, ◌==◌, [], OnOk};
ghost use Rattle.ix_sign.specs.RuleErrors.{this_args, this_entries};
ghost use Rattle.ix_errors.specs.Escapes.{errors_at, place_if};

use crate::parts::part;
use crate::ranked::{Ranked, push_plain};
use ix_core::{Arg, Op};
use ix_text::Span;
use std::alloc::AllocError;

/// The error of a place, if the slot there is that of `this`.
pub(crate) fn push_if_this(out: &mut Vec<Ranked>, slot: u32, place: Span) -> Result<(), AllocError>
    ensures { OnOk result (out.new.items ≡ out.old.items ++ errors_at (place_if (slot == 0) place)) }
{
    if slot == 0 {
        return push_plain(out, 14, place);
    }
    Ok(())
}

/// The errors of the arguments that are `this`.
pub(crate) fn push_this_args(out: &mut Vec<Ranked>, args: &[Arg]) -> Result<(), AllocError>
    ensures { OnOk result (out.new.items ≡ out.old.items ++ errors_at (this_args args.now)) }
{
    for arg in args {
        push_if_this(out, arg.slot, arg.span)?;
    }
    Ok(())
}

/// The errors of the entries that are `this`.
pub(crate) fn push_this_entries(
    out: &mut Vec<Ranked>,
    done: &Op,
    entries: &[u32],
) -> Result<(), AllocError>
    ensures { OnOk result (out.new.items ≡ out.old.items ++ errors_at (this_entries done.now 0 entries.now)) }
{
    for at in 0..entries.len() {
        push_if_this(out, entries[at], part(done, at))?;
    }
    Ok(())
}
