//! What a comparison does with `this` before its object is built.

ghost use Rattle.std.specs.Prelude.{◌≡◌, ◌++◌, OnOk};
ghost use Rattle.ix_errors.specs.Exactly.{AddsExactly};
ghost use Rattle.ix_sign.specs.RuleErrors.{TestEscapes, escapes_in};
ghost use Rattle.ix_errors.specs.Escapes.{errors_at};

use crate::ranked::Ranked;
use crate::this::push_if_this;
use ix_core::{Method, Test};
use std::alloc::AllocError;

/// The errors of the uses of slot 0 by a test.
fn push_of_test(out: &mut Vec<Ranked>, test: &Test) -> Result<(), AllocError>
    ensures { OnOk result (out.new.items ≡ out.old.items ++ errors_at (escapes_in test.now)) }
{
    push_if_this(out, test.left, test.left_span).and(push_if_this(out, test.right, test.right_span))
}

/// `this.escapes`: a test of a constructor uses `this`. The only error is want of memory.
pub fn push_escapes_in(
    out: &mut Vec<Ranked>,
    within: &Method,
    test: &Test,
) -> Result<(), AllocError>
    ensures errors { OnOk result (AddsExactly (TestEscapes within.now test.now) out.old.items out.new.items) }
{
    if within.constructor {
        push_of_test(out, test)
    } else {
        Ok(())
    }
}
