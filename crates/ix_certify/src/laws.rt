//! The law, as the contract of a function that does nothing.

ghost use Rattle.ix_core.specs.declared.program.Program.{Program};
ghost use Rattle.ix_core.specs.Formed.{Formed};
ghost use Rattle.ix_core.specs.Ready.{CanCheck};
ghost use Rattle.ix_verify.specs.Verdicts.{CanVerify};

use ix_check::{names_are_small, overridden_is_there};

/// A formed program that can be checked can be verified by a certificate.
pub fn can_verify()
    ensures can { (program : Program) → Formed program → CanCheck program → CanVerify program }
{
    names_are_small();
    overridden_is_there();
}
