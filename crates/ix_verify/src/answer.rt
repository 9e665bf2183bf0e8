//! What is said of a certificate.

ghost use Rattle.std.specs.Prelude.{◌≡◌};
ghost use Rattle.ix_verify.specs.declared.answer.CertError.TheVariants.{Memory};

use ix_core::{Error, Profile};
use std::alloc::AllocError;

/// A certificate that is accepted: the profile that it names, in which the program is safe, and how many labels stand in it.
#[derive(Clone, Copy)]
pub struct Verified {
    pub profile: Profile,
    pub labels: u32,
}

/// Why a certificate isn't accepted.
#[derive(Clone, Copy)]
pub enum CertError {
    /// The bytes are no certificate of the program.
    Form,
    /// A method and a loop of it, the first whose label isn't above what comes to the loop's head.
    Loop(u32, u32),
    /// The labels hold, and the rules derive errors at them: the first of these, as they are listed.
    Rule(Error),
    /// Memory is wanting, and nothing is said.
    Memory,
}

impl From<AllocError> for CertError {
    ghost from_gives = { λ _ stop. stop ≡ Memory };

    fn from(_error: AllocError) -> CertError {
        CertError::Memory
    }
}
