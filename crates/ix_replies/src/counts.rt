//! What an accepted program is counted by.

ghost use Rattle.std.specs.Prelude.{◌≤◌, ◌≡◌};
ghost use Rattle.ix_core.specs.Formed.{Formed};
ghost use Rattle.ix_replies.specs.Counts as counts;

use ix_core::{Method, Program};

/// What an accepted program is counted by.
#[derive(Clone, Copy, Debug, PartialEq, Eq)]
pub struct Counts {
    /// The methods and constructors that are written.
    pub methods: u32,
    /// The array access expressions.
    pub accesses: u32,
}

/// How many methods are written.
fn written_in(methods: &[Method]) -> u32
    requires few { counts.written_in methods.now ≤ 4096 }
    ensures { result ≡ counts.written_in methods.now }
{
    let mut written = 0;
    for method in methods {
        if method.written {
            written += 1;
        }
    }
    written
}

/// The counts of a program.
#[tactic(auto, using(crate::proofs::FewMethods::few_written))]
pub fn count_program(program: &Program) -> Counts
    requires formed { Formed program.now }
    ensures { result ≡ counts.counts_of program.now }
{
    Counts {
        methods: written_in(program.methods.as_slice()),
        accesses: program.accesses,
    }
}
