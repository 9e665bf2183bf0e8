//! Why a rule read no node.

use std::alloc::{AllocError, AllocFailed};

/// Why a rule read no node: the next token doesn't go on with the rule, what it begins is higher than the height that is left, or want of
/// memory.
#[derive(Clone, Copy)]
pub enum Stop {
    Syntax,
    TooDeep,
    Memory,
}

impl From<AllocError> for Stop {
    ghost use Rattle.std.specs.Prelude.{◌≡◌};
    ghost use Rattle.ix_grammar_rules.specs.declared.stop.Stop.TheVariants.{Memory};

    ghost from_gives = { λ _ stop. stop ≡ Memory };

    fn from(_error: AllocError) -> Stop {
        Stop::Memory
    }
}

impl<T: Drop> From<AllocFailed<T>> for Stop {
    ghost use Rattle.std.specs.Prelude.{◌≡◌};
    ghost use Rattle.ix_grammar_rules.specs.declared.stop.Stop.TheVariants.{Memory};

    ghost from_gives = { λ _ stop. stop ≡ Memory };

    fn from(_error: AllocFailed<T>) -> Stop {
        Stop::Memory
    }
}
