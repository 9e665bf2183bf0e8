//! How sums count, as a command says it.
ghost use Rattle.std.specs.Prelude.{◌≡◌};
ghost use Rattle.ix_commands.specs.Judgements as judgements;

use ix_core::Profile;
use ix_words::Sums;

/// How sums count.
pub(crate) fn profile_of(sums: Sums) -> Profile
    ensures { result ≡ judgements.profile_of sums }
{
    match sums {
        Sums::Ideal => Profile::Ideal,
        Sums::Int32 => Profile::Int32,
    }
}
