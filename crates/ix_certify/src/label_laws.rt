//! The law, as the contract of a function that does nothing.

ghost use Rattle.std.specs.Prelude.{◌≡◌, ℕ, ◌<◌, List, length, map, slice_get, Some};
ghost use Rattle.ix_core.specs.declared.fact.Profile.{Profile};
ghost use Rattle.ix_core.specs.declared.program.Program.{Program};
ghost use Rattle.ix_core.specs.Formed.{Formed};
ghost use Rattle.ix_core.specs.Tables.{method_at};
ghost use Rattle.ix_store.specs.declared.store.Store.{Store};
ghost use Rattle.ix_store.specs.StoredFacts.{stored};
ghost use Rattle.ix_cert.specs.Labellings.{loops_of};
ghost use Rattle.ix_cert.specs.Adding.{AreLabels, MayBeLabels};
ghost use Rattle.ix_labels.specs.LoopLabels.{AreLoopLabels};

use crate::labels_are_within;

/// The least labels of a method of a formed program are as many as it has loops, and may be written down; and so may those of all its methods together.
pub fn least_labels_may_be_written()
    ensures one { (program : Program) (profile : Profile) (number : ℕ) (found : List Store) → Formed program → number < length program.methods
        → AreLoopLabels program (method_at program number) profile found
        → (length found ≡ loops_of (method_at program number)) × MayBeLabels (method_at program number).slots (length program.fields) (map stored found) }
    ensures all { (program : Program) (profile : Profile) (labels : List (List Store)) → Formed program → length labels ≡ length program.methods
        → ((number : ℕ) (found : List Store) → slice_get labels number ≡ Some found → AreLoopLabels program (method_at program number) profile found)
        → AreLabels program (map (map stored) labels) }
{
    labels_are_within();
}
