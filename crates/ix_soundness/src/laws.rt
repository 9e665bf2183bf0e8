//! The promise, as the contract of a function that does nothing.

ghost use Rattle.std.specs.Prelude.{◌≡◌, ℕ, ◌<◌, true, List, length};
ghost use Rattle.ix_core.specs.declared.claim.Type_.{Type_};
ghost use Rattle.ix_core.specs.declared.fact.Profile.{Profile};
ghost use Rattle.ix_core.specs.declared.program.Program.{Program};
ghost use Rattle.ix_core.specs.Formed.{is_formed};
ghost use Rattle.ix_core.specs.Safe.{Safe};
ghost use Rattle.ix_soundness.specs.Sound.{HasNoErrors};
ghost use Rattle.ix_core.specs.Ready.{LocalsApart};

/// A formed program in which the rules derive no error of any method is safe: no run of it indexes outside an array or makes one of negative length. The plain form doesn't ask that a
/// claim on a local names no other local of the same slot; the promise does, and every program that comes of a source has it.
pub fn soundness()
    ensures sound { (program : Program) (locals : List (List Type_)) (profile : Profile) → is_formed program locals ≡ true → LocalsApart program → ((number : ℕ) → number < length program.methods → HasNoErrors program profile number) → Safe program profile }
{}
