//! What holds of the small program, as the contract of a function that does nothing.

ghost use Rattle.ix_core.specs.declared.fact.Profile.{Profile};
ghost use Rattle.ix_core.specs.Safe.{Safe};
ghost use Rattle.ix_core.specs.Formed.{Formed};
ghost use Rattle.ix_core_example.specs.Counter.{counter};

/// The program is formed, and safe in both profiles: an analysis with facts on slots and on fields keeps the laws for it (`counter_keeps_laws` of its proofs).
pub fn counter_laws()
    ensures formed { Formed counter }
    ensures safe { (profile : Profile) → Safe counter profile }
{}
