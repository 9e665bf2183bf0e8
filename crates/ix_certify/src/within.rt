//! The law, as the contract of a function that does nothing.

ghost use Rattle.std.specs.Prelude.{ℕ, ◌<◌, length};
ghost use Rattle.ix_core.specs.declared.fact.Profile.{Profile};
ghost use Rattle.ix_core.specs.declared.program.Program.{Program};
ghost use Rattle.ix_core.specs.Formed.{Formed};
ghost use Rattle.ix_core.specs.Tables.{method_at, body_of};
ghost use Rattle.ix_facts.specs.Stores.{Stored};
ghost use Rattle.ix_flow.specs.Flow.{IsLeastFlow};
ghost use Rattle.ix_sign.specs.MethodRules.{method_rules};
ghost use Rattle.ix_certify.specs.Within.{StoreWithin, is_inside};

/// The least labels of a method of a formed program speak of its own slots alone, and of the program's fields of the objects in these; and they compare no int with itself.
pub fn labels_are_within()
    ensures within { (program : Program) (profile : Profile) (number loops : ℕ) (labels : ℕ → Stored) → Formed program → number < length program.methods
        → IsLeastFlow (method_rules program (method_at program number) profile) (body_of (method_at program number)) loops labels
        → (loop : ℕ) → loop < loops → StoreWithin (is_inside (method_at program number).slots (length program.fields)) (labels loop) }
{}
