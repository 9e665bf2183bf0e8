//! The laws, as contracts of functions that do nothing.

ghost use Rattle.std.specs.Prelude.{ℕ, ◌<◌, length};
ghost use Rattle.std.specs.Option.{ForSome};
ghost use Rattle.ix_core.specs.declared.program.Program.{Program};
ghost use Rattle.ix_core.specs.Formed.{Formed};
ghost use Rattle.ix_core.specs.Tables.{method_at};
ghost use Rattle.ix_core.specs.Ready.{HasFew};
ghost use Rattle.ix_signatures.specs.Naming.{HaveSmallNames};

/// The claims of a formed program name parameters that are there, and parameters can be counted with 32 bits; so can locals and fields, where this is told.
pub fn names_are_small()
    ensures small { (program : Program) → Formed program → HasFew program → HaveSmallNames program }
{}

/// A method of a formed program overrides one that is there.
pub fn overridden_is_there()
    ensures there { (program : Program) → Formed program → (number : ℕ) → number < length program.methods → ForSome (method_at program number).overrides (λ over. over < length program.methods) }
{}
