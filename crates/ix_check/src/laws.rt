//! The laws, as contracts of functions that do nothing.

ghost use Rattle.std.specs.Prelude.{◌≡◌, ◌↔◌, ◌<◌, ℕ, length};
ghost use Rattle.ix_core.specs.declared.error.Error.{Error};
ghost use Rattle.ix_core.specs.declared.fact.Profile.{Profile};
ghost use Rattle.ix_core.specs.declared.program.Program.{Program};
ghost use Rattle.ix_core.specs.Code.{block_code};
ghost use Rattle.ix_core.specs.Formed.{Formed};
ghost use Rattle.ix_core.specs.Tables.{method_at};
ghost use Rattle.ix_graph.specs.Graph.{method_parts};
ghost use Rattle.ix_graph.specs.Heads.{AreInOrder};
ghost use Rattle.ix_check.specs.MethodErrors.{IsErrorOf};
ghost use Rattle.ix_check.specs.Signatures.{signatures, ErrorsOf};

/// A method of a formed program is judged by itself and by signatures: it has the same errors where every method is its signature alone (`alone`). So
/// two formed programs with the same signatures have the same errors in a method that is the same in both, whatever the bodies of the others are (`same`).
pub fn judged_alone()
    ensures alone { (program : Program) → Formed program → (profile : Profile) (number : ℕ) (error : Error) (rank : ℕ)
        → IsErrorOf program profile number error rank ↔ ErrorsOf (signatures program) (method_at program number) number profile error rank }
    ensures same { (program other : Program) → Formed program → Formed other → signatures program ≡ signatures other → (number : ℕ) → method_at program number ≡ method_at other number
        → (profile : Profile) (error : Error) (rank : ℕ) → IsErrorOf program profile number error rank ↔ IsErrorOf other profile number error rank }
{}

/// The loops of each method of a formed program are numbered in the order of their heads.
pub fn loops_are_in_order()
    ensures in_order { (program : Program) → Formed program → (number : ℕ) → number < length program.methods → AreInOrder 0 (method_parts (block_code (method_at program number).body)) }
{}
