//! Which store is behind a block, and both stores behind a condition.

ghost use Rattle.ix_core.specs.Code.{Code, Condition};
ghost use Rattle.std.specs.Prelude.{true, false};
ghost use Rattle.ix_core.specs.Numbers.{Numbers};
ghost use Rattle.ix_facts.specs.Stores.{Stored, Meets, IsBelow, IsClosedStore, Splits};
ghost use Rattle.ix_facts.specs.Decisions.{Decides};

/// The stores behind blocks. Crates above give them, since blocks may hold calls.
pub trait Blocks {
    /// The second store is behind the block, where the first is before it.
    ghost Runs: { Code → Stored → Stored → Type 0 };

    /// The block leads from the first state to the second.
    ghost Leads: { Code → Numbers → Numbers → Type 0 };

    ghost sound: { (code : Code) (s t : Stored) (v w : Numbers) → Runs code s t → Leads code v w → Meets s v → Meets t w };

    ghost closed: { (code : Code) (s t : Stored) → Runs code s t → IsClosedStore s → IsClosedStore t };

    ghost monotone: { (code : Code) (s t u w : Stored) → IsBelow s t → Runs code s u → Runs code t w → IsBelow u w };
}

/// Conditions: a state that meets the store before meets the one of the branch that it takes; both stores are closed, and below those of a store above.
pub fn condition_laws<B: Blocks>()
    ensures held { (asked : Condition) (s holds fails : Stored) (v w : Numbers) → Splits B.Runs asked s holds fails → Decides B.Leads asked true v w → Meets s v → Meets holds w }
    ensures failed { (asked : Condition) (s holds fails : Stored) (v w : Numbers) → Splits B.Runs asked s holds fails → Decides B.Leads asked false v w → Meets s v → Meets fails w }
    ensures closed { (asked : Condition) (s holds fails : Stored) → Splits B.Runs asked s holds fails → IsClosedStore s → IsClosedStore holds × IsClosedStore fails }
    ensures monotone { (asked : Condition) (s t a b c d : Stored) → IsClosedStore t → IsBelow s t → Splits B.Runs asked s a b → Splits B.Runs asked t c d → IsBelow a c × IsBelow b d }
{}
