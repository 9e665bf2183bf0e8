//! A system of facts: a table of the facts of one kind, and what the rules give of them.

ghost use Rattle.std.specs.Prelude.{◌≡◌, ◌<◌, ◌↔◌, true, List, length, slice_get, Some, IfOk};
ghost use Rattle.ix_core.specs.declared.fact.Fact.{Fact};
ghost use Rattle.ix_lattice.specs.Lattice.{IsJoin};
ghost use Rattle.ix_facts.specs.declared.kind.Kind.{Kind};
ghost use Rattle.ix_facts.specs.Facts.{IsIn};
ghost use Rattle.ix_facts.specs.Forget.{of_path, without};
ghost use Rattle.ix_facts.specs.Closure.{SaysAll, IsCommon};
ghost use Rattle.ix_facts.specs.After.{of_target};
ghost use Rattle.ix_facts.specs.Kinds.{is_of};
ghost use Rattle.ix_facts.specs.Systems.{IsTable, system_after, system_copy, system_rounded, system_added, IsProper, MayStand};
ghost use Rattle.ix_facts.specs.Round.{Rises};

use crate::know::Know;
use crate::landmarks::Landmarks;
use ix_core::{Fact, Op, Path, Profile, Type_};
use ix_lattice::Lattice;
use std::alloc::{AllocError, Global};

/// Facts of one kind in a table, with at most one constant at a key. Each answer is the part of the rules that is of this kind, before it is closed, or
/// want of memory. That the answers are sound and monotone is `system_laws`.
pub trait System: Lattice {
    /// The facts of the table.
    ghost known: { Self → List Fact };

    /// The kind of the table's facts.
    ghost kind: { Kind };

    /// The table after an operation, by what is known: the conditions are that what the table says without the target is known, and that nothing that
    /// is known names the target, so that the bounds of what is known are those that the rules read.
    fn after<K: Know>(
        &self,
        alloc: Global,
        op: &Op,
        know: &K,
        profile: Profile,
    ) -> Result<Self, AllocError>
        requires known { SaysAll (K.known know.now) (without (of_target op.now.kind) (known self.now)) }
        requires beside { without (of_target op.now.kind) (K.known know.now) ≡ K.known know.now }
        ensures facts { IfOk result (λ table. IsTable (system_after kind (K.known know.now) (known self.now) profile op.now.kind) (known table)) };

    /// The table after the value of one path was given to another, under the same conditions.
    fn copy<K: Know>(
        &self,
        alloc: Global,
        target: &Path,
        source: &Path,
        ty: &Type_,
        know: &K,
        profile: Profile,
    ) -> Result<Self, AllocError>
        requires known { SaysAll (K.known know.now) (without (of_path target.now) (known self.now)) }
        requires beside { without (of_path target.now) (K.known know.now) ≡ K.known know.now }
        ensures facts { IfOk result (λ table. IsTable (system_copy kind (K.known know.now) (known self.now) ty.now target.now source.now) (known table)) };

    /// The table with each fact moved to the landmarks.
    fn round(&self, alloc: Global, marks: &Landmarks) -> Result<Self, AllocError>
        requires marks { Rises marks.now.ints }
        ensures facts { IfOk result (λ table. IsTable (system_rounded marks.now.ints (known self.now)) (known table)) };

    /// The table without the facts that name the path; of a slot also without those that name a field of the object in it.
    fn forget(&self, alloc: Global, path: &Path) -> Result<Self, AllocError>
        ensures facts { IfOk result (λ table. IsTable (without (of_path path.now) (known self.now)) (known table)) };

    /// The table with a fact; an equal one where the fact is of another kind.
    fn add(&self, alloc: Global, fact: &Fact) -> Result<Self, AllocError>
        requires fact { IsProper fact.now }
        ensures facts { IfOk result (λ table. IsTable (system_added kind (known self.now) fact.now) (known table)) };

    /// How many facts there are. It takes no memory.
    fn facts(&self) -> u128
        ensures count { result ≡ length (known self.now) };

    /// The fact of this number, from 0. It takes no memory.
    fn fact(&self, k: u128) -> Fact
        requires number { k < length (known self.now) }
        ensures fact { slice_get (known self.now) k ≡ Some result };

    /// The table has facts of its kind alone.
    ghost owned: { (table : Self) (f : Fact) → IsIn f (known table) → is_of kind f ≡ true };

    /// The table has no range that is said of every path, and no range but of ints, unless it is empty.
    ghost entries: { (table : Self) (f : Fact) → IsIn f (known table) → MayStand f };

    /// A table is below another exactly where it says each fact that the other says.
    ghost order: { (low high : Self) → (Self.Below low high ↔ SaysAll (known low) (known high)) };

    /// The join of two tables says what both say.
    ghost joined: { (first second join : Self) → IsJoin Self.Below first second join → IsCommon (known first) (known second) (known join) };
}
