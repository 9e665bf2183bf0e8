//! That the machine's reads and writes of fields are the rules', as contracts of functions that do nothing.

ghost use Rattle.std.specs.Prelude.{◌≡◌, ◌<◌, Bool, true, false, ℕ, List, length};
ghost use Rattle.ix_core.specs.declared.claim.Type_.{Type_};
ghost use Rattle.ix_core.specs.declared.fact.Path.TheVariants.{Slot, FieldOf};
ghost use Rattle.ix_core.specs.declared.op.OpKind.TheVariants.{ReadField, WriteField};
ghost use Rattle.ix_core.specs.declared.program.Method.{Method};
ghost use Rattle.ix_core.specs.Analysis.{IsWorld};
ghost use Rattle.ix_core.specs.Heap.{Held, Heap};
ghost use Rattle.ix_core.specs.Machine.{Limits, Done, operate};
ghost use Rattle.ix_core.specs.Numbers.{HasInts, numbers_of};
ghost use Rattle.ix_core.specs.Objects.{HeapKeeps, FrameKeeps};
ghost use Rattle.ix_core.specs.Tables.{Tables};
ghost use Rattle.ix_core.specs.World.{World, tables_in};
ghost use Rattle.ix_facts.specs.Forget.{of_slot, of_field};
ghost use Rattle.ix_facts.specs.FieldSteps.{IsRead, IsWritten};
ghost use Rattle.ix_facts.specs.Stores.{Stored, Meets, IsCopied, IsForgotten};
ghost use Rattle.ix_rules_hold.specs.FieldAccess.{HasFieldCells, HoldOthers, IsThisAlone, spared_by};

/// A read of a field that the machine does gives its target what the field had, and changes nothing else (`read`). A write that it does gives the field what its value had, and
/// changes nothing else but that field through slots that aren't spared, if each object has cells for its fields and no spared slot holds the written object (`written`). In a
/// constructor a write through another slot may spare `this` exactly if no other slot holds it (`this_is_spared`, `only_so`); in a method a write spares none (`methods_spare_none`), and
/// so does a write through `this`. What is kept of a heap and a frame says that the cells are there and that `this` is alone (`cells`, `alone`), so a write is one by the rules
/// (`written_by_rule`). What a store says of a state, the store behind a read or a write says of the state behind it (`read_facts`, `written_facts`).
pub fn field_steps()
    ensures read { (limits : Limits) (tables : Tables) (at : ℕ) (slots : List Held) (heap : Heap) (later : List Held) (after : Heap) (before : HasInts tables.place slots heap) (behind : HasInts tables.place later after) (target object field : ℕ) → target < length slots → operate limits tables at slots heap (ReadField target object field) ≡ Done later after → IsRead target object field (numbers_of tables.place slots heap before) (numbers_of tables.place later after behind) }
    ensures read_facts { (limits : Limits) (tables : Tables) (at : ℕ) (slots : List Held) (heap : Heap) (later : List Held) (after : Heap) (before : HasInts tables.place slots heap) (behind : HasInts tables.place later after) (ty : Type_) (target object field : ℕ) (known told : Stored) → target < length slots → of_slot target (Slot object) ≡ false → operate limits tables at slots heap (ReadField target object field) ≡ Done later after → IsCopied ty (Slot target) (FieldOf object field) known told → Meets known (numbers_of tables.place slots heap before) → Meets told (numbers_of tables.place later after behind) }
    ensures written { (limits : Limits) (tables : Tables) (at : ℕ) (slots : List Held) (heap : Heap) (later : List Held) (after : Heap) (before : HasInts tables.place slots heap) (behind : HasInts tables.place later after) → HasFieldCells tables.place heap → (through field value : ℕ) (spared : ℕ → Bool) → HoldOthers spared slots through → operate limits tables at slots heap (WriteField through field value) ≡ Done later after → IsWritten through field value spared (numbers_of tables.place slots heap before) (numbers_of tables.place later after behind) }
    ensures this_is_spared { (method : Method) (slots : List Held) → IsThisAlone method slots → (through : ℕ) → HoldOthers (spared_by method through) slots through }
    ensures only_so { (method : Method) (slots : List Held) → ((through : ℕ) → HoldOthers (spared_by method through) slots through) → IsThisAlone method slots }
    ensures methods_spare_none { (method : Method) → method.constructor ≡ false → (through slot : ℕ) → spared_by method through slot ≡ false }
    ensures through_this_spares_none { (method : Method) (slot : ℕ) → spared_by method 0 slot ≡ false }
    ensures cells { (world : World) → IsWorld world → (is_building : ℕ → Bool) (heap : Heap) → HeapKeeps world (λ object. is_building object ≡ true) heap → HasFieldCells world.place heap }
    ensures alone { (is_building : ℕ → Bool) (method : Method) (slots : List Held) (heap : Heap) → FrameKeeps (λ object. is_building object ≡ true) method slots heap → IsThisAlone method slots }
    ensures written_by_rule { (limits : Limits) (world : World) (at : ℕ) (method : Method) (slots : List Held) (heap : Heap) (later : List Held) (after : Heap) (before : HasInts world.place slots heap) (behind : HasInts world.place later after) → HasFieldCells world.place heap → IsThisAlone method slots → (through field value : ℕ) → operate limits (tables_in world) at slots heap (WriteField through field value) ≡ Done later after → IsWritten through field value (spared_by method through) (numbers_of world.place slots heap before) (numbers_of world.place later after behind) }
    ensures written_facts { (limits : Limits) (world : World) (at : ℕ) (method : Method) (slots : List Held) (heap : Heap) (later : List Held) (after : Heap) (before : HasInts world.place slots heap) (behind : HasInts world.place later after) → HasFieldCells world.place heap → IsThisAlone method slots → (ty : Type_) (through field value : ℕ) (known between told : Stored) → operate limits (tables_in world) at slots heap (WriteField through field value) ≡ Done later after → IsForgotten (of_field field (spared_by method through)) known between → IsCopied ty (FieldOf through field) (Slot value) between told → Meets known (numbers_of world.place slots heap before) → Meets told (numbers_of world.place later after behind) }
{}
