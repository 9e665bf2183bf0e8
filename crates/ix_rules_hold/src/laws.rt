//! That the machine steps as the rules do, as contracts of functions that do nothing.

ghost use Rattle.std.specs.Prelude.{◌≡◌, ◌==◌, Bool, true, false, not, ◌&&◌, ◌||◌, ℕ, List, None, Some};
ghost use Rattle.ix_num.specs.declared.rel.Rel.{Rel};
ghost use Rattle.ix_core.specs.declared.claim.Claim.{Claim};
ghost use Rattle.ix_core.specs.declared.claim.Name.{Name};
ghost use Rattle.ix_core.specs.declared.claim.Name.TheVariants.{FieldNamed};
ghost use Rattle.ix_core.specs.declared.claim.Type_.{Type_};
ghost use Rattle.ix_core.specs.declared.fact.Path.{Path};
ghost use Rattle.ix_core.specs.declared.fact.Path.TheVariants.{Slot, FieldOf};
ghost use Rattle.ix_core.specs.declared.fact.Fact.{Fact};
ghost use Rattle.ix_core.specs.declared.fact.Profile.{Profile};
ghost use Rattle.ix_core.specs.declared.fact.Profile.TheVariants.{Int32};
ghost use Rattle.ix_core.specs.declared.op.Op.{Op};
ghost use Rattle.ix_core.specs.declared.op.OpKind.{OpKind};
ghost use Rattle.ix_core.specs.declared.op.OpKind.TheVariants.{Load, Print};
ghost use Rattle.ix_core.specs.declared.program.Method.{Method};
ghost use Rattle.ix_core.specs.Claims.{True};
ghost use Rattle.ix_core.specs.Heap.{Held, At, Heap, Places, value_at, object_at, place_in, write_at};
ghost use Rattle.ix_core.specs.Tables.{Tables, method_at};
ghost use Rattle.ix_core.specs.World.{World};
ghost use Rattle.ix_core.specs.Safe.{Input, HaveTypes, start};
ghost use Rattle.ix_core.specs.declared.program.Program.{Program};
ghost use Rattle.ix_core.specs.Machine.{CallKind, Limits, Done, Wrapped, operate, test_of, State, effect_then, moved, step};
ghost use Rattle.ix_core.specs.Code.{Code, Do};
ghost use Rattle.ix_core.specs.Tasks.{Tasks, Run, code_then};
ghost use Rattle.ix_core.specs.Objects.{HeapKeeps, FrameKeeps, AllOn, KeepsInts, IntsOnly, field_readings};
ghost use Rattle.ix_core.specs.Analysis.{IsWorld};
ghost use Rattle.ix_core.specs.Waits.{Since, is_super, param_readings};
ghost use Rattle.ix_rules_hold.specs.MachineSteps.{HasTarget, LoadsMet, HoldsElements, reading_at, own_slot, on_paths, own_path, IsDeclared};
ghost use Rattle.ix_core.specs.Numbers.{Numbers, HasInts, numbers_of};
ghost use Rattle.ix_facts.specs.Facts.{AllHold};
ghost use Rattle.ix_facts.specs.Forget.{SameBut, of_call, of_field, of_this};
ghost use Rattle.ix_facts.specs.After.{Step, TargetApart, after_facts};
ghost use Rattle.ix_facts.specs.AfterTest.{AllSo, when_true, when_false};
ghost use Rattle.ix_facts.specs.Assume.{ClaimHolds};

/// The machine and the rules: a step of a state whose next task is an operation does it (`does`), and each operation that goes on is a step between the numbers of paths that the rules speak of. Its premises
/// are what the machine keeps (`ints`, `numbers`, `references`), what a formed program has (its slots lie in the frame, its literals are ints), and, of
/// a `Load`, what the heap keeps where types are right (`loads`).
pub fn machine_laws()
    ensures does { (limits : Limits) (tables : Tables) (state : State) (done : Op) (code : Code) (tasks : Tasks) → state.ended ≡ None → state.now.tasks ≡ Run (Do done code) tasks → step limits tables state ≡ moved limits tables (effect_then (operate limits tables done.span.from state.now.slots state.heap done.kind) done.span.from (code_then code tasks)) state }
    ensures steps { (profile : Profile) (limits : Limits) (tables : Tables) (at : ℕ) (slots : List Held) (heap : Heap) (later : List Held) (after : Heap) (before : HasInts tables.place slots heap) (behind : HasInts tables.place later after) (kind : OpKind) → HasTarget kind slots → LoadsMet kind slots heap → AllOn slots heap → operate limits tables at slots heap kind ≡ Done later after → Step profile kind (numbers_of tables.place slots heap before) (numbers_of tables.place later after behind) }
    ensures wrapped { (limits : Limits) (tables : Tables) (at : ℕ) (slots : List Held) (heap : Heap) (later : List Held) (after : Heap) (before : HasInts tables.place slots heap) (behind : HasInts tables.place later after) (kind : OpKind) → HasTarget kind slots → operate limits tables at slots heap kind ≡ Wrapped later after → Step Int32 kind (numbers_of tables.place slots heap before) (numbers_of tables.place later after behind) }
    ensures facts { (profile : Profile) (limits : Limits) (tables : Tables) (at : ℕ) (slots : List Held) (heap : Heap) (later : List Held) (after : Heap) (before : HasInts tables.place slots heap) (behind : HasInts tables.place later after) (kind : OpKind) (facts : List Fact) → HasTarget kind slots → LoadsMet kind slots heap → AllOn slots heap → TargetApart kind → operate limits tables at slots heap kind ≡ Done later after → AllHold facts (numbers_of tables.place slots heap before) → AllHold (after_facts facts profile kind) (numbers_of tables.place later after behind) }
    ensures wrapped_facts { (limits : Limits) (tables : Tables) (at : ℕ) (slots : List Held) (heap : Heap) (later : List Held) (after : Heap) (before : HasInts tables.place slots heap) (behind : HasInts tables.place later after) (kind : OpKind) (facts : List Fact) → HasTarget kind slots → TargetApart kind → operate limits tables at slots heap kind ≡ Wrapped later after → AllHold facts (numbers_of tables.place slots heap before) → AllHold (after_facts facts Int32 kind) (numbers_of tables.place later after behind) }
    ensures printed { (profile : Profile) (value : ℕ) (v : Numbers) → Step profile (Print value) v v }
    ensures ints { (limits : Limits) (tables : Tables) (at : ℕ) (slots : List Held) (heap : Heap) → KeepsInts slots heap → (kind : OpKind) (later : List Held) (after : Heap) → IntsOnly kind → operate limits tables at slots heap kind ≡ Done later after → KeepsInts later after }
    ensures wrapped_ints { (limits : Limits) (tables : Tables) (at : ℕ) (slots : List Held) (heap : Heap) → KeepsInts slots heap → (kind : OpKind) (later : List Held) (after : Heap) → IntsOnly kind → operate limits tables at slots heap kind ≡ Wrapped later after → KeepsInts later after }
    ensures begins { (program : Program) (method : ℕ) (inputs : List Input) → HaveTypes inputs (method_at program method).param_types → KeepsInts (start program method inputs).now.slots (start program method inputs).heap }
    ensures numbers { (place : Places) (slots : List Held) (heap : Heap) → KeepsInts slots heap → HasInts place slots heap }
    ensures loads { (world : World) (is_building : ℕ → Bool) (slots : List Held) (heap : Heap) → HeapKeeps world (λ object. is_building object ≡ true) heap → (t array index : ℕ) (ty : Type_) → ((number : ℕ) → value_at slots array ≡ At number → HoldsElements ty heap number) → LoadsMet (Load t array index ty) slots heap }
    ensures references { (world : World) (is_building : ℕ → Bool) (method : Method) (slots : List Held) (heap : Heap) → HeapKeeps world (λ object. is_building object ≡ true) heap → FrameKeeps (λ object. is_building object ≡ true) method slots heap → AllOn slots heap }
{}

/// The tests and the claims of the machine in the numbers of paths: a test that is answered tells its outcomes, and a claim is true exactly where it
/// holds of the paths of its names.
pub fn meaning_laws()
    ensures told_true { (place : Places) (slots : List Held) (heap : Heap) (ints : HasInts place slots heap) (left right : ℕ) (ty : Type_) (rel : Rel) → test_of ty rel (value_at slots left) (value_at slots right) ≡ true → AllSo (when_true ty rel (Slot left) (Slot right)) (numbers_of place slots heap ints) }
    ensures told_false { (place : Places) (slots : List Held) (heap : Heap) (ints : HasInts place slots heap) (left right : ℕ) (ty : Type_) (rel : Rel) → test_of ty rel (value_at slots left) (value_at slots right) ≡ false → AllSo (when_false ty rel (Slot left) (Slot right)) (numbers_of place slots heap ints) }
    ensures claim_holds { (v : Numbers) (path : Name → Path) (p : Path) (claim : Claim) → True claim (reading_at v p) (λ name. reading_at v (path name)) → ClaimHolds (on_paths path claim) p v }
    ensures claim_true { (v : Numbers) (path : Name → Path) (p : Path) (claim : Claim) → ClaimHolds (on_paths path claim) p v → True claim (reading_at v p) (λ name. reading_at v (path name)) }
    ensures parameters { (world : World) (method : Method) (slots : List Held) (heap : Heap) (ints : HasInts world.place slots heap) (name : Name) → IsDeclared name → param_readings world method slots heap name ≡ reading_at (numbers_of world.place slots heap ints) (own_path method name) }
    ensures fields { (world : World) (slots : List Held) (heap : Heap) (ints : HasInts world.place slots heap) (slot object field : ℕ) → value_at slots slot ≡ At object → field_readings world heap object (FieldNamed field) ≡ reading_at (numbers_of world.place slots heap ints) (FieldOf slot field) }
{}

/// What keeps its numbers across a call and a write of a field: all but the fields that the rules forget.
pub fn stay_laws()
    ensures call { (world : World) (caller callee : Method) (kind : CallKind) (slots : List Held) (began heap : Heap) (before : HasInts world.place slots began) (behind : HasInts world.place slots heap) → is_super kind ≡ false → AllOn slots began → Since world caller callee kind slots began heap → SameBut (of_call world.is_final (own_slot caller)) (numbers_of world.place slots began before) (numbers_of world.place slots heap behind) }
    ensures super_call { (world : World) (caller callee : Method) (kind : CallKind) (slots : List Held) (began heap : Heap) (before : HasInts world.place slots began) (behind : HasInts world.place slots heap) → AllOn slots began → Since world caller callee kind slots began heap → SameBut (λ p. of_this p || of_call world.is_final (own_slot caller) p) (numbers_of world.place slots began before) (numbers_of world.place slots heap behind) }
    ensures write { (world : World) → IsWorld world → (is_building : ℕ → Bool) (method : Method) (slots : List Held) (heap : Heap) → HeapKeeps world (λ object. is_building object ≡ true) heap → FrameKeeps (λ object. is_building object ≡ true) method slots heap → AllOn slots heap → (object field number at value : ℕ) → value_at slots object ≡ At number → place_in world.place (object_at heap number).kind field ≡ Some at → (before : HasInts world.place slots heap) (behind : HasInts world.place slots (write_at heap number at (value_at slots value))) → SameBut (of_field field (λ slot. own_slot method slot && not (object == 0))) (numbers_of world.place slots heap before) (numbers_of world.place slots (write_at heap number at (value_at slots value)) behind) }
{}
