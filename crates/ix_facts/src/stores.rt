//! The laws of stores, as contracts of functions that do nothing.

ghost use Rattle.std.specs.Prelude.{◌≡◌, false, Bool, ℕ, ℤ, List};
ghost use Rattle.ix_core.specs.declared.claim.Type_.{Type_};
ghost use Rattle.ix_core.specs.declared.fact.Path.{Path};
ghost use Rattle.ix_core.specs.declared.fact.Path.TheVariants.{Slot, FieldOf};
ghost use Rattle.ix_core.specs.declared.fact.PathClaim.{PathClaim};
ghost use Rattle.ix_core.specs.declared.fact.Fact.{Fact};
ghost use Rattle.ix_core.specs.declared.fact.Profile.{Profile};
ghost use Rattle.ix_core.specs.declared.op.OpKind.{OpKind};
ghost use Rattle.ix_core.specs.Numbers.{Numbers};
ghost use Rattle.ix_facts.specs.Facts.{AllHold};
ghost use Rattle.ix_facts.specs.Forget.{of_slot, of_path, of_field, SameBut};
ghost use Rattle.ix_facts.specs.Closure.{SaysAll};
ghost use Rattle.ix_facts.specs.After.{Step, TargetApart};
ghost use Rattle.ix_facts.specs.AfterTest.{Outcome, AllSo};
ghost use Rattle.ix_facts.specs.Assume.{ClaimHolds};
ghost use Rattle.ix_facts.specs.FieldSteps.{IsRead, IsWritten};
ghost use Rattle.ix_facts.specs.Stores.{Stored, Meets, IsBelow, IsClosedStore, IsStoreOf, IsAbove, IsJoined, IsGiven, Gives, IsStep, IsMonotone, IsAfter, IsCopied, IsForgotten, IsRounded, IsAdded, IsAssumed, IsProved, IsEntry, AreTold, OutcomesGive};
ghost use Rattle.ix_facts.specs.Laws.{Alike};

/// The order of stores, the closed store of facts, and joins. The closed store of facts is met by the states that they hold in, and is the least of those
/// that are above. The join of closed stores is closed, and the least above both.
pub fn store_laws()
    ensures order { (s t u : Stored) → IsBelow s s × (IsBelow s t → IsBelow t u → IsBelow s u) }
    ensures meets { (s t : Stored) (v : Numbers) → IsBelow s t → Meets s v → Meets t v }
    ensures closed { (facts : List Fact) (s : Stored) → IsStoreOf facts s → IsClosedStore s }
    ensures sound { (facts : List Fact) (s : Stored) (v : Numbers) → IsStoreOf facts s → AllHold facts v → Meets s v }
    ensures monotone { (strong weak : List Fact) (s t : Stored) → SaysAll strong weak → IsStoreOf strong s → IsStoreOf weak t → IsBelow s t }
    ensures above { (facts : List Fact) (s : Stored) → IsStoreOf facts s → IsAbove facts s }
    ensures least { (facts : List Fact) (s t : Stored) → IsStoreOf facts s → IsAbove facts t → IsBelow s t }
    ensures joined_closed { (s t j : Stored) → IsJoined s t j → IsClosedStore s → IsClosedStore t → IsClosedStore j }
    ensures joined_above { (s t j : Stored) → IsJoined s t j → IsClosedStore s → IsClosedStore t → IsBelow s j × IsBelow t j }
    ensures joined_least { (s t j u : Stored) → IsJoined s t j → IsBelow s u → IsBelow t u → IsBelow j u }
    ensures joined_monotone { (s t j u w k : Stored) → IsJoined s t j → IsJoined u w k → IsClosedStore u → IsClosedStore w → IsBelow s u → IsBelow t w → IsBelow j k }
{}

/// The stores behind rules. The store behind a rule is closed and the least of those that are above what the rule gives. What is sound and monotone of
/// facts is so of stores, without exception: an operation whose exact interval is empty leads to the store that no state meets.
pub fn rule_laws()
    ensures closed { (rule : List Fact → List Fact) (s t : Stored) → IsGiven rule s t → IsClosedStore t }
    ensures sound { (rule : List Fact → List Fact) (v w : Numbers) → ((facts : List Fact) → AllHold facts v → AllHold (rule facts) w) → (s t : Stored) → IsGiven rule s t → Meets s v → Meets t w }
    ensures monotone { (rule : List Fact → List Fact) → IsMonotone rule → (s t u w : Stored) → IsBelow s t → IsGiven rule s u → IsGiven rule t w → IsBelow u w }
    ensures above { (rule : List Fact → List Fact) (s t : Stored) → IsGiven rule s t → Gives rule s t }
    ensures least { (rule : List Fact → List Fact) (s t u : Stored) → IsGiven rule s t → Gives rule s u → IsBelow t u }
    ensures above_sound { (rule : List Fact → List Fact) (v w : Numbers) → ((facts : List Fact) → AllHold facts v → AllHold (rule facts) w) → (s t : Stored) → Gives rule s t → Meets s v → Meets t w }
    ensures step { (rule : List Fact → List Fact) → IsMonotone rule → IsStep (Gives rule) }
    ensures after_sound { (profile : Profile) (kind : OpKind) (v w : Numbers) → TargetApart kind → Step profile kind v w → (s t : Stored) → IsAfter profile kind s t → Meets s v → Meets t w }
    ensures after_monotone { (profile : Profile) (kind : OpKind) (s t u w : Stored) → IsBelow s t → IsAfter profile kind s u → IsAfter profile kind t w → IsBelow u w }
    ensures copied_sound { (ty : Type_) (t p : Path) (v w : Numbers) → Alike w t p → SameBut (of_path t) v w → (s u : Stored) → IsCopied ty t p s u → Meets s v → Meets u w }
    ensures copied_monotone { (ty : Type_) (p q : Path) (s t u w : Stored) → IsBelow s t → IsCopied ty p q s u → IsCopied ty p q t w → IsBelow u w }
    ensures forgotten_sound { (is : Path → Bool) (v w : Numbers) → SameBut is v w → (s t : Stored) → IsForgotten is s t → Meets s v → Meets t w }
    ensures forgotten_monotone { (is : Path → Bool) (s t u w : Stored) → IsBelow s t → IsForgotten is s u → IsForgotten is t w → IsBelow u w }
    ensures forgotten_above { (is : Path → Bool) (s t : Stored) → IsClosedStore s → IsForgotten is s t → IsBelow s t }
    ensures rounded_sound { (marks : List ℤ) (scope : ℕ) (v : Numbers) (s t : Stored) → IsRounded marks scope s t → Meets s v → Meets t v }
    ensures rounded_monotone { (marks : List ℤ) (scope : ℕ) (s t u w : Stored) → IsBelow s t → IsRounded marks scope s u → IsRounded marks scope t w → IsBelow u w }
    ensures rounded_above { (marks : List ℤ) (scope : ℕ) (s t : Stored) → IsClosedStore s → IsRounded marks scope s t → IsBelow s t }
    ensures added_sound { (more : List Fact) (v : Numbers) → AllHold more v → (s t : Stored) → IsAdded more s t → Meets s v → Meets t v }
    ensures added_monotone { (more fewer : List Fact) (s t u w : Stored) → SaysAll more fewer → IsBelow s t → IsAdded more s u → IsAdded fewer t w → IsBelow u w }
    ensures added_below { (more : List Fact) (s t : Stored) → IsAdded more s t → IsBelow t s }
    ensures assumed_sound { (claim : PathClaim) (p : Path) (v : Numbers) → ClaimHolds claim p v → (s t : Stored) → IsAssumed claim p s t → Meets s v → Meets t v }
    ensures proved_sound { (claim : PathClaim) (p : Path) (s : Stored) (v : Numbers) → IsProved claim p s → Meets s v → ClaimHolds claim p v }
    ensures proved_monotone { (claim : PathClaim) (p : Path) (s t : Stored) → IsBelow s t → IsProved claim p t → IsProved claim p s }
    ensures told_sound { (outcomes : List Outcome) (s t : Stored) (v : Numbers) → AreTold outcomes s t → AllSo outcomes v → Meets s v → Meets t v }
    ensures told_monotone { (outcomes : List Outcome) (s t u w : Stored) → IsBelow s t → AreTold outcomes s u → AreTold outcomes t w → IsBelow u w }
    ensures told_above { (outcomes : List Outcome) (s t : Stored) → AreTold outcomes s t → OutcomesGive outcomes s t }
    ensures told_least { (outcomes : List Outcome) (s t u : Stored) → AreTold outcomes s t → OutcomesGive outcomes s u → IsBelow t u }
    ensures outcomes_sound { (outcomes : List Outcome) (s t : Stored) (v : Numbers) → OutcomesGive outcomes s t → AllSo outcomes v → Meets s v → Meets t v }
    ensures outcomes_step { (outcomes : List Outcome) → IsStep (OutcomesGive outcomes) }
    ensures entry_sound { (facts : List Fact) (s : Stored) (v : Numbers) → IsEntry facts s → AllHold facts v → Meets s v }
    ensures entry_monotone { (strong weak : List Fact) (s t : Stored) → SaysAll strong weak → IsEntry strong s → IsEntry weak t → IsBelow s t }
{}

/// Reads and writes of fields: a read is a copy from the field's path; a write forgets the field wherever it may be the same, and is then a copy to its path.
pub fn field_laws()
    ensures read_sound { (ty : Type_) (t o f : ℕ) (v w : Numbers) → of_slot t (Slot o) ≡ false → IsRead t o f v w → (s u : Stored) → IsCopied ty (Slot t) (FieldOf o f) s u → Meets s v → Meets u w }
    ensures written_sound { (ty : Type_) (o f x : ℕ) (spared : ℕ → Bool) (v w : Numbers) → IsWritten o f x spared v w → (s between u : Stored) → IsForgotten (of_field f spared) s between → IsCopied ty (FieldOf o f) (Slot x) between u → Meets s v → Meets u w }
{}
