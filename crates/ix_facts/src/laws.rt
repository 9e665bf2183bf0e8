//! The laws of facts and rules, as contracts of functions that do nothing: sound, that what is derived is true wherever the facts are; and
//! monotone, that stronger facts derive no less.

ghost use Rattle.std.specs.Prelude.{◌≡◌, ◌⊎◌, Bool, true, false, ℕ, ℤ, ◌≤ℤ◌, List, Some, None};
ghost use Rattle.ix_num.specs.Comparisons.{Compares};
ghost use Rattle.ix_num.specs.declared.rel.Rel.{Rel};
ghost use Rattle.ix_core.specs.declared.claim.Type_.{Type_};
ghost use Rattle.ix_core.specs.declared.fact.Path.{Path};
ghost use Rattle.ix_core.specs.declared.fact.PathOff.{PathOff};
ghost use Rattle.ix_core.specs.declared.fact.PathClaim.{PathClaim};
ghost use Rattle.ix_core.specs.declared.fact.Fact.{Fact};
ghost use Rattle.ix_core.specs.declared.fact.Profile.{Profile};
ghost use Rattle.ix_core.specs.declared.op.OpKind.{OpKind};
ghost use Rattle.ix_core.specs.Machine.{step};
ghost use Rattle.ix_core.specs.Numbers.{Numbers};
ghost use Rattle.ix_facts.specs.Facts.{Holds, AllHold, IsIn, Covers, Stronger, orders, in_orders};
ghost use Rattle.ix_facts.specs.Forget.{of_path, without, SameBut};
ghost use Rattle.ix_facts.specs.Closure.{Said, SaysAll, Closed, Contradicts, IsClosedOf, IsCommon, kept};
ghost use Rattle.ix_facts.specs.Bounds.{shifted_upper};
ghost use Rattle.ix_facts.specs.AfterOperation.{HasExact, Results, new_facts};
ghost use Rattle.ix_facts.specs.declared.kind.Kind.{Kind};
ghost use Rattle.ix_facts.specs.Kinds.{kind_of};
ghost use Rattle.ix_facts.specs.Systems.{HaveClasses, IsTable, system_after, system_copy, system_rounded, system_added};
ghost use Rattle.ix_facts.specs.After.{of_target, Step, TargetApart, beside_target, after_facts, copy_facts};
ghost use Rattle.ix_facts.specs.AfterTest.{Outcome, IsSo, AllSo, int_outcomes, opposite, outcome_facts};
ghost use Rattle.ix_facts.specs.Assume.{ClaimHolds, claim_facts, proves};
ghost use Rattle.ix_facts.specs.Round.{rounded, AreLandmarks};
ghost use Rattle.ix_facts.specs.Laws.{BoundsHold, BoundsNoWeaker, Alike, SameBounds, AsStrong, ClosedAsItStands, Way, with_lengths};

/// The derived bounds.
pub fn bounds_laws()
    ensures sound { (facts : List Fact) (v : Numbers) → AllHold facts v → BoundsHold (in_orders facts) v }
    ensures monotone { (strong weak : List Fact) → SaysAll strong weak → BoundsNoWeaker (in_orders strong) (in_orders weak) }
{}

/// The forms in which bounds and rules are written. Of facts that are closed as they stand, to read each in all its orders gives nothing more, and no
/// bound is better where a length of an array is read as a bound from its end as well. The shifted bound, which goes over facts, is the greatest of its
/// ways, which go over all ints and offsets.
pub fn form_laws()
    ensures bounds { (facts : List Fact) → ClosedAsItStands facts → SameBounds (in_orders facts) facts }
    ensures operations { (facts : List Fact) (profile : Profile) (kind : OpKind) → ClosedAsItStands facts → HasExact (in_orders facts) kind → AsStrong (new_facts (in_orders facts) profile kind) (new_facts facts profile kind) }
    ensures tests { (facts : List Fact) (outcome : Outcome) → ClosedAsItStands facts → AsStrong (outcome_facts (in_orders facts) outcome) (outcome_facts facts outcome) }
    ensures claims { (facts : List Fact) (claim : PathClaim) (p : Path) → ClosedAsItStands facts → proves (in_orders facts) claim p ≡ proves facts claim p }
    ensures lengths { (facts : List Fact) → ClosedAsItStands facts → SameBounds (with_lengths facts) facts }
    ensures ways { (facts : List Fact) (p a : Path) (o : PathOff) (n : ℤ) → Way facts p a o n → (m : ℤ) × (shifted_upper facts p a o ≡ Some m) × (n ≤ℤ m) }
    ensures no_other { (facts : List Fact) (p a : Path) (o : PathOff) (n : ℤ) → shifted_upper facts p a o ≡ Some n → Way facts p a o n }
{}

/// The closed list of facts: it holds where they do, it is the greatest closed list that says them, and the common part of closed lists is closed.
pub fn closing_laws()
    ensures sound { (facts closed : List Fact) (v : Numbers) → IsClosedOf facts closed → AllHold facts v → AllHold closed v }
    ensures closed { (facts closed : List Fact) → IsClosedOf facts closed → Closed closed }
    ensures greatest { (facts closed other : List Fact) → IsClosedOf facts closed → Closed other → ((f : Fact) → IsIn f facts → Said other f) → (f : Fact) → Said closed f → Said other f }
    ensures monotone { (strong weak closed other : List Fact) → SaysAll strong weak → IsClosedOf strong closed → IsClosedOf weak other → SaysAll closed other }
    ensures common { (first second common : List Fact) → Closed first → Closed second → IsCommon first second common → Closed common }
    ensures reachable { (facts : List Fact) (v : Numbers) → AllHold facts v → ¬ Contradicts facts }
    ensures kept_sound { (facts : List Fact) (v : Numbers) → AllHold facts v → AllHold (kept facts) v }
    ensures kept_monotone { (strong weak : List Fact) → SaysAll strong weak → SaysAll (kept strong) (kept weak) }
{}

/// Operations other than calls and accesses to fields. In the profile `ideal` only steps count whose exact result is an int. Where the stronger
/// facts give an empty exact interval, the facts after it contradict each other.
pub fn operation_laws()
    ensures sound { (profile : Profile) (kind : OpKind) (facts : List Fact) (v w : Numbers) → TargetApart kind → Step profile kind v w → AllHold facts v → AllHold (after_facts facts profile kind) w }
    ensures monotone { (profile : Profile) (kind : OpKind) (strong weak : List Fact) → SaysAll strong weak → Contradicts (after_facts strong profile kind) ⊎ SaysAll (after_facts strong profile kind) (after_facts weak profile kind) }
    ensures exact { (profile : Profile) (kind : OpKind) (facts : List Fact) (v w : Numbers) → TargetApart kind → Step profile kind v w → AllHold facts v → HasExact (beside_target kind facts) kind }
    ensures classes { (facts : List Fact) (profile : Profile) (kind : OpKind) → HaveClasses facts → HaveClasses (after_facts facts profile kind) }
    ensures copy_classes { (facts : List Fact) (ty : Type_) (t s : Path) → HaveClasses facts → HaveClasses (copy_facts facts ty t s) }
    ensures copy_sound { (facts : List Fact) (w : Numbers) (ty : Type_) (t s : Path) → Alike w t s → AllHold facts w → AllHold (copy_facts facts ty t s) w }
    ensures copy_monotone { (strong weak : List Fact) (ty : Type_) (t s : Path) → SaysAll strong weak → SaysAll (copy_facts strong ty t s) (copy_facts weak ty t s) }
{}

/// Tests: what a comparison that is true tells, one that is false, and the facts of each outcome.
pub fn test_laws()
    ensures told { (v : Numbers) (rel : Rel) (y z : Path) → Compares rel (v.int y) (v.int z) → AllSo (int_outcomes rel y z) v }
    ensures opposite { (rel : Rel) (x y : ℤ) → (Compares rel x y → ⊥) → Compares (opposite rel) x y }
    ensures sound { (facts : List Fact) (v : Numbers) (outcome : Outcome) → AllHold facts v → IsSo outcome v → AllHold (outcome_facts (in_orders facts) outcome) v }
    ensures monotone { (strong weak : List Fact) (outcome : Outcome) → SaysAll strong weak → SaysAll (outcome_facts (in_orders strong) outcome) (outcome_facts (in_orders weak) outcome) }
{}

/// Claims that are assumed and claims that are proved.
pub fn claim_laws()
    ensures assumed { (v : Numbers) (claim : PathClaim) (p : Path) → ClaimHolds claim p v → AllHold (claim_facts claim p) v }
    ensures sound { (facts : List Fact) (v : Numbers) (claim : PathClaim) (p : Path) → AllHold facts v → proves (in_orders facts) claim p ≡ true → ClaimHolds claim p v }
    ensures monotone { (strong weak : List Fact) (claim : PathClaim) (p : Path) → SaysAll strong weak → proves (in_orders weak) claim p ≡ true → proves (in_orders strong) claim p ≡ true }
    ensures classes { (claim : PathClaim) (p : Path) → HaveClasses (claim_facts claim p) }
{}

/// Forgets and rounding.
pub fn forget_laws()
    ensures sound { (is : Path → Bool) (facts : List Fact) (v w : Numbers) → SameBut is v w → AllHold facts v → AllHold (without is facts) w }
    ensures monotone { (is : Path → Bool) (strong weak : List Fact) → SaysAll strong weak → SaysAll (without is strong) (without is weak) }
    ensures twice { (is : Path → Bool) (facts : List Fact) → without is (without is facts) ≡ without is facts }
    ensures weaker { (is : Path → Bool) (facts : List Fact) → SaysAll facts (without is facts) }
    ensures closed { (is : Path → Bool) (facts : List Fact) → Closed facts → Closed (without is facts) }
    ensures rounded_weaker { (marks : List ℤ) (scope : ℕ) (facts : List Fact) → SaysAll facts (rounded marks scope facts) }
    ensures rounded_sound { (marks : List ℤ) (scope : ℕ) (facts : List Fact) (v : Numbers) → AllHold facts v → AllHold (rounded marks scope facts) v }
    ensures rounded_monotone { (marks : List ℤ) (scope : ℕ) (strong weak : List Fact) → SaysAll strong weak → SaysAll (rounded marks scope strong) (rounded marks scope weak) }
    ensures rounded_closed { (numbers marks : List ℤ) (scope : ℕ) (facts : List Fact) → AreLandmarks numbers marks → Closed facts → Closed (rounded marks scope facts) }
{}

/// The answers of a system. A fact has the kind of each fact at its key and of each of its orders; a table holds where its facts do and says no less of
/// stronger facts; so each answer of every system is sound and monotone.
pub fn system_laws()
    ensures key { (strong weak : Fact) → Covers strong weak → kind_of strong ≡ kind_of weak }
    ensures order { (fact turned : Fact) → IsIn turned (orders fact) → kind_of turned ≡ kind_of fact }
    ensures table_sound { (facts table : List Fact) (v : Numbers) → IsTable facts table → AllHold facts v → AllHold table v }
    ensures table_monotone { (strong weak table other : List Fact) → SaysAll strong weak → IsTable strong table → IsTable weak other → SaysAll table other }
    ensures after_sound { (own : Kind) (known table : List Fact) (profile : Profile) (kind : OpKind) (v w : Numbers) → TargetApart kind → Step profile kind v w → SaysAll (without (of_target kind) known) (without (of_target kind) table) → AllHold (without (of_target kind) known) v → AllHold (system_after own known table profile kind) w }
    ensures after_monotone { (own : Kind) (known more table other : List Fact) (profile : Profile) (kind : OpKind) → SaysAll known more → SaysAll table other → HasExact (beside_target kind known) kind → SaysAll (system_after own known table profile kind) (system_after own more other profile kind) }
    ensures copy_sound { (own : Kind) (known table : List Fact) (ty : Type_) (t s : Path) (v w : Numbers) → Alike w t s → SameBut (of_path t) v w → SaysAll (without (of_path t) known) (without (of_path t) table) → AllHold (without (of_path t) known) v → AllHold (system_copy own known table ty t s) w }
    ensures copy_monotone { (own : Kind) (known more table other : List Fact) (ty : Type_) (t s : Path) → SaysAll known more → SaysAll table other → SaysAll (system_copy own known table ty t s) (system_copy own more other ty t s) }
    ensures round_sound { (marks : List ℤ) (table : List Fact) (v : Numbers) → AllHold table v → AllHold (system_rounded marks table) v }
    ensures round_monotone { (marks : List ℤ) (table other : List Fact) → SaysAll table other → SaysAll (system_rounded marks table) (system_rounded marks other) }
    ensures round_weaker { (marks : List ℤ) (table : List Fact) → SaysAll table (system_rounded marks table) }
    ensures forget_sound { (p : Path) (table : List Fact) (v w : Numbers) → SameBut (of_path p) v w → AllHold table v → AllHold (without (of_path p) table) w }
    ensures forget_monotone { (p : Path) (table other : List Fact) → SaysAll table other → SaysAll (without (of_path p) table) (without (of_path p) other) }
    ensures add_sound { (own : Kind) (table : List Fact) (fact : Fact) (v : Numbers) → AllHold table v → Holds fact v → AllHold (system_added own table fact) v }
    ensures add_monotone { (own : Kind) (table other : List Fact) (strong weak : Fact) → SaysAll table other → Covers strong weak → SaysAll (system_added own table strong) (system_added own other weak) }
{}
