//! Laws on texts and labels, as contracts of functions that do nothing.

ghost use Rattle.std.specs.Prelude.{◌≡◌, ℕ, ◌<◌, ◌^◌, List, length};
ghost use Rattle.ix_core.specs.declared.fact.Profile.{Profile};
ghost use Rattle.ix_core.specs.declared.program.Program.{Program};
ghost use Rattle.ix_core.specs.Formed.{Formed};
ghost use Rattle.ix_facts.specs.Stores.{Stored};
ghost use Rattle.ix_cert.specs.Labellings.{IsLabelling};
ghost use Rattle.ix_cert.specs.SameLabels.{HasSmallPaths, SameLabels};

/// A text has one meaning: it is a certificate in one profile, and all labels of which it is one say the same.
pub fn texts_have_one_meaning()
    ensures meaning { (program : Program) (profile other : Profile) (labels others : List (List Stored)) (text : List ℕ) → HasSmallPaths program
        → IsLabelling program profile labels text → IsLabelling program other others text → (profile ≡ other) × SameLabels program.methods labels others }
{}

/// Labels have one text: certificates in one profile of labels that say the same are equal.
pub fn labels_have_one_text()
    ensures text { (program : Program) (profile : Profile) (labels others : List (List Stored)) (text other : List ℕ)
        → IsLabelling program profile labels text → IsLabelling program profile others other → SameLabels program.methods labels others → text ≡ other }
{}

/// The slots of a formed program are few, so that its paths are small where its fields are few.
pub fn formed_paths_are_small()
    ensures small { (program : Program) → Formed program → length program.fields < 2 ^ 32 → HasSmallPaths program }
{}
