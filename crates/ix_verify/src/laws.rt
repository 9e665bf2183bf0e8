//! The laws, as contracts of functions that do nothing.

ghost use Rattle.std.specs.Prelude.{List};
ghost use Rattle.ix_core.specs.declared.fact.Profile.{Profile};
ghost use Rattle.ix_core.specs.declared.program.Program.{Program};
ghost use Rattle.ix_core.specs.Formed.{Formed};
ghost use Rattle.ix_facts.specs.Stores.{Stored};
ghost use Rattle.ix_cert.specs.SameLabels.{SameLabels};
ghost use Rattle.ix_verify.specs.declared.audit_answer.Audit.{Audit};
ghost use Rattle.ix_verify.specs.Audited.{IsAudit};
ghost use Rattle.ix_verify.specs.Alike.{AreSame};
ghost use Rattle.ix_verify.specs.Flawless.{AreAccepted, AreFlawless, AreLeastFlawless};

/// Of a formed program: labels that say the same as its least ones, where the rules derive no error, are accepted; and so
/// are labels that say the same as those of a flow of each method without errors.
pub fn what_is_written_is_accepted()
    ensures least { (program : Program) (profile : Profile) (labels : List (List Stored)) (found : List (List Stored)) → Formed program
        → AreLeastFlawless program profile labels → SameLabels program.methods labels found → AreAccepted program profile found }
    ensures flawless { (program : Program) (profile : Profile) (labels : List (List Stored)) (found : List (List Stored)) → Formed program
        → AreFlawless program profile labels → SameLabels program.methods labels found → AreAccepted program profile found }
{}

/// Labels that say the same are judged alike: an audit of the ones and one of the others answer the same.
pub fn labels_are_judged_alike()
    ensures alike { (program : Program) (profile : Profile) (found others : List (List Stored)) (answer other : Audit) → Formed program
        → SameLabels program.methods found others → IsAudit program profile found answer → IsAudit program profile others other → AreSame answer other }
{}
