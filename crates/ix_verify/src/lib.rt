//! A certificate verified: whether a text is one of a program, and whether the program may be accepted by it; and the audit of given labels.
//!
//! What goes in: a formed program, and a text, or a store for each loop of each method and a profile. What comes out: the profile in which the program is accepted and how many labels stand there, or
//! why it is refused; of labels the first loop whose label fails, or the errors, or that there is neither.
//! The contract: `IsVerified` and `IsRefused` of `specs/Verdicts.antt`; a program that is accepted is `Safe` in the certificate's profile. `IsAudit` of `specs/Audited.antt`; where there is neither, each
//! method has a flow without errors, which is what a safe program needs. And a law, that what is written is accepted: where a program's least labels, or labels of flows without errors, are
//! written down and read back, no loop's label fails and the rules derive no error at them.
//! It stands on `ix_cert` for texts and for what it is that labels say the same, on `ix_flow` for what fails, on `ix_sign`, `ix_refine` and `ix_store` for stores, on `ix_errors` for errors, on
//! `ix_soundness` for the promise.
//! It solves nothing: neither a graph nor a solver is below it.
#![tactic(auto)]

mod answer;
mod audit_answer;
mod audited;
mod done;
mod laws;
mod method;
mod texts;
mod verifying;
mod walk;

pub use answer::{CertError, Verified};
pub use audit_answer::Audit;
pub use audited::audit;
pub use ix_errors::Store;
pub use laws::{labels_are_judged_alike, what_is_written_is_accepted};
pub use verifying::verify;
