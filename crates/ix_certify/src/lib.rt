//! The certificate of a program: the text of its least labels.
//!
//! What goes in: a formed program, and a profile. What comes out: the certificate of the program's least labels; or none, where the rules derive errors.
//! The contract: `IsLeastCertificate` of `specs/Certificates.antt`; what is written of a program without errors is accepted by it. Laws: the least labels of a method of a formed program speak of its own
//! slots and of the program's fields of the objects in them alone, and compare no int with itself; for each loop there is one least label, which is unreachable or all facts of a store, each
//! once. So `print` of `ix_cert` may be given these labels.
//! It stands on `ix_check` for errors and least labels, on `ix_labels` and `ix_flow` for what these are, on `ix_sign` for the rules, on `ix_cert` for texts, on `ix_verify` for what is accepted.
//! It never looks at a source: neither at its tree, nor at its text; nor at how labels are found or kept.
#![tactic(auto)]

mod label_laws;
mod laws;
mod within;
mod writing;

pub use ix_check::check_program;
pub use ix_verify::{CertError, verify};
pub use label_laws::least_labels_may_be_written;
pub use laws::can_verify;
pub use within::labels_are_within;
pub use writing::{certificate, write};
