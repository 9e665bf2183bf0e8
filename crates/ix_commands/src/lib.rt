//! The answer to a command on what it is answered on.
//!
//! What goes in: a command, what is found of its source, and its certificate where it has one. What comes out: a status, and what two sinks took.
//! The contract: `answer`, which delivers the only right answer, as `specs/Answers.antt` defines it, with what `specs/Promises.antt` promises of it; and laws: that there is one answer, and that there is
//! no other cause to have none than `specs/Existence.antt` names; that the profile which a certificate's first line names is the one in which its program is accepted; that a guarded text has no
//! lexical error, no syntax error and no error on names (`guarded_finding`).
//! It stands on `ix_front` for what is found, on `ix_certify`, `ix_guard_text` and `ix_runs` for what is asked, on `ix_replies` for replies and their writing.
//! It never looks at the inside of any of them, and never reads a file.
#![tactic(auto)]

mod answering;
mod certificates;
mod guarding;
mod judging;
mod laws;

pub use answering::answer;
pub use laws::{answers_are_one, named_profile_accepts, there_is_an_answer};
