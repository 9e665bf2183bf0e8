//! Answers and replies to commands: a status and a text for each of two sinks, before they are written and as they are.
//!
//! What goes in: the name and the bytes of a source, what is told of it, or a reply and the sinks. What comes out: a status and a text for one of the sinks; written, a status, and what each sink took.
//! The contract: `verdict` and `bench_verdict` of `specs/Said.antt`, with the texts of `ix_report`; `specs/Delivery.antt`: the answer was written, or as much of it as could be, and the status says
//! which.
//! It stands on `ix_report` for texts, on `ix_outside` for sinks.
//! It never looks at how a source is read or judged.
#![tactic(auto)]

mod counts;
mod delivering;
mod making;
mod reply;
mod status;
mod written_reply;

pub use counts::{Counts, count_program};
pub use delivering::{say, wanting};
pub use making::{on_bytes, on_err, on_out};
pub use reply::{
    bench_reply, broken_reply, judged_reply, misnamed_reply, past_reply, too_long_reply,
    unread_reply, usage_reply,
};
pub use status::Status;
pub use written_reply::Reply;
