//! The machine: a program of the plain form, run step by step; its operations, and the look-ups of a call.
//!
//! What goes in: a program, an entry and the words of its inputs. What comes out: a run, or what stands in its way; and what each step tells.
//! The contract: `Machine::new` begins a run as `specs/Starts.antt` says, and takes all memory; `Machine::step` is `step` of `ix_core`'s `Machine.antt`, with limits
//! on cells and frames, and takes none. Each operation is its definition there, on the slots and objects that frame and heap stand for, and each look-up its definition of `Tables.antt`.
//! It stands on the inputs of `ix_machine_inputs`, and on the heap and the frames of `ix_machine_state`.
//! It never looks at tokens, trees or texts.
#![tactic(auto)]

mod access;
mod call;
mod calls;
mod ending;
mod machine;
mod needs;
mod operations;
mod rows;
mod start;
mod straight;
mod task;
mod turns;

pub use access::{Access, access_in};
pub use call::{enter, method_of};
pub use calls::{
    Call, CallKind, body_in, call_in, callee, default_in, lacks_cells, make_object, receiver,
    slots_in, target,
};
pub use ending::leave;
pub use machine::{Event, Machine, Steps};
pub use needs::program_room;
pub use operations::{Done, operate};
pub use rows::Rows;
pub use start::{Entry, Limits, StartError, entry_with, unmet_in, values_of};
pub use straight::{Ran, do_operations};
pub use task::{Move, advance};
pub use turns::turn;
