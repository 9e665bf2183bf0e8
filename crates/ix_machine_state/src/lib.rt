//! The state of a run: the heap with its values, and the frames: what each called method still has to do, and what its slots hold.
//!
//! What goes in: new arrays and objects, and reads and writes of their cells; code that is entered, conditions that are decided, calls and ends of frames. What comes out: values, and the lengths that
//! an index passes; the next task.
//! The contract: each call is its definition of `ix_core`'s `Heap.antt` on `heap_of`, the list of objects that the rows stand for, or of its `Tasks.antt` and `Machine.antt` on the tasks, frames and
//! waiting frames that the stacks stand for.
//! It stands on the plain form of `ix_core`. Its memory is taken once: `specs/Room.antt` says how much a program's code needs.
//! It never looks at classes, and does no operation.
#![tactic(auto)]

mod frames;
mod heap;
mod held;
mod places;
mod pool;
mod room;
mod stack;

pub use frames::Frame;
pub use heap::{Heap, Kind};
pub use held::{Held, cell_default, default_of};
pub use places::{Place, Turn};
pub use pool::Pool;
pub use room::{Needs, Room, items_needs};
pub use stack::Stack;
