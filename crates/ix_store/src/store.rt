//! The store.

use crate::known::Known;
use ix_text::Joint;

/// What is known at a place: that no state is there, or closed facts, which several stores may hold jointly.
pub struct Store {
    pub(crate) known: Option<Joint<Known>>,
}

// By hand, so that a store is let go of by a call and not written out at each exit of the crates above.
impl Drop for Store {
    fn drop(self) {
        match self {
            Store { known } => drop(known),
        }
    }
}
