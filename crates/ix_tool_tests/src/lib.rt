//! The top call over files and sinks in memory, where each single call of them fails in turn, and over those that never fail.
//!
//! What goes in: nothing. The contract: each call ends as it says, by values worked out apart from the code.
//! It stands on `ix_tool` for the call, on `ix_outside` for such files and sinks. It has no code of its own, so that no other crate is proved a second time with its tests.
//! It never looks at the inside of any of them.
#![tactic(auto)]

#[cfg(test)]
mod calls;
#[cfg(test)]
mod faults;
