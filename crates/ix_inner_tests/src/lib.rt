//! What no call of the program shows: lists and boxes that hold themselves, and their copies; places within a line end or a character; sources and sinks of
//! which any call fails, or that hand on a byte at a time; the text of the workload; the order of sweeps; where errors on names end; and the calls of libraries that the program doesn't make.
//!
//! What goes in: nothing. The contract: each row is answered as it says, by values worked out apart from the code.
//! It stands on `ix_text`, `ix_outside`, `ix_gen`, `ix_graph`, `ix_annot`, `ix_check` and `ix_certify`, and goes from a text to a graph and to a program by the crates of the tool. It has no code of its own, so that
//! no other crate is proved a second time with its tests. It never looks at the inside of any of them.
#![tactic(auto)]

#[cfg(test)]
mod faults;
#[cfg(test)]
mod libraries;
#[cfg(test)]
mod slow;
#[cfg(test)]
mod sweeps;
#[cfg(test)]
mod texts;
#[cfg(test)]
mod workload;
