//! The bounds that facts give, each by the facts that name its paths, and which claims what is known proves.
//!
//! What goes in: facts in all their orders, with those that name a path at hand; a claim and a path. What comes out: what an int or a length is at least and at most, differences,
//! bounds from an array's end, and whether two arrays have the same length; whether the claim of the path is proved.
//! The contract: each is the bound of `ix_facts`, of all facts; and `proves` of it, exactly.
//! It stands on `ix_facts` for the facts on a path, for bounds and for claims.
//! It never looks at how facts are kept, nor at the program.
#![tactic(auto)]

mod ends;
mod groups;
mod limits;
mod numbers;
mod proved;
mod said;
mod shifted;
mod stored;
mod upper;

pub use ends::{length_high, length_low, range_high, range_low};
pub use groups::Groups;
pub use limits::{lower_bound, upper_limit};
pub use numbers::{past, short_of, within};
pub use proved::is_proved;
pub use said::{has_length, has_negative, has_search, stored_same};
pub use stored::fact_less_among;
pub use upper::{less_bound, upper_bound};
