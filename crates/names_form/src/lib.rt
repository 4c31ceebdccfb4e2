// Names as they lie in a table, and what a name may be.
#![tactic(auto)]

pub mod shape;
pub mod table;

// The most names that a table may hold.
pub const MOST_NAMES: usize = 256;
