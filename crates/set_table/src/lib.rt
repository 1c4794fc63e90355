// The table of a set of districts: each district's entries, and for each column the one that is right in all of them.
// Contract: `write_set` writes exactly the text of the set's table, and each entry of it is right.
#![tactic(auto)]

pub mod laws;
mod line;
mod ready;
mod table;
mod text;

pub use table::write_set;
