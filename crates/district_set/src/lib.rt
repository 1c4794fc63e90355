// Many districts in one search, and for each column one entry that is right in all of them.
// Contract: each judge's trees are its own, and the join of entries that are right for districts is right for all of them together.
#![tactic(auto)]

mod join;
pub mod laws;
mod sky;

pub use join::join_entries;
pub use sky::SetSky;
