// The entries of several days in each district of a set, found in one search, and those of all districts together.
// Contract: each entry is that of its own tree, and that of all districts the join of theirs.
#![tactic(auto)]

mod join;
mod search;
mod skies;

pub use join::joined_of;
pub use search::search_days;
pub use skies::{root_of, skies_over};
