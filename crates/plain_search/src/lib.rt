// The search of a judge's trees on one thread: for each problem the greatest rank refuted, and the leaves above it.
// Contract: a `Harvest` holds each leaf above the refuted rank of its problem exactly once.
#![tactic(auto)]

mod harvest;
mod plain;
mod quarters;
mod ranks_alone;

pub use harvest::{Harvest, Leaves, Ranks};
pub use plain::{is_cut, search_plain};
pub use quarters::{Quarter, quarters_in_turn, quarters_of};
pub use ranks_alone::{TopRanks, top_ranks};
