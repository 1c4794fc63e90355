// The search of a judge's trees by several workers at the same time, each with a deque of its own, who steal from each other.
// Contract: it finds what the search on one thread finds.
#![tactic(auto)]

mod calls;
mod gate;
mod stealing;
mod threads;

pub use calls::{search, search_ranks};
pub use gate::{Gate, OpenGate};
