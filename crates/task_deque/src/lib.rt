// Deques of tasks that threads share: its owner pushes and pops, and thieves take from it.
// Contract: each task that is taken is one of the tree, and what was pushed is what was taken and what is left.
#![tactic(auto)]

mod calls;
mod handles;
mod job;
mod rule;
mod thefts;

pub use handles::{Owner, Thief};
pub use job::{Case, Job};
pub use rule::{Fair, Log};
