// One worker of a search by stealing: the deque it owns, those it steals from, and what it keeps of what it finds.
// Contract: from what it has seen of the refuted ranks on, what it kept and pushed weighs what it was given and took.
#![tactic(auto)]

mod kept_leaves;
mod member;
mod open_ranks;
mod refutes;
mod steps;
mod store;
mod thefts;
mod worker;

pub use kept_leaves::KeptLeaves;
pub use member::Member;
pub use open_ranks::OpenRanks;
pub use refutes::Refutes;
pub use store::Store;
pub use worker::Worker;
