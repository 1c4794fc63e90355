// The order that a number stands for, and the summary of its table.
// Contract: `demo_order` answers exactly that order; `write_summary` writes exactly the summary of the entries of its table.
#![tactic(auto)]

mod demo;
mod line;
mod numbers;
mod order;
mod summary;
mod tally;

pub use order::demo_order;
pub use summary::write_summary;
