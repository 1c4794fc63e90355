// The judge of borders as one call: an order and the real border in, a verdict, a line on the error stream and a status out.
// Contract: the run ended as a stated function of the words and the input says, and a border that holds has no place outside the order's district.
#![tactic(auto)]

mod answers;
mod top_call;
mod verdict;

pub use outcome::Status;
pub use top_call::run;
