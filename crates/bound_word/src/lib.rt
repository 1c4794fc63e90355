// Ranks that threads share: what one of them raises, all the others read.
// Contract: what `read` gives is a fact of its word, and no less than its seat had seen.
#![tactic(auto)]

mod calls;
mod hints;
mod rule;
mod words;

pub use hints::State;
pub use rule::{Fact, Sight};
pub use words::{Bound, BoundSeat};
