// What a command reads of its source, each kind with a case and a limit of its own.
// Contract: the input that the source's bytes spell, or the line that refuses it, and what the source has left.
#![tactic(auto)]

mod calendar;
mod covering;
mod covering_input;
pub mod laws;
mod lines;
mod order;
mod refusals;
mod set;

pub use calendar::calendar_from;
pub use covering::Covering;
pub use covering_input::covering_from;
pub use lines::split_line;
pub use order::order_from;
pub use refusals::{refusal_line, region_detail};
pub use set::set_from;
