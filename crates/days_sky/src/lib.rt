// A judge of several days over one sky's district, so that one search serves the entries of all of them.
// Contract: its trees are those of each day's own sky, seven to a day.
#![tactic(auto)]

mod day;
pub mod laws;
mod sky;

pub use day::Day;
pub use sky::DaysSky;
