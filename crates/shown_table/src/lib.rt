// The table that a covering shows: each of its lines is checked, and what they show is written day by day.
// Contract: `write_shown` ends as the first bad line says, or writes the whole table; whoever made the covering, each
// entry that is written is right, or open as said.
#![tactic(auto)]

mod bad;
mod day;
mod ending;
pub mod laws;
mod lines;
mod night;
mod table;

pub use bad::{BadLine, Shown};
pub use ending::write_shown;
