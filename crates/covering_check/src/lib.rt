// Shows again what a line of a covering says, trusting nobody who made it.
// Contract: `check_line` gives exactly the entry that the line shows, or its first fault.
#![tactic(auto)]

mod check;
mod claim;
mod fault;
pub mod laws;
mod letters;
mod mark;
mod members;
mod numerals;
mod walk;

pub use check::check_line;
pub use fault::CoverFault;
