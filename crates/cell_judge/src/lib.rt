// The judge of the real sky over a district: whether a prayer's condition holds at every place of a cell at every rank.
// Contract: a verdict is that of the district's named point and the enclosure of the condition's value on the grid.
#![tactic(auto)]

mod any_problem;
mod judge;
mod kept;
pub mod laws;
mod meeus;
mod named;
mod quarters;
mod sines;
mod sky;
mod tiles;
mod values;
mod verdicts;

pub use judge::root_over;
pub use kept::KeptSky;
pub use meeus::MeeusSky;
pub use sines::sines_of;
pub use sky::Sky;
