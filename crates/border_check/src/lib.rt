// Whether a district holds a border: every rational place of the border is a place of the district.
// Contract: a border that holds has no place outside the district, and a square that isn't shown has a place of the border and one that isn't inside the district.
#![tactic(auto)]

mod borders;
mod districts;
mod edge_tests;
mod edges;
mod extents;
mod faults;
pub mod laws;
mod parts;
mod shares;
mod squares;
mod walk;

pub use borders::{Border, first_unsettled};
pub use squares::{Square, root};
