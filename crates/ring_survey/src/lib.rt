// What a list of polygons is known by: how far it reaches, and how many positions it has; or its first fault.
// Contract: the survey is the list's own, and the fault is its first, in the order of the rule.
#![tactic(auto)]

mod bounds;
mod counts;
mod extents;
mod faults;
mod surveys;

pub use counts::{RingList, check_rings, lacks_ring, room_left};
pub use extents::reaches_far;
pub use faults::RegionFault;
pub use surveys::{Survey, survey_of};
