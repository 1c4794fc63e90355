// Districts of polygons over all their rational places, and boxes of places.
// Contract: a place is in a district exactly by the even-odd rule, and a box is met exactly where one of its places is.
#![tactic(auto)]

mod bands;
mod blocks;
mod districts;
mod keeps;
pub mod laws;
mod polygons;
mod rings;
mod scans;
mod strips;

pub use bands::Band;
pub use districts::District;
pub use plane_edges::{Edge, Point, Rect, are_above, are_below};
pub use ring_survey::{RegionFault, RingList, check_rings, lacks_ring, reaches_far, room_left};
pub use strips::{Strip, Strips};
