// Points, boxes and edges of the plane: how an edge stands to a place, and where it meets a box.
// Contract: a touch is the place on the edge and the ray's crossing, exactly, and the place that an edge names for a box is exact.
#![tactic(auto)]

mod crossings;
mod edge_points;
mod edges;
mod exact;
pub mod laws;
mod points;
mod rects;
mod touches;

pub use edge_points::{are_above, are_below, corner, edge_point};
pub use edges::Edge;
pub use points::Point;
pub use rects::Rect;
pub use touches::{Touch, edge_touch};
