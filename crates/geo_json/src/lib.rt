// Members of JSON objects, and the polygons of objects of GeoJSON (RFC 7946).
// Contract: `find_member` answers what stands under a name, and `read_geometry` exactly the polygons of an object.
#![tactic(auto)]

mod geometry;
mod lookup;
mod positions;

pub use geometry::{feature_in, features_list, read_geometry, read_line_district};
pub use lookup::{Found, find_member, list_in, number_in, object_in, text_in};
pub use positions::GeometryFault;
