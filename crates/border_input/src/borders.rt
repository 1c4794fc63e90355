// The border of a value of JSON.
ghost use Rattle.std.specs.Prelude.{codes};
ghost use Rattle.json_value.specs.View.{entries_of, tree_of};
ghost use Rattle.ring_survey.specs.Vectors.{polygons_in};
ghost use Rattle.border_input.specs.Gives.{Gives};
ghost use Rattle.border_input.specs.Reading.{border_in, border_of, border_value};

use crate::fault::{BorderFault, RequestFault};
use border_check::Border;
use exact_json::{Json, JsonTable};
use geo_json::{Found, GeometryFault, find_member, object_in, read_geometry};
use std::alloc::Global;

/// The value of the member `border`.
pub(crate) fn border_value(table: &JsonTable) -> Result<&Json, RequestFault>
    ensures { Gives (λ v. tree_of v.now) result (border_value (entries_of table.now)) }
{
    match find_member(table, "border") {
        Found::Absent => Err(RequestFault::Border(BorderFault::Missing)),
        Found::Once(value) => Ok(value),
        Found::Again => Err(RequestFault::Border(BorderFault::Twice)),
    }
}

fn border_of(polygons: Vec<Vec<Vec<(i64, i64)>>>) -> Result<Border, RequestFault>
    ensures { Gives (λ border. border) result (border_of (polygons_in polygons.items)) }
{
    match Border::new(polygons) {
        Ok(border) => Ok(border),
        Err(fault) => Err(RequestFault::Border(BorderFault::Region(fault))),
    }
}

/// The border of an object of GeoJSON, in the forms of a district.
#[tactic(auto, unfolding(crate::specs::Reading::border_in))]
pub(crate) fn border_in(alloc: Global, value: &Json) -> Result<Border, RequestFault>
    ensures { Gives (λ border. border) result (border_in (tree_of value.now)) }
{
    let Some(table) = object_in(value) else {
        return Err(RequestFault::Border(BorderFault::Kind));
    };
    match read_geometry(alloc, table) {
        Ok(polygons) => border_of(polygons),
        Err(GeometryFault::NotGeometry) => Err(RequestFault::Border(BorderFault::Geometry)),
        Err(GeometryFault::NoMemory) => Err(RequestFault::NoMemory),
    }
}
