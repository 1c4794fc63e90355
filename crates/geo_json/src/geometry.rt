// Districts: in the forms of GeoJSON that an order may have, and as the canonical line has them.
ghost use Rattle.std.specs.Prelude.{◌≡◌, option_map, option_and_then, codes};
ghost use Rattle.json_value.specs.View.{tree_of, items_of, entries_of};
ghost use Rattle.geo_json.specs.Lookup.{object_in, find_member};
ghost use Rattle.geo_json.specs.Geometry.{Answers, form_named, form_word, form_in, features_list, geometry_of, has_doubles, is_again, line_district_of, member_in, feature_in, only_feature, only_item, one_polygon_in, shape_in};
ghost use Rattle.ring_survey.specs.Vectors.{polygons_in};

use crate::lookup::{Found, find_member, list_in, object_in, text_in};
use crate::positions::{GeometryFault, Notation, multi_polygon_in, multi_polygon_of, polygon_in};
use json_value::{Json, JsonList, JsonTable};
use std::alloc::Global;

/// The forms of GeoJSON that a district may have.
#[derive(Clone, Copy)]
pub(crate) enum Form {
    Polygon,
    MultiPolygon,
    Feature,
    FeatureCollection,
}

const FORMS: [Form; 4] = [
    Form::Polygon,
    Form::MultiPolygon,
    Form::Feature,
    Form::FeatureCollection,
];

fn form_word(form: Form) -> &'static str
    ensures { result.now ≡ form_word form }
{
    match form {
        Form::Polygon => "Polygon",
        Form::MultiPolygon => "MultiPolygon",
        Form::Feature => "Feature",
        Form::FeatureCollection => "FeatureCollection",
    }
}

fn form_named(word: &str) -> Option<Form>
    ensures { result ≡ form_named word.now }
{
    FORMS.iter().copied().find(|form| form_word(*form) == word)
}

fn is_again(table: &JsonTable, name: &str) -> bool
    ensures { result ≡ is_again (find_member name.now (entries_of table.now)) }
{
    matches!(find_member(table, name), Found::Again)
}

#[tactic(auto, unfolding(crate::specs::Geometry::has_doubles))]
fn has_doubles(table: &JsonTable) -> bool
    ensures { result ≡ has_doubles (entries_of table.now) }
{
    is_again(table, "type")
        || is_again(table, "coordinates")
        || is_again(table, "geometry")
        || is_again(table, "features")
}

#[tactic(auto, unfolding(crate::specs::Geometry::member_in))]
fn member_in<'a>(table: &'a JsonTable, name: &str) -> Option<&'a Json>
    ensures { option_map (λ v. tree_of v.now) result ≡ member_in name.now (entries_of table.now) }
{
    match find_member(table, name) {
        Found::Once(value) => Some(value),
        _ => None,
    }
}

#[tactic(auto, unfolding(crate::specs::Geometry::form_in))]
fn form_in(table: &JsonTable) -> Option<Form>
    ensures { result ≡ form_in (entries_of table.now) }
{
    if has_doubles(table) {
        return None;
    }
    form_named(text_in(member_in(table, "type")?)?)
}

fn one_polygon_in(alloc: Global, value: &Json) -> Result<Vec<Vec<Vec<(i64, i64)>>>, GeometryFault>
    ensures { Answers (λ v. polygons_in v.items) result (one_polygon_in (tree_of value.now)) }
{
    match polygon_in(alloc, Notation::Degrees, value) {
        Ok(polygon) => {
            let mut polygons = Vec::new(alloc);
            polygons.push(polygon)?;
            Ok(polygons)
        }
        Err(fault) => Err(fault),
    }
}

#[tactic(auto, unfolding(crate::specs::Geometry::shape_in))]
fn shape_in(alloc: Global, table: &JsonTable) -> Result<Vec<Vec<Vec<(i64, i64)>>>, GeometryFault>
    ensures { Answers (λ v. polygons_in v.items) result (shape_in (entries_of table.now)) }
{
    match (form_in(table), member_in(table, "coordinates")) {
        (Some(Form::Polygon), Some(rings)) => one_polygon_in(alloc, rings),
        (Some(Form::MultiPolygon), Some(polygons)) => {
            multi_polygon_in(alloc, Notation::Degrees, polygons)
        }
        _ => Err(GeometryFault::NotGeometry),
    }
}

fn geometry_of_feature(table: &JsonTable) -> Option<&JsonTable>
    ensures { option_map (λ t. entries_of t.now) result ≡ option_and_then object_in (member_in (codes "geometry") (entries_of table.now)) }
{
    object_in(member_in(table, "geometry")?)
}

/// The polygons of a Feature with a Polygon or a MultiPolygon, in microdegrees.
#[tactic(auto, unfolding(crate::specs::Geometry::feature_in))]
pub fn feature_in(
    alloc: Global,
    table: &JsonTable,
) -> Result<Vec<Vec<Vec<(i64, i64)>>>, GeometryFault>
    ensures { Answers (λ v. polygons_in v.items) result (feature_in (entries_of table.now)) }
{
    match (form_in(table), geometry_of_feature(table)) {
        (Some(Form::Feature), Some(geometry)) => shape_in(alloc, geometry),
        _ => Err(GeometryFault::NotGeometry),
    }
}

/// What a FeatureCollection has for its Features.
pub fn features_list(table: &JsonTable) -> Option<&JsonList>
    ensures { option_map (λ l. items_of l.now) result ≡ features_list (entries_of table.now) }
{
    match form_in(table) {
        Some(Form::FeatureCollection) => list_in(member_in(table, "features")?),
        _ => None,
    }
}

fn only_item(list: &JsonList) -> Option<&Json>
    ensures { option_map (λ v. tree_of v.now) result ≡ only_item (items_of list.now) }
{
    if list.count() == 1 {
        Some(list.item(0))
    } else {
        None
    }
}

fn only_feature(table: &JsonTable) -> Option<&JsonTable>
    ensures { option_map (λ t. entries_of t.now) result ≡ only_feature (entries_of table.now) }
{
    object_in(only_item(list_in(member_in(table, "features")?)?)?)
}

fn collection_in(
    alloc: Global,
    table: &JsonTable,
) -> Result<Vec<Vec<Vec<(i64, i64)>>>, GeometryFault>
    ensures { Answers (λ v. polygons_in v.items) result (option_and_then feature_in (only_feature (entries_of table.now))) }
{
    match only_feature(table) {
        Some(feature) => feature_in(alloc, feature),
        None => Err(GeometryFault::NotGeometry),
    }
}

/// The polygons of an object of GeoJSON, in microdegrees: of a Polygon, a MultiPolygon, a Feature with
/// one of these, or a FeatureCollection with exactly one such Feature.
#[tactic(auto, unfolding(crate::specs::Geometry::geometry_of))]
pub fn read_geometry(
    alloc: Global,
    table: &JsonTable,
) -> Result<Vec<Vec<Vec<(i64, i64)>>>, GeometryFault>
    ensures { Answers (λ v. polygons_in v.items) result (geometry_of (entries_of table.now)) }
{
    match form_in(table) {
        Some(Form::FeatureCollection) => collection_in(alloc, table),
        Some(Form::Feature) => feature_in(alloc, table),
        _ => shape_in(alloc, table),
    }
}

/// The polygons of a canonical line: lists of lists of lists of exactly two whole numbers.
pub fn read_line_district(
    alloc: Global,
    list: &JsonList,
) -> Result<Vec<Vec<Vec<(i64, i64)>>>, GeometryFault>
    ensures { Answers (λ v. polygons_in v.items) result (line_district_of (items_of list.now)) }
{
    multi_polygon_of(alloc, Notation::Microdegrees, list)
}
