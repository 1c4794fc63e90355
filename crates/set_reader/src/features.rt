// The Features of a collection.
ghost use Rattle.std.specs.Prelude.{◌≡◌, IfOk};
ghost use Rattle.json_value.specs.View.{entries_of, items_of, tree_of};
ghost use Rattle.geo_json.specs.Geometry.{Answers};
ghost use Rattle.ring_survey.specs.Each.{each_of};
ghost use Rattle.ring_survey.specs.Vectors.{polygons_in};
ghost use Rattle.set_reader.specs.Features.{each_feature, feature_of, features_of, polygons_of};
ghost use Rattle.set_reader.specs.Views.{features_in};

use exact_json::{Json, JsonList, JsonTable};
use geo_json::{GeometryFault, feature_in, features_list, object_in};
use no_memory::NoMemory;
use std::alloc::Global;

fn feature_of(alloc: Global, value: &Json) -> Result<Vec<Vec<Vec<(i64, i64)>>>, GeometryFault>
    ensures { Answers (λ v. polygons_in v.items) result (feature_of (tree_of value.now)) }
{
    match object_in(value) {
        Some(table) => feature_in(alloc, table),
        None => Err(GeometryFault::NotGeometry),
    }
}

fn each_feature(
    alloc: Global,
    features: &JsonList,
) -> Result<Vec<Vec<Vec<Vec<(i64, i64)>>>>, GeometryFault>
    ensures { Answers (λ v. features_in v.items) result (each_of feature_of (items_of features.now)) }
{
    let mut all = Vec::new(alloc);
    for i in 0..features.count() {
        match feature_of(alloc, features.item(i)) {
            Ok(polygons) => all.push(polygons)?,
            Err(fault) => return Err(fault),
        }
    }
    Ok(all)
}

/// The polygons of each Feature of a FeatureCollection of 1 to 64, in microdegrees.
#[tactic(auto, unfolding(crate::specs::Features::features_of))]
pub(crate) fn read_features(
    alloc: Global,
    table: &JsonTable,
) -> Result<Vec<Vec<Vec<Vec<(i64, i64)>>>>, GeometryFault>
    ensures { Answers (λ v. features_in v.items) result (features_of (entries_of table.now)) }
{
    match features_list(table) {
        Some(features) if 1 <= features.count() && features.count() <= 64 => {
            each_feature(alloc, features)
        }
        _ => Err(GeometryFault::NotGeometry),
    }
}

/// All polygons of the Features.
pub(crate) fn polygons_of(
    alloc: Global,
    features: &[Vec<Vec<Vec<(i64, i64)>>>],
) -> Result<Vec<Vec<Vec<(i64, i64)>>>, NoMemory>
    ensures { IfOk result (λ v. polygons_in v.items ≡ polygons_of (features_in features.now)) }
{
    Ok(features.concat(alloc)?)
}
