// Sets of districts, read from JSON.
ghost use Rattle.std.specs.Prelude.{◌≡◌, ◌⊎◌, true, None, Ok, Err, IfOk, IfErr};
ghost use Rattle.json_value.specs.View.{entries_of, tree_of};
ghost use Rattle.order_member.specs.Gives.{Gives};
ghost use Rattle.ring_survey.specs.Faults.{first_fault};
ghost use Rattle.set_reader.specs.Asked.{asked_of};
ghost use Rattle.set_reader.specs.Reading.{districts_in, parts_of, set_in, set_of, without_rule};
ghost use Rattle.set_reader.specs.Reads.{ReadsSet};
ghost use Rattle.set_reader.specs.Views.{districts_view, features_in};

use crate::districts::Districts;
use crate::features::{polygons_of, read_features};
use crate::parts::Parts;
use crate::set::SetOrder;
use exact_json::{Json, JsonTable, read};
use geo_json::{GeometryFault, object_in};
use night_rule::NightRule;
use order_reader::pieces::{basis_of, district_of, extras_of, json_refusal, needed, order_with};
use order_reader::{Member, OrderFault};
use std::alloc::Global;

// A set has no rule for nights.
fn without_rule(night: Option<NightRule>) -> Result<(), OrderFault>
    ensures given { Gives (λ none. none) result (without_rule night) }
    ensures no_rule { IfOk result (λ _. night ≡ None) }
{
    match night {
        Some(_) => Err(OrderFault::Range(Member::Night)),
        None => Ok(()),
    }
}

// The district of each Feature.
fn parts_of(alloc: Global, features: Vec<Vec<Vec<Vec<(i64, i64)>>>>) -> Result<Parts, OrderFault>
    ensures { Gives (λ parts. parts) result (parts_of (features_in features.items)) }
{
    let mut parts = Parts::new(alloc);
    for polygons in features {
        match district_of(alloc, polygons) {
            Ok(district) => parts.push(district)?,
            Err(fault) => return Err(fault),
        }
    }
    Ok(parts)
}

#[tactic(auto, unfolding(crate::specs::Reading::districts_in))]
fn districts_in(alloc: Global, value: &Json) -> Result<Districts, OrderFault>
    ensures { Gives districts_view result (districts_in (tree_of value.now)) }
{
    let Some(table) = object_in(value) else {
        return Err(OrderFault::Kind(Member::District));
    };
    let features = match read_features(alloc, table) {
        Ok(features) => features,
        Err(GeometryFault::NotGeometry) => return Err(OrderFault::Geometry),
        Err(GeometryFault::NoMemory) => return Err(OrderFault::NoMemory),
    };
    let polygons = polygons_of(alloc, features.as_slice())?;
    let parts = parts_of(alloc, features)?;
    let whole = district_of(alloc, polygons)?;
    Ok(Districts { whole, parts })
}

#[tactic(auto, unfolding(crate::specs::Reading::set_of))]
fn set_of(alloc: Global, table: &JsonTable) -> Result<SetOrder, OrderFault>
    ensures { Gives asked_of result (set_of (entries_of table.now)) }
{
    let basis = basis_of(alloc, table)?;
    let extras = extras_of(alloc, table, basis.method)?;
    without_rule(extras.night)?;
    let districts = districts_in(alloc, needed(table, Member::District)?)?;
    Ok(SetOrder {
        whole: order_with(basis, extras, districts.whole),
        parts: districts.parts,
    })
}

#[tactic(auto, unfolding(crate::specs::Reading::set_in))]
fn set_in(alloc: Global, value: &Json) -> Result<SetOrder, OrderFault>
    ensures { Gives asked_of result (set_in (tree_of value.now)) }
{
    let Some(table) = object_in(value) else {
        return Err(OrderFault::Kind(Member::Order));
    };
    set_of(alloc, table)
}

/// Reads a set of districts: an order whose district is a FeatureCollection of 1 to 64 Features, each with a Polygon
/// or a MultiPolygon, and that has no rule for nights. The answer is the set, or its first refusal: as of an order,
/// where a `night` that is a text is out of its range, and where of the districts those of the Features are looked at
/// in their order, and then that of all their polygons. Rings are counted within the district that is refused.
pub fn read_set(alloc: Global, bytes: &[u8]) -> Result<SetOrder, OrderFault>
    // `Ok` is the set that the bytes spell.
    ensures ok { IfOk result (λ s. ReadsSet bytes.now (Ok (asked_of s))) }
    // A refusal is the first one, or memory was not found.
    ensures fault { IfErr result (λ fault. (fault ≡ OrderFault.NoMemory) ⊎ ReadsSet bytes.now (Err fault)) }
{
    match read(alloc, bytes) {
        Ok(value) => set_in(alloc, &value),
        Err(fault) => Err(json_refusal(fault)),
    }
}
