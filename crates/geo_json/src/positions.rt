// Lists of positions, of rings and of polygons.
ghost use Rattle.std.specs.Prelude.{◌≡◌};
ghost use Rattle.json_value.specs.View.{tree_of, items_of};
ghost use Rattle.geo_json.specs.Geometry.{Answers, micro_in, whole_in, both, position_of, position_in, ring_in, polygon_in, multi_polygon_in};
ghost use Rattle.ring_survey.specs.Each.{each_of};
ghost use Rattle.ring_survey.specs.Vectors.{rings_in, polygons_in};

use crate::lookup::{list_in, number_in};
use json_value::{Json, JsonList};
use std::alloc::{AllocError, AllocFailed, Global};

/// Why no polygons were read.
#[derive(Clone, Copy, Debug, PartialEq, Eq)]
pub enum GeometryFault {
    NotGeometry,
    NoMemory,
}

impl From<AllocError> for GeometryFault {
    ghost use Rattle.geo_json.specs.declared.positions.GeometryFault.TheVariants.{NoMemory};

    ghost from_gives = { λ _ e. e ≡ NoMemory };

    fn from(_: AllocError) -> GeometryFault {
        GeometryFault::NoMemory
    }
}

impl<T: Drop> From<AllocFailed<T>> for GeometryFault {
    ghost use Rattle.geo_json.specs.declared.positions.GeometryFault.TheVariants.{NoMemory};

    ghost from_gives = { λ _ e. e ≡ NoMemory };

    fn from(_: AllocFailed<T>) -> GeometryFault {
        GeometryFault::NoMemory
    }
}

/// How the two numbers of a position are written: in degrees, and others may follow them; or as whole
/// microdegrees.
#[derive(Clone, Copy)]
pub(crate) enum Notation {
    Degrees,
    Microdegrees,
}

fn micro_in(value: &Json) -> Option<i64>
    ensures { result ≡ micro_in (tree_of value.now) }
{
    match number_in(value) {
        Some(number) => Some(number.micro()),
        None => None,
    }
}

fn whole_in(value: &Json) -> Option<i64>
    ensures { result ≡ whole_in (tree_of value.now) }
{
    number_in(value)?.whole()
}

fn both(x: Option<i64>, y: Option<i64>) -> Option<(i64, i64)>
    ensures { result ≡ both x y }
{
    Some((x?, y?))
}

fn position_of(notation: Notation, numbers: &JsonList) -> Option<(i64, i64)>
    ensures { result ≡ position_of notation (items_of numbers.now) }
{
    match notation {
        Notation::Degrees if numbers.count() >= 2 => {
            both(micro_in(numbers.item(0)), micro_in(numbers.item(1)))
        }
        Notation::Microdegrees if numbers.count() == 2 => {
            both(whole_in(numbers.item(0)), whole_in(numbers.item(1)))
        }
        _ => None,
    }
}

fn position_in(notation: Notation, value: &Json) -> Option<(i64, i64)>
    ensures { result ≡ position_in notation (tree_of value.now) }
{
    position_of(notation, list_in(value)?)
}

fn ring_in(
    alloc: Global,
    notation: Notation,
    value: &Json,
) -> Result<Vec<(i64, i64)>, GeometryFault>
    ensures { Answers (λ v. v.items) result (ring_in notation (tree_of value.now)) }
{
    match list_in(value) {
        Some(positions) => ring_of(alloc, notation, positions),
        None => Err(GeometryFault::NotGeometry),
    }
}

fn ring_of(
    alloc: Global,
    notation: Notation,
    positions: &JsonList,
) -> Result<Vec<(i64, i64)>, GeometryFault>
    ensures { Answers (λ v. v.items) result (each_of (position_in notation) (items_of positions.now)) }
{
    let mut ring = Vec::new(alloc);
    for i in 0..positions.count() {
        match position_in(notation, positions.item(i)) {
            Some(position) => ring.push(position)?,
            None => return Err(GeometryFault::NotGeometry),
        }
    }
    Ok(ring)
}

/// The polygon of a list of rings.
pub(crate) fn polygon_in(
    alloc: Global,
    notation: Notation,
    value: &Json,
) -> Result<Vec<Vec<(i64, i64)>>, GeometryFault>
    ensures { Answers (λ v. rings_in v.items) result (polygon_in notation (tree_of value.now)) }
{
    match list_in(value) {
        Some(rings) => polygon_of(alloc, notation, rings),
        None => Err(GeometryFault::NotGeometry),
    }
}

fn polygon_of(
    alloc: Global,
    notation: Notation,
    rings: &JsonList,
) -> Result<Vec<Vec<(i64, i64)>>, GeometryFault>
    ensures { Answers (λ v. rings_in v.items) result (each_of (ring_in notation) (items_of rings.now)) }
{
    let mut polygon = Vec::new(alloc);
    for i in 0..rings.count() {
        match ring_in(alloc, notation, rings.item(i)) {
            Ok(ring) => polygon.push(ring)?,
            Err(fault) => return Err(fault),
        }
    }
    Ok(polygon)
}

/// The polygons of a list of lists of rings.
pub(crate) fn multi_polygon_in(
    alloc: Global,
    notation: Notation,
    value: &Json,
) -> Result<Vec<Vec<Vec<(i64, i64)>>>, GeometryFault>
    ensures { Answers (λ v. polygons_in v.items) result (multi_polygon_in notation (tree_of value.now)) }
{
    match list_in(value) {
        Some(polygons) => multi_polygon_of(alloc, notation, polygons),
        None => Err(GeometryFault::NotGeometry),
    }
}

pub(crate) fn multi_polygon_of(
    alloc: Global,
    notation: Notation,
    polygons: &JsonList,
) -> Result<Vec<Vec<Vec<(i64, i64)>>>, GeometryFault>
    ensures { Answers (λ v. polygons_in v.items) result (each_of (polygon_in notation) (items_of polygons.now)) }
{
    let mut all = Vec::new(alloc);
    for i in 0..polygons.count() {
        match polygon_in(alloc, notation, polygons.item(i)) {
            Ok(polygon) => all.push(polygon)?,
            Err(fault) => return Err(fault),
        }
    }
    Ok(all)
}
