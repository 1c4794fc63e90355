// The large boxes of a root within a district's reach. The places that are named for them are asked once, row by row.
ghost use Rattle.std.specs.Prelude.{◌≡◌, ◌+◌, ◌-◌, ◌*◌, ◌/◌, ◌^◌, ◌<◌, ◌≤◌, min, pos, ◌+ℤ◌, ◌-ℤ◌, ◌*ℤ◌, ◌≤ℤ◌, neg_ℤ, unsigned_abs, IfOk, IfSome};
ghost use Rattle.std.specs.Option.{option_map};
ghost use Rattle.region.specs.Named.{named};
ghost use Rattle.plane_edges.specs.Views.{place_of};
ghost use Rattle.plane_edges.specs.Magnitude.{IsWithin};
ghost use Rattle.region.specs.Strips.{IsBandOf};
ghost use Rattle.cell_split.specs.Cells.{IsCellOf, IsRoot};
ghost use Rattle.cell_split.specs.Laws.{box_of};
ghost use Rattle.cell_judge.specs.Limits.{IsOver};
ghost use Rattle.cell_judge.specs.Tiles.{AreNamedInRow, AreNamedInRows, AreTables, eastward, northward, parts, tile};

use cell_split::{Cell, rect_of};
use no_memory::NoMemory;
use region::{Band, District, Point};
use std::alloc::Global;

const ROOT_SIZE: u8 = 29;

/// The places that are named for the large boxes: for each size from the least to the root's, row by
/// row and in each row from the west.
#[derive(Drop)]
pub(crate) struct Tables {
    pub(crate) least: u8,
    pub(crate) places: Vec<Vec<Vec<Option<Point>>>>,
}

/// A column and a row of tiles.
#[derive(Clone, Copy)]
pub(crate) struct Seat {
    pub(crate) column: usize,
    pub(crate) row: usize,
}

/// How far a number is above the start.
pub(crate) fn distance(start: i64, number: i64) -> u64
    requires start { IsWithin (pos 47_000_000_000) start }
    requires not_below { start ≤ℤ number }
    requires not_high { number ≤ℤ (start +ℤ pos (2 ^ 29)) }
    ensures { pos result ≡ number -ℤ start }
{
    (number - start) as u64
}

fn power_of_two(n: u8) -> u64
    requires { n ≤ 29 }
    ensures value { result ≡ 2 ^ n }
    ensures bound { result ≤ 2 ^ 29 }
{
    1 << n
}

// How many parts of this size begin within a length.
fn parts(length: u64, size: u8) -> u64
    requires length { length < 2 ^ 29 }
    requires size { size ≤ 29 }
    ensures { result ≡ parts length size }
{
    length / power_of_two(size) + 1
}

// The part of a root's side that begins at this distance, if one of this size does.
fn part_at(distance: u64, size: u8) -> Option<usize>
    requires size { size ≤ 29 }
    ensures { IfSome result (λ part. part * 2 ^ size ≡ distance) }
{
    let side = power_of_two(size);
    if distance % side == 0 {
        Some((distance / side) as usize)
    } else {
        None
    }
}

/// The column and the row of the tile whose box is the cell's, if one is.
pub(crate) fn seat_of(root: &Cell, cell: &Cell) -> Option<Seat>
    requires root { IsRoot root.now }
    requires cell { IsCellOf root.now cell.now }
    ensures { IfSome result (λ seat. box_of cell.now ≡ box_of (tile root.now cell.now.size seat.column seat.row)) }
{
    let column = part_at(distance(root.x, cell.x), cell.size)?;
    let row = part_at(distance(root.y, cell.y), cell.size)?;
    Some(Seat { column, row })
}

// How far from the start of a root's side a part begins.
fn distance_of(size: u8, part: u64, length: u64) -> u64
    requires length { length < 2 ^ 29 }
    requires size { size ≤ 29 }
    requires part { part < parts length size }
    ensures value { result ≡ part * 2 ^ size }
    ensures room { result + 2 ^ size ≤ 2 ^ 29 }
{
    part * power_of_two(size)
}

// The number at a distance from the start of a root's side.
fn number_at(start: i64, distance: u64) -> i64
    requires low { neg_ℤ (pos 46080000000) ≤ℤ start }
    requires high { start ≤ℤ pos 46080000000 }
    requires distance { distance ≤ 2 ^ 29 }
    ensures { result ≡ start +ℤ pos distance }
{
    start + distance as i64
}

// How far a coordinate of a district, in microdegrees, is from the start of a root's side, short of its end.
fn reach_from(start: i64, greatest: i64) -> u64
    requires start { IsWithin (pos 47_000_000_000) start }
    requires not_below { start ≤ℤ (pos 128 *ℤ greatest) }
    requires not_high { (pos 128 *ℤ greatest) ≤ℤ (start +ℤ pos (2 ^ 29)) }
    ensures value { result ≡ min (unsigned_abs (pos 128 *ℤ greatest -ℤ start)) (2 ^ 29 - 1) }
    ensures bound { result < 2 ^ 29 }
{
    distance(start, 128 * greatest).min((1 << 29) - 1)
}

fn eastward(district: &District, root: &Cell) -> u64
    requires root { IsRoot root.now }
    requires over { IsOver root.now district.now }
    ensures value { result ≡ eastward root.now district.now }
    ensures bound { result < 2 ^ 29 }
{
    reach_from(root.x, district.east())
}

fn northward(district: &District, root: &Cell) -> u64
    requires root { IsRoot root.now }
    requires over { IsOver root.now district.now }
    ensures value { result ≡ northward root.now district.now }
    ensures bound { result < 2 ^ 29 }
{
    reach_from(root.y, district.north())
}

// The box of this size at these distances from the root's corner, at all ranks.
fn tile_at(root: &Cell, size: u8, east: u64, north: u64) -> Cell
    requires root { IsRoot root.now }
    requires large { 4 ≤ size }
    requires size { size ≤ 29 }
    requires east { east + 2 ^ size ≤ 2 ^ 29 }
    requires north { north + 2 ^ size ≤ 2 ^ 29 }
    ensures value { result ≡ record { x = root.now.x +ℤ pos east; y = root.now.y +ℤ pos north; size = size; first = 0; last = 720 } }
    ensures cell { IsCellOf root.now result }
{
    Cell {
        x: number_at(root.x, east),
        y: number_at(root.y, north),
        size,
        first: 0,
        last: 720,
    }
}

// The edges that reach the row of tiles at this distance from the root's corner.
fn row_band(
    alloc: Global,
    district: &District,
    root: &Cell,
    size: u8,
    north: u64,
) -> Result<Band, NoMemory>
    requires root { IsRoot root.now }
    requires size { size ≤ 29 }
    requires north { north + 2 ^ size ≤ 2 ^ 29 }
    ensures low { IfOk result (λ band. band.low ≡ (root.now.y +ℤ pos north)) }
    ensures high { IfOk result (λ band. band.high ≡ (root.now.y +ℤ pos (north + 2 ^ size))) }
    ensures band { IfOk result (IsBandOf district.now) }
{
    let low = number_at(root.y, north);
    let high = number_at(root.y, north + power_of_two(size));
    district.band(alloc, low, high)
}

// The places that are named for the tiles of this row.
fn places_in_row(
    alloc: Global,
    district: &District,
    root: &Cell,
    size: u8,
    row: u64,
) -> Result<Vec<Option<Point>>, NoMemory>
    requires root { IsRoot root.now }
    requires over { IsOver root.now district.now }
    requires large { 4 ≤ size }
    requires size { size ≤ 29 }
    requires row { row < parts (northward root.now district.now) size }
    ensures { IfOk result (AreNamedInRow district.now root.now size row) }
{
    let length = eastward(district, root);
    let north = distance_of(size, row, northward(district, root));
    let band = row_band(alloc, district, root, size, north)?;
    let mut places = Vec::new(alloc);
    for column in 0..parts(length, size) {
        let east = distance_of(size, column, length);
        places.push(band.meets(rect_of(&tile_at(root, size, east, north))))?;
    }
    Ok(places)
}

// The places that are named for the tiles of this size.
fn places_of_size(
    alloc: Global,
    district: &District,
    root: &Cell,
    size: u8,
) -> Result<Vec<Vec<Option<Point>>>, NoMemory>
    requires root { IsRoot root.now }
    requires over { IsOver root.now district.now }
    requires large { 4 ≤ size }
    requires size { size ≤ 29 }
    ensures { IfOk result (AreNamedInRows district.now root.now size) }
{
    let mut rows = Vec::new(alloc);
    for row in 0..parts(northward(district, root), size) {
        rows.push(places_in_row(alloc, district, root, size, row)?)?;
    }
    Ok(rows)
}

// Five sizes below the least box that is longer than this, within those of the tables: some 32 tiles to a side.
fn least_size(length: u64) -> u8
    ensures not_small { 4 ≤ result }
    ensures not_large { result ≤ 24 }
{
    let mut size = 4;
    while size < 24 && length >> (size + 5) > 0 {
        size += 1;
    }
    size
}

/// The tables of a district's large boxes.
pub(crate) fn large_places(
    alloc: Global,
    district: &District,
    root: &Cell,
) -> Result<Tables, NoMemory>
    requires root { IsRoot root.now }
    requires over { IsOver root.now district.now }
    ensures not_small { IfOk result (λ tables. 4 ≤ tables.least) }
    ensures not_large { IfOk result (λ tables. tables.least ≤ 24) }
    ensures are { IfOk result (λ tables. AreTables district.now root.now tables.least tables.places.items) }
{
    let length = eastward(district, root).max(northward(district, root));
    let least = least_size(length);
    let mut places = Vec::new(alloc);
    for size in least..ROOT_SIZE + 1 {
        places.push(places_of_size(alloc, district, root, size)?)?;
    }
    Ok(Tables { least, places })
}

/// The place that is named for the cell, whose box is that of the tile. A tile beyond the district's
/// reach has none.
pub(crate) fn place_at(
    district: &District,
    root: &Cell,
    tables: &Tables,
    cell: &Cell,
    seat: Seat,
) -> Option<Point>
    requires root { IsRoot root.now }
    requires over { IsOver root.now district.now }
    requires cell { IsCellOf root.now cell.now }
    requires large { tables.now.least ≤ cell.now.size }
    requires tables { AreTables district.now root.now tables.now.least tables.now.places.items }
    requires seat { box_of cell.now ≡ box_of (tile root.now cell.now.size seat.column seat.row) }
    ensures { option_map place_of result ≡ named (box_of cell.now) district.now }
{
    district.has_no_fault();
    let rows = &tables.places[(cell.size - tables.least) as usize];
    *rows.get(seat.row)?.get(seat.column)?
}
