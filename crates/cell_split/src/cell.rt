// Cells and tasks.
ghost use Rattle.std.specs.Prelude.{◌≡◌, ◌≤ℤ◌, neg_ℤ, pos, ◌+ℤ◌, ◌*◌, ◌≤◌, ◌^◌, ◌↔◌, IsTrue};
ghost use Rattle.cell_split.specs.Cells.{IsCell, IsCellOf, IsFormed, IsRoot, is_smallest, root_at, side};

use plane_edges::Rect;

/// The closed box with the south-west corner (`x`, `y`) and the side `2^size`, in place units (128 to a
/// microdegree), at the ranks from `first` to `last`. Any numbers make one.
#[derive(Clone, Copy, Debug, PartialEq, Eq)]
pub struct Cell {
    pub x: i64,
    pub y: i64,
    pub size: u8,
    pub first: u32,
    pub last: u32,
}

/// A cell to be judged for one problem.
#[derive(Clone, Copy, Debug, PartialEq, Eq)]
pub struct Task {
    pub problem: u32,
    pub cell: Cell,
}

/// The children of a cell, in tree order: `cells[..count]`. The cells past the count repeat the last one.
#[derive(Clone, Copy, Debug, PartialEq, Eq)]
pub struct Children {
    pub count: u8,
    pub cells: [Cell; 4],
}

/// The root over a district with this least longitude and least latitude, in microdegrees: 4.194304
/// degrees either way, at all ranks from 0 to 720.
pub fn root_at(west: i64, south: i64) -> Cell
    requires west_not_low { neg_ℤ (pos 360000000) ≤ℤ west }
    requires west_not_high { west ≤ℤ pos 360000000 }
    requires south_not_low { neg_ℤ (pos 65000000) ≤ℤ south }
    requires south_not_high { south ≤ℤ pos 65000000 }
    ensures value { result ≡ root_at west south }
    ensures root { IsRoot result }
{
    Cell {
        x: 128 * west,
        y: 128 * south,
        size: 29,
        first: 0,
        last: 720,
    }
}

/// The side of a box of this size, in place units.
pub(crate) fn side_of(size: u8) -> i64
    requires { size ≤ 29 }
    ensures value { result ≡ pos (2 ^ size) }
    ensures bound { result ≤ℤ pos (2 ^ 29) }
{
    (1u64 << size) as i64
}

/// The box of a cell.
pub fn rect_of(c: &Cell) -> Rect
    requires { IsCell c.now }
    ensures west { result.x0 ≡ c.now.x }
    ensures east { result.x1 ≡ c.now.x +ℤ side c.now }
    ensures south { result.y0 ≡ c.now.y }
    ensures north { result.y1 ≡ c.now.y +ℤ side c.now }
{
    let side = side_of(c.size);
    Rect::new(c.x, c.x + side, c.y, c.y + side)
}

/// Whether a cell can't be split: 16 place units wide, at one rank.
pub fn is_smallest(c: &Cell) -> bool
    requires { IsCell c.now }
    ensures { result ≡ is_smallest c.now }
{
    c.size == 4 && c.first == c.last
}

/// A key by which cells are sorted and told apart.
pub fn key(c: &Cell) -> (u32, u32, u8, i64, i64)
    ensures { result ≡ (c.now.first, c.now.last, c.now.size, c.now.x, c.now.y) }
{
    (c.first, c.last, c.size, c.x, c.y)
}

/// Whether a cell is a well-formed cell of this root: its size from 4 to 29, its ranks in order, and
/// its box and its ranks in the root's. Any numbers may stand in the cell.
pub fn within(c: &Cell, root: &Cell) -> bool
    requires { IsRoot root.now }
    ensures { IsTrue result ↔ IsCellOf root.now c.now }
{
    if !is_formed(c) {
        return false;
    }
    let room = side_of(root.size) - side_of(c.size);
    let in_width = lies_from(root.x, room, c.x);
    let in_height = lies_from(root.y, room, c.y);
    in_width && in_height
}

// whether the size and the ranks are a cell's
fn is_formed(c: &Cell) -> bool
    ensures { IsTrue result ↔ IsFormed c.now }
{
    4 <= c.size && c.size <= 29 && c.first <= c.last && c.last <= 720
}

// whether a number is at most so far above the start
fn lies_from(start: i64, room: i64, number: i64) -> bool
    requires start_not_low { neg_ℤ (pos 46080000000) ≤ℤ start }
    requires start_not_high { start ≤ℤ pos 46080000000 }
    requires room_not_low { pos 0 ≤ℤ room }
    requires room_not_high { room ≤ℤ pos (2 ^ 29) }
    ensures { IsTrue result ↔ ((start ≤ℤ number) × (number ≤ℤ (start +ℤ room))) }
{
    start <= number && number <= start + room
}
