// The place that is named for a cell's box, asked of as few edges as serve.
ghost use Rattle.std.specs.Prelude.{◌≡◌, ◌^◌, IfSome, pos, ◌+ℤ◌, ◌≤ℤ◌, ◌<ℤ◌};
ghost use Rattle.std.specs.Option.{option_map};
ghost use Rattle.plane_edges.specs.Magnitude.{IsWithin};
ghost use Rattle.region.specs.Named.{named};
ghost use Rattle.plane_edges.specs.Views.{place_of};
ghost use Rattle.cell_split.specs.Cells.{IsCellOf};
ghost use Rattle.cell_split.specs.Laws.{box_of};
ghost use Rattle.cell_judge.specs.Strips.{IsInStrip};

use crate::sky::Sky;
use crate::tiles::{distance, place_at, seat_of};
use cell_split::{Cell, rect_of};
use region::{Point, Rect};

// The strip in which the box's latitudes lie, if they lie in one.
fn strip_number(south: i64, r: &Rect) -> Option<u32>
    requires south { IsWithin (pos 47_000_000_000) south }
    requires low { south ≤ℤ r.now.y0 }
    requires under { r.now.y0 <ℤ (south +ℤ pos (2 ^ 29)) }
    requires high { r.now.y1 ≤ℤ (south +ℤ pos (2 ^ 29)) }
    ensures { IfSome result (IsInStrip south r.now.y0 r.now.y1) }
{
    let number = distance(south, r.y0) >> 23;
    if distance(south, r.y1) <= (number + 1) << 23 {
        Some(number as u32)
    } else {
        None
    }
}

impl Sky {
    // The place that is named for the cell's box, by the edges of one strip where the box lies in one,
    // and else by all edges.
    fn named_by_edges(&self, cell: &Cell) -> Option<Point>
        requires { IsCellOf self.now.root cell.now }
        ensures { option_map place_of result ≡ named (box_of cell.now) self.now.district }
    {
        let r = rect_of(cell);
        match strip_number(self.root.y, &r) {
            Some(number) => self.strips.strip(number).meets(r),
            None => self.district.meets(r),
        }
    }

    /// The place of the district that is named for the cell's box: from a table for a large box that is
    /// a tile of the root's.
    pub(crate) fn named(&self, cell: &Cell) -> Option<Point>
        requires { IsCellOf self.now.root cell.now }
        ensures { option_map place_of result ≡ named (box_of cell.now) self.now.district }
    {
        if cell.size < self.large.least {
            return self.named_by_edges(cell);
        }
        match seat_of(&self.root, cell) {
            Some(seat) => place_at(&self.district, &self.root, &self.large, cell, seat),
            None => self.named_by_edges(cell),
        }
    }
}
