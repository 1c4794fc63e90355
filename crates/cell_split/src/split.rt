// The children of a cell.
ghost use Rattle.std.specs.Prelude.{◌≡◌, ◌<◌, ◌≤◌, ◌↔◌, true};
ghost use Rattle.cell_split.specs.Cells.{IsCell, is_smallest};
ghost use Rattle.cell_split.specs.Split.{halves, is_long, quarters, split};

use crate::cell::{Cell, Children, side_of};

/// Two halves by rank, the later ranks first, where the ranks are many for the size of the box; else
/// four quarters of the box; none exactly for a smallest cell.
#[tactic(auto, unfolding(crate::specs::Split::split))]
pub fn children(c: &Cell) -> Children
    requires { IsCell c.now }
    ensures value { result ≡ split c.now }
    ensures few { result.count ≤ 4 }
    ensures none { (result.count ≡ 0) ↔ (is_smallest c.now ≡ true) }
{
    if is_long(c) {
        halves(c)
    } else if c.size > 4 {
        quarters(c)
    } else {
        Children {
            count: 0,
            cells: [*c; 4],
        }
    }
}

// whether the ranks are to be divided
fn is_long(c: &Cell) -> bool
    requires { IsCell c.now }
    ensures { result ≡ is_long c.now }
{
    let ranks = (c.last - c.first + 1) as u64;
    ranks > 1 && ranks << 25 > 1 << c.size
}

fn halves(c: &Cell) -> Children
    requires cell { IsCell c.now }
    requires long { c.now.first < c.now.last }
    ensures { result ≡ halves c.now }
{
    let middle = c.first + (c.last - c.first + 1) / 2;
    let later = Cell {
        first: middle,
        ..*c
    };
    let earlier = Cell {
        last: middle - 1,
        ..*c
    };
    Children {
        count: 2,
        cells: [later, earlier, earlier, earlier],
    }
}

fn quarters(c: &Cell) -> Children
    requires cell { IsCell c.now }
    requires large { 4 < c.now.size }
    ensures { result ≡ quarters c.now }
{
    let size = c.size - 1;
    let side = side_of(size);
    let (east, north) = (c.x + side, c.y + side);
    Children {
        count: 4,
        cells: [
            Cell { size, ..*c },
            Cell {
                x: east,
                size,
                ..*c
            },
            Cell {
                y: north,
                size,
                ..*c
            },
            Cell {
                x: east,
                y: north,
                size,
                ..*c
            },
        ],
    }
}
