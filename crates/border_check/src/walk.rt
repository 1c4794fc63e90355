// The tree of squares, searched for the first that isn't settled.
ghost use Rattle.std.specs.Prelude.{◌≡◌, ◌<◌, IfOk, false};
ghost use Rattle.border_check.specs.Settled.{open_in, settles};
ghost use Rattle.border_check.specs.Squares.{IsNear, box_in, quarter};
ghost use Rattle.border_check.specs.Shares.{share_within};

use crate::shares::{Share, settles};
use crate::squares::{Square, extent_of, quarter};
use std::alloc::{AllocError, Global};

/// The first square of side 1 below this one, in tree order, that the shares don't settle.
#[cycle(opens)]
pub(crate) fn first_open(
    alloc: Global,
    square: Square,
    border: &Share,
    district: &Share,
) -> Result<Option<Square>, AllocError>
    requires { IsNear square }
    ensures { IfOk result (λ found. found ≡ open_in border.now district.now square) }
{
    if settles(border, district) {
        return Ok(None);
    }
    if square.size == 0 {
        return Ok(Some(square));
    }
    first_open_below(alloc, square, border, district)
}

// The same, from the first quarter of a square to the last.
#[cycle(opens)]
fn first_open_below(
    alloc: Global,
    square: Square,
    border: &Share,
    district: &Share,
) -> Result<Option<Square>, AllocError>
    requires near { IsNear square }
    requires large { 0 < square.size }
    requires unsettled { settles border.now district.now ≡ false }
    ensures { IfOk result (λ found. found ≡ open_in border.now district.now square) }
{
    let south_west = first_open_in(alloc, square, false, false, border, district)?;
    if south_west.is_some() {
        return Ok(south_west);
    }
    let south_east = first_open_in(alloc, square, true, false, border, district)?;
    if south_east.is_some() {
        return Ok(south_east);
    }
    let north_west = first_open_in(alloc, square, false, true, border, district)?;
    if north_west.is_some() {
        return Ok(north_west);
    }
    let north_east = first_open_in(alloc, square, true, true, border, district)?;
    Ok(north_east)
}

// The same in one quarter, to which the shares are handed down.
#[cycle(opens)]
fn first_open_in(
    alloc: Global,
    square: Square,
    east: bool,
    north: bool,
    border: &Share,
    district: &Share,
) -> Result<Option<Square>, AllocError>
    requires near { IsNear square }
    requires large { 0 < square.size }
    ensures { IfOk result (λ found. found ≡ open_in
        (share_within (box_in square) (box_in (quarter square east north)) border.now)
        (share_within (box_in square) (box_in (quarter square east north)) district.now) (quarter square east north)) }
{
    let inner = quarter(&square, east, north);
    let outer_box = extent_of(&square);
    let inner_box = extent_of(&inner);
    let border = border.within(alloc, &outer_box, &inner_box)?;
    let district = district.within(alloc, &outer_box, &inner_box)?;
    first_open(alloc, inner, &border, &district)
}
