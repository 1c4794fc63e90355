// Borders, and whether a district holds one.
ghost use Rattle.std.specs.Prelude.{◌≡◌, ◌⊎◌, ℤ, List, length, Some, None, Ok, Err, IfOk, IfErr, OnOk, IsFalse};
ghost use Rattle.std.specs.List.{list_any};
ghost use Rattle.ring_survey.specs.Extent.{is_far, positions_of};
ghost use Rattle.ring_survey.specs.Vectors.{rings_in, polygons_in};
ghost use Rattle.border_check.specs.Borders.{border_fault, IsDrawn};
ghost use Rattle.border_check.specs.Laws.{HoldsIn, IsOpen};
ghost use Rattle.border_check.specs.Settled.{unsettled};
ghost use Rattle.border_check.specs.Squares.{box_in, root};

use crate::districts::polygons_of;
use crate::faults::border_fault;
use crate::shares::Share;
use crate::squares::{Square, extent_of, root};
use crate::walk::first_open;
use no_memory::NoMemory;
use region::{District, RegionFault, RingList};
use std::alloc::{AllocError, Global};
use std::marker::Model;

/// A border of polygons, of up to 1,000,000 positions. A clause sees it as a list of polygons, each a list of
/// rings, each a list of positions (longitude, latitude) in microdegrees; a place is in it as in a district.
#[derive(Drop)]
pub struct Border {
    polygons: Vec<RingList>,
}

impl Model for Border {
    ghost Value = { List (List (List (ℤ × ℤ))) };

    ghost view = { λ b. polygons_in b.polygons.items };

    ghost invariant = { λ b. border_fault (polygons_in b.polygons.items) ≡ None };
}

impl Border {
    /// The border of these polygons. The first fault, in this order: no polygon or ring, more than 1,000,000
    /// positions, the first ring that is short or open, too far.
    pub fn new(polygons: Vec<RingList>) -> Result<Border, RegionFault>
        ensures ok { IfOk result (λ border. border ≡ polygons_in polygons.items) }
        ensures sound { OnOk result (border_fault (polygons_in polygons.items) ≡ None) }
        ensures fault { IfErr result (λ fault. border_fault (polygons_in polygons.items) ≡ Some fault) }
    {
        match border_fault(polygons.as_slice()) {
            Some(fault) => Err(fault),
            None => Ok(Border { polygons }),
        }
    }

    /// Every border keeps the rule of its type, however it was made: its polygons have no fault. The call
    /// does nothing.
    pub fn has_no_fault(&self)
        ensures { border_fault self.now ≡ None }
    {
        let _kept = self.polygons.len();
    }
}

fn open_square(
    alloc: Global,
    border: &[RingList],
    district: &[RingList],
) -> Result<Option<Square>, AllocError>
    requires border { IsDrawn (polygons_in border.now) }
    requires district { IsDrawn (polygons_in district.now) }
    ensures { IfOk result (λ found. found ≡ unsettled (polygons_in border.now) (polygons_in district.now) root) }
{
    let square = root();
    let extent = extent_of(&square);
    let outer = Share::of_polygons(alloc, border, &extent)?;
    let inner = Share::of_polygons(alloc, district, &extent)?;
    let found = first_open(alloc, square, &outer, &inner)?;
    Ok(found)
}

/// The first square of side 1, in the tree of quarters from the root, that isn't settled: in which a place of
/// the border isn't shown to be in the district. None shows that the district holds the border.
pub fn first_unsettled(
    alloc: Global,
    border: &Border,
    district: &District,
) -> Result<Option<Square>, NoMemory>
    ensures value { IfOk result (λ found. found ≡ unsettled border.now district.now root) }

    // Every rational place of the root that is in the border is in the district.
    ensures holds { result ≡ Ok None → HoldsIn root border.now district.now }

    // The square has a place of the border, and one that isn't in the district or lies on an edge of it.
    ensures open { (square : Square) → result ≡ Ok (Some square) → (square.size ≡ 0) × IsOpen border.now district.now (box_in square) }
{
    border.has_no_fault();
    district.has_no_fault();
    let Ok(polygons) = polygons_of(alloc, district) else {
        return Err(NoMemory);
    };
    match open_square(alloc, border.polygons.as_slice(), polygons.as_slice()) {
        Ok(found) => Ok(found),
        Err(_) => Err(NoMemory),
    }
}
