// What of a list of polygons matters in a box.
ghost use Rattle.std.specs.Prelude.{◌≡◌, IfOk, OnOk, IsFalse, ◌&&◌, ◌||◌, not, false};
ghost use Rattle.std.specs.List.{list_any};
ghost use Rattle.ring_survey.specs.Extent.{is_far, positions_of};
ghost use Rattle.ring_survey.specs.Faults.{is_empty};
ghost use Rattle.ring_survey.specs.Vectors.{polygons_in};
ghost use Rattle.border_check.specs.Settled.{settles};
ghost use Rattle.border_check.specs.Shares.{PartView, ShareView, share_of, share_within, with_last};
ghost use Rattle.border_check.specs.Views.{box_of};

use crate::extents::Extent;
use crate::parts::Part;
use region::RingList;
use std::alloc::{AllocError, Global};
use std::marker::Model;

/// The polygons of which an edge meets a box, and whether another one holds all of the box.
#[derive(Drop)]
pub(crate) struct Share {
    parts: Vec<Part>,
    inside: bool,
}

impl Model for Share {
    ghost Value = { ShareView };

    ghost view = { λ s. record { parts = s.parts.items; inside = s.inside } };
}

fn either(a: bool, b: bool) -> bool
    ensures { result ≡ (a || b) }
{
    a || b
}

impl Share {
    // One more polygon.
    fn add(&mut self, part: Part) -> Result<(), AllocError>
        ensures { OnOk result (self.new ≡ with_last self.old part) }
    {
        if part.is_empty() {
            self.inside = either(part.is_odd(), self.inside);
        } else {
            self.parts.push(part)?;
        }
        Ok(())
    }

    /// What of the polygons matters in a box. Their positions aren't far.
    pub(crate) fn of_polygons(
        alloc: Global,
        polygons: &[RingList],
        r: &Extent,
    ) -> Result<Share, AllocError>
        requires { IsFalse (list_any is_far (positions_of (polygons_in polygons.now))) }
        ensures { IfOk result (λ share. share ≡ share_of (box_of r.now) (polygons_in polygons.now)) }
    {
        let mut share = Share {
            parts: Vec::new(alloc),
            inside: false,
        };
        for rings in polygons {
            share.add(Part::of_polygon(alloc, rings.as_slice(), r)?)?;
        }
        Ok(share)
    }

    /// The share of a box within the share's own box, by that alone.
    pub(crate) fn within(
        &self,
        alloc: Global,
        outer: &Extent,
        inner: &Extent,
    ) -> Result<Share, AllocError>
        ensures { IfOk result (λ share. share ≡ share_within (box_of outer.now) (box_of inner.now) self.now) }
    {
        let mut share = Share {
            parts: Vec::new(alloc),
            inside: false,
        };
        for part in &self.parts {
            share.add(part.within(alloc, outer, inner)?)?;
        }
        share.inside = either(share.inside, self.inside);
        Ok(share)
    }

    /// No polygon has a place of the box.
    pub(crate) fn is_free(&self) -> bool
        ensures { result ≡ (is_empty self.now.parts && not self.now.inside) }
    {
        self.parts.is_empty() && !self.inside
    }

    /// No edge meets the box, and a polygon holds all of it.
    pub(crate) fn is_whole(&self) -> bool
        ensures { result ≡ (is_empty self.now.parts && self.now.inside) }
    {
        self.parts.is_empty() && self.inside
    }
}

/// Whether nothing of the border in the box is outside the district.
pub(crate) fn settles(border: &Share, district: &Share) -> bool
    ensures { result ≡ settles border.now district.now }
{
    border.is_free() || district.is_whole()
}
