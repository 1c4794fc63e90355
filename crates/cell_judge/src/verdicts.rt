// The verdict by an enclosure.
ghost use Rattle.std.specs.Prelude.{◌≡◌};
ghost use Rattle.fixed_interval.specs.Interval.{ends};
ghost use Rattle.cell_split.specs.Cells.{IsCell};
ghost use Rattle.cell_judge.specs.Conditions.{holds_above};
ghost use Rattle.cell_judge.specs.Skies.{lies_above, lies_below, shows_held, shows_failed, verdict_at};

use cell_split::{Cell, Verdict, is_smallest};
use fixed_interval::Interval;
use method_table::Kind;
use region::Point;

fn lies_above(value: Interval) -> bool
    ensures { result ≡ lies_above (ends value) }
{
    value.lo > 0
}

fn lies_below(value: Interval) -> bool
    ensures { result ≡ lies_below (ends value) }
{
    value.hi < 0
}

/// Whether the condition holds where the value is above zero.
pub(crate) fn holds_above(kind: Kind) -> bool
    ensures { result ≡ holds_above kind }
{
    match kind {
        Kind::Below { .. } => false,
        Kind::Above { .. } | Kind::Past | Kind::Shadow { .. } => true,
    }
}

// Whether the condition holds all over the enclosure.
fn shows_held(kind: Kind, value: Interval) -> bool
    ensures { result ≡ shows_held kind (ends value) }
{
    if holds_above(kind) {
        lies_above(value)
    } else {
        lies_below(value)
    }
}

// Whether it fails all over the enclosure.
fn shows_failed(kind: Kind, value: Interval) -> bool
    ensures { result ≡ shows_failed kind (ends value) }
{
    if holds_above(kind) {
        lies_below(value)
    } else {
        lies_above(value)
    }
}

/// The verdict on a cell whose box has the place `p` of the district.
#[tactic(auto, unfolding(crate::specs::Skies::verdict_at))]
pub(crate) fn verdict_at(kind: Kind, value: Interval, cell: &Cell, p: Point) -> Verdict
    requires { IsCell cell.now }
    ensures { result ≡ verdict_at kind (ends value) cell.now p }
{
    if shows_held(kind, value) {
        Verdict::Proved
    } else if shows_failed(kind, value) {
        Verdict::Refuted(p)
    } else if is_smallest(cell) {
        Verdict::Open(p)
    } else {
        Verdict::Split
    }
}
