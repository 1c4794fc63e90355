// The enclosure of a condition's value over a cell.
ghost use Rattle.std.specs.Prelude.{◌≡◌, ◌≤◌};
ghost use Rattle.fixed_interval.specs.Interval.{ends};
ghost use Rattle.solar_terms.specs.Sun.{minutes_of};
ghost use Rattle.meeus_terms.specs.Suns.{grid_sun_of};
ghost use Rattle.altitude_test.specs.Values.{box_of};
ghost use Rattle.method_table.specs.Kind.{IsKind};
ghost use Rattle.method_table.specs.Row.{row_of, time_of};
ghost use Rattle.cell_split.specs.Cells.{IsCell};
ghost use Rattle.cell_judge.specs.Limits.{IsInLimits};
ghost use Rattle.cell_judge.specs.Sines.{IsSineOf};
ghost use Rattle.cell_judge.specs.Skies.{grid_value, minutes_at, places_at};

use altitude_test::{Place, altitude_sine, meridian_value};
use asr_test::asr_value;
use cell_split::{Cell, rect_of};
use fixed_interval::Interval;
use meeus_terms::chosen_sun;
use method_table::{Kind, Problem, Side, SunChoice, minute_of};
use solar_terms::Minutes;

// The minute of a rank, since 2000-01-01 12:00 Universal Time.
fn time_of(problem: &Problem, rank: u32) -> i64
    requires { rank ≤ 720 }
    ensures { result ≡ time_of (row_of problem.now) rank }
{
    problem.base + i64::from(minute_of(problem, rank))
}

/// The minutes of a cell's ranks.
pub(crate) fn minutes_at(problem: &Problem, cell: &Cell) -> Minutes
    requires limits { IsInLimits (row_of problem.now) }
    requires ordered { cell.now.first ≤ cell.now.last }
    requires in_frame { cell.now.last ≤ 720 }
    ensures { minutes_of result ≡ minutes_at (row_of problem.now) cell.now }
{
    let first = time_of(problem, cell.first);
    let last = time_of(problem, cell.last);
    match problem.side {
        Side::Start => Minutes::new(first, last),
        Side::End => Minutes::new(last, first),
    }
}

/// The places of a cell's box.
pub(crate) fn places_at(cell: &Cell) -> Place
    requires { IsCell cell.now }
    ensures { box_of result ≡ places_at cell.now }
{
    let r = rect_of(cell);
    Place::new(r.x0, r.x1, r.y0, r.y1)
}

/// The enclosure of a kind's value over the minutes and the places under a sun, with the sine of its angles.
#[tactic(auto, unfolding(crate::specs::Skies::grid_value, altitude_test::specs::Values::grid_altitude_value))]
pub(crate) fn value(
    sun: SunChoice,
    kind: Kind,
    minutes: Minutes,
    places: Place,
    sine: Interval,
) -> Interval
    requires kind { IsKind kind }
    requires sine { IsSineOf kind sine }
    ensures { ends result ≡ grid_value (grid_sun_of sun) kind (minutes_of minutes) (box_of places) }
{
    let sun = chosen_sun(sun, minutes);
    match kind {
        Kind::Above { .. } => altitude_sine(&sun, minutes, places).sum(sine),
        Kind::Below { .. } => altitude_sine(&sun, minutes, places).sum(sine),
        Kind::Past => meridian_value(&sun, minutes, places),
        Kind::Shadow { factor } => asr_value(&sun, minutes, places, factor),
    }
}
