// The judgement of the four quarters of a cell, which share the sun, two latitudes and two ranges of sidereal times.
ghost use Rattle.std.specs.Prelude.{◌≡◌, ◌∷◌, [], map, ◌+ℤ◌};
ghost use Rattle.fixed_interval.specs.Grid.{Range};
ghost use Rattle.fixed_interval.specs.Interval.{ends};
ghost use Rattle.solar_terms.specs.Sun.{SunTerms, minutes_of, terms_of};
ghost use Rattle.meeus_terms.specs.Suns.{grid_sun_of};
ghost use Rattle.method_table.specs.Kind.{IsKind};
ghost use Rattle.method_table.specs.Row.{row_of};
ghost use Rattle.cell_split.specs.Cells.{IsCell, IsCellOf};
ghost use Rattle.cell_split.specs.Split.{children_of, half, quarter, split};
ghost use Rattle.cell_judge.specs.Limits.{IsInLimits};
ghost use Rattle.cell_judge.specs.Shared.{value_by};
ghost use Rattle.cell_judge.specs.Sines.{IsSineOf};
ghost use Rattle.cell_judge.specs.Skies.{grid_value, minutes_at, places_at, verdict_at, verdict_on};

use crate::kept::KeptSky;
use crate::sky::Sky;
use crate::values::{minutes_at, places_at};
use crate::verdicts::{holds_above, verdict_at};
use altitude_test::{Direction, KeptDirection, altitude_sine_by, meridian_value_by};
use asr_test::asr_value_by;
use cell_split::{Cell, Judged, Verdict, children};
use fixed_interval::Interval;
use method_table::{Kind, Problem};
use region::Point;
use solar_terms::{Minutes, Sun};

// The four quarters of a cell.
#[derive(Clone, Copy)]
struct Quarters {
    south_west: Cell,
    south_east: Cell,
    north_west: Cell,
    north_east: Cell,
}

fn quarters_of(cell: &Cell) -> Quarters
    requires cell { IsCell cell.now }
    requires quartered { (split cell.now).count ≡ 4 }
    ensures all { result.south_west ∷ result.south_east ∷ result.north_west ∷ result.north_east ∷ [] ≡ children_of cell.now }
    ensures south_west { result.south_west ≡ quarter cell.now cell.now.x cell.now.y }
    ensures south_east { result.south_east ≡ quarter cell.now (cell.now.x +ℤ half cell.now) cell.now.y }
    ensures north_west { result.north_west ≡ quarter cell.now cell.now.x (cell.now.y +ℤ half cell.now) }
    ensures north_east { result.north_east ≡ quarter cell.now (cell.now.x +ℤ half cell.now) (cell.now.y +ℤ half cell.now) }
{
    let cells = children(cell).cells;
    Quarters {
        south_west: cells[0],
        south_east: cells[1],
        north_west: cells[2],
        north_east: cells[3],
    }
}

// What the quarters share: the sine of the angles, and the minutes of their ranks with the sun.
#[derive(Clone, Copy)]
struct Scene {
    sine: Interval,
    minutes: Minutes,
    sun: Sun,
}

// The value of a kind by the latitudes `phi` and the sidereal times `theta`, with the sine of its angles.
#[tactic(auto, unfolding(crate::specs::Shared::value_by))]
fn value_by(kind: Kind, sun: &Sun, phi: Direction, theta: Direction, sine: Interval) -> Interval
    requires kind { IsKind kind }
    requires sine { IsSineOf kind sine }
    ensures { ends result ≡ value_by (terms_of sun.now) kind (ends phi.sine) (ends phi.cosine) (ends theta.sine) (ends theta.cosine) }
{
    match kind {
        Kind::Above { .. } => altitude_sine_by(sun, phi, theta).sum(sine),
        Kind::Below { .. } => altitude_sine_by(sun, phi, theta).sum(sine),
        Kind::Past => meridian_value_by(sun, theta),
        Kind::Shadow { factor } => {
            asr_value_by(sun, altitude_sine_by(sun, phi, theta), phi, factor)
        }
    }
}

// The value of a kind over a cell, whichever sun has the scene's terms. The meridian value asks for no latitude.
fn value_over(
    kind: Kind,
    scene: &Scene,
    phi: &mut KeptDirection,
    theta: &mut KeptDirection,
    cell: &Cell,
) -> Interval
    requires kind { IsKind kind }
    requires sine { IsSineOf kind scene.now.sine }
    requires cell { IsCell cell.now }
    ensures { (grid : Range → SunTerms) → terms_of scene.now.sun ≡ grid (minutes_of scene.now.minutes) → ends result ≡ grid_value grid kind (minutes_of scene.now.minutes) (places_at cell.now) }
{
    let places = places_at(cell);
    let turned = theta.sidereal_time(&scene.sun, scene.minutes, places);
    match kind {
        Kind::Past => meridian_value_by(&scene.sun, turned),
        _ => value_by(kind, &scene.sun, phi.latitude(places), turned, scene.sine),
    }
}

// How far the middle of a value lies on the side of zero where the condition fails, in units of 2^-47.
fn failing(kind: Kind, value: Interval) -> i64 {
    let above = ((value.lo + value.hi) / 1_024) as i64;
    if holds_above(kind) { -above } else { above }
}

// The verdict on a cell whose box has the place `p` of the district, by the value over the cell.
fn judged(kind: Kind, value: Interval, cell: &Cell, p: Point) -> Judged
    requires { IsCell cell.now }
    ensures { result.verdict ≡ verdict_at kind (ends value) cell.now p }
{
    Judged {
        verdict: verdict_at(kind, value, cell, p),
        failing: failing(kind, value),
    }
}

impl Sky {
    // The verdict on a quarter, by the latitudes and the sidereal times that are kept where they are its own.
    fn judge_quarter(
        &self,
        problem: &Problem,
        scene: &Scene,
        phi: &mut KeptDirection,
        theta: &mut KeptDirection,
        cell: &Cell,
    ) -> Judged
        requires sine { IsSineOf problem.now.kind scene.now.sine }
        requires minutes { minutes_of scene.now.minutes ≡ minutes_at (row_of problem.now) cell.now }
        requires sun { terms_of scene.now.sun ≡ grid_sun_of self.now.sun (minutes_of scene.now.minutes) }
        requires cell { IsCellOf self.now.root cell.now }
        ensures { result.verdict ≡ verdict_on (grid_sun_of self.now.sun) (row_of problem.now) self.now.district cell.now }
    {
        match self.named(cell) {
            Some(p) => judged(
                problem.kind,
                value_over(problem.kind, scene, phi, theta, cell),
                cell,
                p,
            ),
            None => Judged {
                verdict: Verdict::Outside,
                failing: 0,
            },
        }
    }

    /// The verdicts on the four quarters of a cell, in tree order, under the same conditions as
    /// `judge_for`. The sun is asked once, and each latitude and each longitude at most once; none that was
    /// asked last for a cell of this size is computed anew.
    pub fn judge_quarters_for(
        &self,
        problem: &Problem,
        sine: Interval,
        cell: &Cell,
        kept: &mut KeptSky,
    ) -> [Judged; 4]
        requires sine { IsSineOf problem.now.kind sine }
        requires cell { IsCellOf self.now.root cell.now }
        requires quartered { (split cell.now).count ≡ 4 }
        requires limits { IsInLimits (row_of problem.now) }
        ensures { map (λ q. q.verdict) result ≡ map (verdict_on (grid_sun_of self.now.sun) (row_of problem.now) self.now.district) (children_of cell.now) }
    {
        let quarters = quarters_of(cell);
        let minutes = minutes_at(problem, cell);
        let sun = kept.sun.sun(self.sun, minutes);
        let scene = Scene { sine, minutes, sun };
        let at = &mut kept.sizes[cell.size as usize];
        [
            self.judge_quarter(
                problem,
                &scene,
                &mut at.south,
                &mut at.west,
                &quarters.south_west,
            ),
            self.judge_quarter(
                problem,
                &scene,
                &mut at.south,
                &mut at.east,
                &quarters.south_east,
            ),
            self.judge_quarter(
                problem,
                &scene,
                &mut at.north,
                &mut at.west,
                &quarters.north_west,
            ),
            self.judge_quarter(
                problem,
                &scene,
                &mut at.north,
                &mut at.east,
                &quarters.north_east,
            ),
        ]
    }
}
