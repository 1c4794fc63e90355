// The sines of the angles of a day's problems, made once for all their cells.
ghost use Rattle.std.specs.Prelude.{◌≡◌, pos, ◌≤ℤ◌};
ghost use Rattle.trig_series.specs.Angle.{range_of};
ghost use Rattle.method_table.specs.Kind.{IsAngleRange, IsKind};
ghost use Rattle.cell_judge.specs.Conditions.{angles};
ghost use Rattle.cell_judge.specs.Sines.{AreSinesOf, IsSine, IsSineOf};

use fixed_interval::Interval;
use method_table::{Kind, Problem};
use trig_series::{Angle, sine};

fn angles(low: i64, high: i64) -> Angle
    requires { IsAngleRange low high }
    ensures value { range_of result ≡ angles low high }
    ensures low { pos 0 ≤ℤ result.lo }
    ensures high { result.hi ≤ℤ pos 4320000000000 }
{
    Angle::new(i128::from(low), i128::from(high))
}

// The sine of the angles of a range.
fn sine_between(low: i64, high: i64) -> Interval
    requires { IsAngleRange low high }
    ensures { IsSine low high result }
{
    sine(angles(low, high))
}

// The sine of a condition's angles, and 0 where it has none.
fn sine_of(kind: Kind) -> Interval
    requires { IsKind kind }
    ensures { IsSineOf kind result }
{
    match kind {
        Kind::Above { low, high } => sine_between(low, high),
        Kind::Below { low, high } => sine_between(low, high),
        Kind::Past | Kind::Shadow { .. } => Interval::new(0, 0),
    }
}

/// The sine of each problem's angles.
pub fn sines_of(problems: &[Problem; 7]) -> [Interval; 7]
    ensures { AreSinesOf problems.now result }
{
    [
        sine_of(problems[0].kind),
        sine_of(problems[1].kind),
        sine_of(problems[2].kind),
        sine_of(problems[3].kind),
        sine_of(problems[4].kind),
        sine_of(problems[5].kind),
        sine_of(problems[6].kind),
    ]
}
