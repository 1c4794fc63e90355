// The problems of one day.
ghost use Rattle.std.specs.Prelude.{◌≡◌, length};
ghost use Rattle.cell_judge.specs.Limits.{AreInLimits};
ghost use Rattle.cell_judge.specs.Sines.{AreSinesOf};

use cell_judge::sines_of;
use fixed_interval::Interval;
use method_table::Problem;

/// The problems of a day. Every minute of their frames is within 53,200,000 minutes of 2000-01-01 12:00
/// Universal Time.
#[derive(Clone, Copy)]
pub struct Day {
    pub problems: [Problem; 7],
    /// The sine of each problem's angles.
    pub(crate) sines: [Interval; 7],
    pub ghost counted: { length problems ≡ 7 },
    ghost sines_are: { AreSinesOf problems sines },
    pub ghost limits: { AreInLimits problems },
}

impl Day {
    pub fn new(problems: [Problem; 7]) -> Day
        requires { AreInLimits problems }
        ensures { result.problems ≡ problems }
    {
        let sines = sines_of(&problems);
        Day { problems, sines }
    }
}
