// The judge of several days.
ghost use Rattle.std.specs.Prelude.{◌≡◌, ◌*◌, ◌<◌, ◌^◌, length};

use crate::day::Day;
use cell_judge::{KeptSky, Sky};
use cell_split::{Cell, Judge, Judged, Task, Verdict};

/// The district of a sky under several days, over the sky's root and under its sun: problem `7 * i + k`
/// is problem `k` of day `i`. The sky's own day takes no part.
#[derive(Drop)]
pub struct DaysSky<'a> {
    sky: &'a Sky,
    days: &'a [Day],
    ghost few: { 7 * length days.now < 2 ^ 32 },
}

impl<'a> DaysSky<'a> {
    pub fn new(sky: &'a Sky, days: &'a [Day]) -> DaysSky<'a>
        requires { 7 * length days.now < 2 ^ 32 }
        ensures sky { result.sky.now ≡ sky.now }
        ensures days { result.days.now ≡ days.now }
    {
        DaysSky { sky, days }
    }
}

impl Judge for DaysSky<'_> {
    ghost use Rattle.std.specs.Prelude.{map};
    ghost use Rattle.cell_judge.proofs.Lawful.{skies_are_lawful};
    ghost use Rattle.days_sky.specs.Days.{all_rows, days_content, rows_of_day};

    ghost content = { λ j. days_content j.sky.now.sun j.sky.now.district (map rows_of_day j.days.now) j.sky.now.root };

    ghost lawful = { λ j. skies_are_lawful j.sky.now.sun j.sky.now.district (all_rows (map rows_of_day j.days.now)) j.sky.now.root j.sky.now.lawful.root };

    type Kept = KeptSky;

    fn problems(&self) -> u32 {
        7 * self.days.len() as u32
    }

    fn root(&self) -> Cell {
        self.sky.root()
    }

    fn judge(&self, t: Task) -> Verdict {
        let day = &self.days[(t.problem / 7) as usize];
        let k = (t.problem % 7) as usize;
        self.sky.judge_for(&day.problems[k], day.sines[k], &t.cell)
    }

    fn judge_quarters(&self, t: Task, kept: &mut KeptSky) -> [Judged; 4] {
        let day = &self.days[(t.problem / 7) as usize];
        let k = (t.problem % 7) as usize;
        self.sky
            .judge_quarters_for(&day.problems[k], day.sines[k], &t.cell, kept)
    }
}
