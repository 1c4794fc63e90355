// The judge of several districts.
ghost use Rattle.std.specs.Prelude.{◌≡◌, ◌≤◌, length, map};
ghost use Rattle.cell_split.specs.Judges.{IsLawful};
ghost use Rattle.district_set.specs.Sets.{AreAlike, set_content};

use cell_split::{Cell, Judge, Judged, Task, Verdict};

/// Judges over one root, each of seven problems, as one: problem `7 * i + k` is problem `k` of judge `i`.
#[derive(Drop)]
pub struct SetSky<'a, J: Judge> {
    skies: &'a [J],
    ghost some: { 1 ≤ length skies.now },
    ghost few: { length skies.now ≤ 64 },
    ghost alike: { AreAlike (map J.content skies.now) },
    ghost lawful: { IsLawful (set_content (map J.content skies.now)) },
}

impl<'a, J: Judge> SetSky<'a, J> {
    /// The judge of 1 to 64 judges.
    pub fn new(skies: &'a [J]) -> SetSky<'a, J>
        requires some { 1 ≤ length skies.now }
        requires few { length skies.now ≤ 64 }
        requires alike { AreAlike (map J.content skies.now) }
        ensures { result.skies.now ≡ skies.now }
    {
        SetSky { skies }
    }
}

impl<J: Judge> Judge for SetSky<'_, J> {
    ghost use Rattle.district_set.specs.Sets.{set_content};

    ghost content = { λ s. set_content (map J.content s.skies.now) };

    ghost lawful = { λ s. s.lawful };

    type Kept = J::Kept;

    fn problems(&self) -> u32 {
        7 * self.skies.len() as u32
    }

    fn root(&self) -> Cell {
        self.skies[0].root()
    }

    fn judge(&self, t: Task) -> Verdict {
        self.skies[(t.problem / 7) as usize].judge(Task {
            problem: t.problem % 7,
            cell: t.cell,
        })
    }

    fn judge_quarters(&self, t: Task, kept: &mut J::Kept) -> [Judged; 4] {
        let task = Task {
            problem: t.problem % 7,
            cell: t.cell,
        };
        self.skies[(t.problem / 7) as usize].judge_quarters(task, kept)
    }
}
