// The judge of another judge's first problems.
ghost use Rattle.std.specs.Prelude.{◌≡◌, ◌≤◌};
ghost use Rattle.cell_split.specs.Judges.{IsLawful};
ghost use Rattle.night_portion.specs.Few.{first_problems};

use cell_split::{Cell, Judge, Judged, Task, Verdict};

/// A judge's first problems: it answers as that judge does.
#[derive(Drop)]
pub struct Few<'a, J: Judge> {
    judge: &'a J,
    count: u32,
    ghost few: { count ≤ (J.content judge.now).problems },
    ghost lawful: { IsLawful (first_problems count (J.content judge.now)) },
}

impl<'a, J: Judge> Few<'a, J> {
    /// The first `count` problems of a judge, at least one.
    #[tactic(auto, using(crate::proofs::FewLemmas::first_problems_are_lawful))]
    pub fn new(judge: &'a J, count: u32) -> Few<'a, J>
        requires some { 1 ≤ count }
        requires few { count ≤ (J.content judge.now).problems }
        ensures judge { result.judge.now ≡ judge.now }
        ensures count { result.count ≡ count }
    {
        Few { judge, count }
    }
}

impl<J: Judge> Judge for Few<'_, J> {
    ghost use Rattle.night_portion.specs.Few.{first_problems};

    ghost content = { λ f. first_problems f.count (J.content f.judge.now) };

    ghost lawful = { λ f. f.lawful };

    type Kept = J::Kept;

    fn problems(&self) -> u32 {
        self.count
    }

    fn root(&self) -> Cell {
        self.judge.root()
    }

    fn judge(&self, t: Task) -> Verdict {
        self.judge.judge(t)
    }

    fn judge_quarters(&self, t: Task, kept: &mut J::Kept) -> [Judged; 4] {
        self.judge.judge_quarters(t, kept)
    }
}
