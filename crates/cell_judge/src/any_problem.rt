// The judgement of a cell for any problem, whichever day the sky is turned to.
ghost use Rattle.std.specs.Prelude.{◌≡◌};
ghost use Rattle.meeus_terms.specs.Suns.{grid_sun_of};
ghost use Rattle.method_table.specs.Row.{row_of};
ghost use Rattle.cell_split.specs.Cells.{IsCellOf};
ghost use Rattle.cell_judge.specs.Limits.{IsInLimits};
ghost use Rattle.cell_judge.specs.Sines.{IsSineOf};
ghost use Rattle.cell_judge.specs.Skies.{verdict_on};

use crate::judge::verdict_for;
use crate::sky::Sky;
use cell_split::{Cell, Verdict};
use fixed_interval::Interval;
use method_table::Problem;

impl Sky {
    /// The verdict on a cell of the root for this problem, which need be none of the sky's own, and the
    /// sine of its angles. Every minute of its frame is within 53,200,000 minutes of 2000-01-01 12:00
    /// Universal Time.
    pub fn judge_for(&self, problem: &Problem, sine: Interval, cell: &Cell) -> Verdict
        requires sine { IsSineOf problem.now.kind sine }
        requires cell { IsCellOf self.now.root cell.now }
        requires limits { IsInLimits (row_of problem.now) }
        ensures { result ≡ verdict_on (grid_sun_of self.now.sun) (row_of problem.now) self.now.district cell.now }
    {
        match self.named(cell) {
            Some(p) => verdict_for(self.sun, problem, sine, cell, p),
            None => Verdict::Outside,
        }
    }
}
