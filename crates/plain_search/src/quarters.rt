// The four quarters of a cell, judged together, in tree order and in the order in which a search takes them.
ghost use Rattle.std.specs.Prelude.{◌≡◌, All};
ghost use Rattle.std.specs.List.Sorted.{IsPermutation};
ghost use Rattle.cell_split.specs.Judges.{IsTask};
ghost use Rattle.cell_split.specs.Split.{children_of, split};
ghost use Rattle.plain_search.specs.Quarters.{IsJudged, cells_of};

use cell_split::{Cell, Judge, Judged, Task, Verdict, children};
use std::cmp::Reverse;

/// A quarter of a task's cell with its verdict.
#[derive(Clone, Copy)]
pub struct Quarter {
    pub cell: Cell,
    pub verdict: Verdict,
    failing: i64,
}

impl Quarter {
    fn new(cell: Cell, judged: Judged) -> Quarter
        ensures cell { result.cell ≡ cell }
        ensures verdict { result.verdict ≡ judged.verdict }
    {
        Quarter {
            cell,
            verdict: judged.verdict,
            failing: judged.failing,
        }
    }

    // Those that aren't split come first, and then the most failing: the first of these that is refuted
    // spares the others.
    fn turn(&self) -> (bool, Reverse<i64>) {
        (self.verdict.splits(), Reverse(self.failing))
    }
}

/// The quarters of a task's cell in the order in which they are searched.
pub fn quarters_in_turn<J: Judge>(judge: &J, task: Task, kept: &mut J::Kept) -> [Quarter; 4]
    requires task { IsTask (J.content judge.now) task }
    requires quartered { (split task.cell).count ≡ 4 }
    ensures cells { IsPermutation (children_of task.cell) (cells_of result) }
    ensures verdicts { All (IsJudged (J.content judge.now) task.problem) result }
{
    let mut quarters = quarters_of(judge, task, kept);
    quarters.sort_unstable_by_key(|q| q.turn());
    quarters
}

/// The quarters of a task's cell, judged together, in tree order.
pub fn quarters_of<J: Judge>(judge: &J, task: Task, kept: &mut J::Kept) -> [Quarter; 4]
    requires task { IsTask (J.content judge.now) task }
    requires quartered { (split task.cell).count ≡ 4 }
    ensures cells { cells_of result ≡ children_of task.cell }
    ensures verdicts { All (IsJudged (J.content judge.now) task.problem) result }
{
    let cells = children(&task.cell).cells;
    let judged = judge.judge_quarters(task, kept);
    [
        Quarter::new(cells[0], judged[0]),
        Quarter::new(cells[1], judged[1]),
        Quarter::new(cells[2], judged[2]),
        Quarter::new(cells[3], judged[3]),
    ]
}
