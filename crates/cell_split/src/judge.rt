// The trait of judges.
ghost use Rattle.std.specs.Prelude.{◌≡◌, map};
ghost use Rattle.cell_split.specs.Judges.{Content, IsLawful, IsTask};
ghost use Rattle.cell_split.specs.Split.{split};
ghost use Rattle.cell_split.specs.Tree.{child_tasks};

use crate::cell::{Cell, Task};
use crate::split::children;
use crate::verdict::Verdict;

/// The verdict of a quarter, and how far its value lies on the failing side of zero: a hint that tells
/// which quarter is worth searching first.
#[derive(Clone, Copy, Debug, PartialEq, Eq)]
pub struct Judged {
    pub verdict: Verdict,
    pub failing: i64,
}

impl Judged {
    // a verdict of which no more is known
    fn without_hint(verdict: Verdict) -> Judged
        ensures { result.verdict ≡ verdict }
    {
        Judged {
            verdict,
            failing: 0,
        }
    }
}

/// One who judges the cells of one root for each of some problems. Its meaning is plain content: how many
/// problems there are, the root, and the verdict of each task.
pub trait Judge {
    ghost content: { Self → Content };

    /// What is kept from one call for quarters to the next. No verdict depends on it.
    type Kept: Default + Drop;

    fn problems(&self) -> u32
        ensures { result ≡ (content self.now).problems };

    fn root(&self) -> Cell
        ensures { result ≡ (content self.now).root };

    /// The verdict of a task: a cell of the root, for one of the problems.
    fn judge(&self, t: Task) -> Verdict
        requires { IsTask (content self.now) t }
        ensures { result ≡ (content self.now).verdict t };

    /// The verdicts of the four children of a task whose cell is quartered, in tree order. A judge that can
    /// share work among the four, or with the calls before, says so here.
    fn judge_quarters(&self, t: Task, _: &mut Self::Kept) -> [Judged; 4]
        requires task { IsTask (content self.now) t }
        requires quartered { (split t.cell).count ≡ 4 }
        ensures { map (λ q. q.verdict) result ≡ map (content self.now).verdict (child_tasks t) }
    {
        let cells = children(&t.cell).cells;
        [
            Judged::without_hint(self.judge(Task {
                cell: cells[0],
                ..t
            })),
            Judged::without_hint(self.judge(Task {
                cell: cells[1],
                ..t
            })),
            Judged::without_hint(self.judge(Task {
                cell: cells[2],
                ..t
            })),
            Judged::without_hint(self.judge(Task {
                cell: cells[3],
                ..t
            })),
        ]
    }

    /// A smallest cell is never split, and only a smallest cell is open.
    ghost lawful: { (j : Self) → IsLawful (content j) };
}
