// The search that keeps no leaf: for an entry the ranks are enough.
ghost use Rattle.std.specs.Prelude.{◌≡◌, ◌<◌, true, max, if◌then◌else◌};
ghost use Rattle.cell_split.specs.Entries.{last_ordinal};
ghost use Rattle.cell_split.specs.Judges.{IsTask};
ghost use Rattle.cell_split.specs.Split.{children_of, split};
ghost use Rattle.cell_split.specs.Tree.{leaves, root_task};
ghost use Rattle.cell_split.specs.Verdicts.{is_open, is_refuted, is_split};
ghost use Rattle.plain_search.specs.Harvests.{ordinal_of};
ghost use Rattle.plain_search.specs.TopRanks.{AreTopOrdinals, Rises, above};

use crate::plain::is_cut;
use crate::quarters::quarters_in_turn;
use cell_split::{Cell, Judge, Leaf, Task, Verdict, children};

/// What decides the entry of a problem.
#[derive(Clone, Copy, Debug, PartialEq, Eq)]
pub struct TopRanks {
    /// The greatest refuted rank, None where no rank is refuted.
    pub refuted: Option<u32>,
    /// The greatest open rank above it, None where none is open there.
    pub left_open: Option<u32>,
}

impl TopRanks {
    /// The refuted rank, and the open one if it is above that.
    pub fn of(refuted: Option<u32>, opened: Option<u32>) -> TopRanks
        ensures refuted { result.refuted ≡ refuted }
        ensures left_open { ordinal_of result.left_open ≡ above (ordinal_of refuted) (ordinal_of opened) }
    {
        let left_open = match (opened, refuted) {
            (Some(rank), Some(refuted)) if rank <= refuted => None,
            _ => opened,
        };
        TopRanks { refuted, left_open }
    }
}

/// Searches the tree of problem `k` on this thread for its refuted rank and its greatest open rank
/// above it. It leaves out the cells whose last rank is at most the refuted rank that it knows, and
/// takes no memory.
pub fn top_ranks<J: Judge>(judge: &J, k: u32) -> TopRanks
    requires { k < (J.content judge.now).problems }
    ensures { AreTopOrdinals (leaves (J.content judge.now) (root_task (J.content judge.now) k)) (ordinal_of result.refuted) (ordinal_of result.left_open) }
{
    let root = Task {
        problem: k,
        cell: judge.root(),
    };
    let mut found = TopRanks {
        refuted: None,
        left_open: None,
    };
    rise(judge, root, &mut J::Kept::default(), &mut found);
    TopRanks::of(found.refuted, found.left_open)
}

// Takes in the tree below a task.
#[cycle(rises)]
fn rise<J: Judge>(judge: &J, task: Task, kept: &mut J::Kept, found: &mut TopRanks)
    requires { IsTask (J.content judge.now) task }
    ensures { Rises (leaves (J.content judge.now) task)
        (ordinal_of found.old.refuted) (ordinal_of found.old.left_open) (ordinal_of found.new.refuted) (ordinal_of found.new.left_open) }
{
    if is_cut(&task.cell, found.refuted) {
        return;
    }
    rise_judged(judge, task, judge.judge(task), kept, found);
}

// The same for a task whose verdict is known.
#[cycle(rises)]
fn rise_judged<J: Judge>(
    judge: &J,
    task: Task,
    verdict: Verdict,
    kept: &mut J::Kept,
    found: &mut TopRanks,
)
    requires task { IsTask (J.content judge.now) task }
    requires verdict { verdict ≡ (J.content judge.now).verdict task }
    ensures { Rises (leaves (J.content judge.now) task)
        (ordinal_of found.old.refuted) (ordinal_of found.old.left_open) (ordinal_of found.new.refuted) (ordinal_of found.new.left_open) }
{
    if is_cut(&task.cell, found.refuted) {
        return;
    }
    if !verdict.splits() {
        return take_in(Leaf { task, verdict }, found);
    }
    let below = children(&task.cell);
    if below.count == 4 {
        rise_quarters(judge, task, kept, found);
    } else {
        rise_halves(
            judge,
            task,
            &below.cells[..below.count as usize],
            kept,
            found,
        );
    }
}

// Takes in the trees below the quarters of a task in the plain search's order.
#[cycle(rises)]
fn rise_quarters<J: Judge>(judge: &J, task: Task, kept: &mut J::Kept, found: &mut TopRanks)
    requires task { IsTask (J.content judge.now) task }
    requires split { is_split ((J.content judge.now).verdict task) ≡ true }
    requires quartered { (split task.cell).count ≡ 4 }
    ensures { Rises (leaves (J.content judge.now) task)
        (ordinal_of found.old.refuted) (ordinal_of found.old.left_open) (ordinal_of found.new.refuted) (ordinal_of found.new.left_open) }
{
    for quarter in &quarters_in_turn(judge, task, kept) {
        let child = Task {
            problem: task.problem,
            cell: quarter.cell,
        };
        rise_judged(judge, child, quarter.verdict, kept, found);
    }
}

// Takes in the trees below the halves of a task, the later ranks first.
#[cycle(rises)]
fn rise_halves<J: Judge>(
    judge: &J,
    task: Task,
    halves: &[Cell],
    kept: &mut J::Kept,
    found: &mut TopRanks,
)
    requires task { IsTask (J.content judge.now) task }
    requires split { is_split ((J.content judge.now).verdict task) ≡ true }
    requires halves { halves.now ≡ children_of task.cell }
    ensures { Rises (leaves (J.content judge.now) task)
        (ordinal_of found.old.refuted) (ordinal_of found.old.left_open) (ordinal_of found.new.refuted) (ordinal_of found.new.left_open) }
{
    for cell in halves {
        let child = Task {
            problem: task.problem,
            cell: *cell,
        };
        rise(judge, child, kept, found);
    }
}

// Takes in a leaf that is above the refuted rank.
fn take_in(leaf: Leaf, found: &mut TopRanks)
    ensures refuted { ordinal_of found.new.refuted ≡ (if is_refuted leaf.verdict then last_ordinal leaf else ordinal_of found.old.refuted) }
    ensures opened { ordinal_of found.new.left_open ≡ (if is_open leaf.verdict then max (ordinal_of found.old.left_open) (last_ordinal leaf) else ordinal_of found.old.left_open) }
{
    let last = leaf.task.cell.last;
    match leaf.verdict {
        Verdict::Refuted(_) => found.refuted = Some(last),
        Verdict::Open(_) => found.left_open = Some(found.left_open.unwrap_or(0).max(last)),
        _ => {}
    }
}
