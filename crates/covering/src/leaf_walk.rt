// The first leaf of a tree that is open, or refuted, at a rank.
ghost use Rattle.std.specs.Prelude.{◌≡◌, ◌≤◌, ◌↔◌, true, find, IsTrue};
ghost use Rattle.cell_split.specs.Judges.{IsTask};
ghost use Rattle.cell_split.specs.Tree.{leaves};
ghost use Rattle.cell_split.specs.Verdicts.{is_split};
ghost use Rattle.covering.specs.Seeks.{fits, is_sought};

use cell_split::{Cell, Judge, Leaf, Task, Verdict, children};

/// The leaves that a walk looks for.
#[derive(Clone, Copy)]
pub(crate) enum Sought {
    Open,
    Refuted,
}

impl Sought {
    fn fits(self, verdict: Verdict) -> bool
        ensures { result ≡ fits self verdict }
    {
        match self {
            Sought::Open => matches!(verdict, Verdict::Open(_)),
            Sought::Refuted => verdict.refutes(),
        }
    }
}

/// The first leaf below a task, in tree order, that is sought and whose last rank is this one. It
/// judges anew the cells that have the rank, up to that leaf.
#[cycle(finds)]
pub(crate) fn first_leaf<J: Judge>(judge: &J, task: Task, sought: Sought, rank: u32) -> Option<Leaf>
    requires { IsTask (J.content judge.now) task }
    ensures { result ≡ find (is_sought sought rank) (leaves (J.content judge.now) task) }
{
    if !has_rank(&task.cell, rank) {
        return None;
    }
    let verdict = judge.judge(task);
    if verdict.splits() {
        first_leaf_below(judge, task, sought, rank)
    } else if sought.fits(verdict) && task.cell.last == rank {
        Some(Leaf { task, verdict })
    } else {
        None
    }
}

// The same, from the first child of a split task to the last.
#[cycle(finds)]
fn first_leaf_below<J: Judge>(judge: &J, task: Task, sought: Sought, rank: u32) -> Option<Leaf>
    requires task { IsTask (J.content judge.now) task }
    requires split { is_split ((J.content judge.now).verdict task) ≡ true }
    ensures { result ≡ find (is_sought sought rank) (leaves (J.content judge.now) task) }
{
    let below = children(&task.cell);
    for cell in &below.cells[..below.count as usize] {
        let child = Task {
            problem: task.problem,
            cell: *cell,
        };
        let found = first_leaf(judge, child, sought, rank);
        if found.is_some() {
            return found;
        }
    }
    None
}

fn has_rank(cell: &Cell, rank: u32) -> bool
    ensures { IsTrue result ↔ ((cell.now.first ≤ rank) × (rank ≤ cell.now.last)) }
{
    cell.first <= rank && rank <= cell.last
}
