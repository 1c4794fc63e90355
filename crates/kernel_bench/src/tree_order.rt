// The search in tree order, cell by cell: what the product's own search is measured against.
ghost use Rattle.std.specs.Prelude.{◌≡◌, ◌<◌};
ghost use Rattle.cell_split.specs.Judges.{IsTask};
ghost use Rattle.cell_split.specs.Split.{children_of};

use cell_split::{Cell, Judge, Task, Verdict, children};

/// Judges the cells of problem `k` in tree order, but for those that the refuted rank covers.
pub fn walk_problem<J: Judge>(judge: &J, k: u32)
    requires { k < (J.content judge.now).problems }
{
    let root = Task {
        problem: k,
        cell: judge.root(),
    };
    walk(judge, root, &mut None);
}

#[cycle(walks)]
fn walk<J: Judge>(judge: &J, task: Task, refuted: &mut Option<u32>)
    requires { IsTask (J.content judge.now) task }
{
    if refuted.is_some_and(|rank| task.cell.last <= rank) {
        return;
    }
    match judge.judge(task) {
        Verdict::Refuted(_) => *refuted = Some(task.cell.last),
        Verdict::Split => {
            let below = children(&task.cell);
            walk_below(judge, task, &below.cells[..below.count as usize], refuted);
        }
        _ => {}
    }
}

#[cycle(walks)]
fn walk_below<J: Judge>(judge: &J, task: Task, cells: &[Cell], refuted: &mut Option<u32>)
    requires task { IsTask (J.content judge.now) task }
    requires cells { cells.now ≡ children_of task.cell }
{
    for cell in cells {
        let child = Task {
            problem: task.problem,
            cell: *cell,
        };
        walk(judge, child, refuted);
    }
}
