// The search on one thread.
ghost use Rattle.std.specs.Prelude.{◌≡◌, ◌++◌, ◌∷◌, [], nat_lt, true, IfOk, OnOk, if◌then◌else◌};
ghost use Rattle.cell_split.specs.Judges.{IsTask};
ghost use Rattle.cell_split.specs.Split.{children_of, split};
ghost use Rattle.cell_split.specs.Verdicts.{is_split, is_refuted};
ghost use Rattle.cell_split.specs.Tree.{leaves};
ghost use Rattle.cell_split.specs.Entries.{last_ordinal};
ghost use Rattle.plain_search.specs.Harvests.{ordinal_of, IsHarvest};
ghost use Rattle.plain_search.specs.Collected.{Collects};

use crate::harvest::{Harvest, Leaves, Ranks};
use crate::quarters::quarters_in_turn;
use cell_split::{Cell, Judge, Leaf, Task, Verdict, children};
use no_memory::NoMemory;
use std::alloc::Global;

/// Searches each problem's tree on this thread. It leaves out the cells whose last rank is at most
/// the refuted rank that it knows, and takes memory for the leaves that it keeps alone.
pub fn search_plain<J: Judge>(alloc: Global, judge: &J) -> Result<Harvest, NoMemory>
    ensures { IfOk result (λ h. IsHarvest (J.content judge.now) h.refuted h.leaves) }
{
    let cell = judge.root();
    let mut kept = J::Kept::default();
    let mut ranks = Vec::new(alloc);
    let mut leaves = Vec::new(alloc);
    for problem in 0..judge.problems() {
        let mut refuted = None;
        visit(
            judge,
            Task { problem, cell },
            &mut kept,
            &mut refuted,
            &mut leaves,
        )?;
        ranks.push(refuted)?;
    }
    Ok(Harvest {
        refuted: Ranks::of(ranks),
        leaves: Leaves::of(leaves),
    })
}

// Searches the tree below a task.
#[cycle(visits)]
fn visit<J: Judge>(
    judge: &J,
    task: Task,
    kept: &mut J::Kept,
    refuted: &mut Option<u32>,
    found: &mut Vec<Leaf>,
) -> Result<(), NoMemory>
    requires { IsTask (J.content judge.now) task }
    ensures { OnOk result (Collects task.problem (leaves (J.content judge.now) task)
        (ordinal_of refuted.old) (ordinal_of refuted.new) found.old.items found.new.items) }
{
    if is_cut(&task.cell, *refuted) {
        return Ok(());
    }
    visit_judged(judge, task, judge.judge(task), kept, refuted, found)
}

// The same for a task whose verdict is known.
#[cycle(visits)]
fn visit_judged<J: Judge>(
    judge: &J,
    task: Task,
    verdict: Verdict,
    kept: &mut J::Kept,
    refuted: &mut Option<u32>,
    found: &mut Vec<Leaf>,
) -> Result<(), NoMemory>
    requires task { IsTask (J.content judge.now) task }
    requires verdict { verdict ≡ (J.content judge.now).verdict task }
    ensures { OnOk result (Collects task.problem (leaves (J.content judge.now) task)
        (ordinal_of refuted.old) (ordinal_of refuted.new) found.old.items found.new.items) }
{
    if is_cut(&task.cell, *refuted) {
        return Ok(());
    }
    if !verdict.splits() {
        return keep(Leaf { task, verdict }, refuted, found);
    }
    let below = children(&task.cell);
    if below.count == 4 {
        visit_quarters(judge, task, kept, refuted, found)
    } else {
        visit_halves(
            judge,
            task,
            &below.cells[..below.count as usize],
            kept,
            refuted,
            found,
        )
    }
}

// Searches the trees below the quarters of a task. They are judged together, so that their leaves are
// kept first, and then the most failing is searched.
#[cycle(visits)]
fn visit_quarters<J: Judge>(
    judge: &J,
    task: Task,
    kept: &mut J::Kept,
    refuted: &mut Option<u32>,
    found: &mut Vec<Leaf>,
) -> Result<(), NoMemory>
    requires task { IsTask (J.content judge.now) task }
    requires split { is_split ((J.content judge.now).verdict task) ≡ true }
    requires quartered { (split task.cell).count ≡ 4 }
    ensures { OnOk result (Collects task.problem (leaves (J.content judge.now) task)
        (ordinal_of refuted.old) (ordinal_of refuted.new) found.old.items found.new.items) }
{
    for quarter in &quarters_in_turn(judge, task, kept) {
        let child = Task {
            problem: task.problem,
            cell: quarter.cell,
        };
        visit_judged(judge, child, quarter.verdict, kept, refuted, found)?;
    }
    Ok(())
}

// Searches the trees below the halves of a task, the later ranks first.
#[cycle(visits)]
fn visit_halves<J: Judge>(
    judge: &J,
    task: Task,
    halves: &[Cell],
    kept: &mut J::Kept,
    refuted: &mut Option<u32>,
    found: &mut Vec<Leaf>,
) -> Result<(), NoMemory>
    requires task { IsTask (J.content judge.now) task }
    requires split { is_split ((J.content judge.now).verdict task) ≡ true }
    requires halves { halves.now ≡ children_of task.cell }
    ensures { OnOk result (Collects task.problem (leaves (J.content judge.now) task)
        (ordinal_of refuted.old) (ordinal_of refuted.new) found.old.items found.new.items) }
{
    for cell in halves {
        let child = Task {
            problem: task.problem,
            cell: *cell,
        };
        visit(judge, child, kept, refuted, found)?;
    }
    Ok(())
}

/// Whether the cell's last rank is at most the refuted rank: no leaf of it can be above that.
pub fn is_cut(cell: &Cell, refuted: Option<u32>) -> bool
    ensures { result ≡ nat_lt cell.now.last (ordinal_of refuted) }
{
    match refuted {
        Some(rank) => cell.last <= rank,
        None => false,
    }
}

// Keeps a leaf, which is above the refuted rank, and raises the rank where the leaf is refuted.
fn keep(leaf: Leaf, refuted: &mut Option<u32>, found: &mut Vec<Leaf>) -> Result<(), NoMemory>
    ensures found { OnOk result (found.new.items ≡ found.old.items ++ leaf ∷ []) }
    ensures refuted { ordinal_of refuted.new ≡ (if is_refuted leaf.verdict then last_ordinal leaf else ordinal_of refuted.old) }
{
    if leaf.verdict.refutes() {
        *refuted = Some(leaf.task.cell.last);
    }
    found.push(leaf)?;
    Ok(())
}
