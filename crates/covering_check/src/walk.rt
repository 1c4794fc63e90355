// The walk of a tree along its letters.
ghost use Rattle.std.specs.Prelude.{◌≡◌, flat_map, nat_lt, IfOk, false, true};
ghost use Rattle.cell_split.specs.Judges.{IsTask};
ghost use Rattle.cell_split.specs.Split.{children_of, split};
ghost use Rattle.cell_split.specs.Tree.{child_tasks};
ghost use Rattle.cell_split.specs.Verdicts.{is_split};
ghost use Rattle.plain_search.specs.Harvests.{ordinal_of};
ghost use Rattle.covering.specs.Letters.{letter_of};
ghost use Rattle.covering_check.specs.Left.{left};
ghost use Rattle.covering_check.specs.Visits.{IsInFrame, Walks, is_letter_for, later_open, visited};

use crate::fault::CoverFault;
use crate::letters::Letters;
use cell_split::{Cell, Judge, Leaf, Task, Verdict, children};
use covering::letter_of;
use plain_search::{is_cut, quarters_of};

/// Walks the tree below a task along the letters, and judges each cell anew that isn't cut. It gives the
/// first open cell of the latest rank, with those found before.
#[cycle(walks)]
pub(crate) fn walk<J: Judge>(
    judge: &J,
    task: Task,
    kept: &mut J::Kept,
    refuted: Option<u32>,
    letters: &mut Letters<'_>,
    known: Option<Leaf>,
) -> Result<Option<Leaf>, CoverFault>
    requires task { IsTask (J.content judge.now) task }
    requires known { IsInFrame known }
    ensures walks { Walks (ordinal_of refuted) (visited (J.content judge.now) (ordinal_of refuted) task) known (left letters.old) (left letters.new) result }
    ensures in_frame { IfOk result IsInFrame }
{
    if !is_cut(&task.cell, refuted) {
        return walk_judged(
            judge,
            task,
            judge.judge(task),
            kept,
            refuted,
            letters,
            known,
        );
    }
    let mark = match letters.next() {
        Ok(mark) => mark,
        Err(fault) => return Err(fault),
    };
    if mark.letter == b'k' {
        Ok(known)
    } else {
        Err(CoverFault::NotShown(mark.place))
    }
}

// The same for a task that isn't cut and whose verdict is known.
#[cycle(walks)]
fn walk_judged<J: Judge>(
    judge: &J,
    task: Task,
    verdict: Verdict,
    kept: &mut J::Kept,
    refuted: Option<u32>,
    letters: &mut Letters<'_>,
    known: Option<Leaf>,
) -> Result<Option<Leaf>, CoverFault>
    requires task { IsTask (J.content judge.now) task }
    requires known { IsInFrame known }
    requires uncut { nat_lt task.cell.last (ordinal_of refuted) ≡ false }
    requires verdict { verdict ≡ (J.content judge.now).verdict task }
    ensures walks { Walks (ordinal_of refuted) (visited (J.content judge.now) (ordinal_of refuted) task) known (left letters.old) (left letters.new) result }
    ensures in_frame { IfOk result IsInFrame }
{
    let mark = match letters.next() {
        Ok(mark) => mark,
        Err(fault) => return Err(fault),
    };
    if !is_shown_by(verdict, mark.letter) {
        return Err(CoverFault::NotShown(mark.place));
    }
    if !verdict.splits() {
        return Ok(later_open(known, Leaf { task, verdict }));
    }
    let below = children(&task.cell);
    if below.count == 4 {
        walk_quarters(judge, task, kept, refuted, letters, known)
    } else {
        walk_halves(
            judge,
            task,
            &below.cells[..below.count as usize],
            kept,
            refuted,
            letters,
            known,
        )
    }
}

// Walks the trees below the quarters of a task that isn't cut. They have its ranks, so none of them is cut,
// and they are judged together.
#[cycle(walks)]
#[tactic(auto, using(crate::proofs::Taking::walked_none))]
fn walk_quarters<J: Judge>(
    judge: &J,
    task: Task,
    kept: &mut J::Kept,
    refuted: Option<u32>,
    letters: &mut Letters<'_>,
    known: Option<Leaf>,
) -> Result<Option<Leaf>, CoverFault>
    requires task { IsTask (J.content judge.now) task }
    requires known { IsInFrame known }
    requires uncut { nat_lt task.cell.last (ordinal_of refuted) ≡ false }
    requires quartered { (split task.cell).count ≡ 4 }
    ensures walks { Walks (ordinal_of refuted) (flat_map (visited (J.content judge.now) (ordinal_of refuted)) (child_tasks task)) known (left letters.old) (left letters.new) result }
    ensures in_frame { IfOk result IsInFrame }
{
    let mut found = known;
    for quarter in &quarters_of(judge, task, kept) {
        let child = Task {
            problem: task.problem,
            cell: quarter.cell,
        };
        found = match walk_judged(judge, child, quarter.verdict, kept, refuted, letters, found) {
            Ok(found) => found,
            Err(fault) => return Err(fault),
        };
    }
    Ok(found)
}

// Walks the trees below the halves of a task, the later ranks first.
#[cycle(walks)]
#[tactic(auto, using(crate::proofs::Taking::walked_none))]
fn walk_halves<J: Judge>(
    judge: &J,
    task: Task,
    halves: &[Cell],
    kept: &mut J::Kept,
    refuted: Option<u32>,
    letters: &mut Letters<'_>,
    known: Option<Leaf>,
) -> Result<Option<Leaf>, CoverFault>
    requires task { IsTask (J.content judge.now) task }
    requires known { IsInFrame known }
    requires halves { halves.now ≡ children_of task.cell }
    ensures walks { Walks (ordinal_of refuted) (flat_map (visited (J.content judge.now) (ordinal_of refuted)) (child_tasks task)) known (left letters.old) (left letters.new) result }
    ensures in_frame { IfOk result IsInFrame }
{
    let mut found = known;
    for cell in halves {
        let child = Task {
            problem: task.problem,
            cell: *cell,
        };
        found = match walk(judge, child, kept, refuted, letters, found) {
            Ok(found) => found,
            Err(fault) => return Err(fault),
        };
    }
    Ok(found)
}

// whether a letter shows a verdict
fn is_shown_by(verdict: Verdict, letter: u8) -> bool
    ensures { result ≡ is_letter_for (letter_of verdict) letter }
{
    match letter_of(verdict) {
        Some(right) => letter == right,
        None => false,
    }
}

// what is found with one leaf more
fn later_open(known: Option<Leaf>, leaf: Leaf) -> Option<Leaf>
    ensures { result ≡ later_open 0 known leaf }
{
    let is_open = matches!(leaf.verdict, Verdict::Open(_));
    let is_later = match known {
        Some(found) => found.task.cell.last < leaf.task.cell.last,
        None => true,
    };
    if is_open && is_later {
        Some(leaf)
    } else {
        known
    }
}
