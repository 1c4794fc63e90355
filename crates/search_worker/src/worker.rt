// What one worker has, and its small steps.
ghost use Rattle.std.specs.Prelude.{◌≡◌, ◌<◌, ◌≤◌, ℕ, true, OnOk};
ghost use Rattle.bound_word.specs.Bounds.{count_of, seen, IsSeatOf};
ghost use Rattle.cell_split.specs.Entries.{last_ordinal};
ghost use Rattle.cell_split.specs.Judges.{IsTask};
ghost use Rattle.cell_split.specs.Tree.{IsLeafOf};
ghost use Rattle.cell_split.specs.Verdicts.{is_refuted};
ghost use Rattle.search_worker.specs.Workers.{HasDone, IsSameWorker, IsWorkerOf, OwesAsBefore};

use crate::refutes::Refutes;
use crate::store::Store;
use bound_word::{Bound, BoundSeat, State};
use cell_split::{Leaf, Task};
use no_memory::NoMemory;
use plain_search::is_cut;
use std::thread;
use task_deque::{Case, Owner};

// How many tasks that others can steal are enough.
const ENOUGH: usize = 4;

// How often an idle worker yields between two times that it looks for a task.
const RESTS: u32 = 16;

/// A worker with the deque that it owns, its seat of the shared bound, and what it has kept.
#[derive(Drop)]
pub struct Worker<C: Case, S> {
    pub owner: Owner<C>,
    pub seat: BoundSeat<Refutes<C>>,
    pub store: S,
}

impl<C: Case, S: Store> Worker<C, S> {
    // Whether no leaf of the task can be above the refuted rank of its problem.
    pub(crate) fn is_spared(&mut self, bound: &Bound<Refutes<C>>, task: &Task) -> bool
        requires problem { task.now.problem < count_of bound.now }
        requires worker { IsWorkerOf bound.now self.old }
        ensures same { IsSameWorker bound.now self.old self.new }
        ensures spared { result ≡ true → task.now.cell.last < seen self.new.seat task.now.problem }
        ensures owes { OwesAsBefore C.case (S.keeps C.case.problems) self.old self.new }
    {
        is_cut(&task.cell, bound.read(&mut self.seat, task.problem))
    }

    // Whether others can steal enough of it.
    pub(crate) fn has_enough(&mut self, bound: &Bound<Refutes<C>>) -> bool
        requires worker { IsWorkerOf bound.now self.old }
        ensures same { IsSameWorker bound.now self.old self.new }
        ensures owes { OwesAsBefore C.case (S.keeps C.case.problems) self.old self.new }
    {
        self.owner.len() >= ENOUGH
    }

    // Whether nobody is busy or one has halted all, at one of some looks. Those who look for a task count
    // as busy: if they didn't rest between two such times, they would keep each other from the end.
    pub(crate) fn is_over_soon(&mut self, bound: &Bound<Refutes<C>>) -> bool
        requires worker { IsWorkerOf bound.now self.old }
        ensures same { IsSameWorker bound.now self.old self.new }
        ensures owes { OwesAsBefore C.case (S.keeps C.case.problems) self.old self.new }
    {
        for _ in 0..RESTS {
            if let State::Busy(0) | State::Halted = bound.state(&mut self.seat) {
                return true;
            }
            thread::yield_now();
        }
        false
    }

    // Takes in a leaf. Where it is refuted, the others see that first.
    pub(crate) fn keep(&mut self, bound: &Bound<Refutes<C>>, leaf: Leaf) -> Result<(), NoMemory>
        requires count { count_of bound.now ≡ C.case.problems }
        requires worker { IsWorkerOf bound.now self.old }
        requires task { IsTask C.case leaf.task }
        requires leaf { IsLeafOf C.case leaf }
        ensures same { IsSameWorker bound.now self.old self.new }
        ensures owes { OnOk result (HasDone C.case (S.keeps C.case.problems) self.old self.new leaf.task) }
    {
        tell(bound, &mut self.seat, &leaf);
        self.store.keep(leaf)
    }
}

// Raises the rank of a leaf's problem where the leaf is refuted.
fn tell<C: Case>(bound: &Bound<Refutes<C>>, seat: &mut BoundSeat<Refutes<C>>, leaf: &Leaf)
    requires count { count_of bound.now ≡ C.case.problems }
    requires seat { IsSeatOf bound.now seat.old }
    requires task { IsTask C.case leaf.now.task }
    requires leaf { IsLeafOf C.case leaf.now }
    ensures seat { IsSeatOf bound.now seat.new }
    ensures risen { (k : ℕ) → seen seat.old k ≤ seen seat.new k }
    ensures told { is_refuted leaf.now.verdict ≡ true → last_ordinal leaf.now ≤ seen seat.new leaf.now.task.problem }
{
    if leaf.verdict.refutes() {
        bound.raise(seat, leaf.task.problem, leaf.task.cell.last);
    }
}
