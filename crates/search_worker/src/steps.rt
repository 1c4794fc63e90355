// One task searched: left out, kept as a leaf, or its children handed on.
ghost use Rattle.std.specs.Prelude.{◌≡◌, true, All, OnOk};
ghost use Rattle.std.specs.List.Sorted.{IsPermutation};
ghost use Rattle.bound_word.specs.Bounds.{count_of};
ghost use Rattle.cell_split.specs.Judges.{IsTask};
ghost use Rattle.cell_split.specs.Split.{children_of, split};
ghost use Rattle.cell_split.specs.Tree.{InTree};
ghost use Rattle.cell_split.specs.Verdicts.{is_split};
ghost use Rattle.plain_search.specs.Quarters.{IsJudged, cells_of};
ghost use Rattle.search_worker.specs.Workers.{HasDone, IsSameWorker, IsWorkerOf, OwesAsBefore};
ghost use Rattle.task_deque.specs.Rule.{IsJob, IsSettled, all_parts};
ghost use Rattle.task_deque.specs.Ends.{owner_log};

use crate::refutes::Refutes;
use crate::store::Store;
use crate::worker::Worker;
use bound_word::Bound;
use cell_split::{Cell, Judge, Leaf, Task, Verdict, children};
use no_memory::NoMemory;
use plain_search::{Quarter, quarters_in_turn};
use std::sync::Wait;
use task_deque::{Case, Job};

// The quarters of a task's cell as they are taken from the last on: reversed, the first in turn comes first.
fn quarters_from_last<J: Judge>(
    judge: &J,
    task: Task,
    kept: &mut J::Kept,
    is_reversed: bool,
) -> [Quarter; 4]
    requires task { IsTask (J.content judge.now) task }
    requires quartered { (split task.cell).count ≡ 4 }
    ensures cells { IsPermutation (children_of task.cell) (cells_of result) }
    ensures verdicts { All (IsJudged (J.content judge.now) task.problem) result }
{
    let mut quarters = quarters_in_turn(judge, task, kept);
    if is_reversed {
        quarters.reverse();
    }
    quarters
}

impl<C: Case, S: Store> Worker<C, S> {
    /// Searches a task: what is below it is kept, left out, or stands in the deque then.
    #[cycle(works)]
    pub fn work<J: Judge>(
        &mut self,
        judge: &J,
        kept: &mut J::Kept,
        bound: &Bound<Refutes<C>>,
        job: Job,
    ) -> Result<(), NoMemory>
        requires case { J.content judge.now ≡ C.case }
        requires count { count_of bound.now ≡ C.case.problems }
        requires worker { IsWorkerOf bound.now self.old }
        requires job { IsJob C.case job }
        ensures same { IsSameWorker bound.now self.old self.new }
        ensures owes { OnOk result (HasDone C.case (S.keeps C.case.problems) self.old self.new job.task) }
    {
        if self.is_spared(bound, &job.task) {
            return Ok(());
        }
        if job.splits {
            return self.hand_on_children(judge, kept, bound, job.task);
        }
        self.work_judged(judge, kept, bound, job.task, judge.judge(job.task))
    }

    // The same for a task whose verdict is known.
    #[cycle(works)]
    fn work_judged<J: Judge>(
        &mut self,
        judge: &J,
        kept: &mut J::Kept,
        bound: &Bound<Refutes<C>>,
        task: Task,
        verdict: Verdict,
    ) -> Result<(), NoMemory>
        requires case { J.content judge.now ≡ C.case }
        requires count { count_of bound.now ≡ C.case.problems }
        requires worker { IsWorkerOf bound.now self.old }
        requires in_tree { InTree C.case task }
        requires verdict { verdict ≡ C.case.verdict task }
        ensures same { IsSameWorker bound.now self.old self.new }
        ensures owes { OnOk result (HasDone C.case (S.keeps C.case.problems) self.old self.new task) }
    {
        if verdict.splits() {
            self.hand_on_children(judge, kept, bound, task)
        } else {
            self.keep(bound, Leaf { task, verdict })
        }
    }

    // Hands on the children of a task that is split: those that aren't split in turn are kept.
    #[cycle(works)]
    fn hand_on_children<J: Judge>(
        &mut self,
        judge: &J,
        kept: &mut J::Kept,
        bound: &Bound<Refutes<C>>,
        task: Task,
    ) -> Result<(), NoMemory>
        requires case { J.content judge.now ≡ C.case }
        requires count { count_of bound.now ≡ C.case.problems }
        requires worker { IsWorkerOf bound.now self.old }
        requires in_tree { InTree C.case task }
        requires split { is_split (C.case.verdict task) ≡ true }
        ensures same { IsSameWorker bound.now self.old self.new }
        ensures owes { OnOk result (HasDone C.case (S.keeps C.case.problems) self.old self.new task) }
    {
        let below = children(&task.cell);
        if below.count == 4 {
            self.hand_on_quarters(judge, kept, bound, task)
        } else {
            self.hand_on_halves(
                judge,
                kept,
                bound,
                task,
                &below.cells[..below.count as usize],
            )
        }
    }

    // The last one first, so that the first of them is the next that is taken from this end. Quarters of a cell of one
    // rank are small work: where others have enough to steal, they are searched at once, the first one first.
    #[cycle(works)]
    fn hand_on_quarters<J: Judge>(
        &mut self,
        judge: &J,
        kept: &mut J::Kept,
        bound: &Bound<Refutes<C>>,
        task: Task,
    ) -> Result<(), NoMemory>
        requires case { J.content judge.now ≡ C.case }
        requires count { count_of bound.now ≡ C.case.problems }
        requires worker { IsWorkerOf bound.now self.old }
        requires in_tree { InTree C.case task }
        requires split { is_split (C.case.verdict task) ≡ true }
        requires quartered { (split task.cell).count ≡ 4 }
        ensures same { IsSameWorker bound.now self.old self.new }
        ensures owes { OnOk result (HasDone C.case (S.keeps C.case.problems) self.old self.new task) }
    {
        let at_once = self.has_enough(bound) && task.cell.first == task.cell.last;
        let quarters = quarters_from_last(judge, task, kept, at_once);
        for i in (0..quarters.len()).rev() {
            let quarter = quarters[i];
            let child = Task {
                problem: task.problem,
                cell: quarter.cell,
            };
            self.hand_on_quarter(
                judge,
                kept,
                bound,
                child,
                quarter.verdict,
                at_once || i == 0,
            )?;
        }
        Ok(())
    }

    // A quarter that is split is handed on, another one kept unless the bound spares it by now.
    #[cycle(works)]
    fn hand_on_quarter<J: Judge>(
        &mut self,
        judge: &J,
        kept: &mut J::Kept,
        bound: &Bound<Refutes<C>>,
        task: Task,
        verdict: Verdict,
        at_once: bool,
    ) -> Result<(), NoMemory>
        requires case { J.content judge.now ≡ C.case }
        requires count { count_of bound.now ≡ C.case.problems }
        requires worker { IsWorkerOf bound.now self.old }
        requires in_tree { InTree C.case task }
        requires verdict { verdict ≡ C.case.verdict task }
        ensures same { IsSameWorker bound.now self.old self.new }
        ensures owes { OnOk result (HasDone C.case (S.keeps C.case.problems) self.old self.new task) }
    {
        if verdict.splits() {
            return self.hand_on(judge, kept, bound, Job { task, splits: true }, at_once);
        }
        if self.is_spared(bound, &task) {
            return Ok(());
        }
        self.keep(bound, Leaf { task, verdict })
    }

    // The last one first here too. Whether a half is split isn't known yet.
    #[cycle(works)]
    fn hand_on_halves<J: Judge>(
        &mut self,
        judge: &J,
        kept: &mut J::Kept,
        bound: &Bound<Refutes<C>>,
        task: Task,
        halves: &[Cell],
    ) -> Result<(), NoMemory>
        requires case { J.content judge.now ≡ C.case }
        requires count { count_of bound.now ≡ C.case.problems }
        requires worker { IsWorkerOf bound.now self.old }
        requires in_tree { InTree C.case task }
        requires split { is_split (C.case.verdict task) ≡ true }
        requires halves { halves.now ≡ children_of task.cell }
        ensures same { IsSameWorker bound.now self.old self.new }
        ensures owes { OnOk result (HasDone C.case (S.keeps C.case.problems) self.old self.new task) }
    {
        for i in (0..halves.len()).rev() {
            let child = Task {
                problem: task.problem,
                cell: halves[i],
            };
            let job = Job {
                task: child,
                splits: false,
            };
            self.hand_on(judge, kept, bound, job, i == 0)?;
        }
        Ok(())
    }

    // Puts a task into the deque, or searches it at once: the first one, which would be taken from this end next, and one
    // for which the deque can't grow.
    #[cycle(works)]
    fn hand_on<J: Judge>(
        &mut self,
        judge: &J,
        kept: &mut J::Kept,
        bound: &Bound<Refutes<C>>,
        job: Job,
        at_once: bool,
    ) -> Result<(), NoMemory>
        requires case { J.content judge.now ≡ C.case }
        requires count { count_of bound.now ≡ C.case.problems }
        requires worker { IsWorkerOf bound.now self.old }
        requires job { IsJob C.case job }
        ensures same { IsSameWorker bound.now self.old self.new }
        ensures owes { OnOk result (HasDone C.case (S.keeps C.case.problems) self.old self.new job.task) }
    {
        if at_once {
            return self.work(judge, kept, bound, job);
        }
        match self.owner.push(job) {
            Ok(()) => Ok(()),
            Err(job) => self.work(judge, kept, bound, job),
        }
    }

    /// Searches what stands in the deque until it is empty.
    pub fn close<R: Wait, J: Judge>(
        &mut self,
        rt: &R,
        judge: &J,
        bound: &Bound<Refutes<C>>,
    ) -> Result<(), NoMemory>
        requires case { J.content judge.now ≡ C.case }
        requires count { count_of bound.now ≡ C.case.problems }
        requires worker { IsWorkerOf bound.now self.old }
        ensures same { IsSameWorker bound.now self.old self.new }
        ensures settled { (owner_log self.old.owner).parts ≡ all_parts → OnOk result (IsSettled (owner_log self.new.owner)) }
        ensures owes { OnOk result (OwesAsBefore C.case (S.keeps C.case.problems) self.old self.new) }
    {
        let mut kept = J::Kept::default();
        for _ in rt.forever() {
            match self.owner.pop() {
                Some(job) => self.work(judge, &mut kept, bound, job)?,
                None => return Ok(()),
            }
        }
        unreachable!()
    }
}
