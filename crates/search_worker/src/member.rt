// A worker among others: it searches what it has, and steals where it has nothing.
ghost use Rattle.std.specs.Prelude.{◌≡◌, ◌∷◌, [], false, OnOk, MatchOption};
ghost use Rattle.bound_word.specs.Bounds.{count_of};
ghost use Rattle.search_worker.specs.Workers.{HasInHand, IsMemberOf, IsSameMember};
ghost use Rattle.task_deque.specs.Rule.{IsJob};

use crate::refutes::Refutes;
use crate::store::Store;
use crate::thefts::steal;
use crate::worker::Worker;
use bound_word::{Bound, State};
use cell_split::Judge;
use no_memory::NoMemory;
use std::sync::Wait;
use task_deque::{Case, Job, Thief};

/// A worker with handles on the deques of all workers.
#[derive(Drop)]
pub struct Member<C: Case, S> {
    pub worker: Worker<C, S>,
    pub thieves: Vec<Thief<C>>,
    /// Its number: it steals from the deque behind its own first.
    pub number: u32,
    /// Whether it ended since a list found no memory.
    pub lacks_memory: bool,
}

impl<C: Case, S: Store> Member<C, S> {
    /// Searches what stands in its deque and what it steals, until nobody is at work or one has halted
    /// all. Where it finds no memory it says so and halts all.
    pub fn run<R: Wait, J: Judge>(&mut self, rt: &R, judge: &J, bound: &Bound<Refutes<C>>)
        requires case { J.content judge.now ≡ C.case }
        requires count { count_of bound.now ≡ C.case.problems }
        requires member { IsMemberOf bound.now self.old }
        ensures same { IsSameMember bound.now self.old self.new }
        ensures owes { self.new.lacks_memory ≡ false → HasInHand C.case (S.keeps C.case.problems) self.old self.new [] }
    {
        if self
            .search(rt, judge, &mut J::Kept::default(), bound)
            .is_err()
        {
            self.lacks_memory = true;
            bound.halt(&mut self.worker.seat);
        }
    }

    // The same, but for what it says of memory.
    fn search<R: Wait, J: Judge>(
        &mut self,
        rt: &R,
        judge: &J,
        kept: &mut J::Kept,
        bound: &Bound<Refutes<C>>,
    ) -> Result<(), NoMemory>
        requires case { J.content judge.now ≡ C.case }
        requires count { count_of bound.now ≡ C.case.problems }
        requires member { IsMemberOf bound.now self.old }
        ensures same { IsSameMember bound.now self.old self.new }
        ensures owes { OnOk result (HasInHand C.case (S.keeps C.case.problems) self.old self.new []) }
    {
        for _ in rt.forever() {
            self.work_while_it_finds(rt, judge, kept, bound)?;
            if self.worker.is_over_soon(bound) {
                return Ok(());
            }
        }
        unreachable!()
    }

    // Counts as busy from before it looks for the first task on, so that no task is ever in the hands of
    // one who doesn't.
    fn work_while_it_finds<R: Wait, J: Judge>(
        &mut self,
        rt: &R,
        judge: &J,
        kept: &mut J::Kept,
        bound: &Bound<Refutes<C>>,
    ) -> Result<(), NoMemory>
        requires case { J.content judge.now ≡ C.case }
        requires count { count_of bound.now ≡ C.case.problems }
        requires member { IsMemberOf bound.now self.old }
        ensures same { IsSameMember bound.now self.old self.new }
        ensures owes { OnOk result (HasInHand C.case (S.keeps C.case.problems) self.old self.new []) }
    {
        bound.begin(&mut self.worker.seat);
        self.work_on(rt, judge, kept, bound)?;
        bound.finish(&mut self.worker.seat);
        Ok(())
    }

    // Searches task after task.
    fn work_on<R: Wait, J: Judge>(
        &mut self,
        rt: &R,
        judge: &J,
        kept: &mut J::Kept,
        bound: &Bound<Refutes<C>>,
    ) -> Result<(), NoMemory>
        requires case { J.content judge.now ≡ C.case }
        requires count { count_of bound.now ≡ C.case.problems }
        requires member { IsMemberOf bound.now self.old }
        ensures same { IsSameMember bound.now self.old self.new }
        ensures owes { OnOk result (HasInHand C.case (S.keeps C.case.problems) self.old self.new []) }
    {
        for _ in rt.forever() {
            match self.find(bound) {
                Some(job) => self.worker.work(judge, kept, bound, job)?,
                None => return Ok(()),
            }
        }
        unreachable!()
    }

    // The last task of its own deque, else one that it steals; none once all are halted.
    fn find(&mut self, bound: &Bound<Refutes<C>>) -> Option<Job>
        requires member { IsMemberOf bound.now self.old }
        ensures same { IsSameMember bound.now self.old self.new }
        ensures found { MatchOption result (HasInHand C.case (S.keeps C.case.problems) self.old self.new []) (λ job. IsJob C.case job × HasInHand C.case (S.keeps C.case.problems) self.old self.new (job ∷ [])) }
    {
        if bound.state(&mut self.worker.seat) == State::Halted {
            return None;
        }
        match self.worker.owner.pop() {
            Some(job) => Some(job),
            None => steal(&mut self.thieves, self.number),
        }
    }
}
