// What the owner of a deque does.
use crate::handles::{Owner, Thief};
use crate::job::{Case, Job};
use crate::rule::{Both, Look, Part, Puts, Takes};
use crossbeam_deque::Worker;
use no_memory::NoMemory;
use std::alloc::Global;

const FIRST_SLOTS: usize = 16;

impl<C: Case> Owner<C> {
    ghost use Rattle.std.specs.Prelude.{◌≡◌, ◌+◌, ◌-◌, ◌<◌, [], ◌++◌, ◌∷◌, IfOk, MatchOption, MatchResult};
    ghost use Rattle.task_deque.specs.Ends.{owner_log, thief_log, IsThiefOf, SameOwner};
    ghost use Rattle.task_deque.specs.Rule.{IsJob, IsSettled, all_parts, log};

    /// An empty deque.
    pub fn new(alloc: Global) -> Result<Owner<C>, NoMemory>
        ensures { IfOk result (λ o. owner_log o ≡ log all_parts [] []) }
    {
        let worker = Worker::lifo_as(alloc, FIRST_SLOTS).map_err(|_| NoMemory)?;
        Ok(Owner { worker })
    }

    /// Puts a task at the end, or gives it back where the deque can't grow.
    pub fn push(&mut self, job: Job) -> Result<(), Job>
        requires job { IsJob C.case job }
        requires part { 0 < (owner_log self.old).parts }
        ensures same { SameOwner self.old self.new }
        ensures pushed { MatchResult result (λ _. owner_log self.new ≡ log (owner_log self.old).parts ((owner_log self.old).pushed ++ job ∷ []) (owner_log self.old).taken) (λ back. (back ≡ job) × (owner_log self.new ≡ owner_log self.old)) }
    {
        self.worker.push_as::<Puts>(job)
    }

    /// Takes the last task. None comes only where the deque was empty at one moment.
    pub fn pop(&mut self) -> Option<Job>
        requires { 0 < (owner_log self.old).parts }
        ensures same { SameOwner self.old self.new }
        ensures popped { MatchOption result ((owner_log self.new ≡ owner_log self.old) × ((owner_log self.old).parts ≡ all_parts → IsSettled (owner_log self.old))) (λ job. IsJob C.case job × (owner_log self.new ≡ log (owner_log self.old).parts (owner_log self.old).pushed ((owner_log self.old).taken ++ job ∷ []))) }
    {
        self.worker.pop_as::<Takes<C>>()
    }

    /// How many tasks stand in the deque at one moment.
    pub fn len(&mut self) -> usize
        ensures same { SameOwner self.old self.new }
        ensures log { owner_log self.new ≡ owner_log self.old }
    {
        self.worker.len_as::<Look>()
    }

    /// A handle to steal by. It takes one part with it, and the record of what was pushed and taken.
    pub fn thief(&mut self) -> Result<Thief<C>, NoMemory>
        requires { 1 < (owner_log self.old).parts }
        ensures same { SameOwner self.old self.new }
        ensures owner { IfOk result (λ _. owner_log self.new ≡ log ((owner_log self.old).parts - 1) [] []) }
        ensures thief { IfOk result (λ t. IsThiefOf self.old t × (thief_log t ≡ log 1 (owner_log self.old).pushed (owner_log self.old).taken)) }
    {
        let stealer = self.worker.stealer().map_err(|_| NoMemory)?;
        let pass = self.worker.another::<Part>();
        Ok(Thief { stealer, pass })
    }

    /// Takes in what a handle has taken, and its parts.
    pub fn absorb(&mut self, thief: Thief<C>)
        requires { IsThiefOf self.old thief }
        ensures same { SameOwner self.old self.new }
        ensures both { owner_log self.new ≡ log ((owner_log self.old).parts + (thief_log thief).parts) ((owner_log self.old).pushed ++ (thief_log thief).pushed) ((owner_log self.old).taken ++ (thief_log thief).taken) }
    {
        self.worker.absorb::<Both>(thief.pass);
    }
}
