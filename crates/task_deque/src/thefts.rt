// What a thief does.
use crate::handles::Thief;
use crate::job::{Case, Job};
use crate::rule::Robs;
use crossbeam_deque::Steal;

impl<C: Case> Thief<C> {
    ghost use Rattle.std.specs.Prelude.{◌≡◌, ◌<◌, [], ◌++◌, ◌∷◌, MatchOption};
    ghost use Rattle.task_deque.specs.Ends.{thief_log, SameThief};
    ghost use Rattle.task_deque.specs.Rule.{IsJob, log};

    /// Takes the first task, if there is one that its owner isn't about to take and nobody else is quicker.
    pub fn steal(&mut self) -> Option<Job>
        requires { 0 < (thief_log self.old).parts }
        ensures same { SameThief self.old self.new }
        ensures stolen { MatchOption result (thief_log self.new ≡ thief_log self.old) (λ job. IsJob C.case job × (thief_log self.new ≡ log (thief_log self.old).parts (thief_log self.old).pushed ((thief_log self.old).taken ++ job ∷ []))) }
    {
        match self.stealer.steal_as::<Robs<C>>(&mut self.pass) {
            Steal::Success(job) => Some(job),
            _ => None,
        }
    }
}
