// Thefts from many deques.
ghost use Rattle.std.specs.Prelude.{◌≡◌, ◌<◌, ◌∷◌, [], All, MatchOption, map};
ghost use Rattle.crossbeam_deque.specs.Handles.{stealer_deque};
ghost use Rattle.search_worker.specs.Owing.{Takes};
ghost use Rattle.search_worker.specs.Workers.{logs_of, parts_of};
ghost use Rattle.task_deque.specs.Rule.{IsJob};

use task_deque::{Case, Job, Thief};

// The first task of the first deque that has one to steal, from the deque behind number `own` on.
pub(crate) fn steal<C: Case>(thieves: &mut Vec<Thief<C>>, own: u32) -> Option<Job>
    requires { All (λ n. 0 < n) (parts_of thieves.old.items) }
    ensures deques { map (λ t. stealer_deque t.stealer) thieves.new.items ≡ map (λ t. stealer_deque t.stealer) thieves.old.items }
    ensures parts { parts_of thieves.new.items ≡ parts_of thieves.old.items }
    ensures stolen { MatchOption result (Takes (logs_of thieves.old.items) (logs_of thieves.new.items) []) (λ job. IsJob C.case job × Takes (logs_of thieves.old.items) (logs_of thieves.new.items) (job ∷ [])) }
{
    let count = thieves.len();
    for i in 0..count {
        let next = (own as usize + 1 + i) % count;
        match thieves[next].steal() {
            Some(job) => return Some(job),
            None => {}
        }
    }
    None
}
