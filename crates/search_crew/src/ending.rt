// The end of a search by several workers: what they have seen and kept is put together, and what still stands in the
// deques is searched.
ghost use Rattle.std.specs.Prelude.{◌≡◌, ℕ, ◌≤◌, [], ◌++◌, ◌∷◌, All, List, IfOk, OnOk, length};
ghost use Rattle.bound_word.specs.Bounds.{IsSeatOf, count_of, seen};
ghost use Rattle.search_worker.specs.Owing.{Owes};
ghost use Rattle.search_crew.specs.Crews.{IsCrew, OweRoots, owner_logs, roots_to};
ghost use Rattle.search_crew.specs.Endings.{HasEnded, JoinedOwes, ended_logs};
ghost use Rattle.task_deque.specs.declared.job.Job.{Job};
ghost use Rattle.task_deque.specs.declared.rule.Log.{Log};
ghost use Rattle.task_deque.specs.Ends.{owner_log};
ghost use Rattle.task_deque.specs.Rule.{all_parts};

use crate::deques::absorb_all;
use crate::joined::{Ended, Joined};
use bound_word::{Bound, BoundSeat};
use cell_split::Judge;
use no_memory::NoMemory;
use search_worker::{Member, Refutes, Store, Worker};
use std::alloc::Global;
use std::sync::Wait;
use task_deque::{Case, Owner};

impl<C: Case, S: Store> Joined<C, S> {
    // Takes in what a worker has seen and kept.
    fn take_in(
        &mut self,
        bound: &Bound<Refutes<C>>,
        seat: BoundSeat<Refutes<C>>,
        store: S,
    ) -> Result<(), NoMemory>
        requires seat { IsSeatOf bound.now self.old.seat }
        requires other { IsSeatOf bound.now seat }
        ensures seat { IsSeatOf bound.now self.new.seat }
        ensures owes { OnOk result ((logs others : List Log) (given more : List Job) → JoinedOwes C.case (S.keeps C.case.problems) self.old logs given → Owes C.case (S.keeps C.case.problems store) (seen seat) others more [] → JoinedOwes C.case (S.keeps C.case.problems) self.new (logs ++ others) (given ++ more)) }
    {
        bound.join(&mut self.seat, seat);
        self.store.join(store)?;
        Ok(())
    }
}

/// Puts together what these workers have seen and kept, and searches what still stands in their deques. Want of memory is
/// its only fault.
pub fn close_crew<R: Wait, C: Case, S: Store, J: Judge>(
    rt: &R,
    alloc: Global,
    judge: &J,
    bound: &Bound<Refutes<C>>,
    seat: BoundSeat<Refutes<C>>,
    members: Vec<Member<C, S>>,
) -> Result<Joined<C, S>, NoMemory>
    requires case { J.content judge.now ≡ C.case }
    requires count { count_of bound.now ≡ C.case.problems }
    requires seat { IsSeatOf bound.now seat }
    requires crew { IsCrew bound.now members.items }
    ensures seat { IfOk result (λ j. IsSeatOf bound.now j.seat) }
    ensures owes { IfOk result (λ j. OweRoots C.case (S.keeps C.case.problems) members.items → JoinedOwes C.case (S.keeps C.case.problems) j [] (roots_to C.case.problems C.case)) }
{
    let ended = apart(alloc, bound, seat, judge.problems(), members)?;
    let joined = close_all(rt, judge, bound, ended)?;
    Ok(joined)
}

// Takes the workers apart.
fn apart<C: Case, S: Store>(
    alloc: Global,
    bound: &Bound<Refutes<C>>,
    seat: BoundSeat<Refutes<C>>,
    problems: u32,
    members: Vec<Member<C, S>>,
) -> Result<Ended<C, S>, NoMemory>
    requires problems { problems ≡ C.case.problems }
    requires seat { IsSeatOf bound.now seat }
    requires crew { IsCrew bound.now members.items }
    ensures ended { IfOk result (HasEnded bound.now) }
    ensures owes { IfOk result (λ e. OweRoots C.case (S.keeps C.case.problems) members.items → JoinedOwes C.case (S.keeps C.case.problems) e.joined (ended_logs e) (roots_to problems C.case)) }
{
    let store = S::new(alloc, problems)?;
    let mut joined = Joined { seat, store };
    let mut owners = Vec::new(alloc);
    let mut thieves = Vec::new(alloc);
    for member in members {
        let worker = member.worker;
        joined.take_in(bound, worker.seat, worker.store)?;
        owners.push(worker.owner)?;
        thieves.push(member.thieves)?;
    }
    Ok(Ended {
        joined,
        owners,
        thieves,
    })
}

// Searches all that stands in the deques.
fn close_all<R: Wait, C: Case, S: Store, J: Judge>(
    rt: &R,
    judge: &J,
    bound: &Bound<Refutes<C>>,
    ended: Ended<C, S>,
) -> Result<Joined<C, S>, NoMemory>
    requires case { J.content judge.now ≡ C.case }
    requires count { count_of bound.now ≡ C.case.problems }
    requires ended { HasEnded bound.now ended }
    ensures seat { IfOk result (λ j. IsSeatOf bound.now j.seat) }
    ensures owes { IfOk result (λ j. (given : List Job) → JoinedOwes C.case (S.keeps C.case.problems) ended.joined (ended_logs ended) given → JoinedOwes C.case (S.keeps C.case.problems) j [] given) }
{
    let mut owners = ended.owners;
    absorb_all(&mut owners, ended.thieves);
    let mut joined = ended.joined;
    for owner in owners {
        joined = close(rt, judge, bound, owner, joined)?;
    }
    Ok(joined)
}

// Searches what stands in one deque.
fn close<R: Wait, C: Case, S: Store, J: Judge>(
    rt: &R,
    judge: &J,
    bound: &Bound<Refutes<C>>,
    owner: Owner<C>,
    joined: Joined<C, S>,
) -> Result<Joined<C, S>, NoMemory>
    requires case { J.content judge.now ≡ C.case }
    requires count { count_of bound.now ≡ C.case.problems }
    requires seat { IsSeatOf bound.now joined.seat }
    requires parts { (owner_log owner).parts ≡ all_parts }
    ensures seat { IfOk result (λ j. IsSeatOf bound.now j.seat) }
    ensures owes { IfOk result (λ j. (logs : List Log) (given : List Job) → JoinedOwes C.case (S.keeps C.case.problems) joined (owner_log owner ∷ logs) given → JoinedOwes C.case (S.keeps C.case.problems) j logs given) }
{
    let mut worker = Worker {
        owner,
        seat: joined.seat,
        store: joined.store,
    };
    worker.close(rt, judge, bound)?;
    Ok(Joined {
        seat: worker.seat,
        store: worker.store,
    })
}
