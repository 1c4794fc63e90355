// The workers of a search, and what they begin with.
ghost use Rattle.std.specs.Prelude.{◌≡◌, ℕ, ◌+◌, ◌<◌, ◌≤◌, [], All, List, IfOk, length, sum_by};
ghost use Rattle.bound_word.specs.Bounds.{IsSeatOf, seen};
ghost use Rattle.cell_split.specs.Judges.{Content};
ghost use Rattle.search_worker.specs.Owing.{pushed_by};
ghost use Rattle.search_crew.specs.Crews.{AreThievesOf, IsCrew, IsShared, OweRoots, owner_logs, roots_to};
ghost use Rattle.task_deque.specs.declared.job.Job.{Job};
ghost use Rattle.task_deque.specs.Ends.{owner_log, thief_log};
ghost use Rattle.task_deque.specs.Rule.{all_parts, log};

use crate::deques::{owners_of, put_roots, thieves_for_all};
use bound_word::{Bound, BoundSeat};
use cell_split::Judge;
use no_memory::NoMemory;
use search_worker::{Member, Refutes, Store, Worker};
use std::alloc::Global;
use task_deque::{Case, Owner, Thief};

/// So many workers, 1 to 16, each with its deque and handles on all. The roots of all problems stand in the
/// deques. Want of memory is its only fault.
pub fn crew_of<C: Case, S: Store, J: Judge>(
    alloc: Global,
    judge: &J,
    workers: u32,
    bound: &Bound<Refutes<C>>,
    seat: &mut BoundSeat<Refutes<C>>,
) -> Result<Vec<Member<C, S>>, NoMemory>
    requires case { J.content judge.now ≡ C.case }
    requires some { 1 ≤ workers }
    requires few { workers ≤ 16 }
    requires seat { IsSeatOf bound.now seat.old }
    ensures seat { IsSeatOf bound.now seat.new }
    ensures counted { IfOk result (λ members. length members.items ≡ workers) }
    ensures crew { IfOk result (λ members. IsCrew bound.now members.items) }
    ensures owes { IfOk result (λ members. OweRoots C.case (S.keeps C.case.problems) members.items) }
{
    let mut owners = owners_of(alloc, workers)?;
    let thieves = thieves_for_all(alloc, &mut owners)?;
    put_roots(&mut owners, judge.problems(), judge.root())?;
    members_of(alloc, owners, thieves, judge.problems(), bound, seat)
}

/// A worker for each deque, with the handles that are its own.
fn members_of<C: Case, S: Store>(
    alloc: Global,
    owners: Vec<Owner<C>>,
    mut all: Vec<Vec<Thief<C>>>,
    problems: u32,
    bound: &Bound<Refutes<C>>,
    seat: &mut BoundSeat<Refutes<C>>,
) -> Result<Vec<Member<C, S>>, NoMemory>
    requires few { length owners.items ≤ 16 }
    requires problems { problems ≡ C.case.problems }
    requires seat { IsSeatOf bound.now seat.old }
    requires counted { length all.items ≡ length owners.items }
    requires shared { All (IsShared (length owners.items)) owners.items }
    requires thieves { All (λ thieves. AreThievesOf owners.items thieves.items × All (λ t. thief_log t ≡ log 1 [] []) thieves.items) all.items }
    ensures seat { IsSeatOf bound.now seat.new }
    ensures counted { IfOk result (λ members. length members.items ≡ length owners.items) }
    ensures crew { IfOk result (λ members. IsCrew bound.now members.items) }
    ensures owes { IfOk result (λ members. ((weight : Job → ℕ) → pushed_by (owner_logs owners.items) weight ≡ sum_by weight (roots_to problems C.case)) → OweRoots C.case (S.keeps C.case.problems) members.items) }
{
    let mut members = Vec::new(alloc);
    for owner in owners {
        let number = members.len() as u32;
        let seat = bound.split(seat);
        let store = S::new(alloc, problems)?;
        members.push(Member {
            worker: Worker { owner, seat, store },
            thieves: all.pop().unwrap(),
            number,
            lacks_memory: false,
        })?;
    }
    Ok(members)
}
