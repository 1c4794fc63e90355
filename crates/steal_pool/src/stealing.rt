// The search by several workers, each with a deque of its own, who steal from each other.
ghost use Rattle.std.specs.Prelude.{◌≡◌, ◌<◌, ◌≤◌, [], IfOk, length};
ghost use Rattle.bound_word.specs.Bounds.{IsSeatOf, count_of, seen};
ghost use Rattle.plain_search.specs.Harvests.{ordinals_of};
ghost use Rattle.search_worker.specs.Owing.{AreSeen};
ghost use Rattle.search_crew.specs.Crews.{roots_to};
ghost use Rattle.search_crew.specs.Endings.{JoinedOwes};
ghost use Rattle.steal_pool.specs.Found.{AreFacts, IsFound};

use crate::gate::{Gate, Gated};
use crate::threads::{lack_memory, run_crew};
use bound_word::{Bound, BoundSeat};
use cell_split::Judge;
use no_memory::NoMemory;
use search_crew::{Joined, close_crew, crew_of};
use search_worker::{Refutes, Store};
use std::alloc::Global;
use std::sync::Wait;
use std::thread::Threads;
use task_deque::Case;

/// For each problem the greatest refuted rank, and what is kept of the leaves of a harvest.
#[derive(Drop)]
pub(crate) struct Found<S> {
    pub(crate) ranks: Vec<Option<u32>>,
    pub(crate) store: S,
}

/// Searches each problem's tree by several workers.
pub(crate) fn search_in<
    C: Case + Send + Sync,
    S: Store + Send,
    R: Threads + Wait + Sync,
    J: Judge<Kept: Send> + Sync,
    G: Gate + Sync,
>(rt: &R, alloc: Global, judge: &J, workers: u32, gate: &G) -> Result<Found<S>, NoMemory>
    requires case { J.content judge.now ≡ C.case }
    requires problems { 0 < C.case.problems }
    requires some { 1 ≤ workers }
    requires few { workers ≤ 16 }
    ensures { IfOk result (λ found. IsFound C.case (S.keeps C.case.problems found.store) found.ranks.items) }
{
    let (bound, mut seat) = Bound::new(alloc, judge.problems(), Refutes::<C>::new())?;
    let mut members = crew_of::<C, S, J>(alloc, judge, workers, &bound, &mut seat)?;
    run_crew(rt, judge, gate, &bound, &mut members);
    if lack_memory(&members) {
        return Err(NoMemory);
    }
    let joined = close_crew(
        rt,
        alloc,
        &Gated::new(judge, gate, 0),
        &bound,
        seat,
        members,
    )?;
    let found = found_by(alloc, judge, &bound, joined)?;
    Ok(found)
}

// What all workers have found, once nothing stands in a deque.
fn found_by<C: Case, S: Store, J: Judge>(
    alloc: Global,
    judge: &J,
    bound: &Bound<Refutes<C>>,
    joined: Joined<C, S>,
) -> Result<Found<S>, NoMemory>
    requires case { J.content judge.now ≡ C.case }
    requires count { count_of bound.now ≡ C.case.problems }
    requires seat { IsSeatOf bound.now joined.seat }
    ensures { IfOk result (λ found. JoinedOwes C.case (S.keeps C.case.problems) joined [] (roots_to C.case.problems C.case) → IsFound C.case (S.keeps C.case.problems found.store) found.ranks.items) }
{
    let mut seat = joined.seat;
    let ranks = refuted_ranks(alloc, bound, &mut seat, judge.problems())?;
    Ok(Found {
        ranks,
        store: joined.store,
    })
}

// The refuted rank of each problem, as all workers know it.
fn refuted_ranks<C: Case>(
    alloc: Global,
    bound: &Bound<Refutes<C>>,
    seat: &mut BoundSeat<Refutes<C>>,
    problems: u32,
) -> Result<Vec<Option<u32>>, NoMemory>
    requires count { count_of bound.now ≡ C.case.problems }
    requires problems { problems ≡ C.case.problems }
    requires seat { IsSeatOf bound.now seat.old }
    ensures counted { IfOk result (λ ranks. length ranks.items ≡ C.case.problems) }
    ensures seen { IfOk result (λ ranks. AreSeen C.case (seen seat.old) (ordinals_of ranks.items)) }
    ensures facts { IfOk result (λ ranks. AreFacts C.case (ordinals_of ranks.items)) }
{
    let mut ranks = Vec::new(alloc);
    for problem in 0..problems {
        ranks.push(bound.read(seat, problem))?;
    }
    Ok(ranks)
}
