// The search by several workers, and by one alone on this thread.
ghost use Rattle.std.specs.Prelude.{◌≤◌, IfOk};
ghost use Rattle.plain_search.specs.Harvests.{IsHarvest};
ghost use Rattle.search_worker.specs.OpenRanks.{AreOpenRanks};
ghost use Rattle.steal_pool.specs.Found.{AreAllTopOrdinals, IsFound};

use crate::gate::{Gate, Gated};
use crate::stealing::{Found, search_in};
use cell_split::Judge;
use no_memory::NoMemory;
use plain_search::{Harvest, Leaves, Ranks, TopRanks, search_plain, top_ranks};
use search_worker::{KeptLeaves, OpenRanks};
use std::alloc::Global;
use std::marker::Brand;
use std::sync::Wait;
use std::thread::Threads;

/// Searches each problem's tree, by 1 to 16 workers at the same time. Each worker calls the gate
/// before each task that it judges. One worker searches on this thread.
pub fn search<R: Threads + Wait + Sync, J: Judge<Kept: Send> + Sync, G: Gate + Sync>(
    rt: &R,
    alloc: Global,
    judge: &J,
    workers: u32,
    gate: &G,
) -> Result<Harvest, NoMemory>
    requires some { 1 ≤ workers }
    requires few { workers ≤ 16 }
    ensures { IfOk result (λ h. IsHarvest (J.content judge.now) h.refuted h.leaves) }
{
    if workers == 1 || judge.problems() == 0 {
        return search_plain(alloc, &Gated::new(judge, gate, 0));
    }
    let found = search_in::<Brand, KeptLeaves, R, J, G>(rt, alloc, judge, workers, gate)?;
    Ok(Harvest {
        refuted: Ranks::of(found.ranks),
        leaves: Leaves::of(found.store.leaves),
    })
}

/// Searches as `search` does, and keeps no leaf: for each problem the greatest refuted rank, and the
/// greatest open rank above it.
pub fn search_ranks<R: Threads + Wait + Sync, J: Judge<Kept: Send> + Sync, G: Gate + Sync>(
    rt: &R,
    alloc: Global,
    judge: &J,
    workers: u32,
    gate: &G,
) -> Result<Vec<TopRanks>, NoMemory>
    requires some { 1 ≤ workers }
    requires few { workers ≤ 16 }
    ensures { IfOk result (λ found. AreAllTopOrdinals (J.content judge.now) found.items) }
{
    if workers == 1 || judge.problems() == 0 {
        return ranks_in_turn(alloc, &Gated::new(judge, gate, 0));
    }
    let found = search_in::<Brand, OpenRanks, R, J, G>(rt, alloc, judge, workers, gate)?;
    top_ranks_of(alloc, judge, &found)
}

// The ranks of one problem after another, on this thread.
fn ranks_in_turn<J: Judge>(alloc: Global, judge: &J) -> Result<Vec<TopRanks>, NoMemory>
    ensures { IfOk result (λ found. AreAllTopOrdinals (J.content judge.now) found.items) }
{
    let mut found = Vec::new(alloc);
    for problem in 0..judge.problems() {
        found.push(top_ranks(judge, problem))?;
    }
    Ok(found)
}

// For each problem its refuted rank, and its greatest open rank if it is above that.
fn top_ranks_of<J: Judge>(
    alloc: Global,
    judge: &J,
    found: &Found<OpenRanks>,
) -> Result<Vec<TopRanks>, NoMemory>
    requires { IsFound (J.content judge.now) (AreOpenRanks (J.content judge.now).problems found.now.store.ranks.items) found.now.ranks.items }
    ensures { IfOk result (λ tops. AreAllTopOrdinals (J.content judge.now) tops.items) }
{
    let mut tops = Vec::new(alloc);
    for problem in 0..judge.problems() {
        let k = problem as usize;
        tops.push(TopRanks::of(found.ranks[k], found.store.ranks[k]))?;
    }
    Ok(tops)
}
