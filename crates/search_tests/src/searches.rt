// Both searches of the trees of sample judges.
ghost use Rattle.plain_search.specs.Harvests.{IsHarvest};
ghost use Rattle.sample_judges.specs.Samples.{steps, threshold};

use cell_split::{Cell, Entry, Judge, root_at};
use covering::entry_of;
use plain_search::{Harvest, TopRanks, search_plain, top_ranks};
use region::Point;
use sample_judges::{Late, Steps, Threshold};
use std::alloc::Global;
use std::process::Abort;
use std::sync::Wait;
use std::test::Fail;
use std::thread::Threads;
use steal_pool::{OpenGate, search, search_ranks};

pub(crate) fn corner() -> Point {
    Point::new(12_800_000, 0, 1)
}

// How many leaves are above the refuted rank.
fn leaves_above(harvest: &Harvest, rank: u32) -> u64 {
    let mut above = 0u64;
    for i in 0..harvest.leaf_count() {
        if harvest.leaf(i).task.cell.last > rank {
            above = above.wrapping_add(1);
        }
    }
    above
}

/// The one open cell of a judge that refutes the ranks up to 99.
pub(crate) fn finds_the_open_cell(rt: &impl Abort, judge: &Threshold, harvest: &Harvest)
    requires { IsHarvest (threshold judge.now.root judge.now.point) harvest.now.refuted harvest.now.leaves }
{
    let cell = Cell {
        x: 12_800_000,
        y: 0,
        size: 4,
        first: 100,
        last: 100,
    };
    let open = Entry::Open {
        safe: 101,
        from: 100,
        cell,
    };
    assert_eq!(rt; harvest.refuted_rank(0), Some(99));
    assert_eq!(rt; leaves_above(harvest, 99), 81);
    assert_eq!(rt; entry_of(judge, harvest, 0), open);
}

#[test]
fn every_search_finds_the_one_open_cell(rt: HostRuntime) -> Result<(), Fail> {
    let judge = Threshold::new(root_at(100_000, 0), corner());
    finds_the_open_cell(&rt, &judge, &search_plain(rt.alloc(), &judge)?);
    finds_the_open_cell(&rt, &judge, &search(&rt, rt.alloc(), &judge, 1, &OpenGate)?);
    finds_the_open_cell(&rt, &judge, &search(&rt, rt.alloc(), &judge, 2, &OpenGate)?);
    finds_the_open_cell(
        &rt,
        &judge,
        &search(&rt, rt.alloc(), &judge, 16, &OpenGate)?,
    );
    Ok(())
}

/// The entries of a judge that refutes the ranks below 100 times the problem's number.
pub(crate) fn has_entries_by_steps(rt: &impl Abort, judge: &Steps, harvest: &Harvest)
    requires { IsHarvest (steps judge.now.root judge.now.point) harvest.now.refuted harvest.now.leaves }
{
    for k in 0..7u32 {
        let entry = if k == 0 {
            Entry::Whole
        } else {
            Entry::Minute { rank: 100 * k }
        };
        assert_eq!(rt; entry_of(judge, harvest, k), entry, "of problem {k}");
    }
}

#[test]
fn what_the_workers_find_is_put_together_problem_by_problem(rt: HostRuntime) -> Result<(), Fail> {
    let judge = Steps::new(root_at(100_000, 0), corner());
    for workers in [1, 2, 3, 7, 16] {
        let harvest = search(&rt, rt.alloc(), &judge, workers, &OpenGate)?;
        has_entries_by_steps(&rt, &judge, &harvest);
    }
    Ok(())
}

#[test]
fn the_ranks_alone_tell_what_is_refuted_and_what_is_left_open(rt: HostRuntime) {
    let (root, point) = (root_at(100_000, 0), corner());
    let open = TopRanks {
        refuted: Some(99),
        left_open: Some(100),
    };
    assert_eq!(rt; top_ranks(&Threshold::new(root, point), 0), open);
    let never = TopRanks {
        refuted: Some(720),
        left_open: None,
    };
    assert_eq!(rt; top_ranks(&Late::new(root, point), 0), never);
    let judge = Steps::new(root, point);
    for k in 1..7u32 {
        assert_eq!(rt; top_ranks(&judge, k).refuted, Some(100 * k - 1));
    }
}

// The ranks of each problem as one thread finds them.
fn has_ranks_of_one_thread<J: Judge>(rt: &impl Abort, judge: &J, found: &[TopRanks]) {
    assert_eq!(rt; found.len(), judge.problems() as usize);
    for k in 0..judge.problems() {
        let alone = top_ranks(judge, k);
        assert_eq!(rt; found.get(k as usize), Some(&alone), "of problem {k}");
    }
}

fn workers_find_ranks<R: Threads + Wait + Sync + Abort, J: Judge<Kept: Send> + Sync>(
    rt: &R,
    alloc: Global,
    judge: &J,
) -> Result<(), Fail> {
    for workers in [1, 2, 16] {
        let found = search_ranks(rt, alloc, judge, workers, &OpenGate)?;
        has_ranks_of_one_thread(rt, judge, &found);
    }
    Ok(())
}

#[test]
fn any_number_of_workers_finds_the_ranks_of_one_thread(rt: HostRuntime) -> Result<(), Fail> {
    let (root, point) = (root_at(100_000, 0), corner());
    workers_find_ranks(&rt, rt.alloc(), &Threshold::new(root, point))?;
    workers_find_ranks(&rt, rt.alloc(), &Late::new(root, point))?;
    workers_find_ranks(&rt, rt.alloc(), &Steps::new(root, point))
}
