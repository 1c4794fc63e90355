// What the workers of a search judge, and that they do so at the same time: by gates that count or hold.
use crate::searches::{corner, finds_the_open_cell, has_entries_by_steps};
use cell_split::{Cell, Judge, Task, Verdict, root_at};
use plain_search::search_plain;
use sample_judges::{Late, Steps, Threshold};
use std::process::Abort;
use std::sync::atomic::{AtomicU64, Ordering};
use std::test::Fail;
use std::thread;
use steal_pool::{Gate, search};

/// Counts the tasks.
#[derive(Drop)]
struct Counter {
    tasks: AtomicU64,
}

impl Counter {
    fn new() -> Counter {
        Counter {
            tasks: AtomicU64::new(0),
        }
    }
}

impl Gate for Counter {
    fn before(&self, _: u32, _: u64) {
        self.tasks.fetch_add(1, Ordering::SeqCst);
    }
}

/// Judges as another judge does, and counts the tasks.
#[derive(Drop)]
struct Counting<'a, J: Judge> {
    judge: &'a J,
    judged: AtomicU64,
}

impl<'a, J: Judge> Counting<'a, J> {
    fn new(judge: &'a J) -> Counting<'a, J> {
        Counting {
            judge,
            judged: AtomicU64::new(0),
        }
    }
}

impl<J: Judge> Judge for Counting<'_, J> {
    ghost content = { λ c. J.content c.judge.now };

    ghost lawful = { λ c. J.lawful c.judge.now };

    type Kept = ();

    fn problems(&self) -> u32 {
        self.judge.problems()
    }

    fn root(&self) -> Cell {
        self.judge.root()
    }

    fn judge(&self, t: Task) -> Verdict {
        self.judged.fetch_add(1, Ordering::SeqCst);
        self.judge.judge(t)
    }
}

#[test]
fn every_task_that_is_judged_passes_the_gate(rt: HostRuntime) -> Result<(), Fail> {
    let judge = Steps::new(root_at(100_000, 0), corner());
    for workers in [1, 2, 3, 16] {
        let counting = Counting::new(&judge);
        let gate = Counter::new();
        search(&rt, rt.alloc(), &counting, workers, &gate)?;
        assert_eq!(rt;
            gate.tasks.load(Ordering::SeqCst),
            counting.judged.load(Ordering::SeqCst),
            "of {workers} workers"
        );
    }
    Ok(())
}

#[test]
fn one_worker_judges_what_the_plain_search_does(rt: HostRuntime) -> Result<(), Fail> {
    let judge = Steps::new(root_at(100_000, 0), corner());
    let counting = Counting::new(&judge);
    search_plain(rt.alloc(), &counting)?;
    let gate = Counter::new();
    search(&rt, rt.alloc(), &judge, 1, &gate)?;
    assert_eq!(rt;
        gate.tasks.load(Ordering::SeqCst),
        counting.judged.load(Ordering::SeqCst)
    );
    Ok(())
}

#[test]
fn a_refuted_leaf_raises_the_rank_and_what_it_covers_is_left_out(
    rt: HostRuntime,
) -> Result<(), Fail> {
    let judge = Late::new(root_at(100_000, 0), corner());
    let gate = Counter::new();
    let harvest = search(&rt, rt.alloc(), &judge, 1, &gate)?;
    assert_eq!(rt; harvest.refuted_rank(0), Some(720));
    assert_eq!(rt; gate.tasks.load(Ordering::SeqCst), 2);
    Ok(())
}

/// Holds the one of two workers that begins first, before this turn of its own, until the other has begun.
#[derive(Drop)]
struct Hold {
    turn: u64,
    first: AtomicU64,
    begun: AtomicU64,
    late: AtomicU64,
}

impl Hold {
    fn before_turn(turn: u64) -> Hold {
        Hold {
            turn,
            first: AtomicU64::new(0),
            begun: AtomicU64::new(0),
            late: AtomicU64::new(0),
        }
    }

    // Waits for 100,000,000 turns at most.
    fn wait(&self) {
        for _ in 0..100_000_000u64 {
            if self.begun.load(Ordering::SeqCst) == 3 {
                return;
            }
            thread::yield_now();
        }
        self.late.store(1, Ordering::SeqCst);
    }
}

impl Gate for Hold {
    fn before(&self, worker: u32, turn: u64) {
        if worker > 1 {
            return;
        }
        let bit = worker as u64 + 1;
        self.begun.fetch_or(bit, Ordering::SeqCst);
        let _ = self
            .first
            .compare_exchange(0, bit, Ordering::SeqCst, Ordering::SeqCst);
        if turn == self.turn && self.first.load(Ordering::SeqCst) == bit {
            self.wait();
        }
    }
}

// Both have begun, the one while the other was held.
fn have_begun(rt: &impl Abort, gate: &Hold) {
    assert_eq!(rt; gate.begun.load(Ordering::SeqCst), 3);
    assert_eq!(rt; gate.late.load(Ordering::SeqCst), 0);
}

#[test]
fn two_workers_begin_at_the_same_time(rt: HostRuntime) -> Result<(), Fail> {
    let judge = Steps::new(root_at(100_000, 0), corner());
    let gate = Hold::before_turn(0);
    let harvest = search(&rt, rt.alloc(), &judge, 2, &gate)?;
    has_entries_by_steps(&rt, &judge, &harvest);
    have_begun(&rt, &gate);
    Ok(())
}

#[test]
fn a_worker_that_has_no_task_steals_one(rt: HostRuntime) -> Result<(), Fail> {
    let judge = Threshold::new(root_at(100_000, 0), corner());
    let gate = Hold::before_turn(1);
    let harvest = search(&rt, rt.alloc(), &judge, 2, &gate)?;
    finds_the_open_cell(&rt, &judge, &harvest);
    have_begun(&rt, &gate);
    Ok(())
}
