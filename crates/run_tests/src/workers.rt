// The command `table`: its words, its bytes whatever the number of workers, and that workers begin at the same time.
use run_samples::{
    ORDER_B, TABLE_B, TEN_DAYS, TWO_PARTS, answer_through, answer_to, expect_texts, expect_told,
    expect_usage, order_over, text_of,
};
use std::process::Abort;
use std::sync::atomic::{AtomicU64, Ordering};
use std::test::Fail;
use std::thread;
use steal_pool::Gate;
use timetable::Status;

const WRONG_LINES: [&str; 14] = [
    "table --fast",
    "table --workers",
    "table --workers 0",
    "table --workers=17",
    "table --workers=",
    "table --workers 017",
    "table --workers +4",
    "table --workers -1",
    "table --workers 1 --workers 2",
    "table -w 4",
    "table --help",
    "table 4",
    "table -- 4",
    "tabel",
];

#[test]
fn wrong_options_are_refused(rt: HostRuntime) -> Result<(), Fail> {
    expect_usage(&rt, &WRONG_LINES)
}

const LINES: [&str; 6] = [
    "table",
    "table --",
    "table --workers 1",
    "table --workers 2",
    "table --workers=3",
    "table --workers 16",
];

#[test]
fn any_number_of_workers_writes_the_table_of_one_thread(rt: HostRuntime) -> Result<(), Fail> {
    let order = order_over(rt.alloc(), TEN_DAYS, TWO_PARTS)?;
    let plain = answer_to(&rt, "plain", order.as_bytes())?;
    assert!(rt; text_of(&plain.out).ends_with("end days 10 open 0\n"));
    expect_texts(&rt, &LINES, order.as_bytes(), text_of(&plain.out))
}

/// The worker that begins first is held until another one has begun.
#[derive(Drop)]
struct Meeting {
    first: AtomicU64,
    begun: AtomicU64,
    late: AtomicU64,
}

impl Gate for Meeting {
    fn before(&self, worker: u32, turn: u64) {
        if turn > 0 || worker > 1 {
            return;
        }
        let bit = worker as u64 + 1;
        self.begun.fetch_or(bit, Ordering::SeqCst);
        if self
            .first
            .compare_exchange(0, bit, Ordering::SeqCst, Ordering::SeqCst)
            .is_err()
        {
            return;
        }
        for _ in 0..100_000_000u64 {
            if self.begun.load(Ordering::SeqCst) == 3 {
                return;
            }
            thread::yield_now();
        }
        self.late.store(1, Ordering::SeqCst);
    }
}

fn expect_met(rt: &impl Abort, gate: &Meeting) {
    let begun = gate.begun.load(Ordering::SeqCst);
    let late = gate.late.load(Ordering::SeqCst);
    assert_eq!(rt; (begun, late), (3, 0));
}

#[test]
fn two_workers_begin_at_the_same_time(rt: HostRuntime) -> Result<(), Fail> {
    let gate = Meeting {
        first: AtomicU64::new(0),
        begun: AtomicU64::new(0),
        late: AtomicU64::new(0),
    };
    let line = "table --workers 2";
    let answer = answer_through(&rt, line, ORDER_B.as_bytes(), &gate)?;
    expect_told(line, &answer, (Status::Done, TABLE_B, ""))?;
    expect_met(&rt, &gate);
    Ok(())
}
