// A judge that counts the cells it judges.

use cell_split::{Cell, Judge, Judged, Task, Verdict};
use std::sync::atomic::{AtomicU64, Ordering};

/// Judges as another judge does.
#[derive(Drop)]
pub struct Counting<'a, J: Judge> {
    judge: &'a J,
    judged: AtomicU64,
}

impl<'a, J: Judge> Counting<'a, J> {
    pub fn new(judge: &'a J) -> Counting<'a, J> {
        Counting {
            judge,
            judged: AtomicU64::new(0),
        }
    }

    /// How many cells were judged so far.
    pub fn judged(&self) -> u64 {
        self.judged.load(Ordering::SeqCst)
    }
}

impl<J: Judge> Judge for Counting<'_, J> {
    ghost content = { λ c. J.content c.judge.now };

    ghost lawful = { λ c. J.lawful c.judge.now };

    type Kept = J::Kept;

    fn problems(&self) -> u32 {
        self.judge.problems()
    }

    fn root(&self) -> Cell {
        self.judge.root()
    }

    fn judge(&self, t: Task) -> Verdict {
        self.judged.fetch_add(1, Ordering::SeqCst);
        self.judge.judge(t)
    }

    fn judge_quarters(&self, t: Task, kept: &mut J::Kept) -> [Judged; 4] {
        self.judged.fetch_add(4, Ordering::SeqCst);
        self.judge.judge_quarters(t, kept)
    }
}
