// What each worker passes before it judges a task.
ghost use Rattle.std.specs.Prelude.{◌≡◌};

use cell_split::{Cell, Judge, Judged, Task, Verdict};
use std::cell;

/// Called by each worker before it judges its task number `turn`, from 0 on. No clause rests on it.
pub trait Gate {
    fn before(&self, worker: u32, turn: u64);
}

/// The gate that nobody waits at.
#[derive(Drop)]
pub struct OpenGate;

impl Gate for OpenGate {
    fn before(&self, _: u32, _: u64) {}
}

/// A judge as one worker asks it: through the gate.
#[derive(Drop)]
pub(crate) struct Gated<'a, J: Judge, G: Gate> {
    judge: &'a J,
    gate: &'a G,
    worker: u32,
    turn: cell::Cell<u64>,
}

impl<'a, J: Judge, G: Gate> Gated<'a, J, G> {
    pub(crate) fn new(judge: &'a J, gate: &'a G, worker: u32) -> Gated<'a, J, G>
        ensures { result.judge.now ≡ judge.now }
    {
        Gated {
            judge,
            gate,
            worker,
            turn: cell::Cell::new(0),
        }
    }

    // calls the gate before the next task
    fn pass(&self) {
        let turn = self.turn.get();
        self.turn.set(turn.wrapping_add(1));
        self.gate.before(self.worker, turn);
    }
}

impl<J: Judge, G: Gate> Judge for Gated<'_, J, G> {
    ghost content = { λ g. J.content g.judge.now };

    ghost lawful = { λ g. J.lawful g.judge.now };

    type Kept = J::Kept;

    fn problems(&self) -> u32 {
        self.judge.problems()
    }

    fn root(&self) -> Cell {
        self.judge.root()
    }

    fn judge(&self, t: Task) -> Verdict {
        self.pass();
        self.judge.judge(t)
    }

    fn judge_quarters(&self, t: Task, kept: &mut J::Kept) -> [Judged; 4] {
        for _ in 0..4u32 {
            self.pass();
        }
        self.judge.judge_quarters(t, kept)
    }
}
