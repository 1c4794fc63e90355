// How many workers are busy, and whether they are to stop. Nothing that a seat has seen rests on it.
use crate::rule::{Fact, Pass};
use crate::words::{Bound, BoundSeat};

const HALTED: u64 = 1 << 63;

/// A hint on the workers.
#[derive(Clone, Copy, Debug, PartialEq, Eq)]
pub enum State {
    /// This many have begun and not finished.
    Busy(u64),
    /// Some worker has asked the others to stop.
    Halted,
}

impl<F: Fact> Bound<F> {
    ghost use Rattle.std.specs.Prelude.{◌≡◌, ℕ};
    ghost use Rattle.bound_word.specs.Bounds.{seen, IsSeatOf};

    /// One more is busy.
    pub fn begin(&self, seat: &mut BoundSeat<F>)
        requires { IsSeatOf self.now seat.old }
        ensures seat { IsSeatOf self.now seat.new }
        ensures same { (k : ℕ) → seen seat.new k ≡ seen seat.old k }
    {
        self.table
            .shared
            .fetch_add::<Pass>(seat, self.count as usize, 1);
    }

    /// One less is busy.
    pub fn finish(&self, seat: &mut BoundSeat<F>)
        requires { IsSeatOf self.now seat.old }
        ensures seat { IsSeatOf self.now seat.new }
        ensures same { (k : ℕ) → seen seat.new k ≡ seen seat.old k }
    {
        self.table
            .shared
            .fetch_sub::<Pass>(seat, self.count as usize, 1);
    }

    /// Asks all to stop, for good.
    pub fn halt(&self, seat: &mut BoundSeat<F>)
        requires { IsSeatOf self.now seat.old }
        ensures seat { IsSeatOf self.now seat.new }
        ensures same { (k : ℕ) → seen seat.new k ≡ seen seat.old k }
    {
        self.table
            .shared
            .fetch_or::<Pass>(seat, self.count as usize, HALTED);
    }

    /// How many are busy, or that one has asked to stop.
    pub fn state(&self, seat: &mut BoundSeat<F>) -> State
        requires { IsSeatOf self.now seat.old }
        ensures seat { IsSeatOf self.now seat.new }
        ensures same { (k : ℕ) → seen seat.new k ≡ seen seat.old k }
    {
        let word = self.table.shared.load::<Pass>(seat, self.count as usize);
        if word < HALTED {
            State::Busy(word)
        } else {
            State::Halted
        }
    }
}
