// Making a bound, and the steps on its words with ranks.
use crate::rule::{About, Alike, Both, Fact, Raise, Read};
use crate::words::{Bound, BoundSeat};
use atomic_table::Table;
use no_memory::NoMemory;
use std::alloc::Global;

impl<F: Fact> Bound<F> {
    ghost use Rattle.std.specs.Prelude.{◌≡◌, ◌≢◌, ℕ, ◌+◌, ◌<◌, ◌≤◌, max, IfOk, IfSome, IfNone};
    ghost use Rattle.bound_word.specs.Bounds.{count_of, content_of, seen, IsSeatOf};

    /// A bound of `n` words with nothing in them, and a seat that has seen nothing.
    pub fn new(alloc: Global, n: u32, facts: F) -> Result<(Bound<F>, BoundSeat<F>), NoMemory>
    where
        F: Drop,
        requires { 1 ≤ n }
        ensures words { IfOk result (λ r. count_of r.0 ≡ n) }
        ensures content { IfOk result (λ r. content_of r.0 ≡ facts) }
        ensures seat { IfOk result (λ r. IsSeatOf r.0 r.1) }
        ensures nothing { IfOk result (λ r. (k : ℕ) → seen r.1 k ≡ 0) }
    {
        let words = vec![in alloc; 0u64; n as usize + 1]?;
        let about = About {
            count: n,
            content: facts,
        };
        let (table, seat) = Table::of_words(alloc, words.as_slice(), &about)?;
        Ok((Bound { table, count: n }, seat))
    }

    /// A seat that has seen what this one has.
    pub fn split(&self, seat: &mut BoundSeat<F>) -> BoundSeat<F>
        requires { IsSeatOf self.now seat.old }
        ensures seat { IsSeatOf self.now seat.new }
        ensures other { IsSeatOf self.now result }
        ensures same { (k : ℕ) → seen seat.new k ≡ seen seat.old k }
        ensures handed_on { (k : ℕ) → seen result k ≡ seen seat.old k }
    {
        self.table.shared.split_seat::<Alike>(seat)
    }

    /// Takes in another seat, and what it has seen.
    pub fn join(&self, seat: &mut BoundSeat<F>, other: BoundSeat<F>)
        requires seat { IsSeatOf self.now seat.old }
        requires other { IsSeatOf self.now other }
        ensures seat { IsSeatOf self.now seat.new }
        ensures both { (k : ℕ) → seen seat.new k ≡ max (seen seat.old k) (seen other k) }
    {
        self.table.shared.join_seat::<Both>(seat, other);
    }

    /// Word `k`, which is below the number of words, has at least this rank from now on.
    pub fn raise(&self, seat: &mut BoundSeat<F>, k: u32, rank: u32)
        requires seat { IsSeatOf self.now seat.old }
        requires word { k < count_of self.now }
        requires rank { rank ≤ 720 }
        requires fact { F.fact (content_of self.now) k rank }
        ensures seat { IsSeatOf self.now seat.new }
        ensures raised { rank + 1 ≤ seen seat.new k }
        ensures kept { seen seat.old k ≤ seen seat.new k }
        ensures others { (j : ℕ) → j ≢ k → seen seat.new j ≡ seen seat.old j }
    {
        self.table
            .shared
            .fetch_max::<Raise>(seat, k as usize, u64::from(rank) + 1);
    }

    /// The rank of word `k`, from 0 to 720. It is no less than the seat had seen, and None only where the seat had seen nothing.
    pub fn read(&self, seat: &mut BoundSeat<F>, k: u32) -> Option<u32>
        requires seat { IsSeatOf self.now seat.old }
        requires word { k < count_of self.now }
        ensures seat { IsSeatOf self.now seat.new }
        ensures fact { IfSome result (F.fact (content_of self.now) k) }
        ensures in_range { IfSome result (λ rank. rank ≤ 720) }
        ensures recent { IfSome result (λ rank. seen seat.old k ≤ rank + 1) }
        ensures now_seen { IfSome result (λ rank. seen seat.new k ≡ rank + 1) }
        ensures nothing { IfNone result ((seen seat.old k ≡ 0) × (seen seat.new k ≡ 0)) }
        ensures others { (j : ℕ) → j ≢ k → seen seat.new j ≡ seen seat.old j }
    {
        let word = self.table.shared.load::<Read>(seat, k as usize);
        if word == 0 {
            None
        } else {
            Some((word - 1) as u32)
        }
    }
}
