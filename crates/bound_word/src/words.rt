// The words of a bound, and a seat of it.
ghost use Rattle.std.specs.Prelude.{◌≡◌, ◌+◌};

use crate::rule::{About, Fact, RisingFacts, Sight};
use atomic_table::{Seat, Table};
use std::alloc::Global;

/// What a caller reaches a bound by. It has no bytes.
pub type BoundSeat<F> = Seat<(), Sight<F>>;

/// Words that threads share. Each has nothing yet, or a rank from 0 to 720, and only rises.
#[derive(Drop)]
pub struct Bound<F: Fact> {
    pub(crate) table: Table<(), Sight<F>, About<F>, RisingFacts, Global>,
    pub(crate) count: u32,
    ghost counted: { (table.shared.key.count ≡ count) × (table.shared.table_id.words ≡ count + 1) },
    ghost slotless: { table.shared.table_id.slots ≡ 0 },
}
