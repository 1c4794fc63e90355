// What the events of a calendar have in common.
ghost use Rattle.std.specs.Prelude.{◌≤ℤ◌};
ghost use Rattle.order_rule.specs.Offsets.{first_day, last_day};

use method_table::{Asr, Method};

/// The corner of the district in microdegrees, the first day since 1970-01-01, and the words of the order.
#[derive(Drop)]
pub(crate) struct Sheet {
    pub west: i64,
    pub south: i64,
    pub from_day: i32,
    pub method: Method,
    pub asr: Asr,
    pub zone: String,
    pub ghost not_early: { first_day ≤ℤ from_day },
    pub ghost not_late: { from_day ≤ℤ last_day },
}
