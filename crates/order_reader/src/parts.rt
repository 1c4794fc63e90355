// Parts of an order.
ghost use Rattle.std.specs.Prelude.{◌≡◌, ◌≤◌, ◌≤ℤ◌, ◌+ℤ◌, length, pos, true, Some};
ghost use Rattle.order_rule.specs.Offsets.{first_day, is_zone, last_day, offsets_of};

use method_table::{Asr, Method, SunChoice};
use night_rule::NightRule;
use order_rule::{Offsets, Ranges};
use year_table::Zone;

/// What every order says of its days, its words and its clock.
#[derive(Drop)]
pub struct Basis {
    pub from_day: i32,
    pub days: u32,
    pub method: Method,
    pub asr: Asr,
    pub zone: Zone,
    pub offsets: Offsets,
    pub ghost not_early: { first_day ≤ℤ from_day },
    pub ghost not_late: { (from_day +ℤ pos days) ≤ℤ (last_day +ℤ pos 1) },
    pub ghost some_days: { 1 ≤ days },
    pub ghost few_days: { days ≤ 366 },
    pub ghost known_zone: { is_zone zone ≡ true },
    pub ghost offset_each: { offsets_of zone from_day days ≡ Some offsets },
    pub ghost one_each: { length offsets ≡ days },
}

/// What an order may say beside.
#[derive(Drop)]
pub struct Extras {
    pub height: u32,
    pub late: Ranges,
    pub sun: SunChoice,
    pub night: Option<NightRule>,
    pub ghost low: { height ≤ 9000 },
}
