// Orders.
ghost use Rattle.std.specs.Prelude.{◌≡◌, ◌≤◌, ◌≤ℤ◌, ◌+ℤ◌, length, pos, true, Some};
ghost use Rattle.order_rule.specs.Late.{interval_on, may_be_late};
ghost use Rattle.order_rule.specs.Offsets.{first_day, is_zone, last_day, offsets_of};

use crate::offsets::Offsets;
use crate::ranges::Ranges;
use method_table::{Asr, Method, SunChoice};
use night_rule::NightRule;
use region::District;
use year_table::Zone;

/// What a table is asked for. Days count from 1970-01-01 and are from 1900-01-01 to 2100-12-31.
#[derive(Drop)]
pub struct Order {
    /// The first day.
    pub from_day: i32,
    /// How many days, from 1 to 366.
    pub days: u32,
    pub method: Method,
    pub asr: Asr,
    pub zone: Zone,
    /// The zone's offset at civil noon of each day.
    pub offsets: Offsets,
    /// The height of the places, in metres, at most 9,000.
    pub height: u32,
    /// When Isha is later: at most eight ranges, and none unless the method is Makkah's.
    pub late: Ranges,
    pub sun: SunChoice,
    /// How Fajr and Isha of nights of high latitudes are bounded, if they are.
    pub night: Option<NightRule>,
    pub district: District,
    pub ghost not_early: { first_day ≤ℤ from_day },
    pub ghost not_late: { (from_day +ℤ pos days) ≤ℤ (last_day +ℤ pos 1) },
    pub ghost some_days: { 1 ≤ days },
    pub ghost few_days: { days ≤ 366 },
    pub ghost known_zone: { is_zone zone ≡ true },
    pub ghost offset_each: { offsets_of zone from_day days ≡ Some offsets },
    pub ghost one_each: { length offsets ≡ days },
    pub ghost low: { height ≤ 9000 },
    pub ghost late_in_range: { may_be_late method late ≡ true },
}

impl Order {
    /// The minutes from Maghrib to Isha on a day by the method of Makkah: 120 where Isha is later, else 90.
    pub fn interval(&self, day: i32) -> i32
        ensures { result ≡ interval_on self.now.late day }
    {
        if self.late.contains(day) { 120 } else { 90 }
    }
}
