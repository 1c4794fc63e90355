// The offsets of the days of an order.
ghost use Rattle.std.specs.Prelude.{◌≡◌, ◌<◌, ◌≤◌, ◌≤ℤ◌, ◌+ℤ◌, pos, length, slice_get, Some, Ok, IfOk, IfSome};
ghost use Rattle.year_table.specs.Zones.{day_offset};
ghost use Rattle.order_rule.specs.Offsets.{IsOffset, first_day, is_day, last_day, offsets_of};

use no_memory::NoMemory;
use std::alloc::Global;
use std::marker::Model;
use year_table::{Zone, day_offset};

/// The offset of each day of an order, in minutes from -720 to 840.
#[derive(Drop)]
pub struct Offsets {
    offsets: Vec<i32>,
}

impl Model for Offsets {
    ghost use Rattle.std.specs.Prelude.{All, List, ℤ};
    ghost use Rattle.order_rule.specs.Offsets.{IsOffset};

    ghost Value = { List ℤ };

    ghost view = { λ o. o.offsets.items };

    ghost invariant = { λ o. All IsOffset o.offsets.items };
}

impl Offsets {
    /// The offset of the day `i` days after the first.
    pub fn at(&self, i: u32) -> i32
        requires { i < length self.now }
        ensures value { slice_get self.now i ≡ Some result }
        ensures range { IsOffset result }
    {
        self.offsets[i as usize]
    }
}

/// Whether a day is one that an order may name.
pub fn is_day(day: i32) -> bool
    ensures { result ≡ is_day day }
{
    -25_567 <= day && day <= 47_846
}

// the offset of the day so many days after the first
fn offset_after(zone: &Zone, from_day: i32, i: u32) -> Result<Option<i32>, NoMemory>
    requires not_early { first_day ≤ℤ from_day }
    requires not_late { (from_day +ℤ pos i) ≤ℤ last_day }
    ensures { result ≡ Ok (day_offset zone.now (from_day +ℤ pos i)) }
{
    day_offset(zone, from_day + i as i32)
}

/// The offset of each of so many days, if each has one.
pub fn offsets_of(
    alloc: Global,
    zone: &Zone,
    from_day: i32,
    days: u32,
) -> Result<Option<Offsets>, NoMemory>
    requires not_early { first_day ≤ℤ from_day }
    requires not_late { (from_day +ℤ pos days) ≤ℤ (last_day +ℤ pos 1) }
    ensures value { IfOk result (λ o. o ≡ offsets_of zone.now from_day days) }
    ensures count { IfOk result (λ o. IfSome o (λ offsets. length offsets ≡ days)) }
{
    let mut offsets = Vec::new(alloc);
    for i in 0..days {
        match offset_after(zone, from_day, i)? {
            Some(offset) => offsets.push(offset)?,
            None => return Ok(None),
        }
    }
    Ok(Some(Offsets { offsets }))
}
