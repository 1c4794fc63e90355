// What the events of an order's calendar have in common.
ghost use Rattle.std.specs.Prelude.{◌≡◌, ◌≤ℤ◌, IfOk, string_bytes};
ghost use Rattle.order_calendar.specs.Calendar.{sheet_of, zone_words};
ghost use Rattle.order_calendar.specs.Pieces.{sheet_seen};
ghost use Rattle.order_rule.specs.Asked.{asked_of};
ghost use Rattle.order_rule.specs.Offsets.{first_day, last_day};

use crate::sheet::Sheet;
use no_memory::NoMemory;
use order_rule::Order;
use std::alloc::Global;
use year_table::Zone;

/// The zone's offset in minutes, or its rule.
fn zone_words(alloc: Global, zone: &Zone) -> Result<String, NoMemory>
    ensures { IfOk result (λ words. string_bytes words ≡ zone_words zone.now) }
{
    match zone {
        Zone::Fixed { minutes } => Ok(format!(in alloc; "{minutes}")?),
        Zone::Rule { rule } => Ok(String::from_str(alloc, rule.rule_text())?),
    }
}

/// The first day of an order.
fn first_of(order: &Order) -> i32
    ensures value { result ≡ order.now.from_day }
    ensures not_early { first_day ≤ℤ result }
    ensures not_late { result ≤ℤ last_day }
{
    order.from_day
}

/// What the events of an order's calendar have in common.
pub(crate) fn sheet_of(alloc: Global, order: &Order) -> Result<Sheet, NoMemory>
    ensures { IfOk result (λ sheet. sheet_seen sheet ≡ sheet_of (asked_of order.now)) }
{
    let zone = zone_words(alloc, &order.zone)?;
    Ok(Sheet {
        west: order.district.west(),
        south: order.district.south(),
        from_day: first_of(order),
        method: order.method,
        asr: order.asr,
        zone,
    })
}
