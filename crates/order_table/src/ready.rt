// The days of an order, made ready to be searched.
ghost use Rattle.std.specs.Prelude.{◌≡◌, ◌<◌, ◌≤ℤ◌, ◌+ℤ◌, pos, length, map, option_map, IfOk};
ghost use Rattle.cell_judge.specs.Limits.{AreInLimits};
ghost use Rattle.method_table.specs.Row.{row_of};
ghost use Rattle.order_rule.specs.Asked.{asked_of};
ghost use Rattle.order_rule.specs.Offsets.{first_day, last_day, IsOffset};
ghost use Rattle.order_table.specs.Days.{days_of, night_on, noon_on, rows_on};
ghost use Rattle.order_table.specs.Made.{IsDayAt, day_of, night_of};
ghost use Rattle.order_table.specs.Ready.{IsReady};
ghost use Rattle.order_table.specs.Table.{head_of};
ghost use Rattle.order_table.specs.Trees.{root_over};

use crate::day::{Day, Night};
use cell_judge::Sky;
use method_table::{Problem, SunChoice, noon_of, problems};
use night_portion::night_problems;
use no_memory::NoMemory;
use order_rule::Order;
use region::District;
use std::alloc::Global;
use year_table::table_head;

/// The reference noon with this offset of the clock, a local minute.
fn noon_on(order: &Order, offset: i32) -> i32
    requires offset { IsOffset offset }
    ensures value { result ≡ noon_on (asked_of order.now) offset }
    ensures not_negative { pos 0 ≤ℤ result }
    ensures below_a_day { result ≤ℤ pos 1439 }
{
    order.district.has_no_fault();
    noon_of(order.district.west(), order.district.east(), offset)
}

/// The problems of a day with this offset of the clock.
fn day_problems(order: &Order, day: i32, offset: i32) -> [Problem; 7]
    requires early { first_day ≤ℤ day }
    requires late { day ≤ℤ last_day }
    requires offset { IsOffset offset }
    ensures rows { map row_of result ≡ rows_on (asked_of order.now) day offset }
    ensures limits { AreInLimits result }
{
    problems(
        order.method,
        order.asr,
        day,
        offset,
        noon_on(order, offset),
        order.height,
        order.interval(day),
    )
}

/// Its night, where the order has a rule.
fn day_night(order: &Order, day: i32, offset: i32) -> Option<Night>
    requires early { first_day ≤ℤ day }
    requires late { day ≤ℤ last_day }
    requires offset { IsOffset offset }
    ensures { option_map night_of result ≡ night_on (asked_of order.now) day offset }
{
    match order.night {
        Some(rule) => Some(Night {
            rule,
            method: order.method,
            problems: night_problems(day, offset, noon_on(order, offset), order.height),
        }),
        None => None,
    }
}

/// The day of this number in the order, from 0, since 1970-01-01.
fn day_number(order: &Order, i: u32) -> i32
    requires { i < order.now.days }
    ensures value { result ≡ order.now.from_day +ℤ pos i }
    ensures early { first_day ≤ℤ result }
    ensures late { result ≤ℤ last_day }
{
    order.from_day + i as i32
}

/// That day with its problems and its night.
fn day_at(order: &Order, i: u32) -> Day
    requires { i < order.now.days }
    ensures { IsDayAt (asked_of order.now) i (day_of result) }
{
    let number = day_number(order, i);
    let offset = order.offsets.at(i);
    let problems = day_problems(order, number, offset);
    let night = day_night(order, number, offset);
    Day {
        number,
        problems,
        night,
    }
}

/// The days of an order, each with its problems.
pub fn days_of(alloc: Global, order: &Order) -> Result<Vec<Day>, NoMemory>
    ensures { IfOk result (λ days. map day_of days.items ≡ days_of (asked_of order.now)) }
{
    let mut days = Vec::new(alloc);
    for i in 0..order.days {
        days.push(day_at(order, i))?;
    }
    Ok(days)
}

/// The first three lines of the order's table.
pub fn head_of(alloc: Global, order: &Order) -> Result<Vec<u8>, NoMemory>
    ensures { IfOk result (λ text. text.items ≡ head_of (asked_of order.now)) }
{
    table_head(
        alloc,
        order.from_day,
        order.days,
        order.method,
        order.asr,
        &order.zone,
        order.district.positions(),
        order.height,
        order.sun,
    )
}

/// The sky over the order's district under its sun, turned to its first day.
fn sky_over(
    alloc: Global,
    sun: SunChoice,
    district: District,
    days: &[Day],
) -> Result<Sky, NoMemory>
    requires some { 0 < length days.now }
    ensures sun { IfOk result (λ sky. sky.sun ≡ sun) }
    ensures district { IfOk result (λ sky. sky.district ≡ district) }
    ensures root { IfOk result (λ sky. sky.root ≡ root_over district) }
{
    let sky = Sky::new(alloc, district, days[0].problems)?;
    Ok(sky.under(sun))
}

/// What is ready before the first line of a table is written: its head, its days, and the sky over
/// the district.
#[derive(Drop)]
pub struct Ready {
    pub head: Vec<u8>,
    pub days: Vec<Day>,
    pub sky: Sky,
}

/// Makes ready the table of an order.
pub fn prepare(alloc: Global, order: Order) -> Result<Ready, NoMemory>
    ensures { IfOk result (IsReady (asked_of order)) }
{
    let days = days_of(alloc, &order)?;
    let head = head_of(alloc, &order)?;
    let sky = sky_over(alloc, order.sun, order.district, &days)?;
    Ok(Ready { head, days, sky })
}
