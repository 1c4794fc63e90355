// The cells that are judged for the table of an order.
ghost use Rattle.std.specs.Prelude.{◌<◌, ◌≤ℤ◌, pos, neg_ℤ};
ghost use Rattle.cell_judge.specs.Limits.{AreInLimits};
ghost use Rattle.order_rule.specs.Offsets.{IsOffset, first_day, last_day};

use crate::counting::Counting;
use crate::tree_order::walk_problem;
use anyhow::{Context, Result};
use cell_judge::Sky;
use cell_split::Judge;
use covering::entry_at;
use method_table::{Problem, noon_of, problems};
use order_reader::read_order;
use order_rule::Order;
use region::District;
use source_sink::{StdSource, read_all};
use std::alloc::{AllocError, Global};
use std::io::Read;

const LIMIT: usize = 16_777_216;

/// The problems of a day, which a sky can judge.
#[derive(Clone, Copy)]
pub struct Day {
    pub problems: [Problem; 7],
    pub ghost limits: { AreInLimits problems },
}

/// How many cells are judged for the table of the order that the input holds.
pub fn judged<R: Read + Drop>(alloc: Global, input: R) -> Result<u64> {
    counted(alloc, input, false)
}

/// How many cells a search in tree order would judge for it, open entries aside.
pub fn judged_in_tree_order<R: Read + Drop>(alloc: Global, input: R) -> Result<u64> {
    counted(alloc, input, true)
}

fn counted<R: Read + Drop>(alloc: Global, input: R, in_tree_order: bool) -> Result<u64> {
    let order = order_in(alloc, input)?;
    let days = days_of(alloc, &order)?;
    let first = days.first().context("no days")?;
    let mut sky = Sky::new(alloc, order.district, first.problems)
        .ok()
        .context("no memory")?;
    let mut judged = 0u64;
    for day in &days {
        sky.turn_to(day.problems);
        judged = judged.wrapping_add(judged_under(&sky, in_tree_order));
    }
    Ok(judged)
}

pub fn order_in<R: Read + Drop>(alloc: Global, input: R) -> Result<Order> {
    let mut source = StdSource::new(input);
    let bytes = read_all(alloc, &mut source, LIMIT)
        .ok()
        .context("no input")?;
    read_order(alloc, bytes.as_slice()).ok().context("no order")
}

pub fn days_of(alloc: Global, order: &Order) -> Result<Vec<Day>, AllocError> {
    let mut days = Vec::new(alloc);
    for i in 0..order.days {
        days.push(day_at(order, i))?;
    }
    Ok(days)
}

// The day so many days after the first.
fn day_at(order: &Order, i: u32) -> Day
    requires { i < order.now.days }
{
    let problems = problems_of(order, order.from_day + i as i32, order.offsets.at(i));
    Day { problems }
}

fn problems_of(order: &Order, day: i32, offset: i32) -> [Problem; 7]
    requires early { first_day ≤ℤ day }
    requires late { day ≤ℤ last_day }
    requires offset { IsOffset offset }
    ensures { AreInLimits result }
{
    let noon = noon_over(&order.district, offset);
    problems(
        order.method,
        order.asr,
        day,
        offset,
        noon,
        order.height,
        order.interval(day),
    )
}

fn noon_over(district: &District, offset: i32) -> i32
    requires { IsOffset offset }
    ensures not_negative { pos 0 ≤ℤ result }
    ensures below_a_day { result ≤ℤ pos 1_439 }
{
    noon_of(near(district.west()), near(district.east()), offset)
}

// The longitude, which lies within a turn of Greenwich in every order.
fn near(longitude: i64) -> i64
    ensures low { neg_ℤ (pos 360_000_000) ≤ℤ result }
    ensures high { result ≤ℤ pos 360_000_000 }
{
    longitude.clamp(-360_000_000, 360_000_000)
}

// The cells judged for the day to which the sky is turned.
fn judged_under(sky: &Sky, in_tree_order: bool) -> u64 {
    let judge = Counting::new(sky);
    if in_tree_order {
        walk_all(&judge);
    } else {
        search_all(&judge);
    }
    judge.judged()
}

fn walk_all<J: Judge>(judge: &J) {
    for k in 0..judge.problems() {
        walk_problem(judge, k);
    }
}

fn search_all<J: Judge>(judge: &J) {
    for k in 0..judge.problems() {
        let _ = entry_at(judge, k);
    }
}
