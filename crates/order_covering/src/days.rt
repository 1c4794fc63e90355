// The covering of an order, searched some days at a time and written line by line.
ghost use Rattle.std.specs.Prelude.{◌≡◌, ◌*◌, ◌≤◌, flat_map, length, map, IfOk};
ghost use Rattle.days_sky.specs.Days.{days_content, rows_of_day};
ghost use Rattle.order_covering.specs.Covering.{covering_of};
ghost use Rattle.order_covering.specs.Made.{IsDayIn, written};
ghost use Rattle.order_rule.specs.Asked.{asked_of};
ghost use Rattle.order_table.specs.Made.{rows_of, searched};
ghost use Rattle.order_table.specs.Table.{day_undecided, days_undecided};
ghost use Rattle.order_table.specs.Trees.{undecided};
ghost use Rattle.outcome.specs.Writing.{Writes};
ghost use Rattle.plain_search.specs.Harvests.{IsHarvest};

use crate::day::write_columns;
use crate::form::Form;
use crate::night::write_night;
use cell_judge::Sky;
use days_sky::DaysSky;
use no_memory::NoMemory;
use order_rule::Order;
use order_table::{Day, judged_days, prepare};
use order_text::order_line;
use outcome::Stop;
use plain_search::Harvest;
use source_sink::{Sink, write_all};
use std::alloc::Global;
use std::sync::Wait;
use std::thread::Threads;
use steal_pool::{Gate, search};

/// How many days one search is over: enough for its workers, few enough for its leaves.
const DAYS_AT_ONCE: usize = 8;

/// Writes the lines of day `i` from the search of several days, and those of its night; answers how many of its columns'
/// entries are undecided.
fn write_day<R: Threads + Wait + Sync, K: Sink, G: Gate + Sync>(
    rt: &R,
    alloc: Global,
    judge: &DaysSky<'_>,
    harvest: &Harvest,
    sky: &Sky,
    i: usize,
    day: &Day,
    workers: u32,
    form: Form,
    gate: &G,
    out: &mut K,
) -> Result<u32, Stop>
    requires harvest { IsHarvest (days_content judge.now.sky.now.sun judge.now.sky.now.district (map rows_of_day judge.now.days.now) judge.now.sky.now.root) harvest.now.refuted harvest.now.leaves }
    requires own { judge.now.sky.now ≡ sky.now }
    requires day { IsDayIn (map rows_of_day judge.now.days.now) i day.now }
    requires some { 1 ≤ workers }
    requires few { workers ≤ 16 }
    ensures writes { Writes (written form sky.now.sun sky.now.district sky.now.root day.now) result
        (K.faults out.old) (K.faults out.new) (K.held out.old) (K.held out.new) }
    ensures count { IfOk result (λ count. count ≡ day_undecided (searched sky.now.sun sky.now.district sky.now.root day.now)) }
    ensures few { IfOk result (λ count. count ≤ 7) }
{
    let undecided = match write_columns(alloc, judge, harvest, i, day, form, out) {
        Ok(undecided) => undecided,
        Err(stop) => return Err(stop),
    };
    match write_night(rt, alloc, sky, day, workers, form, gate, out) {
        Ok(()) => Ok(undecided),
        Err(stop) => Err(stop),
    }
}

/// Writes the lines of days from their search; answers how many of their columns' entries are undecided.
fn write_found<R: Threads + Wait + Sync, K: Sink, G: Gate + Sync>(
    rt: &R,
    alloc: Global,
    judge: &DaysSky<'_>,
    harvest: &Harvest,
    sky: &Sky,
    days: &[Day],
    workers: u32,
    form: Form,
    gate: &G,
    out: &mut K,
) -> Result<u32, Stop>
    requires harvest { IsHarvest (days_content judge.now.sky.now.sun judge.now.sky.now.district (map rows_of_day judge.now.days.now) judge.now.sky.now.root) harvest.now.refuted harvest.now.leaves }
    requires own { judge.now.sky.now ≡ sky.now }
    requires days { map rows_of_day judge.now.days.now ≡ map rows_of days.now }
    requires short { length days.now ≤ 366 }
    requires some { 1 ≤ workers }
    requires few { workers ≤ 16 }
    ensures writes { Writes (flat_map (written form sky.now.sun sky.now.district sky.now.root) days.now) result
        (K.faults out.old) (K.faults out.new) (K.held out.old) (K.held out.new) }
    ensures count { IfOk result (λ count. count ≡ days_undecided (map (searched sky.now.sun sky.now.district sky.now.root) days.now)) }
    ensures few { IfOk result (λ count. count ≤ 7 * length days.now) }
{
    let mut undecided = 0;
    for (i, day) in days.iter().enumerate() {
        match write_day(
            rt, alloc, judge, harvest, sky, i, day, workers, form, gate, out,
        ) {
            Ok(count) => undecided += count,
            Err(stop) => return Err(stop),
        }
    }
    Ok(undecided)
}

/// Searches days at once and writes their lines; answers how many of their entries are undecided.
fn write_some<R: Threads + Wait + Sync, K: Sink, G: Gate + Sync>(
    rt: &R,
    alloc: Global,
    sky: &Sky,
    days: &[Day],
    workers: u32,
    form: Form,
    gate: &G,
    out: &mut K,
) -> Result<u32, Stop>
    requires short { length days.now ≤ 366 }
    requires some { 1 ≤ workers }
    requires few { workers ≤ 16 }
    ensures writes { Writes (flat_map (written form sky.now.sun sky.now.district sky.now.root) days.now) result
        (K.faults out.old) (K.faults out.new) (K.held out.old) (K.held out.new) }
    ensures count { IfOk result (λ count. count ≡ days_undecided (map (searched sky.now.sun sky.now.district sky.now.root) days.now)) }
    ensures few { IfOk result (λ count. count ≤ 7 * length days.now) }
{
    let Ok(judged) = judged_days(alloc, days) else {
        return Err(Stop::NoMemory);
    };
    let judge = DaysSky::new(sky, &judged);
    let Ok(harvest) = search(rt, alloc, &judge, workers, gate) else {
        return Err(Stop::NoMemory);
    };
    write_found(
        rt, alloc, &judge, &harvest, sky, days, workers, form, gate, out,
    )
}

/// Searches all days, some at a time, and writes their lines; answers how many of their entries are undecided.
fn write_days<R: Threads + Wait + Sync, K: Sink, G: Gate + Sync>(
    rt: &R,
    alloc: Global,
    sky: &Sky,
    days: &[Day],
    workers: u32,
    form: Form,
    gate: &G,
    out: &mut K,
) -> Result<u32, Stop>
    requires short { length days.now ≤ 366 }
    requires some { 1 ≤ workers }
    requires few { workers ≤ 16 }
    ensures writes { Writes (flat_map (written form sky.now.sun sky.now.district sky.now.root) days.now) result
        (K.faults out.old) (K.faults out.new) (K.held out.old) (K.held out.new) }
    ensures count { IfOk result (λ count. count ≡ days_undecided (map (searched sky.now.sun sky.now.district sky.now.root) days.now)) }
{
    let mut undecided = 0;
    let mut at = 0;
    while at < days.len() {
        let end = days.len().min(at + DAYS_AT_ONCE);
        match write_some(rt, alloc, sky, &days[at..end], workers, form, gate, out) {
            Ok(count) => undecided += count,
            Err(stop) => return Err(stop),
        }
        at = end;
    }
    Ok(undecided)
}

/// Writes the covering of an order, whose days 1 to 16 workers search; answers how many entries of the
/// order's table are undecided. It takes memory for what one search of eight days keeps, and for a line.
pub fn write_covering<R: Threads + Wait + Sync, K: Sink, G: Gate + Sync>(
    rt: &R,
    alloc: Global,
    order: Order,
    workers: u32,
    form: Form,
    gate: &G,
    out: &mut K,
) -> Result<u32, Stop>
    requires some { 1 ≤ workers }
    requires few { workers ≤ 16 }
    ensures writes { Writes (covering_of form (asked_of order)) result
        (K.faults out.old) (K.faults out.new) (K.held out.old) (K.held out.new) }
    ensures count { IfOk result (λ count. count ≡ undecided (asked_of order)) }
{
    let Ok(line) = order_line(alloc, &order) else {
        return Err(Stop::NoMemory);
    };
    let Ok(ready) = prepare(alloc, order) else {
        return Err(Stop::NoMemory);
    };
    match write_all(out, &line) {
        Ok(()) => write_days(rt, alloc, &ready.sky, &ready.days, workers, form, gate, out),
        Err(_) => Err(Stop::WriteFault),
    }
}
