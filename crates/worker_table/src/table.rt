// The table of an order, its days searched together.
ghost use Rattle.std.specs.Prelude.{◌≡◌, ◌≤◌, All, IfOk, length, map};
ghost use Rattle.order_rule.specs.Asked.{asked_of};
ghost use Rattle.order_table.specs.Made.{searched};
ghost use Rattle.order_table.specs.Printing.{IsPrintable};
ghost use Rattle.order_table.specs.RightTable.{IsRightTable};
ghost use Rattle.order_table.specs.Table.{days_text, days_undecided};
ghost use Rattle.order_table.specs.Trees.{table_of, undecided};
ghost use Rattle.outcome.specs.Writing.{Writes};
ghost use Rattle.worker_table.specs.Entries.{entries_on};

use crate::search::search_days;
use cell_judge::Sky;
use cell_split::Entry;
use order_rule::Order;
use order_table::{Day, begin_table, write_end, write_searched};
use outcome::Stop;
use source_sink::Sink;
use std::alloc::Global;
use std::sync::Wait;
use std::thread::Threads;
use steal_pool::Gate;

/// Writes the lines of these days with the entries of their columns; answers how many of these are undecided. The nights of
/// the days are searched here, each before its day is written.
fn write_days<K: Sink>(
    alloc: Global,
    sky: &mut Sky,
    days: &[Day],
    entries: &[[Entry; 7]],
    out: &mut K,
) -> Result<u32, Stop>
    requires entries { entries.now ≡ map (entries_on sky.old.sun sky.old.district sky.old.root) days.now }
    requires printable { All (All IsPrintable) entries.now }
    requires few { length days.now ≤ 366 }
    ensures writes { Writes (days_text (map (searched sky.old.sun sky.old.district sky.old.root) days.now)) result
        (K.faults out.old) (K.faults out.new) (K.held out.old) (K.held out.new) }
    ensures count { IfOk result (λ count. count ≡ days_undecided (map (searched sky.old.sun sky.old.district sky.old.root) days.now)) }
{
    let mut undecided = 0;
    for (i, day) in days.iter().enumerate() {
        match write_searched(alloc, sky, day, &entries[i], out) {
            Ok(count) => undecided += count,
            Err(stop) => return Err(stop),
        }
    }
    Ok(undecided)
}

/// Searches all days together and writes their lines; answers how many of their columns' entries are undecided.
fn write_together<R: Threads + Wait + Sync, K: Sink, G: Gate + Sync>(
    rt: &R,
    alloc: Global,
    sky: &mut Sky,
    days: &[Day],
    workers: u32,
    gate: &G,
    out: &mut K,
) -> Result<u32, Stop>
    requires some { 1 ≤ workers }
    requires few_workers { workers ≤ 16 }
    requires few { length days.now ≤ 366 }
    ensures writes { Writes (days_text (map (searched sky.old.sun sky.old.district sky.old.root) days.now)) result
        (K.faults out.old) (K.faults out.new) (K.held out.old) (K.held out.new) }
    ensures count { IfOk result (λ count. count ≡ days_undecided (map (searched sky.old.sun sky.old.district sky.old.root) days.now)) }
{
    match search_days(rt, alloc, sky, days, workers, gate) {
        Ok(entries) => write_days(alloc, sky, days, &entries, out),
        Err(_) => Err(Stop::NoMemory),
    }
}

/// Writes the table of an order, searched by 1 to 16 workers; answers how many of its entries are undecided.
pub fn write_table<R: Threads + Wait + Sync, K: Sink, G: Gate + Sync>(
    rt: &R,
    alloc: Global,
    order: Order,
    workers: u32,
    gate: &G,
    out: &mut K,
) -> Result<u32, Stop>
    requires some { 1 ≤ workers }
    requires few { workers ≤ 16 }
    ensures writes { Writes (table_of (asked_of order)) result
        (K.faults out.old) (K.faults out.new) (K.held out.old) (K.held out.new) }
    ensures count { IfOk result (λ count. count ≡ undecided (asked_of order)) }
    ensures right { IsRightTable (asked_of order) }
{
    order.keeps_the_rule();
    let days = order.days;
    let mut ready = match begin_table(alloc, order, out) {
        Ok(ready) => ready,
        Err(stop) => return Err(stop),
    };
    let undecided = match write_together(
        rt,
        alloc,
        &mut ready.sky,
        &ready.days,
        workers,
        gate,
        out,
    ) {
        Ok(undecided) => undecided,
        Err(stop) => return Err(stop),
    };
    write_end(alloc, days, undecided, out)
}
