// The calendar of an order, its days searched together.
ghost use Rattle.std.specs.Prelude.{◌≡◌, ◌≤◌, ◌++◌, All, IfOk, count_by, length, map, zip};
ghost use Rattle.ical_text.specs.Calendar.{head_text};
ghost use Rattle.method_table.specs.Row.{row_of};
ghost use Rattle.order_calendar.specs.Calendar.{calendar_of};
ghost use Rattle.order_calendar.specs.Pieces.{days_text, found_text, sheet_seen};
ghost use Rattle.order_rule.specs.Asked.{asked_of};
ghost use Rattle.order_table.specs.Made.{searched};
ghost use Rattle.order_table.specs.Printing.{IsPrintable};
ghost use Rattle.order_table.specs.Ready.{found_in};
ghost use Rattle.order_table.specs.RightTable.{IsRightTable};
ghost use Rattle.order_table.specs.Table.{days_undecided, is_undecided};
ghost use Rattle.order_table.specs.Trees.{undecided};
ghost use Rattle.outcome.specs.Writing.{Writes};
ghost use Rattle.worker_table.specs.Entries.{entries_on};

use crate::events::events_text;
use crate::order::sheet_of;
use crate::sheet::Sheet;
use cell_judge::Sky;
use cell_split::Entry;
use ical_text::{calendar_end, calendar_head};
use order_rule::Order;
use order_table::{Day, Ready, open_count, prepare};
use outcome::{Stop, write_text};
use source_sink::{Sink, write_all};
use std::alloc::Global;
use std::sync::Wait;
use std::thread::Threads;
use steal_pool::Gate;
use worker_table::search_days;

/// Writes the events of a day with these entries; answers how many of them are undecided.
fn write_day<K: Sink>(
    alloc: Global,
    sheet: &Sheet,
    day: &Day,
    entries: &[Entry; 7],
    out: &mut K,
) -> Result<u32, Stop>
    requires { All IsPrintable entries.now }
    ensures writes { Writes (found_text (sheet_seen sheet.now) day.now.number (zip (map row_of day.now.problems) entries.now)) result
        (K.faults out.old) (K.faults out.new) (K.held out.old) (K.held out.new) }
    ensures count { IfOk result (λ count. count ≡ count_by is_undecided entries.now) }
    ensures few { IfOk result (λ count. count ≤ 7) }
{
    let Ok(text) = events_text(alloc, sheet, day, entries) else {
        return Err(Stop::NoMemory);
    };
    match write_all(out, &text) {
        Ok(()) => Ok(open_count(entries)),
        Err(_) => Err(Stop::WriteFault),
    }
}

/// Writes the events of these days with their entries; answers how many of them are undecided.
fn write_days<K: Sink>(
    alloc: Global,
    sheet: &Sheet,
    sky: &Sky,
    days: &[Day],
    entries: &[[Entry; 7]],
    out: &mut K,
) -> Result<u32, Stop>
    requires entries { entries.now ≡ map (entries_on sky.now.sun sky.now.district sky.now.root) days.now }
    requires printable { All (All IsPrintable) entries.now }
    requires few { length days.now ≤ 366 }
    ensures writes { Writes (days_text (sheet_seen sheet.now) (map (searched sky.now.sun sky.now.district sky.now.root) days.now)) result
        (K.faults out.old) (K.faults out.new) (K.held out.old) (K.held out.new) }
    ensures count { IfOk result (λ count. count ≡ days_undecided (map (searched sky.now.sun sky.now.district sky.now.root) days.now)) }
{
    let mut undecided = 0;
    for (i, day) in days.iter().enumerate() {
        match write_day(alloc, sheet, day, &entries[i], out) {
            Ok(count) => undecided += count,
            Err(stop) => return Err(stop),
        }
    }
    Ok(undecided)
}

/// Searches all days together and writes their events; answers how many of their entries are undecided.
fn write_together<R: Threads + Wait + Sync, K: Sink, G: Gate + Sync>(
    rt: &R,
    alloc: Global,
    sheet: &Sheet,
    sky: &Sky,
    days: &[Day],
    workers: u32,
    gate: &G,
    out: &mut K,
) -> Result<u32, Stop>
    requires some { 1 ≤ workers }
    requires few_workers { workers ≤ 16 }
    requires few { length days.now ≤ 366 }
    ensures writes { Writes (days_text (sheet_seen sheet.now) (map (searched sky.now.sun sky.now.district sky.now.root) days.now)) result
        (K.faults out.old) (K.faults out.new) (K.held out.old) (K.held out.new) }
    ensures count { IfOk result (λ count. count ≡ days_undecided (map (searched sky.now.sun sky.now.district sky.now.root) days.now)) }
{
    match search_days(rt, alloc, sky, days, workers, gate) {
        Ok(entries) => write_days(alloc, sheet, sky, days, &entries, out),
        Err(_) => Err(Stop::NoMemory),
    }
}

/// Writes the head, and searches the days and writes their events behind it; answers how many of their entries are undecided.
fn write_front<R: Threads + Wait + Sync, K: Sink, G: Gate + Sync>(
    rt: &R,
    alloc: Global,
    sheet: &Sheet,
    ready: &Ready,
    workers: u32,
    gate: &G,
    out: &mut K,
) -> Result<u32, Stop>
    requires some { 1 ≤ workers }
    requires few_workers { workers ≤ 16 }
    requires few { length ready.now.days.items ≤ 366 }
    ensures writes { Writes (head_text ++ days_text (sheet_seen sheet.now) (found_in ready.now)) result
        (K.faults out.old) (K.faults out.new) (K.held out.old) (K.held out.new) }
    ensures count { IfOk result (λ count. count ≡ days_undecided (found_in ready.now)) }
{
    match write_all(out, calendar_head().as_bytes()) {
        Ok(()) => write_together(
            rt,
            alloc,
            sheet,
            &ready.sky,
            &ready.days,
            workers,
            gate,
            out,
        ),
        Err(_) => Err(Stop::WriteFault),
    }
}

/// Writes the calendar of an order, searched by 1 to 16 workers; answers how many entries of the order's table are undecided.
pub fn write_calendar<R: Threads + Wait + Sync, K: Sink, G: Gate + Sync>(
    rt: &R,
    alloc: Global,
    order: Order,
    workers: u32,
    gate: &G,
    out: &mut K,
) -> Result<u32, Stop>
    requires some { 1 ≤ workers }
    requires few { workers ≤ 16 }
    ensures writes { Writes (calendar_of (asked_of order)) result
        (K.faults out.old) (K.faults out.new) (K.held out.old) (K.held out.new) }
    ensures count { IfOk result (λ count. count ≡ undecided (asked_of order)) }
    ensures right { IsRightTable (asked_of order) }
{
    order.keeps_the_rule();
    let Ok(sheet) = sheet_of(alloc, &order) else {
        return Err(Stop::NoMemory);
    };
    let Ok(ready) = prepare(alloc, order) else {
        return Err(Stop::NoMemory);
    };
    let undecided = match write_front(rt, alloc, &sheet, &ready, workers, gate, out) {
        Ok(undecided) => undecided,
        Err(stop) => return Err(stop),
    };
    write_text(out, calendar_end().as_bytes(), undecided)
}
