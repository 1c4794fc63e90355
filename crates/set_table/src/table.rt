// The table of a set, some of its days at a time.
ghost use Rattle.std.specs.Prelude.{◌≡◌, ◌<◌, ◌≤◌, ◌*◌, ◌/◌, All, IfOk, length, map};
ghost use Rattle.order_table.specs.Made.{day_of};
ghost use Rattle.outcome.specs.Writing.{Writes};
ghost use Rattle.set_reader.specs.Asked.{asked_of};
ghost use Rattle.set_search.specs.Scopes.{HaveOneRoot};
ghost use Rattle.set_search.specs.Searches.{IsFound, entries_on_days};
ghost use Rattle.set_table.specs.Made.{searched};
ghost use Rattle.set_table.specs.Ready.{found_in, front_of};
ghost use Rattle.set_table.specs.RightSet.{IsRightSet};
ghost use Rattle.set_table.specs.Table.{set_day, set_day_text, set_day_undecided, set_days_text, set_days_undecided, set_end_line};
ghost use Rattle.set_table.specs.Trees.{table_of, undecided};

use crate::line::end_line;
use crate::ready::{Ready, prepare};
use crate::text::{set_day_text, set_day_undecided};
use cell_judge::Sky;
use cell_split::Entry;
use order_table::Day;
use outcome::Stop;
use set_reader::SetOrder;
use set_search::search_days;
use source_sink::{Sink, write_all};
use std::alloc::Global;
use std::sync::Wait;
use std::thread::Threads;
use steal_pool::Gate;

/// How many days one search serves at most: so many that starting its workers is a small part of its work, and so few that
/// the first lines of a year's table come long before its last day is searched.
const DAYS_TOGETHER: usize = 8;

/// How many days of so many districts one search serves: a day of a district has a judge of its own, and one search has
/// at most 64 of them.
fn days_together(districts: usize) -> usize
    requires some { 1 ≤ districts }
    requires few { districts ≤ 64 }
    ensures some { 1 ≤ result }
    ensures few { result * districts ≤ 64 }
{
    DAYS_TOGETHER.min(64 / districts)
}

/// Writes the lines of a day with these entries of each district; answers how many of them are undecided.
fn write_day<K: Sink>(
    alloc: Global,
    day: &Day,
    found: &[[Entry; 7]],
    out: &mut K,
) -> Result<u32, Stop>
    requires some { 0 < length found.now }
    requires few { length found.now ≤ 64 }
    requires found { All (All IsFound) found.now }
    ensures writes { Writes (set_day_text (set_day (day_of day.now) found.now)) result
        (K.faults out.old) (K.faults out.new) (K.held out.old) (K.held out.new) }
    ensures count { IfOk result (λ count. count ≡ set_day_undecided (set_day (day_of day.now) found.now)) }
    ensures few { IfOk result (λ count. count ≤ 448) }
{
    let Ok(text) = set_day_text(alloc, day, found) else {
        return Err(Stop::NoMemory);
    };
    match write_all(out, &text) {
        Ok(()) => Ok(set_day_undecided(day, found)),
        Err(_) => Err(Stop::WriteFault),
    }
}

/// Writes the lines of these days with the entries of each district, day by day; answers how many of these are undecided.
fn write_days<K: Sink>(
    alloc: Global,
    skies: &[Sky],
    days: &[Day],
    found: &[[Entry; 7]],
    out: &mut K,
) -> Result<u32, Stop>
    requires some { 1 ≤ length skies.now }
    requires few { length skies.now ≤ 64 }
    requires few_days { length days.now ≤ 366 }
    requires entries { found.now ≡ entries_on_days skies.now days.now }
    requires found { All (All IsFound) found.now }
    ensures writes { Writes (set_days_text (map (searched skies.now) days.now)) result
        (K.faults out.old) (K.faults out.new) (K.held out.old) (K.held out.new) }
    ensures count { IfOk result (λ count. count ≡ set_days_undecided (map (searched skies.now) days.now)) }
    ensures few { IfOk result (λ count. count ≤ 448 * length days.now) }
{
    let mut undecided = 0;
    let mut left = found;
    for day in days {
        let (here, rest) = left.split_at(skies.len());
        match write_day(alloc, day, here, out) {
            Ok(count) => undecided += count,
            Err(stop) => return Err(stop),
        }
        left = rest;
    }
    Ok(undecided)
}

/// Searches these days together and writes their lines; answers how many of the districts' entries are undecided.
fn write_together<R: Threads + Wait + Sync, K: Sink, G: Gate + Sync>(
    rt: &R,
    alloc: Global,
    skies: &[Sky],
    days: &[Day],
    workers: u32,
    gate: &G,
    out: &mut K,
) -> Result<u32, Stop>
    requires some_workers { 1 ≤ workers }
    requires few_workers { workers ≤ 16 }
    requires some { 1 ≤ length skies.now }
    requires few { length skies.now ≤ 64 }
    requires one_root { HaveOneRoot skies.now }
    requires some_days { 1 ≤ length days.now }
    requires few_days { length days.now ≤ 366 }
    requires few_judges { length days.now * length skies.now ≤ 64 }
    ensures writes { Writes (set_days_text (map (searched skies.now) days.now)) result
        (K.faults out.old) (K.faults out.new) (K.held out.old) (K.held out.new) }
    ensures count { IfOk result (λ count. count ≡ set_days_undecided (map (searched skies.now) days.now)) }
    ensures few { IfOk result (λ count. count ≤ 448 * length days.now) }
{
    match search_days(rt, alloc, skies, days, workers, gate) {
        Ok(found) => write_days(alloc, skies, days, &found, out),
        Err(_) => Err(Stop::NoMemory),
    }
}

/// Searches all days, some of them at a time, and writes their lines; answers how many of the districts' entries are
/// undecided.
fn write_all_days<R: Threads + Wait + Sync, K: Sink, G: Gate + Sync>(
    rt: &R,
    alloc: Global,
    skies: &[Sky],
    days: &[Day],
    workers: u32,
    gate: &G,
    out: &mut K,
) -> Result<u32, Stop>
    requires some_workers { 1 ≤ workers }
    requires few_workers { workers ≤ 16 }
    requires some { 1 ≤ length skies.now }
    requires few { length skies.now ≤ 64 }
    requires one_root { HaveOneRoot skies.now }
    requires few_days { length days.now ≤ 366 }
    ensures writes { Writes (set_days_text (map (searched skies.now) days.now)) result
        (K.faults out.old) (K.faults out.new) (K.held out.old) (K.held out.new) }
    ensures count { IfOk result (λ count. count ≡ set_days_undecided (map (searched skies.now) days.now)) }
{
    let together = days_together(skies.len());
    let mut undecided = 0;
    let mut begun = 0;
    while begun < days.len() {
        let end = days.len().min(begun + together);
        match write_together(rt, alloc, skies, &days[begun..end], workers, gate, out) {
            Ok(count) => undecided += count,
            Err(stop) => return Err(stop),
        }
        begun = end;
    }
    Ok(undecided)
}

/// Writes the head, and searches and writes the days behind it; answers how many of the districts' entries are undecided.
fn write_front<R: Threads + Wait + Sync, K: Sink, G: Gate + Sync>(
    rt: &R,
    alloc: Global,
    ready: &Ready,
    workers: u32,
    gate: &G,
    out: &mut K,
) -> Result<u32, Stop>
    requires some_workers { 1 ≤ workers }
    requires few_workers { workers ≤ 16 }
    requires some { 1 ≤ length ready.now.skies.items }
    requires few { length ready.now.skies.items ≤ 64 }
    requires one_root { HaveOneRoot ready.now.skies.items }
    requires few_days { length ready.now.days.items ≤ 366 }
    ensures writes { Writes (front_of ready.now) result
        (K.faults out.old) (K.faults out.new) (K.held out.old) (K.held out.new) }
    ensures count { IfOk result (λ count. count ≡ set_days_undecided (found_in ready.now)) }
{
    match write_all(out, &ready.head) {
        Ok(()) => write_all_days(rt, alloc, &ready.skies, &ready.days, workers, gate, out),
        Err(_) => Err(Stop::WriteFault),
    }
}

/// Writes the last line of a table of so many days, districts and undecided entries.
fn write_end<K: Sink>(
    alloc: Global,
    days: u32,
    districts: usize,
    undecided: u32,
    out: &mut K,
) -> Result<(), Stop>
    ensures { Writes (set_end_line days districts undecided) result
        (K.faults out.old) (K.faults out.new) (K.held out.old) (K.held out.new) }
{
    let Ok(line) = end_line(alloc, days, districts, undecided) else {
        return Err(Stop::NoMemory);
    };
    match write_all(out, &line) {
        Ok(()) => Ok(()),
        Err(_) => Err(Stop::WriteFault),
    }
}

/// Writes the table of a set, searched by 1 to 16 workers; answers how many of the districts' entries are undecided.
pub fn write_set<R: Threads + Wait + Sync, K: Sink, G: Gate + Sync>(
    rt: &R,
    alloc: Global,
    set: SetOrder,
    workers: u32,
    gate: &G,
    out: &mut K,
) -> Result<u32, Stop>
    requires some { 1 ≤ workers }
    requires few { workers ≤ 16 }
    ensures writes { Writes (table_of (asked_of set)) result
        (K.faults out.old) (K.faults out.new) (K.held out.old) (K.held out.new) }
    ensures count { IfOk result (λ count. count ≡ undecided (asked_of set)) }
    ensures right { IsRightSet (asked_of set) }
{
    set.whole.keeps_the_rule();
    let days = set.whole.days;
    let districts = set.parts.count();
    let Ok(ready) = prepare(alloc, set) else {
        return Err(Stop::NoMemory);
    };
    let undecided = match write_front(rt, alloc, &ready, workers, gate, out) {
        Ok(undecided) => undecided,
        Err(stop) => return Err(stop),
    };
    match write_end(alloc, days, districts, undecided, out) {
        Ok(()) => Ok(undecided),
        Err(stop) => Err(stop),
    }
}
