// Several days of all districts, searched together.
ghost use Rattle.std.specs.Prelude.{◌≡◌, ◌*◌, ◌<◌, ◌≤◌, ◌++◌, All, IfOk, OnOk, length, map};
ghost use Rattle.days_sky.specs.Days.{rows_of_day};
ghost use Rattle.district_set.specs.Sets.{AreAlike, judge_at, set_content};
ghost use Rattle.order_table.specs.Trees.{entry_at};
ghost use Rattle.set_search.specs.Scopes.{HaveOneRoot};
ghost use Rattle.set_search.specs.Searches.{IsFound, entries_by, entries_on_days, judge_of, judge_over, judges_over};
ghost use Rattle.steal_pool.specs.Found.{AreAllTopOrdinals};

use cell_judge::Sky;
use cell_split::{Entry, Judge};
use covering::entry_of_ranks;
use days_sky::DaysSky;
use district_set::SetSky;
use no_memory::NoMemory;
use order_table::{Day, judged_days};
use plain_search::TopRanks;
use std::alloc::Global;
use std::slice;
use std::sync::Wait;
use std::thread::Threads;
use steal_pool::{Gate, search_ranks};

/// The entry of a problem of judge `i`, from the ranks that a search for all found.
fn entry_in<J: Judge>(set: &SetSky<J>, ranks: &[TopRanks], i: u32, column: u32) -> Entry
    requires ranks { AreAllTopOrdinals (set_content (map J.content set.now.skies.now)) ranks.now }
    requires within { i < length set.now.skies.now }
    requires column { column < 7 }
    ensures value { result ≡ entry_at (judge_at (map J.content set.now.skies.now) i) column }
    ensures found { IsFound result }
{
    let k = 7 * i + column;
    entry_of_ranks(set, k, ranks[k as usize])
}

/// The entries of judge `i`.
fn entries_in<J: Judge>(set: &SetSky<J>, ranks: &[TopRanks], i: u32) -> [Entry; 7]
    requires ranks { AreAllTopOrdinals (set_content (map J.content set.now.skies.now)) ranks.now }
    requires within { i < length set.now.skies.now }
    ensures value { result ≡ entries_by (judge_at (map J.content set.now.skies.now) i) }
    ensures found { All IsFound result }
{
    [
        entry_in(set, ranks, i, 0),
        entry_in(set, ranks, i, 1),
        entry_in(set, ranks, i, 2),
        entry_in(set, ranks, i, 3),
        entry_in(set, ranks, i, 4),
        entry_in(set, ranks, i, 5),
        entry_in(set, ranks, i, 6),
    ]
}

/// The entries of so many judges, which are all.
fn entries_of_judges<J: Judge>(
    alloc: Global,
    set: &SetSky<J>,
    ranks: &[TopRanks],
    count: u32,
) -> Result<Vec<[Entry; 7]>, NoMemory>
    requires ranks { AreAllTopOrdinals (set_content (map J.content set.now.skies.now)) ranks.now }
    requires count { count ≡ length set.now.skies.now }
    ensures entries { IfOk result (λ found. found.items ≡ map entries_by (map J.content set.now.skies.now)) }
    ensures found { IfOk result (λ found. All (All IsFound) found.items) }
{
    let mut found = Vec::new(alloc);
    for i in 0..count {
        found.push(entries_in(set, ranks, i))?;
    }
    Ok(found)
}

/// The entries of 1 to 64 judges over one root, by 1 to 16 workers at the same time: each entry is that of its whole tree.
fn search_judges<R: Threads + Wait + Sync, J: Judge<Kept: Send> + Sync, G: Gate + Sync>(
    rt: &R,
    alloc: Global,
    judges: &[J],
    workers: u32,
    gate: &G,
) -> Result<Vec<[Entry; 7]>, NoMemory>
    requires some_workers { 1 ≤ workers }
    requires few_workers { workers ≤ 16 }
    requires some { 1 ≤ length judges.now }
    requires few { length judges.now ≤ 64 }
    requires alike { AreAlike (map J.content judges.now) }
    ensures entries { IfOk result (λ found. found.items ≡ map entries_by (map J.content judges.now)) }
    ensures found { IfOk result (λ found. All (All IsFound) found.items) }
{
    let set = SetSky::new(judges);
    let ranks = search_ranks(rt, alloc, &set, workers, gate)?;
    entries_of_judges(alloc, &set, &ranks, judges.len() as u32)
}

/// Puts the judge of a day over each district behind the others.
fn push_judges<'a>(
    judges: &mut Vec<DaysSky<'a>>,
    skies: &'a [Sky],
    day: &'a days_sky::Day,
) -> Result<(), NoMemory>
    ensures { OnOk result (map judge_of judges.new.items ≡ map judge_of judges.old.items ++ map (judge_over (rows_of_day day.now)) skies.now) }
{
    for sky in skies {
        judges.push(DaysSky::new(sky, slice::from_ref(day)))?;
    }
    Ok(())
}

/// The judges of these days over each district, day by day.
fn judges_of<'a>(
    alloc: Global,
    skies: &'a [Sky],
    days: &'a [days_sky::Day],
) -> Result<Vec<DaysSky<'a>>, NoMemory>
    ensures { IfOk result (λ judges. map judge_of judges.items ≡ judges_over skies.now (map rows_of_day days.now)) }
{
    let mut judges = Vec::new(alloc);
    for day in days {
        push_judges(&mut judges, skies, day)?;
    }
    Ok(judges)
}

/// The entries of these days in each district, day by day, by 1 to 16 workers at the same time. A day of a district has a
/// judge of its own, and there are at most 64 of them. Want of memory is its only fault.
pub fn search_days<R: Threads + Wait + Sync, G: Gate + Sync>(
    rt: &R,
    alloc: Global,
    skies: &[Sky],
    days: &[Day],
    workers: u32,
    gate: &G,
) -> Result<Vec<[Entry; 7]>, NoMemory>
    requires some_workers { 1 ≤ workers }
    requires few_workers { workers ≤ 16 }
    requires some { 1 ≤ length skies.now }
    requires some_days { 1 ≤ length days.now }
    requires few { length days.now * length skies.now ≤ 64 }
    requires one_root { HaveOneRoot skies.now }
    ensures entries { IfOk result (λ found. found.items ≡ entries_on_days skies.now days.now) }
    ensures found { IfOk result (λ found. All (All IsFound) found.items) }
{
    let judged = judged_days(alloc, days)?;
    let judges = judges_of(alloc, skies, &judged)?;
    search_judges(rt, alloc, &judges, workers, gate)
}
