// Several days of a table, searched together.
ghost use Rattle.std.specs.Prelude.{◌≡◌, ◌*◌, ◌<◌, ◌≤◌, ◌^◌, All, IfOk, length, map, slice_index_or};
ghost use Rattle.cell_judge.specs.Skies.{sky_content};
ghost use Rattle.days_sky.specs.Days.{days_content, rows_of_day};
ghost use Rattle.order_table.specs.Made.{rows_of};
ghost use Rattle.order_table.specs.Printing.{IsPrintable};
ghost use Rattle.order_table.specs.Trees.{entry_at};
ghost use Rattle.steal_pool.specs.Found.{AreAllTopOrdinals};
ghost use Rattle.worker_table.specs.Entries.{entries_on};

use cell_judge::Sky;
use cell_split::Entry;
use covering::entry_of_ranks;
use days_sky::DaysSky;
use no_memory::NoMemory;
use order_table::{Day, judged_days};
use plain_search::TopRanks;
use std::alloc::Global;
use std::sync::Wait;
use std::thread::Threads;
use steal_pool::{Gate, search_ranks};

/// The entry of a column on day `i`, from the ranks that a search for all days found.
fn entry_in(sky: &DaysSky, ranks: &[TopRanks], i: u32, day: &Day, column: u32) -> Entry
    requires ranks { AreAllTopOrdinals (days_content sky.now.sky.now.sun sky.now.sky.now.district (map rows_of_day sky.now.days.now) sky.now.sky.now.root) ranks.now }
    requires within { i < length sky.now.days.now }
    requires own { slice_index_or (map rows_of_day sky.now.days.now) i (rows_of day.now) ≡ rows_of day.now }
    requires column { column < 7 }
    ensures value { result ≡ entry_at (sky_content sky.now.sky.now.sun sky.now.sky.now.district (rows_of day.now) sky.now.sky.now.root) column }
    ensures printable { IsPrintable result }
{
    let k = 7 * i + column;
    entry_of_ranks(sky, k, ranks[k as usize])
}

/// The entries of day `i`.
#[tactic(auto, unfolding(order_table::specs::Trees::entries_of))]
fn entries_in(sky: &DaysSky, ranks: &[TopRanks], i: u32, day: &Day) -> [Entry; 7]
    requires ranks { AreAllTopOrdinals (days_content sky.now.sky.now.sun sky.now.sky.now.district (map rows_of_day sky.now.days.now) sky.now.sky.now.root) ranks.now }
    requires within { i < length sky.now.days.now }
    requires own { slice_index_or (map rows_of_day sky.now.days.now) i (rows_of day.now) ≡ rows_of day.now }
    ensures value { result ≡ entries_on sky.now.sky.now.sun sky.now.sky.now.district sky.now.sky.now.root day.now }
    ensures printable { All IsPrintable result }
{
    [
        entry_in(sky, ranks, i, day, 0),
        entry_in(sky, ranks, i, day, 1),
        entry_in(sky, ranks, i, day, 2),
        entry_in(sky, ranks, i, day, 3),
        entry_in(sky, ranks, i, day, 4),
        entry_in(sky, ranks, i, day, 5),
        entry_in(sky, ranks, i, day, 6),
    ]
}

/// The entries of all days, from the ranks that a search for them found.
fn entries_of_days(
    alloc: Global,
    sky: &DaysSky,
    ranks: &[TopRanks],
    days: &[Day],
) -> Result<Vec<[Entry; 7]>, NoMemory>
    requires ranks { AreAllTopOrdinals (days_content sky.now.sky.now.sun sky.now.sky.now.district (map rows_of_day sky.now.days.now) sky.now.sky.now.root) ranks.now }
    requires own { map rows_of_day sky.now.days.now ≡ map rows_of days.now }
    requires short { length days.now < 2 ^ 32 }
    ensures entries { IfOk result (λ found. found.items ≡ map (entries_on sky.now.sky.now.sun sky.now.sky.now.district sky.now.sky.now.root) days.now) }
    ensures printable { IfOk result (λ found. All (All IsPrintable) found.items) }
{
    let mut found = Vec::new(alloc);
    for (i, day) in days.iter().enumerate() {
        found.push(entries_in(sky, ranks, i as u32, day))?;
    }
    Ok(found)
}

/// The entries of these days, by 1 to 16 workers at the same time: each entry is that of its whole tree.
pub fn search_days<R: Threads + Wait + Sync, G: Gate + Sync>(
    rt: &R,
    alloc: Global,
    sky: &Sky,
    days: &[Day],
    workers: u32,
    gate: &G,
) -> Result<Vec<[Entry; 7]>, NoMemory>
    requires some { 1 ≤ workers }
    requires few { workers ≤ 16 }
    requires short { 7 * length days.now < 2 ^ 32 }
    ensures entries { IfOk result (λ found. found.items ≡ map (entries_on sky.now.sun sky.now.district sky.now.root) days.now) }
    ensures printable { IfOk result (λ found. All (All IsPrintable) found.items) }
{
    let judged = judged_days(alloc, days)?;
    let all_days = DaysSky::new(sky, &judged);
    let ranks = search_ranks(rt, alloc, &all_days, workers, gate)?;
    entries_of_days(alloc, &all_days, &ranks, days)
}
