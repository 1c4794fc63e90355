// The table of an order, searched and written day by day.
ghost use Rattle.std.specs.Prelude.{◌≡◌, ◌<◌, ◌≤◌, ◌++◌, length, map, IfOk, IfSome, All};
ghost use Rattle.method_table.specs.Row.{row_of};
ghost use Rattle.order_rule.specs.Asked.{asked_of};
ghost use Rattle.order_table.specs.Made.{day_of, searched};
ghost use Rattle.order_table.specs.Printing.{IsPrintable};
ghost use Rattle.order_table.specs.Ready.{IsReady};
ghost use Rattle.order_table.specs.RightTable.{IsRightTable};
ghost use Rattle.order_table.specs.Table.{day_found, day_text, day_undecided, days_text, days_undecided, head_of};
ghost use Rattle.order_table.specs.Trees.{entries_of, table_of, undecided};
ghost use Rattle.outcome.specs.Writing.{Writes};
ghost use Rattle.year_table.specs.Lines.{end_line};

use crate::day::Day;
use crate::ready::{Ready, prepare};
use crate::search::{day_entries, night_entries};
use crate::text::{day_text, open_count};
use cell_judge::Sky;
use cell_split::Entry;
use order_rule::Order;
use outcome::{Stop, write_text};
use source_sink::{Sink, write_all};
use std::alloc::Global;
use year_table::end_line;

/// Writes the lines of a day with these entries of its columns and of its night; answers how many of its columns' are
/// undecided.
pub fn write_day<K: Sink>(
    alloc: Global,
    day: &Day,
    entries: &[Entry; 7],
    night_entries: &Option<[Entry; 2]>,
    out: &mut K,
) -> Result<u32, Stop>
    requires printable { All IsPrintable entries.now }
    requires night_printable { IfSome night_entries.now (All IsPrintable) }
    ensures writes { Writes (day_text (day_found (day_of day.now) entries.now night_entries.now)) result
        (K.faults out.old) (K.faults out.new) (K.held out.old) (K.held out.new) }
    ensures count { IfOk result (λ count. count ≡ day_undecided (day_found (day_of day.now) entries.now night_entries.now)) }
    ensures few { IfOk result (λ count. count ≤ 7) }
{
    let Ok(text) = day_text(alloc, day, entries, night_entries) else {
        return Err(Stop::NoMemory);
    };
    match write_all(out, &text) {
        Ok(()) => Ok(open_count(entries)),
        Err(_) => Err(Stop::WriteFault),
    }
}

/// Writes the lines of a day whose columns' entries are found: its night is searched first, where it has one. Answers how many
/// of the columns' entries are undecided.
#[tactic(auto, unfolding(crate::specs::Made::searched))]
pub fn write_searched<K: Sink>(
    alloc: Global,
    sky: &mut Sky,
    day: &Day,
    entries: &[Entry; 7],
    out: &mut K,
) -> Result<u32, Stop>
    requires found { entries.now ≡ entries_of sky.old.sun sky.old.district sky.old.root (map row_of day.now.problems) }
    requires printable { All IsPrintable entries.now }
    ensures writes { Writes (day_text (searched sky.old.sun sky.old.district sky.old.root day.now)) result
        (K.faults out.old) (K.faults out.new) (K.held out.old) (K.held out.new) }
    ensures count { IfOk result (λ count. count ≡ day_undecided (searched sky.old.sun sky.old.district sky.old.root day.now)) }
    ensures few { IfOk result (λ count. count ≤ 7) }
    ensures sun { sky.new.sun ≡ sky.old.sun }
    ensures district { sky.new.district ≡ sky.old.district }
    ensures root { sky.new.root ≡ sky.old.root }
{
    let night_entries = night_entries(sky, day);
    write_day(alloc, day, entries, &night_entries, out)
}

/// Searches a day and writes its lines; answers how many of its columns' entries are undecided.
fn search_day<K: Sink>(alloc: Global, sky: &mut Sky, day: &Day, out: &mut K) -> Result<u32, Stop>
    ensures writes { Writes (day_text (searched sky.old.sun sky.old.district sky.old.root day.now)) result
        (K.faults out.old) (K.faults out.new) (K.held out.old) (K.held out.new) }
    ensures count { IfOk result (λ count. count ≡ day_undecided (searched sky.old.sun sky.old.district sky.old.root day.now)) }
    ensures few { IfOk result (λ count. count ≤ 7) }
    ensures sun { sky.new.sun ≡ sky.old.sun }
    ensures district { sky.new.district ≡ sky.old.district }
    ensures root { sky.new.root ≡ sky.old.root }
{
    let entries = day_entries(sky, day);
    write_searched(alloc, sky, day, &entries, out)
}

/// Searches the days and writes their lines; answers how many of their entries are undecided.
fn search_days<K: Sink>(
    alloc: Global,
    sky: &mut Sky,
    days: &[Day],
    out: &mut K,
) -> Result<u32, Stop>
    requires few { length days.now ≤ 366 }
    ensures writes { Writes (days_text (map (searched sky.old.sun sky.old.district sky.old.root) days.now)) result
        (K.faults out.old) (K.faults out.new) (K.held out.old) (K.held out.new) }
    ensures count { IfOk result (λ count. count ≡ days_undecided (map (searched sky.old.sun sky.old.district sky.old.root) days.now)) }
{
    let mut undecided = 0;
    for day in days {
        match search_day(alloc, sky, day, out) {
            Ok(count) => undecided += count,
            Err(stop) => return Err(stop),
        }
    }
    Ok(undecided)
}

/// Makes ready the table of an order, and writes its head.
pub fn begin_table<K: Sink>(alloc: Global, order: Order, out: &mut K) -> Result<Ready, Stop>
    ensures ready { IfOk result (IsReady (asked_of order)) }
    ensures writes { Writes (head_of (asked_of order)) result
        (K.faults out.old) (K.faults out.new) (K.held out.old) (K.held out.new) }
{
    let Ok(ready) = prepare(alloc, order) else {
        return Err(Stop::NoMemory);
    };
    match write_all(out, &ready.head) {
        Ok(()) => Ok(ready),
        Err(_) => Err(Stop::WriteFault),
    }
}

/// Writes the last line of a table of so many days and undecided entries; answers how many these are.
pub fn write_end<K: Sink>(
    alloc: Global,
    days: u32,
    undecided: u32,
    out: &mut K,
) -> Result<u32, Stop>
    ensures writes { Writes (end_line days undecided) result
        (K.faults out.old) (K.faults out.new) (K.held out.old) (K.held out.new) }
    ensures count { IfOk result (λ count. count ≡ undecided) }
{
    let Ok(line) = end_line(alloc, days, undecided) else {
        return Err(Stop::NoMemory);
    };
    write_text(out, &line, undecided)
}

/// Writes the table of an order; answers how many of its entries are undecided.
pub fn write_table<K: Sink>(alloc: Global, order: Order, out: &mut K) -> Result<u32, Stop>
    ensures writes { Writes (table_of (asked_of order)) result
        (K.faults out.old) (K.faults out.new) (K.held out.old) (K.held out.new) }
    ensures count { IfOk result (λ count. count ≡ undecided (asked_of order)) }
    ensures right { IsRightTable (asked_of order) }
{
    order.keeps_the_rule();
    let days = order.days;
    let mut ready = match begin_table(alloc, order, out) {
        Ok(ready) => ready,
        Err(stop) => return Err(stop),
    };
    let undecided = match search_days(alloc, &mut ready.sky, &ready.days, out) {
        Ok(undecided) => undecided,
        Err(stop) => return Err(stop),
    };
    write_end(alloc, days, undecided, out)
}
