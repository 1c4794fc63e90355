// The text of a day from its entries.
ghost use Rattle.std.specs.Prelude.{◌≡◌, ◌≤◌, ◌++◌, count_by, length, map, option_map, zip, IfOk, IfSome, OnOk, All, Some};
ghost use Rattle.method_table.specs.Row.{row_of};
ghost use Rattle.order_table.specs.Made.{day_of, night_of};
ghost use Rattle.order_table.specs.Printing.{IsPrintable};
ghost use Rattle.order_table.specs.Table.{day_found, day_text, is_undecided, night_found, night_text, opens_text};
ghost use Rattle.year_table.specs.Lines.{open_line};

use crate::day::{Day, Night};
use cell_split::Entry;
use method_table::Problem;
use night_portion::night_minutes;
use no_memory::NoMemory;
use std::alloc::Global;
use year_table::{day_line, night_line, open_line};

/// Adds the line of an entry, if it is open.
fn push_open(
    alloc: Global,
    text: &mut Vec<u8>,
    problem: &Problem,
    entry: &Entry,
) -> Result<(), NoMemory>
    requires { IsPrintable entry.now }
    ensures { OnOk result (text.new.items ≡ text.old.items ++ open_line (row_of problem.now) entry.now) }
{
    if let Entry::Open { .. } = entry {
        text.extend_from_slice(&open_line(alloc, problem, entry)?)?;
    }
    Ok(())
}

/// The lines of the entries that are open.
fn push_opens(
    alloc: Global,
    text: &mut Vec<u8>,
    problems: &[Problem],
    entries: &[Entry],
) -> Result<(), NoMemory>
    requires long { length entries.now ≡ length problems.now }
    requires printable { All IsPrintable entries.now }
    ensures { OnOk result (text.new.items ≡ text.old.items ++ opens_text (zip (map row_of problems.now) entries.now)) }
{
    for i in 0..problems.len() {
        push_open(alloc, text, &problems[i], &entries[i])?;
    }
    Ok(())
}

/// The line of a night: by the entries of its day, and by those of sunrise and sunset.
fn night_text(
    alloc: Global,
    night: &Night,
    problems: &[Problem; 7],
    entries: &[Entry; 7],
    night_entries: &[Entry; 2],
) -> Result<Vec<u8>, NoMemory>
    requires printable { All IsPrintable entries.now }
    requires night_printable { All IsPrintable night_entries.now }
    ensures { IfOk result (λ text. text.items ≡
        night_text (zip (map row_of problems.now) entries.now) (night_found (Some (night_of night.now)) (Some night_entries.now))) }
{
    let minutes = night_minutes(
        night.rule,
        night.method,
        problems,
        entries,
        &night.problems,
        night_entries,
    );
    night_line(alloc, minutes.fajr, minutes.isha)
}

/// Adds the line of a day's night, where the order has a rule.
fn push_night(
    alloc: Global,
    text: &mut Vec<u8>,
    day: &Day,
    entries: &[Entry; 7],
    night_entries: &Option<[Entry; 2]>,
) -> Result<(), NoMemory>
    requires printable { All IsPrintable entries.now }
    requires night_printable { IfSome night_entries.now (All IsPrintable) }
    ensures { OnOk result (text.new.items ≡ text.old.items
        ++ night_text (zip (map row_of day.now.problems) entries.now) (night_found (option_map night_of day.now.night) night_entries.now)) }
{
    if let (Some(night), Some(night_entries)) = (&day.night, night_entries) {
        text.extend_from_slice(&night_text(alloc, night, &day.problems, entries, night_entries)?)?;
    }
    Ok(())
}

/// The line of a day with these entries, the lines of those that are open, and the line of its night where it has one.
pub fn day_text(
    alloc: Global,
    day: &Day,
    entries: &[Entry; 7],
    night_entries: &Option<[Entry; 2]>,
) -> Result<Vec<u8>, NoMemory>
    requires printable { All IsPrintable entries.now }
    requires night_printable { IfSome night_entries.now (All IsPrintable) }
    ensures { IfOk result (λ text. text.items ≡ day_text (day_found (day_of day.now) entries.now night_entries.now)) }
{
    let mut text = day_line(alloc, day.number, &day.problems, entries)?;
    push_opens(alloc, &mut text, &day.problems, entries)?;
    push_night(alloc, &mut text, day, entries, night_entries)?;
    Ok(text)
}

/// How many entries are open.
pub fn open_count(entries: &[Entry]) -> u32
    requires { length entries.now ≤ 7 }
    ensures value { result ≡ count_by is_undecided entries.now }
    ensures few { result ≤ 7 }
{
    let mut count = 0;
    for entry in entries {
        if let Entry::Open { .. } = entry {
            count += 1;
        }
    }
    count
}
