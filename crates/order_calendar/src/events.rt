// The events of a day from its entries.
ghost use Rattle.std.specs.Prelude.{◌≡◌, ◌++◌, length, map, zip, IfOk, OnOk, All};
ghost use Rattle.method_table.specs.Row.{row_of};
ghost use Rattle.order_calendar.specs.Pieces.{entry_text, found_text, sheet_seen};
ghost use Rattle.order_table.specs.Printing.{IsPrintable};

use crate::sheet::Sheet;
use cell_split::Entry;
use ical_text::event_text;
use method_table::Problem;
use no_memory::NoMemory;
use order_table::Day;
use std::alloc::Global;

/// Adds the event of an entry, if it is a minute.
fn push_event(
    alloc: Global,
    text: &mut Vec<u8>,
    sheet: &Sheet,
    day: &Day,
    problem: &Problem,
    entry: &Entry,
) -> Result<(), NoMemory>
    requires { IsPrintable entry.now }
    ensures { OnOk result (text.new.items ≡ text.old.items ++ entry_text (sheet_seen sheet.now) day.now.number (row_of problem.now, entry.now)) }
{
    if let Entry::Minute { rank } = entry {
        let event = event_text(
            alloc,
            day.number,
            problem,
            *rank,
            sheet.from_day,
            sheet.west,
            sheet.south,
            sheet.method,
            sheet.asr,
            &sheet.zone,
        )?;
        text.extend_from_slice(&event)?;
    }
    Ok(())
}

/// The events of the entries that are minutes.
fn push_events(
    alloc: Global,
    text: &mut Vec<u8>,
    sheet: &Sheet,
    day: &Day,
    problems: &[Problem],
    entries: &[Entry],
) -> Result<(), NoMemory>
    requires long { length entries.now ≡ length problems.now }
    requires printable { All IsPrintable entries.now }
    ensures { OnOk result (text.new.items ≡ text.old.items ++ found_text (sheet_seen sheet.now) day.now.number (zip (map row_of problems.now) entries.now)) }
{
    for i in 0..problems.len() {
        push_event(alloc, text, sheet, day, &problems[i], &entries[i])?;
    }
    Ok(())
}

/// The events of a day with these entries.
pub(crate) fn events_text(
    alloc: Global,
    sheet: &Sheet,
    day: &Day,
    entries: &[Entry; 7],
) -> Result<Vec<u8>, NoMemory>
    requires { All IsPrintable entries.now }
    ensures { IfOk result (λ text. text.items ≡ found_text (sheet_seen sheet.now) day.now.number (zip (map row_of day.now.problems) entries.now)) }
{
    let mut text = Vec::new(alloc);
    push_events(alloc, &mut text, sheet, day, &day.problems, entries)?;
    Ok(text)
}
