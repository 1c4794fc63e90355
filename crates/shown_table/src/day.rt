// A day of a covering: its entries are read of its lines, and written as the table has them.
ghost use Rattle.std.specs.Prelude.{◌≡◌, ◌+◌, ◌≤◌, ◌∷◌, [], None, All, IfOk, IfSome, OnOk};
ghost use Rattle.order_table.specs.Made.{day_of};
ghost use Rattle.order_table.specs.Printing.{IsPrintable};
ghost use Rattle.order_table.specs.Table.{days_text};
ghost use Rattle.outcome.specs.Writing.{Writes};
ghost use Rattle.ring_survey.specs.Faults.{first_fault};
ghost use Rattle.shown_table.specs.Came.{IfWhole, IsBad, ShowsDayEntries, ShowsDays, ShowsEntries};
ghost use Rattle.shown_table.specs.Shown.{columns_shown, day_shown, days_shown, lines_of};

use crate::bad::{BadLine, Shown};
use crate::lines::Lines;
use crate::night::night_entries;
use cell_judge::Sky;
use cell_split::Entry;
use covering_check::CoverFault;
use order_covering::date_of;
use order_table::{Day, write_day};
use outcome::Stop;
use source_sink::Sink;
use std::alloc::Global;

/// The entries that the next seven lines show of a day's columns, to which the sky is turned.
fn column_entries(
    alloc: Global,
    sky: &Sky,
    day: &Day,
    lines: &mut Lines<'_>,
) -> Result<[Entry; 7], BadLine>
    requires turned { sky.now.problems ≡ day.now.problems }
    requires number { lines.old.number ≤ 4088 }
    ensures shows { ShowsEntries (columns_shown sky.now.sun sky.now.district sky.now.root (day_of day.now) lines.old.number lines.old.text.now)
        result lines.new.text.now }
    ensures number { OnOk result (lines.new.number ≡ lines.old.number + 7) }
{
    let Ok(date) = date_of(alloc, day) else {
        return Err(lines.bad(CoverFault::NoMemory));
    };
    let mut entries = [Entry::Whole; 7];
    for k in 0..7 {
        match lines.next_entry(alloc, sky, day, k, date.as_str()) {
            Ok(entry) => entries[k as usize] = entry,
            Err(bad) => return Err(bad),
        }
    }
    Ok(entries)
}

/// Turns the sky to a day, and gives the entries that the next seven lines show of its columns.
fn turned_entries(
    alloc: Global,
    sky: &mut Sky,
    day: &Day,
    lines: &mut Lines<'_>,
) -> Result<[Entry; 7], BadLine>
    requires sound { first_fault sky.old.district ≡ None }
    requires number { lines.old.number ≤ 4088 }
    ensures shows { ShowsEntries (columns_shown sky.old.sun sky.old.district sky.old.root (day_of day.now) lines.old.number lines.old.text.now)
        result lines.new.text.now }
    ensures printable { IfOk result (All IsPrintable) }
    ensures number { OnOk result (lines.new.number ≡ lines.old.number + 7) }
    ensures sun { sky.new.sun ≡ sky.old.sun }
    ensures district { sky.new.district ≡ sky.old.district }
    ensures root { sky.new.root ≡ sky.old.root }
{
    sky.turn_to(day.problems);
    column_entries(alloc, sky, day, lines)
}

/// The entries that the next lines show of a day: those of its columns, and those of its night where it has one.
fn day_entries(
    alloc: Global,
    sky: &mut Sky,
    day: &Day,
    lines: &mut Lines<'_>,
) -> Result<([Entry; 7], Option<[Entry; 2]>), BadLine>
    requires sound { first_fault sky.old.district ≡ None }
    requires number { lines.old.number ≤ 4080 }
    ensures shows { ShowsDayEntries (day_shown sky.old.sun sky.old.district sky.old.root (day_of day.now) lines.old.number lines.old.text.now)
        result lines.new.text.now }
    ensures printable { IfOk result (λ found. All IsPrintable found.0) }
    ensures night_printable { IfOk result (λ found. IfSome found.1 (All IsPrintable)) }
    ensures number { OnOk result (lines.new.number ≡ lines.old.number + lines_of (day_of day.now)) }
    ensures sun { sky.new.sun ≡ sky.old.sun }
    ensures district { sky.new.district ≡ sky.old.district }
    ensures root { sky.new.root ≡ sky.old.root }
{
    let entries = match turned_entries(alloc, sky, day, lines) {
        Ok(entries) => entries,
        Err(bad) => return Err(bad),
    };
    match night_entries(alloc, sky, day, lines) {
        Ok(night_entries) => Ok((entries, night_entries)),
        Err(bad) => Err(bad),
    }
}

/// A bad line, or want of memory.
fn ended(bad: BadLine) -> Result<Shown, Stop>
    ensures { IsBad bad result }
{
    match bad.fault {
        CoverFault::NoMemory => Err(Stop::NoMemory),
        _ => Ok(Shown::Bad(bad)),
    }
}

/// Shows a day of the next lines and writes its lines of the table.
pub(crate) fn show_day<K: Sink>(
    alloc: Global,
    sky: &mut Sky,
    day: &Day,
    lines: &mut Lines<'_>,
    out: &mut K,
) -> Result<Shown, Stop>
    requires sound { first_fault sky.old.district ≡ None }
    requires number { lines.old.number ≤ 4080 }
    ensures shows { ShowsDays (days_shown sky.old.sun sky.old.district sky.old.root (day_of day.now ∷ []) lines.old.number lines.old.text.now)
        result lines.new.text.now }
    ensures writes { Writes (days_text (days_shown sky.old.sun sky.old.district sky.old.root (day_of day.now ∷ []) lines.old.number lines.old.text.now).days) result
        (K.faults out.old) (K.faults out.new) (K.held out.old) (K.held out.new) }
    ensures few { IfWhole (λ undecided. undecided ≤ 7) result }
    ensures number { IfWhole (λ _. lines.new.number ≡ lines.old.number + lines_of (day_of day.now)) result }
    ensures sun { sky.new.sun ≡ sky.old.sun }
    ensures district { sky.new.district ≡ sky.old.district }
    ensures root { sky.new.root ≡ sky.old.root }
{
    let (entries, night_entries) = match day_entries(alloc, sky, day, lines) {
        Ok(found) => found,
        Err(bad) => return ended(bad),
    };
    match write_day(alloc, day, &entries, &night_entries, out) {
        Ok(undecided) => Ok(Shown::Whole(undecided)),
        Err(stop) => Err(stop),
    }
}
