// The texts of dates, entries and days.
ghost use Rattle.std.specs.Prelude.{◌≡◌, ◌≤◌, ◌≤ℤ◌, ◌++◌, neg_ℤ, pos, All, IfOk, OnOk, length, flat_map, zip};
ghost use Rattle.std.specs.String.{string_bytes};
ghost use Rattle.method_table.specs.Row.{row_of};
ghost use Rattle.year_table.specs.Dates.{date_text};
ghost use Rattle.year_table.specs.Entries.{IsInFrame, IsOpenAtOneRank, entry_text, printed_minute, rank_text};
ghost use Rattle.year_table.specs.Lines.{cell_text, day_line, night_line, open_line, open_text, place_text};

use crate::date::parts_of;
use crate::show::{ClockMinute, GivenMinute};
use cell_split::{Cell, Entry};
use method_table::{Problem, column_word, minute_of};
use no_memory::NoMemory;
use std::alloc::Global;

/// The date of a day since 1970-01-01, as `2025-03-01`.
pub fn date_text(alloc: Global, day: i32) -> Result<Vec<u8>, NoMemory>
    requires not_early { neg_ℤ (pos 25567) ≤ℤ day }
    requires not_late { day ≤ℤ pos 47846 }
    ensures { IfOk result (λ t. t.items ≡ date_text day) }
{
    Ok(date_string(alloc, day)?.into_bytes())
}

/// The same of a day of the years from 1899 to 2101.
pub fn date_string(alloc: Global, day: i32) -> Result<String, NoMemory>
    requires not_early { neg_ℤ (pos 26000) ≤ℤ day }
    requires not_late { day ≤ℤ pos 48300 }
    ensures { IfOk result (λ t. string_bytes t ≡ date_text day) }
{
    Ok(format!(in alloc; "{}", parts_of(day))?)
}

/// The six characters of an entry: a mark and its printed minute, ` **:**`, ` --:--` or ` ??:??`.
pub fn entry_text(alloc: Global, p: &Problem, e: &Entry) -> Result<Vec<u8>, NoMemory>
    requires { IsInFrame e.now }
    ensures { IfOk result (λ t. t.items ≡ entry_text (row_of p.now) e.now) }
{
    Ok(entry_string(alloc, p, e)?.into_bytes())
}

fn entry_string(alloc: Global, p: &Problem, e: &Entry) -> Result<String, NoMemory>
    requires { IsInFrame e.now }
    ensures { IfOk result (λ t. string_bytes t ≡ entry_text (row_of p.now) e.now) }
{
    match e {
        Entry::Minute { rank } => rank_string(alloc, p, *rank),
        Entry::Whole => Ok(String::from_str(alloc, " **:**")?),
        Entry::Never => Ok(String::from_str(alloc, " --:--")?),
        Entry::Open { .. } => Ok(String::from_str(alloc, " ??:??")?),
    }
}

// the printed minute of a rank
fn rank_string(alloc: Global, p: &Problem, rank: u32) -> Result<String, NoMemory>
    requires { rank ≤ 721 }
    ensures { IfOk result (λ t. string_bytes t ≡ rank_text (row_of p.now) rank) }
{
    if rank == 721 {
        Ok(String::from_str(alloc, " --:--")?)
    } else {
        let minute = ClockMinute(printed_minute(p, rank));
        Ok(format!(in alloc; "{minute}")?)
    }
}

fn printed_minute(p: &Problem, rank: u32) -> i32
    requires { rank ≤ 720 }
    ensures { result ≡ printed_minute (row_of p.now) rank }
{
    minute_of(p, rank) + p.shift
}

/// The line of a day: its date and its seven entries.
pub fn day_line(
    alloc: Global,
    day: i32,
    problems: &[Problem; 7],
    entries: &[Entry; 7],
) -> Result<Vec<u8>, NoMemory>
    requires not_early { neg_ℤ (pos 25567) ≤ℤ day }
    requires not_late { day ≤ℤ pos 47846 }
    requires in_frame { All IsInFrame entries.now }
    ensures { IfOk result (λ t. t.items ≡ day_line day problems.now entries.now) }
{
    let mut line = date_string(alloc, day)?;
    push_entries(alloc, &mut line, problems, entries)?;
    line.push_str("\n")?;
    Ok(line.into_bytes())
}

fn push_entries(
    alloc: Global,
    line: &mut String,
    problems: &[Problem],
    entries: &[Entry],
) -> Result<(), NoMemory>
    requires long { length entries.now ≡ length problems.now }
    requires in_frame { All IsInFrame entries.now }
    ensures { OnOk result (string_bytes line.new ≡ string_bytes line.old ++ flat_map cell_text (zip problems.now entries.now)) }
{
    for (i, p) in problems.iter().enumerate() {
        push_entry(alloc, line, p, &entries[i])?;
    }
    Ok(())
}

fn push_entry(alloc: Global, line: &mut String, p: &Problem, e: &Entry) -> Result<(), NoMemory>
    requires { IsInFrame e.now }
    ensures { OnOk result (string_bytes line.new ≡ string_bytes line.old ++ cell_text (p.now, e.now)) }
{
    let entry = entry_string(alloc, p, e)?;
    line.push_str(" ")?;
    line.push_str(entry.as_str())?;
    Ok(())
}

/// The line of an open entry: from which rank its minutes are safe, from which they may be, and the cell
/// that is left.
pub fn open_line(alloc: Global, p: &Problem, e: &Entry) -> Result<Vec<u8>, NoMemory>
    requires { IsOpenAtOneRank e.now }
    ensures { IfOk result (λ t. t.items ≡ open_line (row_of p.now) e.now) }
{
    let Entry::Open { safe, from, cell } = e else {
        unreachable!()
    };
    let safe = rank_string(alloc, p, *safe)?;
    let from = rank_string(alloc, p, *from)?;
    let place = place_string(alloc, cell)?;
    let line = open_string(
        alloc,
        column_word(p.column),
        safe.as_str(),
        from.as_str(),
        place.as_str(),
    )?;
    Ok(line.into_bytes())
}

fn open_string(
    alloc: Global,
    column: &str,
    safe: &str,
    from: &str,
    place: &str,
) -> Result<String, NoMemory>
    ensures { IfOk result (λ t. string_bytes t ≡ open_text column.now safe.now from.now place.now) }
{
    Ok(format!(in alloc; "open {column} safe {safe} from {from} cell {place}\n")?)
}

// the corner of a cell and its rank
fn place_string(alloc: Global, cell: &Cell) -> Result<String, NoMemory>
    ensures { IfOk result (λ t. string_bytes t ≡ place_text cell.now) }
{
    Ok(format!(in alloc; "{} {} rank {}", cell.x, cell.y, cell.first)?)
}

/// The line of a night: its Fajr and its Isha as local minutes, and ` --:--` where there is none.
pub fn night_line(alloc: Global, fajr: Option<i32>, isha: Option<i32>) -> Result<Vec<u8>, NoMemory>
    ensures { IfOk result (λ t. t.items ≡ night_line fajr isha) }
{
    let fajr = GivenMinute(fajr);
    let isha = GivenMinute(isha);
    Ok(format!(in alloc; "night fajr {fajr} isha {isha}\n")?.into_bytes())
}
