// The text of an event, and what stands round the events of a calendar.
ghost use Rattle.std.specs.Prelude.{◌≡◌, ◌≤◌, ◌≤ℤ◌, ◌++◌, neg_ℤ, pos, ◌+ℤ◌, IfOk, OnOk, length, true};
ghost use Rattle.std.specs.String.{string_bytes};
ghost use Rattle.method_table.specs.Row.{column_word, row_of, time_of};
ghost use Rattle.ical_text.specs.Calendar.{corner_text, description_by, description_text, end_text, escaped, escaped_byte, event_of, event_text, head_text, lines_by, uid_end, uid_text};
ghost use Rattle.ical_text.specs.Lines.{folded, folded_lines};
ghost use Rattle.ical_text.specs.Moments.{moment_text, stamp_text};

use crate::folded::push_folded;
use crate::moment::{moment_string, stamp_string};
use method_table::{Asr, Column, Method, Problem, asr_word, column_word, method_word, minute_of};
use no_memory::NoMemory;
use std::alloc::Global;
use year_table::date_text;

/// The lines in front of the events of a calendar.
pub fn calendar_head() -> &'static str
    ensures { result.now ≡ head_text }
{
    "BEGIN:VCALENDAR\r\nVERSION:2.0\r\nPRODID:-//district timetables//ical 1//EN\r\n"
}

/// The line behind them.
pub fn calendar_end() -> &'static str
    ensures { result.now ≡ end_text }
{
    "END:VCALENDAR\r\n"
}

/// The event of a printed minute: rank `rank` of a problem of `day`, in the calendar of an order whose first
/// day is `from_day`. `west` and `south` are the district's, in microdegrees; `zone` is the offset or the rule.
pub fn event_text(
    alloc: Global,
    day: i32,
    p: &Problem,
    rank: u32,
    from_day: i32,
    west: i64,
    south: i64,
    method: Method,
    asr: Asr,
    zone: &str,
) -> Result<Vec<u8>, NoMemory>
    requires day_not_early { neg_ℤ (pos 25567) ≤ℤ day }
    requires day_not_late { day ≤ℤ pos 47846 }
    requires from_not_early { neg_ℤ (pos 25567) ≤ℤ from_day }
    requires from_not_late { from_day ≤ℤ pos 47846 }
    requires rank { rank ≤ 720 }
    ensures { IfOk result (λ t. t.items ≡ event_text (stamp_text from_day) (description_text method asr zone.now) (event_of west south day (row_of p.now) rank)) }
{
    let uid = uid_of(alloc, day, p.column, west, south)?;
    let stamp = stamp_string(alloc, from_day)?;
    let start = moment_string(alloc, start_of(p, rank))?;
    let description = description_of(alloc, method, asr, zone)?;
    let summary = column_word(p.column);
    let text = event_by(
        alloc,
        uid.as_slice(),
        stamp.as_bytes(),
        start.as_bytes(),
        summary.as_bytes(),
        description.as_slice(),
    )?;
    Ok(text)
}

// an event of the texts of its properties
fn event_by(
    alloc: Global,
    uid: &[u8],
    stamp: &[u8],
    start: &[u8],
    summary: &[u8],
    description: &[u8],
) -> Result<Vec<u8>, NoMemory>
    ensures { IfOk result (λ t. t.items ≡ folded_lines (lines_by uid.now stamp.now start.now summary.now description.now)) }
{
    let mut text = Vec::new(alloc);
    push_folded(&mut text, b"BEGIN:VEVENT")?;
    push_line(alloc, &mut text, "UID:", uid)?;
    push_line(alloc, &mut text, "DTSTAMP:", stamp)?;
    push_line(alloc, &mut text, "DTSTART:", start)?;
    push_line(alloc, &mut text, "SUMMARY:", summary)?;
    push_line(alloc, &mut text, "DESCRIPTION:", description)?;
    push_folded(&mut text, b"END:VEVENT")?;
    Ok(text)
}

fn push_line(alloc: Global, text: &mut Vec<u8>, name: &str, value: &[u8]) -> Result<(), NoMemory>
    ensures { OnOk result (text.new.items ≡ text.old.items ++ folded (name.now ++ value.now)) }
{
    let mut line = Vec::from_slice(alloc, name.as_bytes())?;
    line.extend_from_slice(value)?;
    push_folded(text, line.as_slice())
}

// the printed minute in Universal Time
fn start_of(p: &Problem, rank: u32) -> i64
    requires { rank ≤ 720 }
    ensures value { result ≡ time_of (row_of p.now) rank +ℤ p.now.shift }
    ensures not_early { neg_ℤ (pos 53203000) ≤ℤ result }
    ensures not_late { result ≤ℤ pos 53203000 }
{
    shifted(p.base, minute_of(p, rank), p.shift)
}

fn shifted(base: i64, minute: i32, shift: i32) -> i64
    requires base_not_low { neg_ℤ (pos 53200000) ≤ℤ base }
    requires base_not_high { base ≤ℤ pos 53200000 }
    requires minute_not_low { neg_ℤ (pos 720) ≤ℤ minute }
    requires minute_not_high { minute ≤ℤ pos 2159 }
    requires shift_not_low { pos 0 ≤ℤ shift }
    requires shift_not_high { shift ≤ℤ pos 120 }
    ensures value { result ≡ base +ℤ minute +ℤ shift }
    ensures not_early { neg_ℤ (pos 53203000) ≤ℤ result }
    ensures not_late { result ≤ℤ pos 53203000 }
{
    base + minute as i64 + shift as i64
}

fn uid_of(
    alloc: Global,
    day: i32,
    column: Column,
    west: i64,
    south: i64,
) -> Result<Vec<u8>, NoMemory>
    requires not_early { neg_ℤ (pos 25567) ≤ℤ day }
    requires not_late { day ≤ℤ pos 47846 }
    ensures { IfOk result (λ t. t.items ≡ uid_text day (column_word column) west south) }
{
    let mut uid = date_text(alloc, day)?;
    let corner = corner_string(alloc, west, south)?;
    let end = uid_end(alloc, column_word(column), corner.as_str())?;
    uid.extend_from_slice(end.as_bytes())?;
    Ok(uid)
}

fn corner_string(alloc: Global, west: i64, south: i64) -> Result<String, NoMemory>
    ensures { IfOk result (λ t. string_bytes t ≡ corner_text west south) }
{
    Ok(format!(in alloc; "{west}-{south}")?)
}

fn uid_end(alloc: Global, column: &str, corner: &str) -> Result<String, NoMemory>
    ensures { IfOk result (λ t. string_bytes t ≡ uid_end column.now corner.now) }
{
    Ok(format!(in alloc; "-{column}-{corner}@timetable.invalid")?)
}

fn description_of(alloc: Global, method: Method, asr: Asr, zone: &str) -> Result<Vec<u8>, NoMemory>
    ensures { IfOk result (λ t. t.items ≡ description_text method asr zone.now) }
{
    let words = description_by(alloc, method_word(method), asr_word(asr))?;
    let mut description = words.into_bytes();
    push_escaped(&mut description, zone)?;
    Ok(description)
}

fn description_by(alloc: Global, method: &str, asr: &str) -> Result<String, NoMemory>
    ensures { IfOk result (λ t. string_bytes t ≡ description_by method.now asr.now) }
{
    Ok(format!(in alloc;
        "Safe at every point of the district. Method {method}\\, asr {asr}\\, zone "
    )?)
}

fn push_escaped(text: &mut Vec<u8>, zone: &str) -> Result<(), NoMemory>
    ensures { OnOk result (text.new.items ≡ text.old.items ++ escaped zone.now) }
{
    for b in zone.as_bytes() {
        push_escaped_byte(text, *b)?;
    }
    Ok(())
}

fn push_escaped_byte(text: &mut Vec<u8>, b: u8) -> Result<(), NoMemory>
    ensures { OnOk result (text.new.items ≡ text.old.items ++ escaped_byte b) }
{
    if b == b',' || b == b';' {
        text.push(b'\\')?;
    }
    text.push(b)?;
    Ok(())
}
