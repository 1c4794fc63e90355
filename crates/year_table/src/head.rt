// The first lines of a table, and the last.
ghost use Rattle.std.specs.Prelude.{◌≡◌, ◌≤◌, ◌≤ℤ◌, neg_ℤ, pos, IfOk};
ghost use Rattle.std.specs.String.{string_bytes};
ghost use Rattle.year_table.specs.Lines.{end_line, head_text, height_text, order_text, span_text, sun_text, table_head, words_text, zone_text};

use crate::entry::date_string;
use crate::zone::Zone;
use method_table::{Asr, Method, SunChoice, asr_word, method_word};
use no_memory::NoMemory;
use std::alloc::Global;

/// The first three lines of a table from `day` on. `positions` counts the district's; `height` is in
/// metres, and is named where it is above 0, as the sun is where it is Meeus'.
pub fn table_head(
    alloc: Global,
    day: i32,
    days: u32,
    method: Method,
    asr: Asr,
    zone: &Zone,
    positions: u32,
    height: u32,
    sun: SunChoice,
) -> Result<Vec<u8>, NoMemory>
    requires not_early { neg_ℤ (pos 25567) ≤ℤ day }
    requires not_late { day ≤ℤ pos 47846 }
    requires low { height ≤ 9000 }
    ensures { IfOk result (λ t. t.items ≡ table_head day days method asr zone.now positions height sun) }
{
    let date = date_string(alloc, day)?;
    let span = span_string(alloc, date.as_str(), days)?;
    let words = words_string(alloc, method, asr, zone)?;
    let order = order_string(alloc, span.as_str(), words.as_str(), positions)?;
    let height = height_string(alloc, height)?;
    let sun = sun_string(alloc, sun)?;
    let head = head_string(alloc, order.as_str(), height.as_str(), sun.as_str())?;
    Ok(head.into_bytes())
}

fn head_string(alloc: Global, order: &str, height: &str, sun: &str) -> Result<String, NoMemory>
    ensures { IfOk result (λ t. string_bytes t ≡ head_text order.now height.now sun.now) }
{
    let names = "date         fajr  f.end  dhuhr    asr   magh  m.end   isha";
    Ok(format!(in alloc; "prayer timetable 1\n{order}{height}{sun}\n{names}\n")?)
}

fn span_string(alloc: Global, date: &str, days: u32) -> Result<String, NoMemory>
    ensures { IfOk result (λ t. string_bytes t ≡ span_text date.now days) }
{
    Ok(format!(in alloc; "from {date} days {days}")?)
}

fn order_string(alloc: Global, span: &str, words: &str, positions: u32) -> Result<String, NoMemory>
    ensures { IfOk result (λ t. string_bytes t ≡ order_text span.now words.now positions) }
{
    Ok(format!(in alloc; "{span} {words} positions {positions}")?)
}

fn words_string(alloc: Global, method: Method, asr: Asr, zone: &Zone) -> Result<String, NoMemory>
    ensures { IfOk result (λ t. string_bytes t ≡ words_text method asr zone.now) }
{
    let method = method_word(method);
    let asr = asr_word(asr);
    let zone = zone_string(alloc, zone)?;
    Ok(format!(in alloc; "method {method} asr {asr} zone {zone}")?)
}

// a fixed offset in minutes, or `rule`
fn zone_string(alloc: Global, zone: &Zone) -> Result<String, NoMemory>
    ensures { IfOk result (λ t. string_bytes t ≡ zone_text zone.now) }
{
    match zone {
        Zone::Fixed { minutes } => Ok(format!(in alloc; "{minutes}")?),
        Zone::Rule { .. } => Ok(String::from_str(alloc, "rule")?),
    }
}

fn height_string(alloc: Global, height: u32) -> Result<String, NoMemory>
    ensures { IfOk result (λ t. string_bytes t ≡ height_text height) }
{
    if height == 0 {
        Ok(String::new(alloc))
    } else {
        Ok(format!(in alloc; " height {height}")?)
    }
}

fn sun_string(alloc: Global, sun: SunChoice) -> Result<String, NoMemory>
    ensures { IfOk result (λ t. string_bytes t ≡ sun_text sun) }
{
    match sun {
        SunChoice::Usno => Ok(String::new(alloc)),
        SunChoice::Meeus => Ok(String::from_str(alloc, " sun meeus")?),
    }
}

/// The last line of a table: how many days it has, and how many entries are undecided.
pub fn end_line(alloc: Global, days: u32, undecided: u32) -> Result<Vec<u8>, NoMemory>
    ensures { IfOk result (λ t. t.items ≡ end_line days undecided) }
{
    Ok(format!(in alloc; "end days {days} open {undecided}\n")?.into_bytes())
}
