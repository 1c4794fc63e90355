// The text of a day of a set.
ghost use Rattle.std.specs.Prelude.{◌≡◌, ◌<◌, ◌≤◌, ◌*◌, ◌++◌, None, All, IfOk, OnOk, length, map};
ghost use Rattle.order_table.specs.Made.{day_of};
ghost use Rattle.order_table.specs.Printing.{IsPrintable};
ghost use Rattle.order_table.specs.Table.{day_undecided};
ghost use Rattle.set_search.specs.Searches.{IsFound};
ghost use Rattle.set_table.specs.Table.{part_day, part_text, parts_text, set_day, set_day_text, set_day_undecided, whole_text};

use crate::line::district_line;
use cell_split::Entry;
use no_memory::NoMemory;
use order_table::{Day, day_text, open_count};
use set_search::joined_of;
use std::alloc::Global;

/// The lines of the district of this number.
fn part_text(alloc: Global, i: usize, day: &Day, entries: &[Entry; 7]) -> Result<Vec<u8>, NoMemory>
    requires { All IsFound entries.now }
    ensures { IfOk result (λ text. text.items ≡ part_text i (part_day (day_of day.now) entries.now)) }
{
    let mut text = district_line(alloc, i)?;
    text.extend_from_slice(&day_text(alloc, day, entries, &None)?)?;
    Ok(text)
}

/// The lines of each district.
fn parts_text(alloc: Global, day: &Day, found: &[[Entry; 7]]) -> Result<Vec<u8>, NoMemory>
    requires { All (All IsFound) found.now }
    ensures { IfOk result (λ text. text.items ≡ parts_text 0 (map (part_day (day_of day.now)) found.now)) }
{
    let mut text = Vec::new(alloc);
    for (i, entries) in found.iter().enumerate() {
        text.extend_from_slice(&part_text(alloc, i, day, entries)?)?;
    }
    Ok(text)
}

/// The lines of all districts together.
fn whole_text(alloc: Global, day: &Day, joined: &[Entry; 7]) -> Result<Vec<u8>, NoMemory>
    requires { All IsPrintable joined.now }
    ensures { IfOk result (λ text. text.items ≡ whole_text (part_day (day_of day.now) joined.now)) }
{
    let mut text = Vec::new(alloc);
    text.extend_from_slice(b"whole\n")?;
    text.extend_from_slice(&day_text(alloc, day, joined, &None)?)?;
    Ok(text)
}

/// The lines of a day with these entries of each district.
#[tactic(auto, unfolding(crate::specs::Table::set_day_text))]
pub(crate) fn set_day_text(
    alloc: Global,
    day: &Day,
    found: &[[Entry; 7]],
) -> Result<Vec<u8>, NoMemory>
    requires some { 0 < length found.now }
    requires found { All (All IsFound) found.now }
    ensures { IfOk result (λ text. text.items ≡ set_day_text (set_day (day_of day.now) found.now)) }
{
    let mut text = parts_text(alloc, day, found)?;
    let joined = joined_of(alloc, found)?;
    text.extend_from_slice(&whole_text(alloc, day, &joined)?)?;
    Ok(text)
}

/// How many of a district's entries are undecided.
fn part_undecided(day: &Day, entries: &[Entry; 7]) -> u32
    ensures value { result ≡ day_undecided (part_day (day_of day.now) entries.now) }
    ensures few { result ≤ 7 }
{
    open_count(entries)
}

/// How many of the districts' entries are undecided.
#[tactic(auto, unfolding(crate::specs::Table::set_day_undecided))]
pub(crate) fn set_day_undecided(day: &Day, found: &[[Entry; 7]]) -> u32
    requires { length found.now ≤ 64 }
    ensures value { result ≡ set_day_undecided (set_day (day_of day.now) found.now) }
    ensures few { result ≤ 7 * length found.now }
{
    let mut undecided = 0;
    for entries in found {
        undecided += part_undecided(day, entries);
    }
    undecided
}
