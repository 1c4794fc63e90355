// The night of a day of a covering: the entries of sunrise and sunset are read of its lines.
ghost use Rattle.std.specs.Prelude.{◌≡◌, ◌+◌, ◌≤◌, None, All, IfOk, IfSome, OnOk, map, option_map};
ghost use Rattle.method_table.specs.Row.{row_of};
ghost use Rattle.night_portion.specs.Sun.{repeated};
ghost use Rattle.order_table.specs.Made.{night_of};
ghost use Rattle.order_table.specs.Printing.{IsPrintable};
ghost use Rattle.order_table.specs.Trees.{night_columns};
ghost use Rattle.ring_survey.specs.Faults.{first_fault};
ghost use Rattle.shown_table.specs.Came.{ShowsEntries, ShowsNightEntries};
ghost use Rattle.shown_table.specs.Made.{night_lines_by};
ghost use Rattle.shown_table.specs.Shown.{entries_shown, night_shown, sun_shown_at};

use crate::bad::BadLine;
use crate::lines::Lines;
use cell_judge::Sky;
use cell_split::Entry;
use covering_check::CoverFault;
use night_portion::repeated;
use order_covering::date_of;
use order_table::{Day, Night};
use std::alloc::Global;

/// The entries that the next two lines show of sunrise and sunset, to which the sky is turned.
fn sun_entries(
    alloc: Global,
    sky: &Sky,
    day: &Day,
    night: &Night,
    lines: &mut Lines<'_>,
) -> Result<[Entry; 2], BadLine>
    requires turned { map row_of sky.now.problems ≡ repeated (map row_of night.now.problems) }
    requires number { lines.old.number ≤ 4088 }
    ensures shows { ShowsEntries (entries_shown (sun_shown_at sky.now.sun sky.now.district sky.now.root day.now.number (map row_of night.now.problems))
        night_columns lines.old.number lines.old.text.now) result lines.new.text.now }
    ensures number { OnOk result (lines.new.number ≡ lines.old.number + 2) }
{
    let Ok(date) = date_of(alloc, day) else {
        return Err(lines.bad(CoverFault::NoMemory));
    };
    let rise = match lines.next_sun(alloc, sky, day, night, 0, date.as_str()) {
        Ok(rise) => rise,
        Err(bad) => return Err(bad),
    };
    match lines.next_sun(alloc, sky, day, night, 1, date.as_str()) {
        Ok(set) => Ok([rise, set]),
        Err(bad) => Err(bad),
    }
}

/// Turns the sky to a night, and gives the entries that the next two lines show of it.
fn turned_entries(
    alloc: Global,
    sky: &mut Sky,
    day: &Day,
    night: &Night,
    lines: &mut Lines<'_>,
) -> Result<[Entry; 2], BadLine>
    requires sound { first_fault sky.old.district ≡ None }
    requires number { lines.old.number ≤ 4088 }
    ensures shows { ShowsEntries (entries_shown (sun_shown_at sky.old.sun sky.old.district sky.old.root day.now.number (map row_of night.now.problems))
        night_columns lines.old.number lines.old.text.now) result lines.new.text.now }
    ensures printable { IfOk result (All IsPrintable) }
    ensures number { OnOk result (lines.new.number ≡ lines.old.number + 2) }
    ensures sun { sky.new.sun ≡ sky.old.sun }
    ensures district { sky.new.district ≡ sky.old.district }
    ensures root { sky.new.root ≡ sky.old.root }
{
    sky.turn_to(repeated(&night.problems));
    sun_entries(alloc, sky, day, night, lines)
}

/// The entries that the next lines show of a day's night, where it has one.
pub(crate) fn night_entries(
    alloc: Global,
    sky: &mut Sky,
    day: &Day,
    lines: &mut Lines<'_>,
) -> Result<Option<[Entry; 2]>, BadLine>
    requires sound { first_fault sky.old.district ≡ None }
    requires number { lines.old.number ≤ 4088 }
    ensures shows { ShowsNightEntries (night_shown sky.old.sun sky.old.district sky.old.root day.now.number (option_map night_of day.now.night) lines.old.number lines.old.text.now)
        result lines.new.text.now }
    ensures printable { IfOk result (λ found. IfSome found (All IsPrintable)) }
    ensures number { OnOk result (lines.new.number ≡ lines.old.number + night_lines_by day.now.night) }
    ensures sun { sky.new.sun ≡ sky.old.sun }
    ensures district { sky.new.district ≡ sky.old.district }
    ensures root { sky.new.root ≡ sky.old.root }
{
    let Some(night) = &day.night else {
        return Ok(None);
    };
    match turned_entries(alloc, sky, day, night, lines) {
        Ok(entries) => Ok(Some(entries)),
        Err(bad) => Err(bad),
    }
}
