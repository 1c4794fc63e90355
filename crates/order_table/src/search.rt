// The entries of a day and of its night, searched on one thread.
ghost use Rattle.std.specs.Prelude.{◌≡◌, ◌<◌, map, option_map, All, IfSome};
ghost use Rattle.cell_judge.specs.Skies.{sky_content};
ghost use Rattle.method_table.specs.Row.{row_of};
ghost use Rattle.night_portion.specs.Sun.{repeated};
ghost use Rattle.order_table.specs.Made.{night_of};
ghost use Rattle.order_table.specs.Printing.{IsPrintable};
ghost use Rattle.order_table.specs.Trees.{entries_of, entry_at, night_entries_of, tree_night};

use crate::day::{Day, Night};
use cell_judge::Sky;
use cell_split::Entry;
use covering::entry_at;
use night_portion::{Few, repeated};

/// The entry of a column on a day, by a search for the sky that is turned to it.
fn entry_in(sky: &Sky, day: &Day, column: u32) -> Entry
    requires day { sky.now.problems ≡ day.now.problems }
    requires column { column < 7 }
    ensures value { result ≡ entry_at (sky_content sky.now.sun sky.now.district (map row_of day.now.problems) sky.now.root) column }
    ensures printable { IsPrintable result }
{
    entry_at(sky, column)
}

/// The entries of a day, each by a search of its tree; the sky is turned to that day. It takes no memory.
pub fn day_entries(sky: &mut Sky, day: &Day) -> [Entry; 7]
    ensures entries { result ≡ entries_of sky.old.sun sky.old.district sky.old.root (map row_of day.now.problems) }
    ensures printable { All IsPrintable result }
    ensures sun { sky.new.sun ≡ sky.old.sun }
    ensures district { sky.new.district ≡ sky.old.district }
    ensures root { sky.new.root ≡ sky.old.root }
{
    sky.turn_to(day.problems);
    [
        entry_in(sky, day, 0),
        entry_in(sky, day, 1),
        entry_in(sky, day, 2),
        entry_in(sky, day, 3),
        entry_in(sky, day, 4),
        entry_in(sky, day, 5),
        entry_in(sky, day, 6),
    ]
}

/// The entry of sunrise (0) or of sunset (1), by a search for the sky that is turned to them.
fn sun_entry_in(sky: &Sky, night: &Night, which: u32) -> Entry
    requires night { map row_of sky.now.problems ≡ repeated (map row_of night.now.problems) }
    requires which { which < 2 }
    ensures value { result ≡ entry_at (sky_content sky.now.sun sky.now.district (map row_of night.now.problems) sky.now.root) which }
    ensures printable { IsPrintable result }
{
    entry_at(&Few::new(sky, 2), which)
}

/// The entries of sunrise and sunset, each by a search of its tree; the sky is turned to them.
fn sun_entries(sky: &mut Sky, night: &Night) -> [Entry; 2]
    ensures entries { result ≡ night_entries_of sky.old.sun sky.old.district sky.old.root (map row_of night.now.problems) }
    ensures printable { All IsPrintable result }
    ensures sun { sky.new.sun ≡ sky.old.sun }
    ensures district { sky.new.district ≡ sky.old.district }
    ensures root { sky.new.root ≡ sky.old.root }
{
    sky.turn_to(repeated(&night.problems));
    [sun_entry_in(sky, night, 0), sun_entry_in(sky, night, 1)]
}

/// The entries of a day's sunrise and sunset, where the day has a night. It takes no memory.
pub fn night_entries(sky: &mut Sky, day: &Day) -> Option<[Entry; 2]>
    ensures entries { result ≡ tree_night sky.old.sun sky.old.district sky.old.root (option_map night_of day.now.night) }
    ensures printable { IfSome result (All IsPrintable) }
    ensures sun { sky.new.sun ≡ sky.old.sun }
    ensures district { sky.new.district ≡ sky.old.district }
    ensures root { sky.new.root ≡ sky.old.root }
{
    match &day.night {
        Some(night) => Some(sun_entries(sky, night)),
        None => None,
    }
}
