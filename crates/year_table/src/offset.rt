// The offset of a day: the clock's at civil noon.
ghost use Rattle.std.specs.Prelude.{◌≡◌, ◌≤ℤ◌, neg_ℤ, pos, Ok};
ghost use Rattle.year_table.specs.Rules.{in_minutes};
ghost use Rattle.year_table.specs.Zones.{day_offset};

use crate::zone::Zone;
use no_memory::NoMemory;

/// The offset in force at civil 12:00:00 of a day since 1970-01-01, in minutes; where the clock leaps or
/// repeats itself then, the offset before. `None` exactly where it is no whole number of minutes from
/// -720 to 840. It takes no memory, and always answers `Ok`.
pub fn day_offset(zone: &Zone, day: i32) -> Result<Option<i32>, NoMemory>
    requires not_early { neg_ℤ (pos 25567) ≤ℤ day }
    requires not_late { day ≤ℤ pos 47846 }
    ensures { result ≡ Ok (day_offset zone.now day) }
{
    Ok(match zone {
        Zone::Fixed { minutes } if -720 <= *minutes && *minutes <= 840 => Some(*minutes),
        Zone::Fixed { .. } => None,
        Zone::Rule { rule } => in_minutes(rule.noon_seconds(day)),
    })
}

// an offset in whole minutes
fn in_minutes(seconds: i32) -> Option<i32>
    ensures { result ≡ in_minutes seconds }
{
    if seconds % 60 == 0 && -43_200 <= seconds && seconds <= 50_400 {
        Some(seconds / 60)
    } else {
        None
    }
}
