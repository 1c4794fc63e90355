// The days of a table as the judge of several days has them.
ghost use Rattle.std.specs.Prelude.{◌≡◌, IfOk, map};
ghost use Rattle.days_sky.specs.Days.{rows_of_day};
ghost use Rattle.order_table.specs.Made.{rows_of};

use crate::day::Day;
use no_memory::NoMemory;
use std::alloc::Global;

/// The days as the judge of several days has them.
pub fn judged_days(alloc: Global, days: &[Day]) -> Result<Vec<days_sky::Day>, NoMemory>
    ensures { IfOk result (λ judged. map rows_of_day judged.items ≡ map rows_of days.now) }
{
    let mut judged = Vec::new(alloc);
    for day in days {
        judged.push(days_sky::Day::new(day.problems))?;
    }
    Ok(judged)
}
