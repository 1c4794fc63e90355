// The date of a day, as the lines of a covering have it.
ghost use Rattle.std.specs.Prelude.{◌≡◌, IfOk};
ghost use Rattle.std.specs.String.{string_bytes};
ghost use Rattle.year_table.specs.Dates.{date_text};

use no_memory::NoMemory;
use order_table::Day;
use std::alloc::Global;
use year_table::date_text;

/// The date of a day, as `2025-03-01`.
pub fn date_of(alloc: Global, day: &Day) -> Result<String, NoMemory>
    ensures { IfOk result (λ text. string_bytes text ≡ date_text day.now.number) }
{
    match String::from_utf8(date_text(alloc, day.number)?) {
        Ok(text) => Ok(text),
        Err(_) => unreachable!(),
    }
}
