// The days and the skies of a set, made ready to be searched.
ghost use Rattle.std.specs.Prelude.{IfOk};
ghost use Rattle.set_reader.specs.Asked.{asked_of};
ghost use Rattle.set_table.specs.Ready.{IsReady};

use crate::line::set_head;
use cell_judge::Sky;
use no_memory::NoMemory;
use order_table::{Day, days_of};
use set_reader::SetOrder;
use set_search::{root_of, skies_over};
use std::alloc::Global;

/// What is ready before the first line of a table is written: its head, its days, and the sky over each district.
#[derive(Drop)]
pub(crate) struct Ready {
    pub head: Vec<u8>,
    pub days: Vec<Day>,
    pub skies: Vec<Sky>,
}

/// Makes ready the table of a set.
pub(crate) fn prepare(alloc: Global, set: SetOrder) -> Result<Ready, NoMemory>
    ensures { IfOk result (IsReady (asked_of set)) }
{
    let days = days_of(alloc, &set.whole)?;
    let head = set_head(alloc, &set.whole, set.parts.count())?;
    let root = root_of(&set.whole.district, &set.parts);
    let skies = skies_over(alloc, set.whole.sun, root, set.parts, days[0].problems)?;
    Ok(Ready { head, days, skies })
}
