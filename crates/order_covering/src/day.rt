// The lines of a day's columns, settled from the search of several days and written.
ghost use Rattle.std.specs.Prelude.{◌≡◌, ◌<◌, ◌≤◌, length, map, slice_index_or, IfOk};
ghost use Rattle.cell_judge.specs.Skies.{sky_content};
ghost use Rattle.covering.specs.Settles.{IsSettled};
ghost use Rattle.days_sky.specs.Days.{days_content, rows_of_day};
ghost use Rattle.order_covering.specs.Made.{IsDayIn, columns_written, counted_at, written_at};
ghost use Rattle.order_table.specs.Made.{rows_of, searched};
ghost use Rattle.order_table.specs.Table.{day_undecided};
ghost use Rattle.outcome.specs.Writing.{Writes};
ghost use Rattle.plain_search.specs.Harvests.{IsHarvest};

use crate::date::date_of;
use crate::form::Form;
use crate::line::write_line;
use covering::{Settled, settle};
use days_sky::DaysSky;
use method_table::column_word;
use no_memory::NoMemory;
use order_table::Day;
use outcome::Stop;
use plain_search::Harvest;
use source_sink::Sink;
use std::alloc::Global;

/// What is settled of column `k` of day `i`, from the search of several days.
fn settle_column(
    alloc: Global,
    judge: &DaysSky<'_>,
    harvest: &Harvest,
    i: usize,
    day: &Day,
    k: u32,
) -> Result<Settled, NoMemory>
    requires harvest { IsHarvest (days_content judge.now.sky.now.sun judge.now.sky.now.district (map rows_of_day judge.now.days.now) judge.now.sky.now.root) harvest.now.refuted harvest.now.leaves }
    requires day { IsDayIn (map rows_of_day judge.now.days.now) i day.now }
    requires column { k < 7 }
    ensures { IfOk result (IsSettled (sky_content judge.now.sky.now.sun judge.now.sky.now.district (rows_of day.now) judge.now.sky.now.root) k) }
{
    settle(alloc, judge, harvest, 7 * i as u32 + k)
}

/// Settles column `k` of day `i` and writes its line; answers how many entries it leaves undecided.
fn write_column<K: Sink>(
    alloc: Global,
    judge: &DaysSky<'_>,
    harvest: &Harvest,
    i: usize,
    day: &Day,
    k: u32,
    date: &str,
    form: Form,
    out: &mut K,
) -> Result<u32, Stop>
    requires harvest { IsHarvest (days_content judge.now.sky.now.sun judge.now.sky.now.district (map rows_of_day judge.now.days.now) judge.now.sky.now.root) harvest.now.refuted harvest.now.leaves }
    requires day { IsDayIn (map rows_of_day judge.now.days.now) i day.now }
    requires column { k < 7 }
    ensures writes { Writes (written_at form judge.now.sky.now.sun judge.now.sky.now.district judge.now.sky.now.root day.now date.now k) result
        (K.faults out.old) (K.faults out.new) (K.held out.old) (K.held out.new) }
    ensures count { IfOk result (λ count. count ≡ counted_at judge.now.sky.now.sun judge.now.sky.now.district judge.now.sky.now.root day.now k) }
    ensures few { IfOk result (λ count. count ≤ 1) }
{
    let Ok(settled) = settle_column(alloc, judge, harvest, i, day, k) else {
        return Err(Stop::NoMemory);
    };
    let column = column_word(day.problems[k as usize].column);
    write_line(alloc, form, column, date, &settled, out)
}

/// Settles each column of day `i` and writes its lines; answers how many of its entries are undecided.
pub(crate) fn write_columns<K: Sink>(
    alloc: Global,
    judge: &DaysSky<'_>,
    harvest: &Harvest,
    i: usize,
    day: &Day,
    form: Form,
    out: &mut K,
) -> Result<u32, Stop>
    requires harvest { IsHarvest (days_content judge.now.sky.now.sun judge.now.sky.now.district (map rows_of_day judge.now.days.now) judge.now.sky.now.root) harvest.now.refuted harvest.now.leaves }
    requires day { IsDayIn (map rows_of_day judge.now.days.now) i day.now }
    ensures writes { Writes (columns_written form judge.now.sky.now.sun judge.now.sky.now.district judge.now.sky.now.root day.now) result
        (K.faults out.old) (K.faults out.new) (K.held out.old) (K.held out.new) }
    ensures count { IfOk result (λ count. count ≡ day_undecided (searched judge.now.sky.now.sun judge.now.sky.now.district judge.now.sky.now.root day.now)) }
    ensures few { IfOk result (λ count. count ≤ 7) }
{
    let Ok(date) = date_of(alloc, day) else {
        return Err(Stop::NoMemory);
    };
    let mut undecided = 0;
    for k in 0..7 {
        match write_column(alloc, judge, harvest, i, day, k, date.as_str(), form, out) {
            Ok(count) => undecided += count,
            Err(stop) => return Err(stop),
        }
    }
    Ok(undecided)
}
