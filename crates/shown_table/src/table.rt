// The table that a covering shows, written day by day.
ghost use Rattle.std.specs.Prelude.{◌≡◌, ◌≤◌, None, length};
ghost use Rattle.order_rule.specs.Asked.{asked_of};
ghost use Rattle.order_table.specs.Table.{days_text};
ghost use Rattle.outcome.specs.Writing.{Writes};
ghost use Rattle.ring_survey.specs.Faults.{first_fault};
ghost use Rattle.shown_table.specs.Came.{IfWhole, ShowsDays, ShowsTable};
ghost use Rattle.shown_table.specs.Right.{IsRightShown};
ghost use Rattle.shown_table.specs.Shown.{shown_table, shown_text};
ghost use Rattle.shown_table.specs.Made.{days_in, front_in, number_behind};

use crate::bad::Shown;
use crate::day::show_day;
use crate::lines::Lines;
use cell_judge::Sky;
use covering_check::CoverFault;
use order_rule::Order;
use order_table::{Day, Ready, prepare, write_end};
use outcome::Stop;
use source_sink::{Sink, write_all};
use std::alloc::Global;

/// Shows days of the lines from the second one on, and writes their lines of the table.
fn show_days<K: Sink>(
    alloc: Global,
    sky: &mut Sky,
    days: &[Day],
    lines: &mut Lines<'_>,
    out: &mut K,
) -> Result<Shown, Stop>
    requires sound { first_fault sky.old.district ≡ None }
    requires few { length days.now ≤ 366 }
    requires second { lines.old.number ≡ 2 }
    ensures shows { ShowsDays (days_in sky.old.sun sky.old.district sky.old.root days.now lines.old.text.now) result lines.new.text.now }
    ensures writes { Writes (days_text (days_in sky.old.sun sky.old.district sky.old.root days.now lines.old.text.now).days) result
        (K.faults out.old) (K.faults out.new) (K.held out.old) (K.held out.new) }
    ensures number { IfWhole (λ _. lines.new.number ≡ number_behind days.now) result }
{
    let mut undecided = 0;
    for day in days {
        match show_day(alloc, sky, day, lines, out) {
            Ok(Shown::Whole(count)) => undecided += count,
            Ok(Shown::Bad(bad)) => return Ok(Shown::Bad(bad)),
            Err(stop) => return Err(stop),
        }
    }
    Ok(Shown::Whole(undecided))
}

/// Writes the head, and shows the days behind it.
fn show_front<K: Sink>(
    alloc: Global,
    ready: &mut Ready,
    lines: &mut Lines<'_>,
    out: &mut K,
) -> Result<Shown, Stop>
    requires sound { first_fault ready.old.sky.district ≡ None }
    requires few { length ready.old.days.items ≤ 366 }
    requires second { lines.old.number ≡ 2 }
    ensures shows { ShowsDays (days_in ready.old.sky.sun ready.old.sky.district ready.old.sky.root ready.old.days.items lines.old.text.now) result lines.new.text.now }
    ensures writes { Writes (front_in ready.old lines.old.text.now) result
        (K.faults out.old) (K.faults out.new) (K.held out.old) (K.held out.new) }
    ensures number { IfWhole (λ _. lines.new.number ≡ number_behind ready.old.days.items) result }
{
    match write_all(out, &ready.head) {
        Ok(()) => show_days(alloc, &mut ready.sky, &ready.days, lines, out),
        Err(_) => Err(Stop::WriteFault),
    }
}

/// Shows the table of an order by the text behind a covering's first line, and writes it as far as it is shown.
pub(crate) fn show_table<K: Sink>(
    alloc: Global,
    order: Order,
    text: &[u8],
    out: &mut K,
) -> Result<Shown, Stop>
    ensures shows { ShowsTable (shown_table (asked_of order) text.now) result }
    ensures writes { Writes (shown_text (asked_of order) text.now) result
        (K.faults out.old) (K.faults out.new) (K.held out.old) (K.held out.new) }
    ensures right { IsRightShown (asked_of order) (shown_table (asked_of order) text.now) }
{
    order.keeps_the_rule();
    let days = order.days;
    let Ok(mut ready) = prepare(alloc, order) else {
        return Err(Stop::NoMemory);
    };
    let mut lines = Lines { text, number: 2 };
    let undecided = match show_front(alloc, &mut ready, &mut lines, out) {
        Ok(Shown::Whole(undecided)) => undecided,
        Ok(Shown::Bad(bad)) => return Ok(Shown::Bad(bad)),
        Err(stop) => return Err(stop),
    };
    if lines.text.len() > 0 {
        return Ok(Shown::Bad(lines.bad(CoverFault::NotLine)));
    }
    match write_end(alloc, days, undecided, out) {
        Ok(_) => Ok(Shown::Whole(undecided)),
        Err(stop) => Err(stop),
    }
}
