// How a run ends that showed a covering.
ghost use Rattle.std.specs.Prelude.{◌≡◌, IfOk, string_bytes};
ghost use Rattle.order_rule.specs.Asked.{asked_of};
ghost use Rattle.outcome.specs.Endings.{EndsBy, IsRefusedBy};
ghost use Rattle.outcome.specs.Streams.{Stream, stream};
ghost use Rattle.shown_table.specs.Right.{IsRightShown};
ghost use Rattle.shown_table.specs.Shown.{bad_text, fault_text, line_by, shown_answer, shown_table};

use crate::bad::{BadLine, Shown};
use crate::table::show_table;
use covering_check::CoverFault;
use order_rule::Order;
use outcome::{Ending, Status, ending_of};
use source_sink::Sink;
use std::alloc::{AllocError, Global};

#[tactic(auto, unfolding(crate::specs::Shown::fault_text))]
fn fault_text(alloc: Global, fault: CoverFault) -> Result<String, AllocError>
    ensures { IfOk result (λ text. string_bytes text ≡ fault_text fault) }
{
    match fault {
        CoverFault::NotLine => format!(in alloc; "1"),
        CoverFault::Column => format!(in alloc; "2"),
        CoverFault::Letter(place) => format!(in alloc; "3 at {place}"),
        CoverFault::Short => format!(in alloc; "4"),
        CoverFault::Long => format!(in alloc; "5"),
        CoverFault::NotShown(place) => format!(in alloc; "6 at {place}"),
        CoverFault::NotFailing => format!(in alloc; "7"),
        CoverFault::NoMemory => format!(in alloc; ""),
    }
}

#[tactic(auto, unfolding(crate::specs::Shown::line_by))]
fn line_by(alloc: Global, number: u32, fault: &str) -> Result<String, AllocError>
    ensures { IfOk result (λ text. string_bytes text ≡ line_by number fault.now) }
{
    format!(in alloc; "cover refused line {number} fault {fault}\n")
}

fn bad_text(alloc: Global, bad: BadLine) -> Result<String, AllocError>
    ensures { IfOk result (λ text. string_bytes text ≡ bad_text bad) }
{
    let fault = fault_text(alloc, bad.fault)?;
    line_by(alloc, bad.number, fault.as_str())
}

/// How a run ends whose covering has a bad line.
fn refused(alloc: Global, bad: BadLine) -> Ending
    ensures { IsRefusedBy Status.CoverRefused (bad_text bad) result }
{
    match bad_text(alloc, bad) {
        Ok(line) => Ending::Refused(Status::CoverRefused, line),
        Err(_) => Ending::Plain(Status::NoMemory),
    }
}

/// Checks the text behind a covering's first line, which spelled this order, and writes the table that it shows: whole,
/// or before the first bad line its head and the days that were shown. It reads the text once, and takes memory for the
/// JSON of one line.
pub fn write_shown<K: Sink>(alloc: Global, order: Order, lines: &[u8], out: &mut K) -> Ending
    ensures ended { (source source' : Stream) → EndsBy (shown_answer (asked_of order) lines.now) result source source'
        (stream (K.held out.old) (K.faults out.old)) (stream (K.held out.new) (K.faults out.new)) }
    // Whoever made the covering, each entry that is shown is right, or open as said.
    ensures right { IsRightShown (asked_of order) (shown_table (asked_of order) lines.now) }
{
    match show_table(alloc, order, lines, out) {
        Ok(Shown::Whole(undecided)) => ending_of(Ok(undecided)),
        Ok(Shown::Bad(bad)) => refused(alloc, bad),
        Err(stop) => ending_of(Err(stop)),
    }
}
