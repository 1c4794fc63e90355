// The covering that a source gives.
ghost use Rattle.std.specs.Prelude.{◌≡◌, ◌≤◌, ◌-◌, drop, length};
ghost use Rattle.outcome.specs.Endings.{IsRefusedBy};
ghost use Rattle.outcome.specs.Streams.{stream};
ghost use Rattle.command_input.specs.Refusals.{long_covering};
ghost use Rattle.command_input.specs.Taken.{IsCoveringReadAs, IsRefusalOf, of_coverings};

use crate::covering::Covering;
use crate::lines::split_line;
use crate::refusals::covering_line;
use order_reader::OrderFault;
use order_rule::Order;
use order_text::read_order_line;
use outcome::{Ending, Status};
use source_sink::{ReadFault, Source, read_all};
use std::alloc::Global;

/// The most bytes of a covering.
const COVERING_LIMIT: usize = 1_073_741_824;

/// How a run ends whose input's first line is no order.
fn refused(alloc: Global, fault: OrderFault) -> Ending
    ensures { IsRefusalOf of_coverings fault result }
{
    if let OrderFault::NoMemory = fault {
        return Ending::Plain(Status::NoMemory);
    }
    match covering_line(alloc, fault) {
        Ok(line) => Ending::Refused(Status::CoverRefused, line),
        Err(_) => Ending::Plain(Status::NoMemory),
    }
}

#[tactic(auto, unfolding(crate::specs::Refusals::long_covering))]
fn too_long(alloc: Global) -> Ending
    ensures { IsRefusedBy Status.CoverRefused long_covering result }
{
    Ending::with_line(alloc, Status::CoverRefused, "cover refused long\n")
}

/// The covering of an order and a text, so many last bytes of which are its other lines.
fn covering_of(order: Order, text: Vec<u8>, behind: usize) -> Covering
    requires { behind ≤ length text.items }
    ensures order { result.order ≡ order }
    ensures lines { drop result.from result.text.items ≡ drop (length text.items - behind) text.items }
{
    let from = text.len() - behind;
    Covering { order, text, from }
}

/// Reads the source to its end, and the covering that its bytes spell, whose first line is to be an order's; or how
/// the run ends that was to read it.
pub fn covering_from<S: Source>(alloc: Global, source: &mut S) -> Result<Covering, Ending>
    ensures { IsCoveringReadAs (stream (S.left source.old) (S.faults source.old))
        (stream (S.left source.new) (S.faults source.new)) result }
{
    let text = match read_all(alloc, source, COVERING_LIMIT) {
        Ok(text) => text,
        Err(ReadFault::Failed) => return Err(Ending::Plain(Status::ReadFault)),
        Err(ReadFault::TooLong) => return Err(too_long(alloc)),
        Err(ReadFault::NoMemory) => return Err(Ending::Plain(Status::NoMemory)),
    };
    let (line, lines) = split_line(&text);
    let behind = lines.len();
    match read_order_line(alloc, line) {
        Ok(order) => Ok(covering_of(order, text, behind)),
        Err(fault) => Err(refused(alloc, fault)),
    }
}
