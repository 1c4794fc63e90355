// The order that a source gives.
ghost use Rattle.outcome.specs.Endings.{IsRefusedBy};
ghost use Rattle.outcome.specs.Streams.{stream};
ghost use Rattle.command_input.specs.Refusals.{long_line};
ghost use Rattle.command_input.specs.Taken.{IsReadAs, IsRefusalOf, of_orders};

use crate::refusals::refusal_line;
use order_reader::{OrderFault, read_order};
use order_rule::Order;
use outcome::{Ending, Status};
use source_sink::{ReadFault, Source, read_all};
use std::alloc::Global;

/// The most bytes of an order.
pub(crate) const ORDER_LIMIT: usize = 16_777_216;

/// How a run ends whose input is no order, or no set of districts.
pub(crate) fn refused(alloc: Global, fault: OrderFault) -> Ending
    ensures { IsRefusalOf of_orders fault result }
{
    if let OrderFault::NoMemory = fault {
        return Ending::Plain(Status::NoMemory);
    }
    match refusal_line(alloc, fault) {
        Ok(line) => Ending::Refused(Status::OrderRefused, line),
        Err(_) => Ending::Plain(Status::NoMemory),
    }
}

#[tactic(auto, unfolding(crate::specs::Refusals::long_line))]
pub(crate) fn too_long(alloc: Global) -> Ending
    ensures { IsRefusedBy Status.OrderRefused long_line result }
{
    Ending::with_line(alloc, Status::OrderRefused, "order refused 8 long\n")
}

/// Reads the source to its end, and the order that its bytes spell; or how the run ends that was to read it.
pub fn order_from<S: Source>(alloc: Global, source: &mut S) -> Result<Order, Ending>
    ensures { IsReadAs (stream (S.left source.old) (S.faults source.old))
        (stream (S.left source.new) (S.faults source.new)) result }
{
    let bytes = match read_all(alloc, source, ORDER_LIMIT) {
        Ok(bytes) => bytes,
        Err(ReadFault::Failed) => return Err(Ending::Plain(Status::ReadFault)),
        Err(ReadFault::TooLong) => return Err(too_long(alloc)),
        Err(ReadFault::NoMemory) => return Err(Ending::Plain(Status::NoMemory)),
    };
    match read_order(alloc, &bytes) {
        Ok(order) => Ok(order),
        Err(fault) => Err(refused(alloc, fault)),
    }
}
