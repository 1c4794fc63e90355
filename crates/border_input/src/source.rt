// The order and the border that a source gives.
ghost use Rattle.outcome.specs.Endings.{IsRefusedBy};
ghost use Rattle.outcome.specs.Streams.{stream};
ghost use Rattle.command_input.specs.Taken.{IsRefusalOf};
ghost use Rattle.border_input.specs.Lines.{long_request};
ghost use Rattle.border_input.specs.Taken.{IsRequestTaken, of_requests};

use crate::fault::RequestFault;
use crate::lines::request_line;
use crate::read::read_request;
use crate::request::Request;
use outcome::{Ending, Status};
use source_sink::{ReadFault, Source, read_all};
use std::alloc::Global;

/// The most bytes of an order with a border.
const REQUEST_LIMIT: usize = 268_435_456;

/// How a run ends whose input is no order with a border.
fn refused(alloc: Global, fault: RequestFault) -> Ending
    ensures { IsRefusalOf of_requests fault result }
{
    if let RequestFault::NoMemory = fault {
        return Ending::Plain(Status::NoMemory);
    }
    match request_line(alloc, fault) {
        Ok(line) => Ending::Refused(Status::OrderRefused, line),
        Err(_) => Ending::Plain(Status::NoMemory),
    }
}

#[tactic(auto, unfolding(crate::specs::Lines::long_request))]
fn too_long(alloc: Global) -> Ending
    ensures { IsRefusedBy Status.OrderRefused long_request result }
{
    Ending::with_line(alloc, Status::OrderRefused, "border refused 8 long\n")
}

/// Reads the source to its end, and the order and the border that its bytes spell; or how the run ends that was to
/// read them.
pub fn request_from<S: Source>(alloc: Global, source: &mut S) -> Result<Request, Ending>
    ensures { IsRequestTaken (stream (S.left source.old) (S.faults source.old))
        (stream (S.left source.new) (S.faults source.new)) result }
{
    let bytes = match read_all(alloc, source, REQUEST_LIMIT) {
        Ok(bytes) => bytes,
        Err(ReadFault::Failed) => return Err(Ending::Plain(Status::ReadFault)),
        Err(ReadFault::TooLong) => return Err(too_long(alloc)),
        Err(ReadFault::NoMemory) => return Err(Ending::Plain(Status::NoMemory)),
    };
    match read_request(alloc, &bytes) {
        Ok(request) => Ok(request),
        Err(fault) => Err(refused(alloc, fault)),
    }
}
