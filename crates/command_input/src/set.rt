// The set of districts that a source gives.
ghost use Rattle.outcome.specs.Streams.{stream};
ghost use Rattle.command_input.specs.Taken.{IsSetReadAs};

use crate::order::{ORDER_LIMIT, refused, too_long};
use outcome::{Ending, Status};
use set_reader::{SetOrder, read_set};
use source_sink::{ReadFault, Source, read_all};
use std::alloc::Global;

/// Reads the source to its end, and the set that its bytes spell; or how the run ends that was to read it. A set has the
/// limit of an order, and is refused in its lines.
pub fn set_from<S: Source>(alloc: Global, source: &mut S) -> Result<SetOrder, Ending>
    ensures { IsSetReadAs (stream (S.left source.old) (S.faults source.old))
        (stream (S.left source.new) (S.faults source.new)) result }
{
    let bytes = match read_all(alloc, source, ORDER_LIMIT) {
        Ok(bytes) => bytes,
        Err(ReadFault::Failed) => return Err(Ending::Plain(Status::ReadFault)),
        Err(ReadFault::TooLong) => return Err(too_long(alloc)),
        Err(ReadFault::NoMemory) => return Err(Ending::Plain(Status::NoMemory)),
    };
    match read_set(alloc, &bytes) {
        Ok(set) => Ok(set),
        Err(fault) => Err(refused(alloc, fault)),
    }
}
