// How a run ends, with the line that goes to the error stream.
ghost use Rattle.std.specs.Prelude.{◌≡◌};
ghost use Rattle.outcome.specs.Endings.{IsRefusedBy, ending_of, line_of_ending, status_of_ending};
ghost use Rattle.outcome.specs.Ends.{Reports};
ghost use Rattle.outcome.specs.Streams.{stream};

use crate::{Status, Stop};
use source_sink::{Sink, write_all};
use std::alloc::Global;

/// How a run ends, with the line that goes to the error stream.
#[derive(Drop)]
pub enum Ending {
    /// The line, if there is one, says no more than the status.
    Plain(Status),
    /// The words or the input are refused with this status, as this line says.
    Refused(Status, String),
}

impl Ending {
    /// The words or the input are refused with this status and this line; or memory for the line was not found.
    pub fn with_line(alloc: Global, status: Status, line: &str) -> Ending
        ensures { IsRefusedBy status line.now result }
    {
        match String::from_str(alloc, line) {
            Ok(line) => Ending::Refused(status, line),
            Err(_) => Ending::Plain(Status::NoMemory),
        }
    }

    /// The status.
    pub fn status(&self) -> Status
        ensures { result ≡ status_of_ending self.now }
    {
        match self {
            Ending::Plain(status) => *status,
            Ending::Refused(status, _) => *status,
        }
    }

    /// The line on the error stream; nothing where there is none.
    pub fn line(&self) -> &str
        ensures { result.now ≡ line_of_ending self.now }
    {
        match self {
            Ending::Plain(status) => status.line(),
            Ending::Refused(_, line) => line.as_str(),
        }
    }

    /// Writes the line, and passes a fault over; answers the status.
    pub fn report<E: Sink>(&self, err: &mut E) -> Status
        ensures status { result ≡ status_of_ending self.now }
        ensures reports { Reports (line_of_ending self.now) (stream (E.held err.old) (E.faults err.old)) (stream (E.held err.new) (E.faults err.new)) }
    {
        let _ = write_all(err, self.line().as_bytes());
        self.status()
    }
}

/// How a run ends whose text was written whole, with so many entries or verdicts undecided in it, or was not.
pub fn ending_of(written: Result<u32, Stop>) -> Ending
    ensures { result ≡ ending_of written }
{
    match written {
        Ok(0) => Ending::Plain(Status::Done),
        Ok(_) => Ending::Plain(Status::Open),
        Err(Stop::NoMemory) => Ending::Plain(Status::NoMemory),
        Err(Stop::WriteFault) => Ending::Plain(Status::WriteFault),
    }
}
