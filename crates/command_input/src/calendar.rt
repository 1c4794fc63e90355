// The calendar that a source gives.
ghost use Rattle.std.specs.Prelude.{All, IfOk};
ghost use Rattle.ical_text.specs.Moments.{IsInYears};
ghost use Rattle.outcome.specs.Endings.{IsRefusedBy};
ghost use Rattle.outcome.specs.Streams.{stream};
ghost use Rattle.command_input.specs.Refusals.{long_calendar};
ghost use Rattle.command_input.specs.Taken.{IsCalendarReadAs, IsRefusalOf, of_calendars};

use crate::refusals::calendar_line;
use ical_text::{Events, IcalFault, read_ical};
use outcome::{Ending, Status};
use source_sink::{ReadFault, Source, read_all};
use std::alloc::Global;

/// The most bytes of a calendar.
const CALENDAR_LIMIT: usize = 16_777_216;

/// How a run ends whose input is no calendar.
fn refused(alloc: Global, fault: IcalFault) -> Ending
    ensures { IsRefusalOf of_calendars fault result }
{
    if let IcalFault::NoMemory = fault {
        return Ending::Plain(Status::NoMemory);
    }
    match calendar_line(alloc, fault) {
        Ok(line) => Ending::Refused(Status::IcalRefused, line),
        Err(_) => Ending::Plain(Status::NoMemory),
    }
}

#[tactic(auto, unfolding(crate::specs::Refusals::long_calendar))]
fn too_long(alloc: Global) -> Ending
    ensures { IsRefusedBy Status.IcalRefused long_calendar result }
{
    Ending::with_line(alloc, Status::IcalRefused, "ical refused long\n")
}

/// Reads the source to its end, and the events of the calendar that its bytes spell; or how the run ends that was to read
/// it.
pub fn calendar_from<S: Source>(alloc: Global, source: &mut S) -> Result<Events, Ending>
    ensures taken { IsCalendarReadAs (stream (S.left source.old) (S.faults source.old))
        (stream (S.left source.new) (S.faults source.new)) result }

    // Each event is at a moment of the years from 1899 to 2101.
    ensures moments { IfOk result (λ events. All (λ e. IsInYears e.start) events) }
{
    let bytes = match read_all(alloc, source, CALENDAR_LIMIT) {
        Ok(bytes) => bytes,
        Err(ReadFault::Failed) => return Err(Ending::Plain(Status::ReadFault)),
        Err(ReadFault::TooLong) => return Err(too_long(alloc)),
        Err(ReadFault::NoMemory) => return Err(Ending::Plain(Status::NoMemory)),
    };
    match read_ical(alloc, &bytes) {
        Ok(events) => Ok(events),
        Err(fault) => Err(refused(alloc, fault)),
    }
}
