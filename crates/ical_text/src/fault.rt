// Why bytes are no calendar.
ghost use Rattle.std.specs.Prelude.{◌≡◌};
ghost use Rattle.ical_text.specs.declared.fault.IcalFault.TheVariants.{NoMemory as OutOfMemory};

use no_memory::NoMemory;
use std::alloc::AllocError;
use thiserror::Error;

/// The first fault of a calendar, with the number of its line, counted from 1 after continued lines are joined.
#[derive(Clone, Copy, Debug, Error, PartialEq, Eq)]
pub enum IcalFault {
    /// The line has a CR or an LF in it, or is no property.
    #[error("line {0} is no property")]
    NotLine(u64),
    /// The components don't begin and end as those of one calendar, at most eight inside each other.
    #[error("line {0} is out of place")]
    Frame(u64),
    /// The line ends an event without exactly one UID, or with more than one DTSTART or SUMMARY.
    #[error("line {0} ends no event")]
    Event(u64),
    #[error("no memory")]
    NoMemory,
}

impl From<NoMemory> for IcalFault {
    ghost from_gives = { λ _ e. e ≡ OutOfMemory };

    fn from(_: NoMemory) -> IcalFault {
        IcalFault::NoMemory
    }
}

impl From<AllocError> for IcalFault {
    ghost from_gives = { λ _ e. e ≡ OutOfMemory };

    fn from(_: AllocError) -> IcalFault {
        IcalFault::NoMemory
    }
}
