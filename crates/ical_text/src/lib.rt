// Calendars of RFC 5545: the events of a table written as text, and a reader of calendars with exact faults.
// Contract: `event_text` gives the exact bytes, `read_ical` the events of the joined lines, or the first fault.
#![tactic(auto)]

mod event;
mod fault;
mod folded;
pub mod laws;
mod line;
mod moment;
mod own;
mod pieces;
mod property;
mod reader;
mod write;
mod written;

pub use event::{Event, Events};
pub use fault::IcalFault;
pub use line::Line;
pub use moment::shown_moment;
pub use reader::read_ical;
pub use write::{calendar_end, calendar_head, event_text};
