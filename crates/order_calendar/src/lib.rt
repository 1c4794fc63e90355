// The calendar of an order: an event for each minute of its table. A search by several workers serves several days, and their
// events are written before the next one.
// Contract: `write_calendar` writes exactly the text of the order's calendar, which is read again as the table's minutes.
#![tactic(auto)]

mod calendar;
mod events;
pub mod laws;
mod order;
mod sheet;

pub use calendar::write_calendar;
