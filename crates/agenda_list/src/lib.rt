// The agenda of a calendar: a line for each of its events.
// Contract: `write_agenda` writes exactly the text of the events, in order.
#![tactic(auto)]

mod agenda;

pub use agenda::write_agenda;
