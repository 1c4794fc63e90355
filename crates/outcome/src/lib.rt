// How a run of the program ends, and what it did to its streams.
// Contract: the status, text and line of an answer; what a call that writes a text did to the output, and one that
// reports an ending to the error stream.
#![tactic(auto)]

mod ending;
mod status;
mod stop;
mod text;

pub use ending::{Ending, ending_of};
pub use status::Status;
pub use stop::Stop;
pub use text::write_text;
