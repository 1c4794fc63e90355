// The program as one call: words and a source in, a text, a line on the error stream and a status out.
// Contract: the run ended as a stated function of the words and the input says, on every stream.
#![tactic(auto)]

pub mod examples;
pub mod laws;
mod memory;
mod one_thread;
mod orders;
mod top_calls;

pub use command_words::Command;
pub use memory::run_in_memory;
pub use outcome::Status;
pub use top_calls::{run, run_plain};
