// Which command the words behind the program's name ask for; the options of a command are read by `clap`.
// Contract: `command_in` answers exactly the command that the words spell, each with what it asks, and
// `wrong_words` with the line that says which words there are.
#![tactic(auto)]

mod command;
mod number;
mod options;
mod usage;
mod words;

pub use command::Command;
pub use usage::wrong_words;
pub use words::command_in;
