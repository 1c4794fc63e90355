// A character of a JSON text, read a byte at a time: as itself in UTF-8, or by an escape.
// Contract: `Within::after` is `after_byte`: the character ends, goes on, or no character goes on so.
#![tactic(auto)]

mod within;

pub use within::{Outcome, Within};
