// The seven methods of the prayer times, the seven problems of a day that they pose, and the choice of the sun.
// Contract: `problems` gives the rows of the manual's table for a day, exactly.
#![tactic(auto)]

mod method;
mod problem;
mod rank;
mod sun;
mod sunset;
mod table;

pub use method::{Asr, Method, asr_word, method_of, method_word, method_words_are_read};
pub use problem::{Column, Kind, Problem, Side};
pub use rank::{column_word, minute_of};
pub use sun::{SunChoice, sun_of, sun_word, sun_words_are_read};
pub use sunset::horizon;
pub use table::{noon_of, problems};
