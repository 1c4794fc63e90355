// The table of an order: its days made ready, searched and written.
// Contract: `write_table` writes exactly the text of the order's table, and each entry and each night of it
// is right.
#![tactic(auto)]

mod day;
mod judged;
pub mod laws;
mod ready;
mod search;
mod table;
mod text;

pub use day::{Day, Night};
pub use judged::judged_days;
pub use ready::{Ready, days_of, head_of, prepare};
pub use search::{day_entries, night_entries};
pub use table::{begin_table, write_day, write_end, write_searched, write_table};
pub use text::{day_text, open_count};
