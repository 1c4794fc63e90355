// Zones, the offset of a day, and the lines of a table.
// Contract: each text call gives exactly the bytes of its definition, and each offset is the rule's at civil noon.
#![tactic(auto)]

mod date;
mod entry;
mod head;
mod offset;
pub mod pieces;
mod show;
mod zone;

pub use entry::{date_text, day_line, entry_text, night_line, open_line};
pub use head::{end_line, table_head};
pub use method_table::{SunChoice, sun_word};
pub use offset::day_offset;
pub use zone::{Rule, RuleFault, Zone, read_rule};
