// What is printed of a tree and what shows it again: its entry, its letters, and the leaf that refutes.
// Contract: `settle` gives exactly the entry, the letters and the first refuted leaf of the whole tree.
#![tactic(auto)]

mod entry;
pub mod laws;
mod leaf_walk;
mod letter_walk;
mod line;
mod runs;
mod settled;
mod settling;

pub use entry::{entry_at, entry_by, entry_of, entry_of_ranks};
pub use letter_walk::letter_of;
pub use line::{cover_line, cover_line_1};
pub use settled::{Letters, Settled};
pub use settling::settle;
