// The table of an order by several workers: one search serves all its days, and their lines are written behind it.
// Contract: `search_days` answers the entries of each day's own trees; `write_table` writes exactly the text of the order's table.
#![tactic(auto)]

mod search;
mod table;

pub use search::search_days;
pub use table::write_table;
