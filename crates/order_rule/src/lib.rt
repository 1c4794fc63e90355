// Orders: what a table is asked for.
// Contract: an `Order` keeps the rule of every order; a clause sees it as what is asked.
#![tactic(auto)]

mod offsets;
mod order;
mod ranges;
mod rule;

pub use offsets::{Offsets, is_day, offsets_of};
pub use order::Order;
pub use ranges::{Ranges, may_be_late};
