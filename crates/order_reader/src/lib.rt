// Orders, read from JSON.
// Contract: `read_order` answers the order that the bytes spell, or its first refusal, exactly.
#![tactic(auto)]

pub mod laws;
mod parts;
pub mod pieces;
mod read;

pub use order_member::{Member, OrderFault, member_word};
pub use read::read_order;
