// The canonical line of an order: written, and read again.
// Contract: `order_line` answers the order's one text, and `read_order_line` the order that a line spells, or its first refusal.
#![tactic(auto)]

pub mod laws;
mod line;
mod line_reading;
pub mod pieces;

pub use line::order_line;
pub use line_reading::read_order_line;
