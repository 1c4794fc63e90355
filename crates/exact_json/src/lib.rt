// Reads JSON with exact decimals, and says of any other bytes which fault comes first and where.
// Contract: `read`; a value is seen as its plain tree, `tree_of` of `json_value`, and its numbers are decimals of `exact_decimal`.
#![tactic(auto)]

mod fault;
pub mod laws;
mod reader;

pub use exact_decimal::{Decimal, Digits};
pub use fault::JsonFault;
pub use json_value::{Json, JsonList, JsonTable, JsonText};
pub use reader::read;
