// Values of JSON with exact decimals, and the machine that reads one a byte at a time.
// Contract: a value is seen as its plain tree, `tree_of`; `step` and `finish` are `step` and `result` of `Machine`.
#![tactic(auto)]

mod machine;
mod place;
mod value;

pub use machine::{Frame, Literal, Machine, Next, finish, step};
pub use value::{Json, JsonList, JsonTable, JsonText, Member};
