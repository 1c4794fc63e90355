// Whole numbers as texts: digits, and a sign before them.
// Contract: `digits` answers the number that digits spell, and `split_sign` the text behind a sign.
#![tactic(auto)]

mod number;
mod sign;

pub use number::digits;
pub use sign::split_sign;
