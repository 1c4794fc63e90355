// Exact decimals: their digits and exponent, what they are worth, and a number that is read a byte at a time.
// Contract: `micro` and `whole` are `micro_of` and `whole_of`; a byte more makes a `Numeral` what `Numerals` says.
#![tactic(auto)]

mod decimal;
mod held;
mod numeral;
mod size;

pub use decimal::{Decimal, Digits};
pub use numeral::{Numeral, Phase, first_phase};
