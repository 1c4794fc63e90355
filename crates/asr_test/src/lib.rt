// Whether the shadow is longer than at Asr, over a box of places and a range of minutes: the Asr value.
// Contract: the value is the grid form of its formula.
#![tactic(auto)]

pub mod laws;
mod noon;
mod value;

pub use value::{asr_value, asr_value_by};
