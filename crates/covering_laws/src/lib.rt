// What is written of a settled tree is accepted.
// Contract: each line that is written, in either form, is read and shows its tree's entry.
#![tactic(auto)]

pub mod laws;
