// Tests of the judges of the sky, of one day's, of its first problems and of a set's.
// Contract: none; the crate has tests alone.
#![tactic(auto)]

#[cfg(test)]
mod skies;
