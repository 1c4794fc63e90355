// Tests of the minutes of nights, and of entries that are joined.
// Contract: none; the crate has tests alone.
#![tactic(auto)]

#[cfg(test)]
mod joins;
#[cfg(test)]
mod nights;
