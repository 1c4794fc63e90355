// Tests of coverings and of their checker, over small judges.
// Contract: none; the crate has tests alone.
#![tactic(auto)]

#[cfg(test)]
mod checked_lines;
#[cfg(test)]
mod settled;
