// Tests of the crates of dates and calendars, a module a crate.
// Contract: none; the crate has tests alone.
#![tactic(auto)]

#[cfg(test)]
mod calendars;
#[cfg(test)]
mod dates;
