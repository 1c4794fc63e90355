// Tests of the crates of districts and cells, a module a crate.
// Contract: none; the crate has tests alone.
#![tactic(auto)]

#[cfg(test)]
mod cells;
#[cfg(test)]
mod districts;
