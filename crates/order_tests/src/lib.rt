// Tests of orders, of their canonical lines, and of sets of districts.
// Contract: none; the crate has tests alone.
#![tactic(auto)]

#[cfg(test)]
mod order_faults;
#[cfg(test)]
mod order_lines;
#[cfg(test)]
mod orders;
#[cfg(test)]
mod sets;
