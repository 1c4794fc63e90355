// Tests of the command `plain` of the top call, of suns and of rules for nights, over sources and sinks in memory.
// Contract: none; the crate has tests alone.
#![tactic(auto)]

#[cfg(test)]
mod nights;
#[cfg(test)]
mod tables;
