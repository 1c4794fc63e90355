// Tests of the judge of borders over sources and sinks in memory.
// Contract: none; the crate has tests alone.
#![tactic(auto)]

#[cfg(test)]
mod verdicts;
