// Tests of the top call's tables by several workers, over sources and sinks in memory.
// Contract: none; the crate has tests alone.
#![tactic(auto)]

#[cfg(test)]
mod city;
#[cfg(test)]
mod workers;
