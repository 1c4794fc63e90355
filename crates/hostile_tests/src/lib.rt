// Tests of the top call on coverings, right and hostile ones, over sources and sinks in memory.
// Contract: none; the crate has tests alone.
#![tactic(auto)]

#[cfg(test)]
mod coverings;
#[cfg(test)]
mod hostile;
