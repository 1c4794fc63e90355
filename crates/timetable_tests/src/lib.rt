// Tests of the top call's commands `order` and `sun`, over sources and sinks in memory.
// Contract: none; the crate has tests alone.
#![tactic(auto)]

#[cfg(test)]
mod orders;
#[cfg(test)]
mod sun;
