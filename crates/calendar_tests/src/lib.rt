// Tests of the top call on calendars and on sets of districts, over sources and sinks in memory.
// Contract: none; the crate has tests alone.
#![tactic(auto)]

#[cfg(test)]
mod calendars;
#[cfg(test)]
mod sets;
