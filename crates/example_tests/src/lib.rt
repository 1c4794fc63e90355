// Tests of the top call's example runs, over memory.
// Contract: none; the crate has tests alone.
#![tactic(auto)]

#[cfg(test)]
mod examples;
