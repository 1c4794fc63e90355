// Tests of JSON texts, and of sources and sinks.
// Contract: none; the crate has tests alone.
#![tactic(auto)]

#[cfg(test)]
mod json_texts;
#[cfg(test)]
mod streams;
