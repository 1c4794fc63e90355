// The rules for the nights of high latitudes, and their words.
// Contract: a word names the rule whose word it is, and no other.
#![tactic(auto)]

mod rule;

pub use rule::{NightRule, night_rule_of, night_word, night_words_are_read};
