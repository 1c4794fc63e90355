// Tests of the searches, by workers and of several days, over small judges: a module for each of them, under a name of its own.
// Contract: none; the crate has tests alone.
#![tactic(auto)]

#[cfg(test)]
mod schedules;
#[cfg(test)]
mod searches;
#[cfg(test)]
mod several_days;
#[cfg(test)]
mod shared_ranks;
