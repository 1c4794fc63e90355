// Fajr and Isha of nights in which the sun doesn't go deep enough, by the portion of the night that an order's rule names.
// Contract: the two minutes of a night are those of its definition, and safe at every place of the district.
#![tactic(auto)]

mod bound;
mod few;
pub mod laws;
mod minutes;
mod sun;

pub use bound::{fajr_bound, isha_bound, portion};
pub use few::Few;
pub use minutes::{NightMinutes, night_minutes, safe_rank};
pub use sun::{night_problems, repeated};
