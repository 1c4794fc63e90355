// The workers of a search by stealing: made with the roots of all problems in their deques, and put together when they have
// ended.
// Contract: together they owe the roots, and where they owe them in the end, so does what is put together.
#![tactic(auto)]

mod crew;
mod deques;
mod ending;
mod joined;

pub use crew::crew_of;
pub use ending::close_crew;
pub use joined::Joined;
