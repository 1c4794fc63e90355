// Sets of districts: orders whose district is a collection of districts, read from JSON.
// Contract: `read_set` answers the set that the bytes spell, or its first refusal, exactly.
#![tactic(auto)]

mod districts;
mod features;
pub mod laws;
mod parts;
mod read;
mod set;

pub use parts::Parts;
pub use read::read_set;
pub use set::SetOrder;
