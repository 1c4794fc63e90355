// What a judge of a border reads: an order and the real border, together in one object of JSON.
// Contract: the order and the border that the source's bytes spell, or the line that refuses them, and what the source has left.
#![tactic(auto)]

mod borders;
mod fault;
pub mod laws;
mod lines;
mod parts;
mod read;
mod request;
mod source;

pub use fault::{BorderFault, RequestFault};
pub use read::read_request;
pub use request::Request;
pub use source::request_from;
