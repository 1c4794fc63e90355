// One condition of the sun at one place and one minute: the words that ask it, its verdict, and the line that says it.
// Contract: a request is what the words spell; the line that is written has the verdict on it, which is true of the sky.
#![tactic(auto)]

mod decimals;
mod line;
mod request;
mod verdict;

pub use line::write_verdict;
pub use request::{Question, Request, read_request};
pub use verdict::Verdict;
