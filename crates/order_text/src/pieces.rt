// What a canonical line is written from, piece by piece, for who writes one with no order at hand.
pub use crate::line::{append, push_comma, push_position, push_span, push_words};
