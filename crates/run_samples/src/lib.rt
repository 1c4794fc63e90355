// Orders, runs of the top calls over streams in memory, and what they answer, for the tests of those calls.
// Contract: none; only tests use it.
#![tactic(auto)]

mod answers;
mod expected;
mod orders;
mod streams;

pub use answers::{
    Answer, answer_into, answer_through, answer_to, plain_answer_into, plain_answer_to,
    plain_slow_answer_to, run_line, run_plain_line, slow_answer_to, text_of,
};
pub use expected::{
    FAULT, expect, expect_covered, expect_front, expect_plain, expect_text, expect_texts,
    expect_told, expect_usage,
};
pub use orders::{FIRST_DAYS, ORDER_A, ORDER_B, TABLE_B, TEN_DAYS, TWO_PARTS, USAGE, order_over};
pub use streams::{sink, slow_source, source};
