// Numbers as words spell them and as lines print them.
ghost use Rattle.std.specs.Prelude.{◌≡◌, ◌+◌, ◌-◌, ◌*◌, ◌/◌, ◌%◌, ◌^◌, ◌<◌, ◌≤◌, length, IfSome, IfOk, unsigned_abs, string_bytes, decimal};
ghost use Rattle.digit_text.specs.Digits.{digits_in};
ghost use Rattle.digit_text.specs.Sign.{with_sign};
ghost use Rattle.sun_verdict.specs.Decimals.{places_in, millionths_in, sign_text, places_text, decimal_text};

use digit_text::digits;
use std::alloc::{AllocError, Global};

/// The number that one to `most` digits spell.
pub(crate) fn number(word: &[u8], most: usize) -> Option<u32>
    requires { most ≤ 8 }
    ensures value { result ≡ digits_in most word.now }
    ensures bound { IfSome result (λ n. n < 10 ^ length word.now) }
    ensures most { IfSome result (λ n. n < 10 ^ most) }
    ensures few { IfSome result (λ _. length word.now ≤ most) }
{
    Some(digits(word, most)? as u32)
}

/// One to six digits behind a point, in millionths.
#[tactic(auto, unfolding(crate::specs::Decimals::places_in))]
fn places(word: &str) -> Option<u32>
    ensures value { result ≡ places_in word.now }
    ensures bound { IfSome result (λ n. n < 1000000) }
{
    let count = word.len();
    let value = number(word.as_bytes(), 6)?;
    Some(value * scale(count))
}

fn scale(count: usize) -> u32
    requires { count ≤ 6 }
    ensures value { result ≡ 10 ^ (6 - count) }
    ensures bound { 10 ^ count * result ≡ 1000000 }
{
    match count {
        0 => 1_000_000,
        1 => 100_000,
        2 => 10_000,
        3 => 1_000,
        4 => 100,
        5 => 10,
        _ => 1,
    }
}

fn decimal(whole: u32, places: u32) -> u32
    requires whole { whole < 1000 }
    requires places { places < 1000000 }
    ensures value { result ≡ whole * 1000000 + places }
{
    whole * 1_000_000 + places
}

/// One to three digits, and then it may be a point and one to six digits, in millionths.
#[tactic(auto, unfolding(crate::specs::Decimals::millionths_in))]
pub(crate) fn millionths(word: &str) -> Option<u32>
    ensures value { result ≡ millionths_in word.now }
{
    match word.split_once('.') {
        Some((before, after)) => {
            let whole = number(before.as_bytes(), 3)?;
            let places = places(after)?;
            Some(decimal(whole, places))
        }
        None => {
            let whole = number(word.as_bytes(), 3)?;
            Some(decimal(whole, 0))
        }
    }
}

/// The number with its sign.
pub(crate) fn signed(negative: bool, magnitude: u32) -> i64
    ensures { result ≡ with_sign negative magnitude }
{
    if negative {
        -i64::from(magnitude)
    } else {
        i64::from(magnitude)
    }
}

fn sign(value: i64) -> &'static str
    ensures { result.now ≡ sign_text value }
{
    if value < 0 { "-" } else { "" }
}

/// Six digits.
#[tactic(auto, unfolding(crate::specs::Decimals::places_text))]
fn places_digits(alloc: Global, places: u64) -> Result<String, AllocError>
    ensures { IfOk result (λ text. string_bytes text ≡ places_text places) }
{
    let first = places / 100_000;
    let second = places / 10_000 % 10;
    let third = places / 1_000 % 10;
    let fourth = places / 100 % 10;
    let fifth = places / 10 % 10;
    let sixth = places % 10;
    format!(in alloc; "{first}{second}{third}{fourth}{fifth}{sixth}")
}

/// A decimal as lines print it: a sign where it is below zero, the whole part, a point and six digits.
#[tactic(auto, unfolding(crate::specs::Decimals::decimal_text))]
pub(crate) fn decimal_string(alloc: Global, value: i64) -> Result<String, AllocError>
    ensures { IfOk result (λ text. string_bytes text ≡ decimal_text value) }
{
    let magnitude = value.unsigned_abs();
    let sign = sign(value);
    let whole = magnitude / 1_000_000;
    let places = places_digits(alloc, magnitude % 1_000_000)?;
    format!(in alloc; "{sign}{whole}.{places}")
}
