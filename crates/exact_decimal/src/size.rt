//! The size of a decimal, without its sign: digits times ten to the exponent.

ghost use Rattle.std.specs.Prelude.{◌≡◌, ◌≤◌, ◌<◌, ◌^◌, ◌*◌, ◌-◌, ◌+ℤ◌, ◌≤ℤ◌, pos, neg_ℤ, min, length, get_or, drop, option_and_then, ◌==◌};
ghost use Rattle.std.specs.List.{list_all};
ghost use Rattle.std.specs.Int.Digits.{number_from_digits};
ghost use Rattle.exact_decimal.specs.Digits.{AreDigits, leading};
ghost use Rattle.exact_decimal.specs.Decimals as decimals;
ghost use Rattle.exact_decimal.specs.Micro as spec;

/// Sizes end here.
const MOST: u64 = 1_000_000_000_000_000;

/// How many digits stand before the point, if one is set and zeros are filled in. Below 0 where zeros
/// follow the point.
fn before_point(digits: &[u8], exponent: i64) -> i128
    requires least { neg_ℤ (pos (2 ^ 32)) ≤ℤ exponent }
    requires most { exponent ≤ℤ pos (2 ^ 32) }
    ensures { result ≡ pos (length digits.now) +ℤ exponent }
{
    digits.len() as i128 + exponent as i128
}

/// The digit at a place; zeros follow the last.
fn digit_at(digits: &[u8], place: usize) -> u8
    ensures { result ≡ get_or digits.now place 0 }
{
    match digits.get(place) {
        Some(digit) => *digit,
        None => 0,
    }
}

/// The whole number that so many first digits write.
#[tactic(auto, using(crate::proofs::Cuts::leading_steps))]
fn front(digits: &[u8], count: usize) -> u64
    requires digits { AreDigits digits.now }
    requires count { count ≤ 16 }
    ensures value { result ≡ leading digits.now count }
    ensures bound { result < 10 ^ 16 }
{
    let mut value: u64 = 0;
    for place in 0..count {
        value = 10 * value + digit_at(digits, place) as u64;
    }
    value
}

/// Whether zeros alone stand from a place on.
fn is_zero_from(digits: &[u8], place: usize) -> bool
    ensures { result ≡ list_all (λ d. d == 0) (drop place digits.now) }
{
    digits.iter().skip(place).all(|digit| *digit == 0)
}

/// The whole number nearest to the value, of two the greater, held at 10^15.
#[tactic(auto, using(crate::proofs::Worth::nearest_digits))]
pub fn nearest(digits: &[u8], exponent: i64) -> u64
    requires digits { AreDigits digits.now }
    requires least { neg_ℤ (pos (2 ^ 32)) ≤ℤ exponent }
    requires most { exponent ≤ℤ pos (2 ^ 32) }
    ensures { result ≡ min (spec.nearest (number_from_digits 10 digits.now) exponent) (10 ^ 15) }
{
    let before = before_point(digits, exponent);
    if digits.is_empty() || before < 0 {
        return 0;
    }
    if before > 16 {
        return MOST;
    }
    let before = before as usize;
    let up = digit_at(digits, before) >= 5;
    (front(digits, before) + up as u64).min(MOST)
}

/// The value, where it is a whole number of at most 10^15.
#[tactic(auto, using(crate::proofs::Worth::exactly_digits))]
pub fn exactly(digits: &[u8], exponent: i64) -> Option<u64>
    requires digits { AreDigits digits.now }
    requires least { neg_ℤ (pos (2 ^ 32)) ≤ℤ exponent }
    requires most { exponent ≤ℤ pos (2 ^ 32) }
    ensures { result ≡ option_and_then spec.no_greater (spec.exactly (number_from_digits 10 digits.now) exponent) }
{
    if digits.is_empty() {
        return Some(0);
    }
    let before = before_point(digits, exponent);
    if before <= 0 || before > 16 {
        return None;
    }
    let before = before as usize;
    let value = front(digits, before);
    if value <= MOST && is_zero_from(digits, before) {
        Some(value)
    } else {
        None
    }
}

pub fn signed(negative: bool, size: u64) -> i64
    requires { size ≤ 10 ^ 15 }
    ensures { result ≡ decimals.signed negative size }
{
    if negative {
        -(size as i64)
    } else {
        size as i64
    }
}
