//! The exponent of a decimal.

ghost use Rattle.std.specs.Prelude.{◌≡◌, ◌-ℤ◌, ◌+◌, ◌*◌, ◌≤◌, ◌^◌, ◌≤ℤ◌, pos, neg_ℤ, min};
ghost use Rattle.std.specs.Int.Digits.{number_from_digits};
ghost use Rattle.exact_decimal.specs.Decimals as spec;

fn next_value(value: u128, digit: u8) -> u128
    requires { value ≤ 2 ^ 70 }
    ensures { result ≡ min (10 * value + digit) (2 ^ 70) }
{
    (10 * value + digit as u128).min(1 << 70)
}

/// The value of the digits, or 2^70 if it is greater.
fn value_at_most(digits: &[u8]) -> u128
    ensures { result ≡ min (number_from_digits 10 digits.now) (2 ^ 70) }
{
    let mut value: u128 = 0;
    for digit in digits {
        value = next_value(value, *digit);
    }
    value
}

fn signed(negative: bool, size: u128) -> i128
    requires { size ≤ 2 ^ 70 }
    ensures value { result ≡ spec.signed negative size }
    ensures least { neg_ℤ (pos (2 ^ 70)) ≤ℤ result }
    ensures most { result ≤ℤ pos (2 ^ 70) }
{
    if negative {
        -(size as i128)
    } else {
        size as i128
    }
}

fn less(written: i128, places: u64) -> i128
    requires least { neg_ℤ (pos (2 ^ 70)) ≤ℤ written }
    requires most { written ≤ℤ pos (2 ^ 70) }
    ensures { result ≡ written -ℤ pos places }
{
    written - places as i128
}

fn held(exponent: i128) -> i32
    ensures { result ≡ spec.held exponent }
{
    exponent.min(1_000_000).max(-1_000_000) as i32
}

/// The written exponent less the digits after the point, held at a million either way.
#[tactic(auto, using(crate::proofs::HeldLemmas::held_cut))]
pub fn held_exponent(negative: bool, digits: &[u8], places: u64) -> i32
    ensures { result ≡ spec.held (spec.signed negative (number_from_digits 10 digits.now) -ℤ pos places) }
{
    held(less(signed(negative, value_at_most(digits)), places))
}
