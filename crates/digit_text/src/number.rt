// The numbers that digits spell.
ghost use Rattle.std.specs.Prelude.{◌≡◌, ◌+◌, ◌*◌, ◌^◌, ◌<◌, ◌≤◌, length, IsTrue, IfSome};
ghost use Rattle.std.specs.Char.{is_ascii_digit, digit_value};
ghost use Rattle.std.specs.List.{list_all};
ghost use Rattle.std.specs.Str.Parse.{digits_value};
ghost use Rattle.digit_text.specs.Digits.{digits_in};

fn are_digits(bytes: &[u8]) -> bool
    ensures { result ≡ list_all is_ascii_digit bytes.now }
{
    bytes.iter().all(|byte| byte.is_ascii_digit())
}

fn with_digit(value: u128, digit: u8) -> u128
    requires small { value < 10 ^ 22 }
    requires digit { IsTrue (is_ascii_digit digit) }
    ensures value { result ≡ value * 10 + digit_value digit }
    ensures digit { digit_value digit < 10 }
{
    value * 10 + (digit - b'0') as u128
}

fn value_of(digits: &[u8]) -> u128
    requires digits { IsTrue (list_all is_ascii_digit digits.now) }
    requires few { length digits.now ≤ 22 }
    ensures value { result ≡ digits_value 10 digits.now }
    ensures bound { result < 10 ^ length digits.now }
{
    let mut value = 0;
    for digit in digits {
        value = with_digit(value, *digit);
    }
    value
}

/// The number that one to `most` digits spell, where `most` is at most 22.
#[tactic(auto, unfolding(crate::specs::Digits::digits_in))]
pub fn digits(text: &[u8], most: usize) -> Option<u128>
    requires { most ≤ 22 }
    ensures value { result ≡ digits_in most text.now }
    ensures bound { IfSome result (λ n. n < 10 ^ length text.now) }
    ensures most { IfSome result (λ n. n < 10 ^ most) }
{
    if text.is_empty() || text.len() > most {
        return None;
    }
    if are_digits(text) {
        Some(value_of(text))
    } else {
        None
    }
}
