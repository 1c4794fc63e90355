// Whole numbers as texts.
ghost use Rattle.std.specs.Prelude.{◌≡◌, ◌^◌, ◌<◌};
ghost use Rattle.covering_check.specs.Numerals.{whole_in};
ghost use Rattle.digit_text.specs.Sign.{with_sign};

use digit_text::{digits, split_sign};

fn signed(negative: bool, magnitude: u128) -> i128
    requires { magnitude < 10 ^ 22 }
    ensures { result ≡ with_sign negative magnitude }
{
    if negative {
        -(magnitude as i128)
    } else {
        magnitude as i128
    }
}

/// The number that a text spells.
#[tactic(auto, unfolding(crate::specs::Numerals::whole_in))]
pub(crate) fn whole_in(text: &str) -> Option<i128>
    ensures { result ≡ whole_in text.now }
{
    let (negative, rest) = split_sign(text);
    if rest.as_bytes().first() == Some(&b'0') {
        return if text == "0" { Some(0) } else { None };
    }
    let magnitude = digits(rest.as_bytes(), 22)?;
    Some(signed(negative, magnitude))
}
