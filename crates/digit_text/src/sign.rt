// Signs before texts.
ghost use Rattle.std.specs.Prelude.{◌≡◌};
ghost use Rattle.digit_text.specs.Sign.{is_negative, without_sign};

/// Whether a text has a sign, and the text behind it.
pub fn split_sign(text: &str) -> (bool, &str)
    ensures sign { result.0 ≡ is_negative text.now }
    ensures rest { result.1.now ≡ without_sign text.now }
{
    match text.strip_prefix('-') {
        Some(rest) => (true, rest),
        None => (false, text),
    }
}
