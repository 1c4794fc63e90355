// A text cut at CR LF.
ghost use Rattle.std.specs.Prelude.{◌≡◌, ◌<◌, ◌≤◌, ◌∷◌, length};
ghost use Rattle.std.specs.Bool.{OnTrue};
ghost use Rattle.ical_text.specs.Lines.{is_continued, is_cut, pieces};

// whether CR LF is in front
fn is_cut(bytes: &[u8]) -> bool
    ensures value { result ≡ is_cut bytes.now }
    ensures long { OnTrue result (2 ≤ length bytes.now) }
{
    match bytes {
        [first, second, ..] => *first == b'\r' && *second == b'\n',
        _ => false,
    }
}

/// What stands before the first CR LF, and behind it.
#[tactic(auto, unfolding(crate::specs::Lines::pieces))]
pub(crate) fn first_piece(bytes: &[u8]) -> (&[u8], &[u8])
    requires { 0 < length bytes.now }
    ensures pieces { pieces bytes.now ≡ result.0.now ∷ pieces result.1.now }
    ensures less { length result.1.now < length bytes.now }
{
    for i in 0..bytes.len() {
        let (piece, rest) = bytes.split_at(i);
        if is_cut(rest) {
            let (_, rest) = rest.split_at(2);
            return (piece, rest);
        }
    }
    bytes.split_at(bytes.len())
}

/// Whether a piece continues the line before it.
pub(crate) fn is_continued(piece: &[u8]) -> bool
    ensures value { result ≡ is_continued piece.now }
    ensures long { OnTrue result (1 ≤ length piece.now) }
{
    match piece.first() {
        None => false,
        Some(b) => *b == b' ' || *b == b'\t',
    }
}
