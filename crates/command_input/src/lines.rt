// Texts cut into lines.
ghost use Rattle.std.specs.Prelude.{◌≡◌, ◌≤◌, length};
ghost use Rattle.command_input.specs.Lines.{behind_line, first_line, line_length};

/// How many bytes stand before the first LF, or in all.
fn line_length(text: &[u8]) -> usize
    ensures value { result ≡ line_length text.now }
    ensures inside { result ≤ length text.now }
{
    let mut at = 0;
    while at < text.len() && text[at] != b'\n' {
        at += 1;
    }
    at
}

/// The first line of a text without its LF, and the text behind it. A last LF may be missing, and behind the last
/// line stand empty ones.
pub fn split_line(text: &[u8]) -> (&[u8], &[u8])
    ensures line { result.0.now ≡ first_line text.now }
    ensures behind { result.1.now ≡ behind_line text.now }
{
    let end = line_length(text);
    if end == text.len() {
        return (text, &text[end..]);
    }
    (&text[..end], &text[end + 1..])
}
