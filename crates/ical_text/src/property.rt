// The properties of a calendar, a line each.
ghost use Rattle.std.specs.Prelude.{◌≡◌, ◌≤◌, ◌<◌, length, option_map, false, IfSome, drop};
ghost use Rattle.std.specs.List.{list_all};
ghost use Rattle.ical_text.specs.Properties.{colon_in, is_inner, is_name_byte, is_parameters, is_word, name_in, name_length, name_of, property_at, property_of};
ghost use Rattle.ical_text.specs.Seen.{property_seen};

/// The names that matter.
#[derive(Clone, Copy, Debug, PartialEq, Eq)]
pub(crate) enum Name {
    Begin,
    End,
    Uid,
    Start,
    Summary,
    Other,
}

/// A property: its name, and its value as it stands.
#[derive(Clone, Copy)]
pub(crate) struct Property<'a> {
    pub name: Name,
    pub value: &'a [u8],
}

/// Whether the bytes are this word, in whatever case.
pub(crate) fn is_word(word: &[u8], bytes: &[u8]) -> bool
    ensures { result ≡ is_word word.now bytes.now }
{
    word.eq_ignore_ascii_case(bytes)
}

fn name_of(bytes: &[u8]) -> Name
    ensures { result ≡ name_of bytes.now }
{
    if is_word(b"BEGIN", bytes) {
        Name::Begin
    } else if is_word(b"END", bytes) {
        Name::End
    } else if is_word(b"UID", bytes) {
        Name::Uid
    } else if is_word(b"DTSTART", bytes) {
        Name::Start
    } else if is_word(b"SUMMARY", bytes) {
        Name::Summary
    } else {
        Name::Other
    }
}

// the place of the first colon outside double quotes
#[tactic(auto, unfolding(crate::specs::Properties::colon_in))]
fn colon_in(line: &[u8]) -> Option<usize>
    ensures place { result ≡ colon_in false line.now }
    ensures within { IfSome result (λ i. i < length line.now) }
{
    let mut quoted = false;
    for (i, b) in line.iter().enumerate() {
        if *b == b':' && !quoted {
            return Some(i);
        }
        if *b == b'"' {
            quoted = !quoted;
        }
    }
    None
}

fn is_name_byte(b: u8) -> bool
    ensures { result ≡ is_name_byte b }
{
    b.is_ascii_alphanumeric() || b == b'-'
}

fn name_length(head: &[u8]) -> usize
    ensures value { result ≡ name_length head.now }
    ensures within { result ≤ length head.now }
{
    for (i, b) in head.iter().enumerate() {
        if !is_name_byte(*b) {
            return i;
        }
    }
    head.len()
}

fn is_parameters(bytes: &[u8]) -> bool
    ensures { result ≡ is_parameters bytes.now }
{
    match bytes.first() {
        None => true,
        Some(b) => *b == b';',
    }
}

// the name in front of a colon
fn name_in(head: &[u8]) -> Option<Name>
    ensures { result ≡ name_in head.now }
{
    let (name, parameters) = head.split_at(name_length(head));
    if !name.is_empty() && is_parameters(parameters) {
        Some(name_of(name))
    } else {
        None
    }
}

fn is_inner(line: &[u8]) -> bool
    ensures { result ≡ list_all is_inner line.now }
{
    line.iter().all(|b| *b != b'\r' && *b != b'\n')
}

/// The property of a line, `None` exactly where it is none.
#[tactic(auto, unfolding(crate::specs::Properties::property_of))]
pub(crate) fn property_of(line: &[u8]) -> Option<Property<'_>>
    ensures { option_map property_seen result ≡ property_of line.now }
{
    if !is_inner(line) {
        return None;
    }
    let colon = colon_in(line)?;
    let name = name_in(&line[..colon])?;
    Some(Property {
        name,
        value: &line[colon + 1..],
    })
}
