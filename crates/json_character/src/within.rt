//! A character of a text that is being read.

ghost use Rattle.std.specs.Prelude.{◌≡◌, ◌*◌, ◌+◌, ◌<◌, ◌^◌, IsTrue, IfSome};
ghost use Rattle.std.specs.Char.{digit_value};
ghost use Rattle.std.specs.Option.{SomeIff};
ghost use Rattle.std.specs.Char as char_spec;
ghost use Rattle.json_character.specs.Texts as texts;
ghost use Rattle.json_character.specs.Within as spec;

/// Where within a character the bytes so far end.
#[derive(Clone, Copy, Debug, PartialEq, Eq)]
pub enum Within {
    /// Before a character.
    Plain,
    /// After a backslash.
    Escape,
    /// In `\u`: how many digits follow the next, and the value of those that were read.
    Unit(u8, u32),
    /// After a high surrogate.
    High(u32),
    /// After the backslash that follows it.
    HighEscape(u32),
    /// In the second half of a pair: as in `Unit`, and the high surrogate.
    Low(u8, u32, u32),
    /// In a character of several bytes: the least that may be written so, how many bytes follow the next, and the bits so far.
    Tail(u32, u8, u32),
}

/// What one byte more makes of it.
#[derive(Clone, Copy, Debug, PartialEq, Eq)]
pub enum Outcome {
    GoesOn(Within),
    Ends(char),
    Refused,
}

/// The character with this code, if there is one.
fn ends(code: u32) -> Outcome
    ensures { result ≡ spec.checked code }
{
    match char::from_u32(code) {
        Some(c) => Outcome::Ends(c),
        None => Outcome::Refused,
    }
}

fn is_high_surrogate(unit: u32) -> bool
    ensures { result ≡ texts.is_high_surrogate unit }
{
    0xD800 <= unit && unit < 0xDC00
}

fn is_low_surrogate(unit: u32) -> bool
    ensures { result ≡ texts.is_low_surrogate unit }
{
    0xDC00 <= unit && unit < 0xE000
}

/// 16 to the power of `left + 1`.
fn above_16(left: u8) -> u32
    ensures value { result ≡ spec.above_16 left }
    ensures bound { result < 2 ^ 17 }
{
    match left {
        0 => 0x10,
        1 => 0x100,
        2 => 0x1000,
        _ => 0x1_0000,
    }
}

/// 64 to the power of `left + 1`.
fn above_64(left: u8) -> u32
    ensures value { result ≡ spec.above_64 left }
    ensures bound { result < 2 ^ 19 }
{
    match left {
        0 => 0x40,
        1 => 0x1000,
        _ => 0x4_0000,
    }
}

fn is_unit_begun(left: u8, value: u32) -> bool
    requires { value < 2 ^ 24 }
    ensures { result ≡ spec.is_unit_begun left value }
{
    let least = value as u64 * above_16(left) as u64;
    left < 4 && (least < 0x1_0000 && !(0xDC00 <= least && least < 0xE000))
}

fn is_low_begun(left: u8, value: u32) -> bool
    requires { value < 2 ^ 24 }
    ensures { result ≡ spec.is_low_begun left value }
{
    let step = above_16(left) as u64;
    let least = value as u64 * step;
    let end = (value as u64 + 1) * step;
    left < 4 && (least < 0xE000 && 0xDC00 < end)
}

fn is_tail_begun(least: u32, left: u8, value: u32) -> bool
    requires { value < 2 ^ 24 }
    ensures { result ≡ spec.is_tail_begun least left value }
{
    let step = above_64(left) as u64;
    let first = (least as u64).max(value as u64 * step);
    let end = (value as u64 + 1) * step;
    left < 3 && (is_scalar(first) && first < end)
}

fn is_scalar(code: u64) -> bool
    ensures { result ≡ spec.is_scalar code }
{
    code < 0xD800 || (0xE000 <= code && code < 0x11_0000)
}

fn unit_ended(value: u32) -> Outcome
    ensures { result ≡ spec.unit_ended value }
{
    if is_high_surrogate(value) {
        Outcome::GoesOn(Within::High(value))
    } else {
        ends(value)
    }
}

fn unit_goes_on(left: u8, value: u32) -> Outcome
    requires { value < 2 ^ 24 }
    ensures { result ≡ spec.unit_goes_on left value }
{
    if is_unit_begun(left, value) {
        Outcome::GoesOn(Within::Unit(left, value))
    } else {
        Outcome::Refused
    }
}

#[tactic(auto, using(crate::proofs::Withins::more))]
fn after_unit(left: u8, value: u32) -> Outcome
    requires { value < 2 ^ 24 }
    ensures { result ≡ spec.after_unit left value }
{
    match left {
        0 => unit_ended(value),
        _ => unit_goes_on(left - 1, value),
    }
}

/// The character of a pair.
fn paired(high: u32, low: u32) -> Outcome
    requires is_high { IsTrue (texts.is_high_surrogate high) }
    requires is_low { IsTrue (texts.is_low_surrogate low) }
    ensures { result ≡ spec.checked (texts.paired high low) }
{
    ends(0x1_0000 + (high - 0xD800) * 0x400 + (low - 0xDC00))
}

fn low_ended(value: u32, high: u32) -> Outcome
    requires { IsTrue (texts.is_high_surrogate high) }
    ensures { result ≡ spec.low_ended value high }
{
    if is_low_surrogate(value) {
        paired(high, value)
    } else {
        Outcome::Refused
    }
}

fn low_goes_on(left: u8, value: u32, high: u32) -> Outcome
    requires { value < 2 ^ 24 }
    ensures { result ≡ spec.low_goes_on left value high }
{
    if is_low_begun(left, value) {
        Outcome::GoesOn(Within::Low(left, value, high))
    } else {
        Outcome::Refused
    }
}

#[tactic(auto, using(crate::proofs::Withins::more))]
fn after_low(left: u8, value: u32, high: u32) -> Outcome
    requires small { value < 2 ^ 24 }
    requires is_high { IsTrue (texts.is_high_surrogate high) }
    ensures { result ≡ spec.after_low left value high }
{
    match left {
        0 => low_ended(value, high),
        _ => low_goes_on(left - 1, value, high),
    }
}

fn tail_ended(least: u32, value: u32) -> Outcome
    ensures { result ≡ spec.tail_ended least value }
{
    if least <= value {
        ends(value)
    } else {
        Outcome::Refused
    }
}

fn tail_goes_on(least: u32, left: u8, value: u32) -> Outcome
    requires { value < 2 ^ 24 }
    ensures { result ≡ spec.tail_goes_on least left value }
{
    if is_tail_begun(least, left, value) {
        Outcome::GoesOn(Within::Tail(least, left, value))
    } else {
        Outcome::Refused
    }
}

#[tactic(auto, using(crate::proofs::Withins::more))]
fn after_tail(least: u32, left: u8, value: u32) -> Outcome
    requires { value < 2 ^ 24 }
    ensures { result ≡ spec.after_tail least left value }
{
    match left {
        0 => tail_ended(least, value),
        _ => tail_goes_on(least, left - 1, value),
    }
}

/// What a backslash and the byte stand for, other than `\u`.
fn short_escape(b: u8) -> Outcome
    ensures { result ≡ spec.after_short (texts.short_escape b) }
{
    if (b == b'"' || b == b'\\') || b == b'/' {
        Outcome::Ends(b as char)
    } else if b == b'b' {
        Outcome::Ends('\x08')
    } else if b == b'f' {
        Outcome::Ends('\x0C')
    } else if b == b'n' {
        Outcome::Ends('\n')
    } else if b == b'r' {
        Outcome::Ends('\r')
    } else if b == b't' {
        Outcome::Ends('\t')
    } else {
        Outcome::Refused
    }
}

/// The first byte of a character that stands for itself.
fn after_lead(b: u8) -> Outcome
    ensures { result ≡ spec.after_lead b }
{
    if b < 0x80 {
        if b < 0x20 {
            Outcome::Refused
        } else {
            Outcome::Ends(b as char)
        }
    } else if b < 0xC0 {
        Outcome::Refused
    } else if b < 0xE0 {
        after_tail(0x80, 1, (b - 0xC0) as u32)
    } else if b < 0xF0 {
        after_tail(0x800, 2, (b - 0xE0) as u32)
    } else if b < 0xF8 {
        after_tail(0x1_0000, 3, (b - 0xF0) as u32)
    } else {
        Outcome::Refused
    }
}

fn hex_value(b: u8) -> Option<u32>
    ensures value { SomeIff result (IsTrue (char_spec.is_digit b 16)) (digit_value b) }
    ensures bound { IfSome result (λ d. d < 16) }
{
    char::from(b).to_digit(16)
}

impl Within {
    /// The byte is not the quote that ends the text.
    pub fn after(self, b: u8) -> Outcome
        requires { IsTrue (spec.is_begun self) }
        ensures { result ≡ spec.after_byte self b }
    {
        match self {
            Within::Plain if b == b'\\' => Outcome::GoesOn(Within::Escape),
            Within::Plain => after_lead(b),
            Within::Escape if b == b'u' => Outcome::GoesOn(Within::Unit(3, 0)),
            Within::Escape => short_escape(b),
            Within::Unit(left, value) => match hex_value(b) {
                Some(digit) => after_unit(left, 16 * value + digit),
                None => Outcome::Refused,
            },
            Within::High(high) if b == b'\\' => Outcome::GoesOn(Within::HighEscape(high)),
            Within::HighEscape(high) if b == b'u' => Outcome::GoesOn(Within::Low(3, 0, high)),
            Within::High(_) | Within::HighEscape(_) => Outcome::Refused,
            Within::Low(left, value, high) => match hex_value(b) {
                Some(digit) => after_low(left, 16 * value + digit, high),
                None => Outcome::Refused,
            },
            Within::Tail(least, left, value) if 0x80 <= b && b < 0xC0 => {
                after_tail(least, left, 64 * value + (b as u32 - 0x80))
            }
            Within::Tail(..) => Outcome::Refused,
        }
    }
}
