//! A number that is being read.

ghost use Rattle.std.specs.Prelude.{◌≡◌, ◌<◌, ◌^◌, ◌==◌, if◌then◌else◌, IsTrue, IfOk, OnOk, OnErr, true};
ghost use Rattle.std.specs.Char.{is_ascii_digit};

use crate::decimal::{Decimal, Digits};
use crate::held::held_exponent;
use no_memory::NoMemory;
use sqlite_items::Items;
use std::alloc::Global;

/// Where in a number the bytes so far end.
#[derive(Clone, Copy, Debug, PartialEq, Eq)]
pub enum Phase {
    AfterMinus,
    AfterZero,
    InWhole,
    AfterPoint,
    InFraction,
    AfterLetter,
    AfterSign,
    InExponent,
}

/// The digits from the first that is not 0 on, how many digits stand after the point, the exponent's
/// sign and digits, and how many bytes there are.
#[derive(Drop)]
pub struct Numeral {
    pub negative: bool,
    pub digits: Digits,
    pub places: u64,
    pub exponent_negative: bool,
    pub exponent: Items<u8>,
    pub length: u64,
}

/// The phase after the first digit of the whole part.
pub fn first_phase(b: u8) -> Phase
    ensures { result ≡ (if b == 48 then Phase.AfterZero else Phase.InWhole) }
{
    if b == b'0' {
        Phase::AfterZero
    } else {
        Phase::InWhole
    }
}

impl Numeral {
    ghost use Rattle.exact_decimal.specs.Numerals.{no_numeral, counted, with_whole, with_fraction, with_exponent, with_minus, decimal_so_far};

    /// No byte has come.
    pub fn new(alloc: Global) -> Numeral
        ensures { result ≡ no_numeral }
    {
        Numeral {
            negative: false,
            digits: Digits::new(alloc),
            places: 0,
            exponent_negative: false,
            exponent: Items::new(alloc),
            length: 0,
        }
    }

    /// A number that begins with its minus.
    pub fn minus(alloc: Global) -> Numeral
        ensures { result ≡ record no_numeral { negative = true; length = 1 } }
    {
        Numeral {
            negative: true,
            digits: Digits::new(alloc),
            places: 0,
            exponent_negative: false,
            exponent: Items::new(alloc),
            length: 1,
        }
    }

    /// A number that begins with this digit.
    pub fn digit(alloc: Global, b: u8) -> Result<Numeral, NoMemory>
        requires { IsTrue (is_ascii_digit b) }
        ensures { IfOk result (λ n. n ≡ with_whole no_numeral b) }
    {
        let mut numeral = Numeral::new(alloc);
        numeral.push_whole(b)?;
        Ok(numeral)
    }

    /// A letter, a point or a plus has come.
    pub fn count(&mut self)
        requires { self.old.length < 2 ^ 32 }
        ensures { self.new ≡ counted self.old }
    {
        self.length += 1;
    }

    /// The exponent's minus has come.
    pub fn negate_exponent(&mut self)
        requires { self.old.length < 2 ^ 32 }
        ensures { self.new ≡ with_minus self.old }
    {
        self.exponent_negative = true;
        self.length += 1;
    }

    /// A digit of the whole part has come.
    pub fn push_whole(&mut self, b: u8) -> Result<(), NoMemory>
        requires digit { IsTrue (is_ascii_digit b) }
        requires room { self.old.length < 2 ^ 32 }
        ensures ok { OnOk result (self.new ≡ with_whole self.old b) }
        ensures err { OnErr result (self.new ≡ self.old) }
    {
        self.digits.push(b - b'0')?;
        self.length += 1;
        Ok(())
    }

    /// A digit behind the point has come.
    pub fn push_fraction(&mut self, b: u8) -> Result<(), NoMemory>
        requires digit { IsTrue (is_ascii_digit b) }
        requires room { self.old.length < 2 ^ 32 }
        requires places { self.old.places < 2 ^ 32 }
        ensures ok { OnOk result (self.new ≡ with_fraction self.old b) }
        ensures err { OnErr result (self.new ≡ self.old) }
    {
        self.digits.push(b - b'0')?;
        self.places += 1;
        self.length += 1;
        Ok(())
    }

    /// A digit of the exponent has come.
    pub fn push_exponent(&mut self, b: u8) -> Result<(), NoMemory>
        requires digit { IsTrue (is_ascii_digit b) }
        requires room { self.old.length < 2 ^ 32 }
        ensures ok { OnOk result (self.new ≡ with_exponent self.old b) }
        ensures err { OnErr result (self.new ≡ self.old) }
    {
        self.exponent.push(b - b'0')?;
        self.length += 1;
        Ok(())
    }

    /// The decimal that the bytes so far write.
    pub fn into_decimal(self) -> Decimal
        ensures { result ≡ decimal_so_far self }
    {
        let exponent = held_exponent(
            self.exponent_negative,
            self.exponent.as_slice(),
            self.places,
        );
        let Numeral {
            negative,
            digits,
            places: _,
            exponent_negative: _,
            exponent: _,
            length: _,
        } = self;
        Decimal {
            negative,
            digits,
            exponent,
        }
    }
}
