//! Exact decimals.

ghost use Rattle.std.specs.Prelude.{◌≡◌, ◌≤◌, ◌<◌, ◌^◌, [], ◌↔◌, IsTrue, OnOk, OnErr, IfSome, unsigned_abs};
ghost use Rattle.exact_decimal.specs.Digits.{AreDigits, with_digit};
ghost use Rattle.exact_decimal.specs.Micro.{micro_of, whole_of};

use crate::size::{exactly, nearest, signed};
use no_memory::NoMemory;
use sqlite_items::Items;
use std::alloc::Global;
use std::marker::Model;

/// Decimal digits, each by its value. The first is not 0.
#[derive(Debug, Drop)]
pub struct Digits {
    digits: Items<u8>,
}

impl Model for Digits {
    ghost use Rattle.std.specs.Prelude.{List, ℕ};
    ghost use Rattle.exact_decimal.specs.Digits.{AreDigits};

    ghost Value = { List ℕ };

    ghost view = { λ d. d.digits };

    ghost invariant = { λ d. AreDigits d.digits };
}

impl Digits {
    pub(crate) fn new(alloc: Global) -> Digits
        ensures { result ≡ [] }
    {
        Digits {
            digits: Items::new(alloc),
        }
    }

    /// The digits, from the first on.
    pub fn as_slice(&self) -> &[u8]
        ensures value { result.now ≡ self.now }
        ensures digits { AreDigits self.now }
    {
        self.digits.as_slice()
    }

    pub fn is_empty(&self) -> bool
        ensures { IsTrue result ↔ (self.now ≡ []) }
    {
        self.digits.is_empty()
    }

    /// Leaves a leading 0 out.
    #[tactic(auto, using(crate::proofs::DigitsLemmas::significant_digit))]
    pub(crate) fn push(&mut self, digit: u8) -> Result<(), NoMemory>
        requires { digit < 10 }
        ensures ok { OnOk result (self.new ≡ with_digit self.old digit) }
        ensures err { OnErr result (self.new ≡ self.old) }
    {
        if digit == 0 && self.digits.is_empty() {
            return Ok(());
        }
        self.digits.push(digit)?;
        Ok(())
    }
}

/// Plus or minus the whole number that the digits write, times ten to the exponent.
#[derive(Debug, Drop)]
pub struct Decimal {
    pub negative: bool,
    /// None where the number is 0; else the first is not 0.
    pub digits: Digits,
    pub exponent: i32,
}

impl Decimal {
    /// The value in millionths, rounded half away from zero, and held at 10^15 either way.
    #[tactic(auto, unfolding(crate::specs::Micro::micro_of))]
    pub fn micro(&self) -> i64
        ensures value { result ≡ micro_of self.now }
        ensures bound { unsigned_abs result ≤ 10 ^ 15 }
    {
        signed(
            self.negative,
            nearest(self.digits.as_slice(), self.exponent as i64 + 6),
        )
    }

    /// The value, where it is a whole number of at most 10^15 either way.
    #[tactic(auto, unfolding(crate::specs::Micro::whole_of))]
    pub fn whole(&self) -> Option<i64>
        ensures value { result ≡ whole_of self.now }
        ensures bound { IfSome result (λ n. unsigned_abs n ≤ 10 ^ 15) }
    {
        let size = exactly(self.digits.as_slice(), self.exponent as i64)?;
        Some(signed(self.negative, size))
    }
}
