// Sums and differences of ranges of angles.
ghost use Rattle.std.specs.Prelude.{◌≡◌, ◌^◌, ◌≤◌, ◌+ℤ◌, ◌-ℤ◌, unsigned_abs};
ghost use Rattle.trig_series.specs.Angle.{range_of};
ghost use Rattle.trig_series.specs.Ranges.{added, subtracted};

use crate::Angle;

impl Angle {
    /// The sums of an angle of this range and one of `other`.
    #[tactic(auto, unfolding(crate::specs::Ranges::added))]
    pub fn plus(self, other: Angle) -> Angle
        requires low_left { unsigned_abs self.lo ≤ 2 ^ 69 }
        requires high_left { unsigned_abs self.hi ≤ 2 ^ 69 }
        requires low_right { unsigned_abs other.lo ≤ 2 ^ 69 }
        requires high_right { unsigned_abs other.hi ≤ 2 ^ 69 }
        ensures value { range_of result ≡ added (range_of self) (range_of other) }
        ensures low { result.lo ≡ self.lo +ℤ other.lo }
        ensures high { result.hi ≡ self.hi +ℤ other.hi }
    {
        Angle::new(self.lo + other.lo, self.hi + other.hi)
    }

    /// The differences of an angle of this range and one of `other`.
    #[tactic(auto, unfolding(crate::specs::Ranges::subtracted))]
    pub fn minus(self, other: Angle) -> Angle
        requires low_left { unsigned_abs self.lo ≤ 2 ^ 69 }
        requires high_left { unsigned_abs self.hi ≤ 2 ^ 69 }
        requires low_right { unsigned_abs other.lo ≤ 2 ^ 69 }
        requires high_right { unsigned_abs other.hi ≤ 2 ^ 69 }
        ensures value { range_of result ≡ subtracted (range_of self) (range_of other) }
        ensures low { result.lo ≡ self.lo -ℤ other.hi }
        ensures high { result.hi ≡ self.hi -ℤ other.lo }
    {
        Angle::new(self.lo - other.hi, self.hi - other.lo)
    }
}
