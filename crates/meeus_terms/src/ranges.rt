// A fixed angle.
ghost use Rattle.std.specs.Prelude.{◌≡◌, pos};
ghost use Rattle.trig_series.specs.Angle.{range_of};
ghost use Rattle.trig_series.specs.Ranges.{whole};

use trig_series::Angle;

/// The one angle of so many units.
#[tactic(auto, unfolding(trig_series::specs::Ranges::whole))]
pub(crate) fn fixed(units: u32) -> Angle
    ensures value { range_of result ≡ whole units }
    ensures low { result.lo ≡ pos units }
    ensures high { result.hi ≡ pos units }
{
    Angle::new(i128::from(units), i128::from(units))
}
