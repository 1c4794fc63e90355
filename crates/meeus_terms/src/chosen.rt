// The sun that is chosen.
ghost use Rattle.std.specs.Prelude.{◌≡◌};
ghost use Rattle.solar_terms.specs.Sun.{minutes_of, terms_of};
ghost use Rattle.meeus_terms.specs.Suns.{grid_sun_of};

use crate::sun::meeus_sun;
use method_table::SunChoice;
use solar_terms::{Minutes, Sun, observatory};

/// The sun of this choice over the minutes, each term an enclosure that is rounded outward.
pub fn chosen_sun(sun: SunChoice, minutes: Minutes) -> Sun
    ensures { terms_of result ≡ grid_sun_of sun (minutes_of minutes) }
{
    match sun {
        SunChoice::Usno => observatory::sun(minutes),
        SunChoice::Meeus => meeus_sun(minutes),
    }
}
