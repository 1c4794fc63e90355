// The sun of the minutes that were asked for last.
ghost use Rattle.std.specs.Prelude.{◌≡◌};
ghost use Rattle.solar_terms.specs.Sun.{minutes_of, terms_of};
ghost use Rattle.meeus_terms.specs.Suns.{grid_sun_of};

use crate::chosen::chosen_sun;
use method_table::SunChoice;
use solar_terms::{Minutes, Sun};

// A chosen sun over some minutes.
#[derive(Clone, Copy)]
struct Known {
    choice: SunChoice,
    minutes: Minutes,
    sun: Sun,
    ghost is: { terms_of sun ≡ grid_sun_of choice (minutes_of minutes) },
}

/// The sun of the minutes that were asked for last, which isn't computed anew for the same choice and minutes.
#[derive(Clone, Copy)]
pub struct KeptSun {
    last: Option<Known>,
}

impl KeptSun {
    /// One that keeps nothing yet.
    pub fn new() -> KeptSun {
        KeptSun { last: None }
    }

    /// What `chosen_sun` gives.
    pub fn sun(&mut self, choice: SunChoice, minutes: Minutes) -> Sun
        ensures { terms_of result ≡ grid_sun_of choice (minutes_of minutes) }
    {
        if let Some(known) = &self.last {
            if known.choice == choice && known.minutes == minutes {
                return known.sun;
            }
        }
        let sun = chosen_sun(choice, minutes);
        self.last = Some(Known {
            choice,
            minutes,
            sun,
        });
        sun
    }
}
