// Why a list of polygons is no district.
ghost use Rattle.std.specs.Prelude.{◌≡◌};
ghost use Rattle.ring_survey.specs.declared.faults.RegionFault.TheVariants.{NoMemory};

use std::alloc::{AllocError, AllocFailed};

/// The first refusal of a list of polygons. Rings are numbered from 0 through all polygons.
#[derive(Clone, Copy, Debug, PartialEq, Eq)]
pub enum RegionFault {
    /// The ring has fewer than four positions.
    Short(u64),
    /// The ring's last position differs from its first.
    Open(u64),
    /// All rings together have more than 4,096 positions.
    TooMany,
    /// The longitudes or the latitudes span more than 4,194,304 microdegrees.
    TooWide,
    /// A latitude is over 65 degrees, or a longitude over 360 degrees, either way.
    TooFar,
    /// There is no polygon, or a polygon has no ring.
    NoPolygon,
    /// Memory was not found.
    NoMemory,
}

impl From<AllocError> for RegionFault {
    ghost from_gives = { λ _ e. e ≡ NoMemory };

    fn from(_: AllocError) -> RegionFault {
        RegionFault::NoMemory
    }
}

impl<T: Drop> From<AllocFailed<T>> for RegionFault {
    ghost from_gives = { λ _ e. e ≡ NoMemory };

    fn from(_: AllocFailed<T>) -> RegionFault {
        RegionFault::NoMemory
    }
}
