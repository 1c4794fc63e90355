// What a judge of the sky keeps from one call for quarters to the next.
use altitude_test::KeptDirection;
use meeus_terms::KeptSun;

// The directions that the quarters of a cell share.
#[derive(Clone, Copy)]
pub(crate) struct KeptDirections {
    pub(crate) south: KeptDirection,
    pub(crate) north: KeptDirection,
    pub(crate) west: KeptDirection,
    pub(crate) east: KeptDirection,
}

impl KeptDirections {
    fn new() -> KeptDirections {
        KeptDirections {
            south: KeptDirection::new(),
            north: KeptDirection::new(),
            west: KeptDirection::new(),
            east: KeptDirection::new(),
        }
    }
}

/// The sun of the minutes that were judged last, and for cells of each size the directions of the quarters that were
/// judged last: cells beside each other share some of them.
#[derive(Drop)]
pub struct KeptSky {
    pub(crate) sun: KeptSun,
    pub(crate) sizes: [KeptDirections; 30],
}

impl Default for KeptSky {
    fn default() -> KeptSky {
        KeptSky {
            sun: KeptSun::new(),
            sizes: [KeptDirections::new(); 30],
        }
    }
}
