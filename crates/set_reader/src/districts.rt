// The districts of a set.
ghost use Rattle.set_reader.specs.Together.{AreParts};

use crate::parts::Parts;
use region::District;

/// The district of all Features together, and that of each.
#[derive(Drop)]
pub(crate) struct Districts {
    pub whole: District,
    pub parts: Parts,
    ghost are_parts: { AreParts whole parts },
}
