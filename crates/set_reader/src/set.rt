// Sets of districts.
ghost use Rattle.std.specs.Prelude.{◌≡◌, None};
ghost use Rattle.set_reader.specs.Together.{AreParts};

use crate::parts::Parts;
use order_rule::Order;

/// What the tables of a set of districts are asked for.
#[derive(Drop)]
pub struct SetOrder {
    /// The order of all polygons as one district. It has no rule for nights.
    pub whole: Order,
    /// The district of each Feature, 1 to 64.
    pub parts: Parts,
    pub ghost no_rule: { whole.night ≡ None },
    pub ghost are_parts: { AreParts whole.district parts },
}
