// A covering as it was read.
ghost use Rattle.std.specs.Prelude.{◌≤◌, length};

use order_rule::Order;

/// A covering: the order that its first line spells, and its whole text, whose other lines stand from here on.
#[derive(Drop)]
pub struct Covering {
    pub order: Order,
    pub text: Vec<u8>,
    pub from: usize,
    pub ghost inside: { from ≤ length text.items },
}
