use border_check::Border;
use order_rule::Order;

/// An order, and the real border of its district.
#[derive(Drop)]
pub struct Request {
    pub order: Order,
    pub border: Border,
}
