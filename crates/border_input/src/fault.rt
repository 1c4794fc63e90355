// Why bytes are no order with a border.
use order_reader::OrderFault;
use region::RegionFault;

/// The first refusal of a border.
#[derive(Clone, Copy, Debug)]
pub enum BorderFault {
    /// The member `border` is missing.
    Missing,
    /// It stands twice.
    Twice,
    /// It is no object.
    Kind,
    /// It is in none of the forms of a district.
    Geometry,
    Region(RegionFault),
}

/// The first refusal of an order with a border.
#[derive(Clone, Copy, Debug)]
pub enum RequestFault {
    Order(OrderFault),
    Border(BorderFault),
    NoMemory,
}
