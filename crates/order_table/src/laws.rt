// What is true of the tables of orders, each law the contract of a function that does nothing.
ghost use Rattle.order_table.specs.Laws.{TablesAreRight};

/// The table of an order has the days and the rows that the order asks for, and each of its entries is right, or open as
/// said; beside a decided entry no other decided one is right.
pub fn tables_are_right()
    ensures { TablesAreRight }
{}
