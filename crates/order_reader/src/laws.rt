// What is true of reading orders, each law the contract of a function that does nothing.
ghost use Rattle.order_reader.specs.Reads.{EveryTextIsReadOrRefused, OrderReadingsAgree, OrdersKeepTheRule};

/// Bytes are one order, or have one first refusal.
pub fn order_readings_agree()
    ensures { OrderReadingsAgree }
{}

/// All bytes are an order, or are refused.
pub fn every_text_is_read_or_refused()
    ensures { EveryTextIsReadOrRefused }
{}

/// What is read as an order keeps the rule of every order.
pub fn orders_keep_the_rule()
    ensures { OrdersKeepTheRule }
{}
