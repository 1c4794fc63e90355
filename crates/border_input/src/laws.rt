// What is true of reading orders with a border, each law the contract of a function that does nothing.
ghost use Rattle.border_input.specs.Reads.{EveryTextIsARequestOrRefused, RequestReadingsAgree};

/// Bytes are one order with one border, or have one first refusal.
pub fn request_readings_agree()
    ensures { RequestReadingsAgree }
{}

/// All bytes are an order with a border, or are refused.
pub fn every_text_is_a_request_or_refused()
    ensures { EveryTextIsARequestOrRefused }
{}
