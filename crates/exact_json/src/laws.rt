//! What is true of readings, each law the contract of a function that does nothing.

ghost use Rattle.exact_json.specs.Readings.{EveryTextIsRead, ReadingsAgree};

/// Bytes are read in one way: as one tree, or with one fault at one place.
pub fn readings_agree()
    ensures { ReadingsAgree }
{}

/// All bytes are read: as a tree, or with a fault.
pub fn every_text_is_read()
    ensures { EveryTextIsRead }
{}
