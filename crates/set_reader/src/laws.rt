// What is true of reading sets, each law the contract of a function that does nothing.
ghost use Rattle.set_reader.specs.Reads.{EveryTextIsASetOrRefused, SetReadingsAgree, SetsKeepTheRule};

/// Bytes are one set, or have one first refusal.
pub fn set_readings_agree()
    ensures { SetReadingsAgree }
{}

/// All bytes are a set, or are refused.
pub fn every_text_is_a_set_or_refused()
    ensures { EveryTextIsASetOrRefused }
{}

/// What is read as a set keeps the rule of every set.
pub fn sets_keep_the_rule()
    ensures { SetsKeepTheRule }
{}
