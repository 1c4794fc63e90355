// What is true of readings, each law the contract of a function that does nothing.
ghost use Rattle.ical_text.specs.Laws.{CalendarsAreReadAgain, LinesDecide, ReadingIsExact, ReadingsAgree};
ghost use Rattle.ical_text.specs.Tables.{TablesAreReadAgain};

/// The reader's answer is what the lines are: a calendar with the events that its lines end, none of which has
/// a fault; or the first fault, at the first line that has one.
pub fn reading_is_exact()
    ensures { ReadingIsExact }
{}

/// Lines are one calendar, or have one first fault.
pub fn readings_agree()
    ensures { ReadingsAgree }
{}

/// The calendar of events without CR and LF in their texts, at moments from 1899 to 2101, is read as these
/// events, in order, each with its moment, its SUMMARY and its UID.
pub fn calendars_are_read_again()
    ensures { CalendarsAreReadAgain }
{}

/// The calendar of a table's days is read as the table's printed minutes, in order, each with its moment in
/// Universal Time, its column's word and its UID.
pub fn tables_are_read_again()
    ensures { TablesAreReadAgain }
{}

/// Texts that join to the same lines are the same calendar, or have the same first fault, however they are folded.
pub fn lines_decide()
    ensures { LinesDecide }
{}
