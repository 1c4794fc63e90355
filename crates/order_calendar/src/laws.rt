// What is true of the calendars of orders, each law the contract of a function that does nothing.
ghost use Rattle.order_calendar.specs.Laws.{CalendarsAreReadAgain};

/// The calendar of every order is read as exactly the minutes of its table, in order, each with its moment in Universal Time, its
/// column's word and its UID.
pub fn calendars_are_read_again()
    ensures { CalendarsAreReadAgain }
{}
