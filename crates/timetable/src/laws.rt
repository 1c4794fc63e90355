// What follows from how a run ended. Each law is the contract of a function that does nothing.
ghost use Rattle.timetable.specs.Laws.{CalendarsAreReadAgain, CalendarsAreRefusedForCause, CoveringsAreRefusedForCause, CoveringsAreShownAgain, FinishedRunsWroteTheAnswer, OrdersAreRefusedForCause, RightWordsAreAnswered, SetsAreRight, TablesAreRight, ToldBytesDecide, UsageIsForWrongWords, WrongCalendarsAreRefused, WrongCoveringsAreRefused, WrongOrdersAreRefused, WrongWordsAreRefused};

/// A run is ended by `Usage` only where the words are wrong.
pub fn usage_is_for_wrong_words()
    ensures { UsageIsForWrongWords }
{}

/// Wrong words are answered by `Usage`, want of memory aside, and nothing is read or written.
pub fn wrong_words_are_refused()
    ensures { WrongWordsAreRefused }
{}

/// A run is ended by `OrderRefused` only where its command reads an order and its input is none; nothing is written.
pub fn orders_are_refused_for_cause()
    ensures { OrdersAreRefusedForCause }
{}

/// An input that is no order is refused by a command that reads one, a read fault and want of memory aside.
pub fn wrong_orders_are_refused()
    ensures { WrongOrdersAreRefused }
{}

/// A run is ended by `CoverRefused` only where its command reads a covering and its input is none; what the lines before the
/// bad one show is written.
pub fn coverings_are_refused_for_cause()
    ensures { CoveringsAreRefusedForCause }
{}

/// An input that is no covering is refused by a command that reads one, counted faults and want of memory aside.
pub fn wrong_coverings_are_refused()
    ensures { WrongCoveringsAreRefused }
{}

/// A run is ended by `IcalRefused` only where its command reads a calendar and its input is none; nothing is written.
pub fn calendars_are_refused_for_cause()
    ensures { CalendarsAreRefusedForCause }
{}

/// An input that is no calendar is refused by a command that reads one, a read fault and want of memory aside.
pub fn wrong_calendars_are_refused()
    ensures { WrongCalendarsAreRefused }
{}

/// Right words, with an order, a covering or a calendar where the command reads one, are answered by `Done` or `Open` where no fault was counted,
/// want of memory aside.
pub fn right_words_are_answered()
    ensures { RightWordsAreAnswered }
{}

/// `Done` and `Open` say that the words are right, the input is an order, a covering or a calendar where the command reads one and was
/// read to its end, and the whole text was written; `Done` exactly where nothing in it is undecided.
pub fn finished_runs_wrote_the_answer()
    ensures { FinishedRunsWroteTheAnswer }
{}

/// Where the source told its bytes, the run ended by every input that they spell, as stated.
pub fn told_bytes_decide()
    ensures { ToldBytesDecide }
{}

/// The entries of the table of every order are right, or open as said.
pub fn tables_are_right()
    ensures { TablesAreRight }
{}

/// The entries of the table of every set are right, or open as said.
pub fn sets_are_right()
    ensures { SetsAreRight }
{}

/// The calendar that `ical` writes for an order is read by `agenda` as exactly the minutes of the order's table, in order, each with
/// its moment in Universal Time, its column's word and its UID.
pub fn calendars_are_read_again()
    ensures { CalendarsAreReadAgain }
{}

/// The covering that `cover` writes for an order, in either form, is answered by `check` as the order is by `plain`: by `Done` or
/// `Open` with the order's table written, counted faults and want of memory aside.
pub fn coverings_are_shown_again()
    ensures { CoveringsAreShownAgain }
{}
