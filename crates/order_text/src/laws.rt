// What is true of canonical lines, each law the contract of a function that does nothing.
ghost use Rattle.std.specs.Prelude.{Ok};
ghost use Rattle.order_rule.specs.Asked.{asked_of};
ghost use Rattle.order_rule.specs.Rule.{IsOrder};
ghost use Rattle.order_text.specs.Line.{order_body};
ghost use Rattle.order_text.specs.LineLaws.{LineReadingsAgree, LinesAreReadAgain, LinesKeepTheRule, VersionsAreLeast};
ghost use Rattle.order_text.specs.LineReading.{ReadsLine};

use order_rule::Order;

/// Bytes are one canonical line, or have one first refusal as such.
pub fn line_readings_agree()
    ensures { LineReadingsAgree }
{}

/// What is read as a canonical line keeps the rule of every order.
pub fn lines_keep_the_rule()
    ensures { LinesKeepTheRule }
{}

/// The canonical line of what meets the rule of every order, without its LF, is read as that order.
pub fn lines_are_read_again()
    ensures { LinesAreReadAgain }
{}

/// No line that is read as an order states a lower version than the order's own line.
pub fn versions_are_least()
    ensures { VersionsAreLeast }
{}

/// An order meets the rule, and its canonical line without its LF is read as that order.
pub fn line_is_read_again(o: &Order)
    ensures rule { IsOrder (asked_of o.now) }
    ensures again { ReadsLine (order_body (asked_of o.now)) (Ok (asked_of o.now)) }
{
    o.keeps_the_rule();
}
