// The commands that read an order.
ghost use Rattle.std.specs.Prelude.{IfOk, ◌≡◌};
ghost use Rattle.order_rule.specs.Asked.{asked_of};
ghost use Rattle.order_text.specs.Line.{order_line};
ghost use Rattle.outcome.specs.Writing.{Writes};

use order_rule::Order;
use order_text::order_line;
use outcome::{Stop, write_text};
use source_sink::Sink;
use std::alloc::Global;

/// Writes the canonical line of an order, in which nothing is undecided.
pub(crate) fn write_line<K: Sink>(alloc: Global, order: &Order, out: &mut K) -> Result<u32, Stop>
    ensures writes { Writes (order_line (asked_of order.now)) result
        (K.faults out.old) (K.faults out.new) (K.held out.old) (K.held out.new) }
    ensures count { IfOk result (λ count. count ≡ 0) }
{
    let Ok(line) = order_line(alloc, order) else {
        return Err(Stop::NoMemory);
    };
    write_text(out, &line, 0)
}
