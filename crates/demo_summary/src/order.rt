// The order that a number stands for.
ghost use Rattle.std.specs.Prelude.{◌≡◌, IfOk};
ghost use Rattle.order_rule.specs.Asked.{asked_of};
ghost use Rattle.demo_summary.specs.Demo.{demo_asked};

use crate::line::demo_line;
use no_memory::NoMemory;
use order_rule::Order;
use order_text::read_order_line;
use std::alloc::Global;

/// The order that a number stands for: one ring of 65 positions, and 30 days of 2025 and 2026.
pub fn demo_order(alloc: Global, number: u32) -> Result<Order, NoMemory>
    ensures { IfOk result (λ o. asked_of o ≡ demo_asked number) }
{
    let line = demo_line(alloc, number)?;
    match read_order_line(alloc, &line) {
        Ok(order) => Ok(order),
        // It is the line of an order: no other fault can be.
        Err(_) => Err(NoMemory),
    }
}
