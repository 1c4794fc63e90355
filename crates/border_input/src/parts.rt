// An order and a border, read from an object of JSON.
ghost use Rattle.std.specs.Prelude.{◌≡◌, ◌≢◌, ◌⊎◌};
ghost use Rattle.json_value.specs.View.{entries_of, tree_of};
ghost use Rattle.order_rule.specs.Asked.{asked_of};
ghost use Rattle.border_input.specs.Gives.{Gives};
ghost use Rattle.border_input.specs.Reading.{order_part, order_value, request_in, request_of};
ghost use Rattle.border_input.specs.Requests.{requested_of};

use crate::borders::{border_in, border_value};
use crate::fault::RequestFault;
use crate::request::Request;
use exact_json::{Json, JsonTable};
use geo_json::object_in;
use order_reader::pieces::{needed, order_in};
use order_reader::{Member, OrderFault};
use order_rule::Order;
use std::alloc::Global;

/// A refusal of the order.
pub(crate) fn of_order(fault: OrderFault) -> RequestFault
    ensures { (result ≡ RequestFault.NoMemory) ⊎ ((fault ≢ OrderFault.NoMemory) × (result ≡ RequestFault.Order fault)) }
{
    match fault {
        OrderFault::NoMemory => RequestFault::NoMemory,
        fault => RequestFault::Order(fault),
    }
}

fn order_value(table: &JsonTable) -> Result<&Json, RequestFault>
    ensures { Gives (λ v. tree_of v.now) result (order_value (entries_of table.now)) }
{
    match needed(table, Member::Order) {
        Ok(value) => Ok(value),
        Err(fault) => Err(of_order(fault)),
    }
}

fn order_part(alloc: Global, value: &Json) -> Result<Order, RequestFault>
    ensures { Gives asked_of result (order_part (tree_of value.now)) }
{
    match order_in(alloc, value) {
        Ok(order) => Ok(order),
        Err(fault) => Err(of_order(fault)),
    }
}

#[tactic(auto, unfolding(crate::specs::Reading::request_of))]
fn request_of(alloc: Global, table: &JsonTable) -> Result<Request, RequestFault>
    ensures { Gives requested_of result (request_of (entries_of table.now)) }
{
    let order = order_part(alloc, order_value(table)?)?;
    let border = border_in(alloc, border_value(table)?)?;
    Ok(Request { order, border })
}

/// The order and the border of an object with both.
#[tactic(auto, unfolding(crate::specs::Reading::request_in))]
pub(crate) fn request_in(alloc: Global, value: &Json) -> Result<Request, RequestFault>
    ensures { Gives requested_of result (request_in (tree_of value.now)) }
{
    let Some(table) = object_in(value) else {
        return Err(RequestFault::Order(OrderFault::Kind(Member::Order)));
    };
    request_of(alloc, table)
}
