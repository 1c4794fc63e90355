// Orders with a border, read from JSON.
ghost use Rattle.std.specs.Prelude.{◌≡◌, ◌⊎◌, Ok, Err, IfOk, IfErr};
ghost use Rattle.border_input.specs.Reads.{ReadsRequest, json_refusal};
ghost use Rattle.border_input.specs.Requests.{requested_of};

use crate::fault::RequestFault;
use crate::parts::request_in;
use crate::request::Request;
use exact_json::{JsonFault, read};
use order_reader::OrderFault;
use std::alloc::Global;

fn json_refusal(fault: JsonFault) -> RequestFault
    ensures { result ≡ json_refusal fault }
{
    match fault {
        JsonFault::NoMemory => RequestFault::NoMemory,
        _ => RequestFault::Order(OrderFault::Json(fault)),
    }
}

/// Reads an order and a border: a JSON text within its limits whose value is an object with the members `order` and
/// `border`, each once; other members are passed over. The border is in one of the forms of a district, and its
/// coordinates are rounded as an order's. The answer is both, or the first refusal: of the text, of the order,
/// of the border.
pub fn read_request(alloc: Global, bytes: &[u8]) -> Result<Request, RequestFault>
    // `Ok` is what the bytes spell.
    ensures ok { IfOk result (λ r. ReadsRequest bytes.now (Ok (requested_of r))) }
    // A refusal is the first one, or memory was not found.
    ensures fault { IfErr result (λ fault. (fault ≡ RequestFault.NoMemory) ⊎ ReadsRequest bytes.now (Err fault)) }
{
    match read(alloc, bytes) {
        Ok(value) => request_in(alloc, &value),
        Err(fault) => Err(json_refusal(fault)),
    }
}
