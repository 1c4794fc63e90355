//! A whole text.

ghost use Rattle.std.specs.Prelude.{◌≡◌, ◌<◌, ◌+◌, ◌^◌, true, length, IfOk, IfErr, MatchOption, MatchResult, Ok, Err, ◌⊎◌};
ghost use Rattle.exact_json.specs.Advance.{Goes, IsShort, IsSound, Passes, Stops};
ghost use Rattle.exact_json.specs.Grammar.{IsJsonWithin};
ghost use Rattle.json_value.specs.Machine.{start};
ghost use Rattle.exact_json.specs.Runs.{is_within, run_within};
ghost use Rattle.exact_json.specs.Read.{IsFaultOf};
ghost use Rattle.exact_json.specs.Readings.{Reading};
ghost use Rattle.json_value.specs.Seen.{seen_with, IsReady};
ghost use Rattle.json_value.specs.Tree.{Tree};
ghost use Rattle.json_value.specs.View.{tree_of};

use crate::fault::JsonFault;
use json_value::{Json, Machine, Next, finish, step};
use std::alloc::Global;

/// The limit that the byte at the place passes.
fn passed_limit(machine: &Machine, next: &Next<'_>, place: u64) -> Option<JsonFault>
    requires small { place + 1 < 2 ^ 64 }
    requires short { IsShort machine.now next.now (place + 1) }
    ensures { MatchOption result (is_within (seen_with machine.now next.now) ≡ true) (λ fault. Passes (seen_with machine.now next.now) place fault) }
{
    match next {
        Next::FirstItem | Next::FirstName if machine.frames.len() >= 64 => {
            Some(JsonFault::TooDeep(place))
        }
        Next::Number(_) if machine.numeral.length > 64 => {
            Some(JsonFault::LongNumber(place + 1 - machine.numeral.length))
        }
        _ => None,
    }
}

/// One byte more, within the limits.
fn advance<'a>(
    alloc: Global,
    machine: &mut Machine,
    next: Next<'a>,
    b: u8,
    place: u64,
) -> Result<Next<'a>, JsonFault>
    requires ready { IsReady machine.old next }
    requires small { place + 1 < 2 ^ 64 }
    requires short { IsShort machine.old next place }
    requires formed { IsSound (seen_with machine.old next) }
    ensures ok { IfOk result (λ n. Goes (seen_with machine.old next.entry) b (seen_with machine.new n)) }
    ensures err { IfErr result (λ fault. Stops (seen_with machine.old next.entry) b place fault) }
{
    let Some(next) = step(alloc, machine, next, b)? else {
        return Err(JsonFault::NotJson(place));
    };
    match passed_limit(machine, &next, place) {
        Some(fault) => Err(fault),
        None => Ok(next),
    }
}

/// The bytes have ended.
fn conclude(
    alloc: Global,
    machine: &mut Machine,
    next: Next<'_>,
    bytes: &[u8],
) -> Result<Json, JsonFault>
    requires { run_within start bytes.now ≡ Some (seen_with machine.old next) }
    ensures ok { IfOk result (λ v. IsJsonWithin (tree_of v) bytes.now) }
    ensures only { IfOk result (λ v. (t : Tree) → IsJsonWithin t bytes.now → t ≡ tree_of v) }
    ensures refused { IfErr result (λ fault. (t : Tree) → IsJsonWithin t bytes.now → fault ≡ JsonFault.NoMemory) }
    ensures fault { IfErr result (IsFaultOf bytes.now) }
{
    let found = finish(alloc, machine, next)?;
    match found {
        Some(value) => Ok(value),
        None => Err(JsonFault::NotJson(bytes.len() as u64)),
    }
}

/// Reads a JSON text (RFC 8259) in UTF-8. One byte order mark may lead it; an escaped surrogate stands only in
/// a pair, high then low. At most 64 lists and tables stand inside each other, and a number has at most 64 bytes.
pub fn read(alloc: Global, bytes: &[u8]) -> Result<Json, JsonFault>
    // `Ok` is the tree of a text within the limits, which has no other tree.
    ensures ok { IfOk result (λ v. IsJsonWithin (tree_of v) bytes.now) }
    ensures only { IfOk result (λ v. (t : Tree) → IsJsonWithin t bytes.now → t ≡ tree_of v) }
    // A text within the limits is refused for want of memory alone.
    ensures refused { IfErr result (λ fault. (t : Tree) → IsJsonWithin t bytes.now → fault ≡ JsonFault.NoMemory) }
    // Each other fault is the first, and its place exact.
    ensures fault { IfErr result (IsFaultOf bytes.now) }
    // But for want of memory, the answer is what the bytes are as JSON.
    ensures reading { MatchResult result (λ v. Reading bytes.now (Ok (tree_of v))) (λ fault. (fault ≡ JsonFault.NoMemory) ⊎ Reading bytes.now (Err fault)) }
{
    let mut machine = Machine::new(alloc);
    let mut next = Next::Start;
    for (place, b) in bytes.iter().enumerate() {
        next = match advance(alloc, &mut machine, next, *b, place as u64) {
            Ok(next) => next,
            Err(fault) => return Err(fault),
        };
    }
    conclude(alloc, &mut machine, next, bytes)
}
