// The verdict on an order and a border, written.
ghost use Rattle.std.specs.Prelude.{◌≡◌, IfOk, string_bytes};
ghost use Rattle.outcome.specs.Writing.{Writes};
ghost use Rattle.border_answer.specs.Ended.{IsSound};
ghost use Rattle.border_answer.specs.Verdict.{found_for, named_by, verdict_text};
ghost use Rattle.border_input.specs.Requests.{requested_of};

use border_check::{Square, first_unsettled};
use border_input::Request;
use outcome::{Stop, write_text};
use source_sink::Sink;
use std::alloc::{AllocError, Global};

#[tactic(auto, unfolding(crate::specs::Verdict::verdict_text))]
fn text(alloc: Global, found: Option<Square>) -> Result<String, AllocError>
    ensures { IfOk result (λ text. string_bytes text ≡ verdict_text found) }
{
    match found {
        None => String::from_str(alloc, "holds\n"),
        Some(s) => {
            let x = s.x;
            let y = s.y;
            let size = s.size;
            format!(in alloc; "not shown cell {x} {y} size {size}\n")
        }
    }
}

fn named_by(found: Option<Square>) -> u32
    ensures { result ≡ named_by found }
{
    match found {
        None => 0,
        Some(_) => 1,
    }
}

/// An order and a border that were read keep the rules of their types. The call does nothing.
pub(crate) fn are_sound(request: &Request)
    ensures { IsSound (requested_of request.now) }
{
    request.border.has_no_fault();
    request.order.district.has_no_fault();
}

/// Writes whether the order's district holds the border; answers how many squares are named.
pub(crate) fn write_verdict<K: Sink>(
    alloc: Global,
    request: &Request,
    out: &mut K,
) -> Result<u32, Stop>
    ensures writes { Writes (verdict_text (found_for (requested_of request.now))) result
        (K.faults out.old) (K.faults out.new) (K.held out.old) (K.held out.new) }
    ensures count { IfOk result (λ count. count ≡ named_by (found_for (requested_of request.now))) }
{
    let Ok(found) = first_unsettled(alloc, &request.border, &request.order.district) else {
        return Err(Stop::NoMemory);
    };
    let Ok(text) = text(alloc, found) else {
        return Err(Stop::NoMemory);
    };
    write_text(out, text.as_bytes(), named_by(found))
}
