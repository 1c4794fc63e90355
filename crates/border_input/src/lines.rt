// The lines that say why an input is no order with a border.
ghost use Rattle.std.specs.Prelude.{◌≡◌, IfOk, string_bytes};
ghost use Rattle.border_input.specs.Lines.{border_detail, border_line, request_line};

use crate::fault::{BorderFault, RequestFault};
use command_input::{refusal_line, region_detail};
use std::alloc::{AllocError, Global};

#[tactic(auto, unfolding(crate::specs::Lines::border_detail))]
fn border_detail(alloc: Global, fault: BorderFault) -> Result<String, AllocError>
    ensures { IfOk result (λ text. string_bytes text ≡ border_detail fault) }
{
    match fault {
        BorderFault::Missing => format!(in alloc; "2 missing border"),
        BorderFault::Twice => format!(in alloc; "3 twice border"),
        BorderFault::Kind => format!(in alloc; "4 kind border"),
        BorderFault::Geometry => format!(in alloc; "6 geometry"),
        BorderFault::Region(fault) => region_detail(alloc, fault),
    }
}

#[tactic(auto, unfolding(crate::specs::Lines::border_line))]
fn border_line(alloc: Global, fault: BorderFault) -> Result<String, AllocError>
    ensures { IfOk result (λ text. string_bytes text ≡ border_line fault) }
{
    let detail = border_detail(alloc, fault)?;
    format!(in alloc; "border refused {detail}\n")
}

/// The line for the first refusal.
#[tactic(auto, unfolding(crate::specs::Lines::request_line))]
pub(crate) fn request_line(alloc: Global, fault: RequestFault) -> Result<String, AllocError>
    ensures { IfOk result (λ text. string_bytes text ≡ request_line fault) }
{
    match fault {
        RequestFault::Order(fault) => refusal_line(alloc, fault),
        RequestFault::Border(fault) => border_line(alloc, fault),
        RequestFault::NoMemory => format!(in alloc; ""),
    }
}
