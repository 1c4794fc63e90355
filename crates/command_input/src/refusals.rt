// The lines that say why an input is no order, no covering or no calendar.
ghost use Rattle.std.specs.Prelude.{◌≡◌, IfOk, string_bytes};
ghost use Rattle.command_input.specs.Refusals.{calendar_line, covering_line, fault_text, json_detail, region_detail, detail_of, refusal_line};

use exact_json::JsonFault;
use ical_text::IcalFault;
use order_reader::{OrderFault, member_word};
use region::RegionFault;
use std::alloc::{AllocError, Global};

#[tactic(auto, unfolding(crate::specs::Refusals::json_detail))]
fn json_detail(alloc: Global, fault: JsonFault) -> Result<String, AllocError>
    ensures { IfOk result (λ text. string_bytes text ≡ json_detail fault) }
{
    match fault {
        JsonFault::NotJson(place) => format!(in alloc; "1 json 1 at {place}"),
        JsonFault::TooDeep(place) => format!(in alloc; "1 json 2 at {place}"),
        JsonFault::LongNumber(place) => format!(in alloc; "1 json 3 at {place}"),
        JsonFault::NoMemory => format!(in alloc; ""),
    }
}

/// What a line says of polygons that are no district.
#[tactic(auto, unfolding(crate::specs::Refusals::region_detail))]
pub fn region_detail(alloc: Global, fault: RegionFault) -> Result<String, AllocError>
    ensures { IfOk result (λ text. string_bytes text ≡ region_detail fault) }
{
    match fault {
        RegionFault::Short(ring) => format!(in alloc; "7 region 1 ring {ring}"),
        RegionFault::Open(ring) => format!(in alloc; "7 region 2 ring {ring}"),
        RegionFault::TooMany => format!(in alloc; "7 region 3"),
        RegionFault::TooWide => format!(in alloc; "7 region 4"),
        RegionFault::TooFar => format!(in alloc; "7 region 5"),
        RegionFault::NoPolygon => format!(in alloc; "7 region 6"),
        RegionFault::NoMemory => format!(in alloc; ""),
    }
}

#[tactic(auto, unfolding(crate::specs::Refusals::detail_of))]
fn detail(alloc: Global, fault: OrderFault) -> Result<String, AllocError>
    ensures { IfOk result (λ text. string_bytes text ≡ detail_of fault) }
{
    match fault {
        OrderFault::Json(fault) => json_detail(alloc, fault),
        OrderFault::Missing(member) => {
            let word = member_word(member);
            format!(in alloc; "2 missing {word}")
        }
        OrderFault::Twice(member) => {
            let word = member_word(member);
            format!(in alloc; "3 twice {word}")
        }
        OrderFault::Kind(member) => {
            let word = member_word(member);
            format!(in alloc; "4 kind {word}")
        }
        OrderFault::Range(member) => {
            let word = member_word(member);
            format!(in alloc; "5 range {word}")
        }
        OrderFault::Geometry => format!(in alloc; "6 geometry"),
        OrderFault::Region(fault) => region_detail(alloc, fault),
        OrderFault::NoMemory => format!(in alloc; ""),
    }
}

/// The line for an order's first refusal.
#[tactic(auto, unfolding(crate::specs::Refusals::refusal_line))]
pub fn refusal_line(alloc: Global, fault: OrderFault) -> Result<String, AllocError>
    ensures { IfOk result (λ text. string_bytes text ≡ refusal_line fault) }
{
    let detail = detail(alloc, fault)?;
    format!(in alloc; "order refused {detail}\n")
}

/// The line for the first refusal of a covering's first line.
#[tactic(auto, unfolding(crate::specs::Refusals::covering_line))]
pub(crate) fn covering_line(alloc: Global, fault: OrderFault) -> Result<String, AllocError>
    ensures { IfOk result (λ text. string_bytes text ≡ covering_line fault) }
{
    let detail = detail(alloc, fault)?;
    format!(in alloc; "cover refused line 1 order {detail}\n")
}

#[tactic(auto, unfolding(crate::specs::Refusals::fault_text))]
fn fault_text(alloc: Global, fault: IcalFault) -> Result<String, AllocError>
    ensures { IfOk result (λ text. string_bytes text ≡ fault_text fault) }
{
    match fault {
        IcalFault::NotLine(line) => format!(in alloc; "{line} fault 1"),
        IcalFault::Frame(line) => format!(in alloc; "{line} fault 2"),
        IcalFault::Event(line) => format!(in alloc; "{line} fault 3"),
        IcalFault::NoMemory => format!(in alloc; ""),
    }
}

/// The line for a calendar's first fault.
#[tactic(auto, unfolding(crate::specs::Refusals::calendar_line))]
pub(crate) fn calendar_line(alloc: Global, fault: IcalFault) -> Result<String, AllocError>
    ensures { IfOk result (λ text. string_bytes text ≡ calendar_line fault) }
{
    let fault = fault_text(alloc, fault)?;
    format!(in alloc; "ical refused line {fault}\n")
}
