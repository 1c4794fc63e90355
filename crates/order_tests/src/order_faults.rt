// Refusals of orders and of sets as texts.
use exact_json::JsonFault;
use order_reader::{OrderFault, member_word};
use region::RegionFault;
use std::alloc::{AllocError, Global};

fn region_text(alloc: Global, fault: RegionFault) -> Result<String, AllocError> {
    match fault {
        RegionFault::Short(ring) => format!(in alloc; "region 1 ring {ring}"),
        RegionFault::Open(ring) => format!(in alloc; "region 2 ring {ring}"),
        RegionFault::TooMany => String::from_str(alloc, "region 3"),
        RegionFault::TooWide => String::from_str(alloc, "region 4"),
        RegionFault::TooFar => String::from_str(alloc, "region 5"),
        RegionFault::NoPolygon => String::from_str(alloc, "region 6"),
        RegionFault::NoMemory => String::from_str(alloc, "no memory"),
    }
}

fn json_text(alloc: Global, fault: JsonFault) -> Result<String, AllocError> {
    match fault {
        JsonFault::NotJson(place) => format!(in alloc; "json 1 at {place}"),
        JsonFault::TooDeep(place) => format!(in alloc; "json 2 at {place}"),
        JsonFault::LongNumber(place) => format!(in alloc; "json 3 at {place}"),
        JsonFault::NoMemory => String::from_str(alloc, "no memory"),
    }
}

pub(crate) fn fault_text(alloc: Global, fault: OrderFault) -> Result<String, AllocError> {
    let (word, member) = match fault {
        OrderFault::Json(fault) => return json_text(alloc, fault),
        OrderFault::Region(fault) => return region_text(alloc, fault),
        OrderFault::Geometry => return String::from_str(alloc, "geometry"),
        OrderFault::NoMemory => return String::from_str(alloc, "no memory"),
        OrderFault::Missing(member) => ("missing", member),
        OrderFault::Twice(member) => ("twice", member),
        OrderFault::Kind(member) => ("kind", member),
        OrderFault::Range(member) => ("range", member),
    };
    let member = member_word(member);
    format!(in alloc; "{word} {member}")
}
