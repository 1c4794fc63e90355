// Ranges of dates on which Isha is later.
ghost use Rattle.std.specs.Prelude.{◌≡◌, true, IfOk, option_map};
ghost use Rattle.json_value.specs.View.{items_of, tree_of};
ghost use Rattle.order_member.specs.Gives.{Gives};
ghost use Rattle.order_member.specs.Members.{late_in, pair_in, range_of};
ghost use Rattle.ring_survey.specs.Each.{each_of};
ghost use Rattle.order_rule.specs.Late.{may_be_late};

use crate::date::{Ymd, day_of, ymd_in};
use crate::fault::{Member, OrderFault};
use exact_json::{Json, JsonList};
use geo_json::{list_in, text_in};
use method_table::Method;
use no_memory::NoMemory;
use order_rule::{Ranges, may_be_late};
use std::alloc::Global;

// two dates as they are written
fn pair_in(value: &Json) -> Option<(Ymd, Ymd)>
    ensures { result ≡ pair_in (tree_of value.now) }
{
    let list = list_in(value)?;
    if list.count() != 2 {
        return None;
    }
    let first = ymd_in(text_in(list.item(0))?)?;
    let last = ymd_in(text_in(list.item(1))?)?;
    Some((first, last))
}

fn pairs_in(alloc: Global, list: &JsonList) -> Result<Option<Vec<(Ymd, Ymd)>>, NoMemory>
    ensures { IfOk result (λ pairs. option_map (λ v. v.items) pairs ≡ each_of pair_in (items_of list.now)) }
{
    let mut pairs = Vec::new(alloc);
    for i in 0..list.count() {
        match pair_in(list.item(i)) {
            Some(pair) => pairs.push(pair)?,
            None => return Ok(None),
        }
    }
    Ok(Some(pairs))
}

// the days of two dates
fn range_of(pair: (Ymd, Ymd)) -> Option<(i32, i32)>
    ensures { result ≡ range_of pair }
{
    let first = day_of(pair.0)?;
    let last = day_of(pair.1)?;
    Some((first, last))
}

fn ranges_of(alloc: Global, pairs: &[(Ymd, Ymd)]) -> Result<Option<Vec<(i32, i32)>>, NoMemory>
    ensures { IfOk result (λ ranges. option_map (λ v. v.items) ranges ≡ each_of range_of pairs.now) }
{
    let mut ranges = Vec::new(alloc);
    for pair in pairs {
        match range_of(*pair) {
            Some(range) => ranges.push(range)?,
            None => return Ok(None),
        }
    }
    Ok(Some(ranges))
}

/// The ranges of an order of the method.
#[tactic(auto, unfolding(crate::specs::Members::late_in))]
pub fn late_in(alloc: Global, value: &Json, method: Method) -> Result<Ranges, OrderFault>
    ensures given { Gives (λ ranges. ranges) result (late_in method (tree_of value.now)) }
    ensures range { IfOk result (λ ranges. may_be_late method ranges ≡ true) }
{
    let Some(list) = list_in(value) else {
        return Err(OrderFault::Kind(Member::LateIsha));
    };
    let Some(pairs) = pairs_in(alloc, list)? else {
        return Err(OrderFault::Kind(Member::LateIsha));
    };
    match ranges_of(alloc, pairs.as_slice())? {
        Some(ranges) if may_be_late(method, ranges.as_slice()) => Ok(Ranges::new(ranges)),
        _ => Err(OrderFault::Range(Member::LateIsha)),
    }
}
