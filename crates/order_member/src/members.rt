// What the members of an order say.
ghost use Rattle.std.specs.Prelude.{◌≡◌, length, ◌≤◌, ◌≤ℤ◌, ◌+ℤ◌, pos, true, IfOk, Result, option_map};
ghost use Rattle.json_value.specs.View.{tree_of, entries_of};
ghost use Rattle.order_member.specs.Gives.{Gives};
ghost use Rattle.geo_json.specs.Lookup.{list_in, number_in, text_in};
ghost use Rattle.order_member.specs.Members.{asr_in, asr_of, days_in, from_in, height_in, method_in, night_in, offsets_in, rule_in, sun_in, whole_within, zone_in, zone_of_number, zone_of_text};
ghost use Rattle.order_member.specs.Standing.{needed, optional};
ghost use Rattle.order_rule.specs.Offsets.{first_day, is_day, is_zone, last_day, offsets_of};

use crate::date::{day_of, ymd_in};
use crate::fault::{Member, OrderFault, member_word};
use exact_json::{Decimal, Json, JsonTable};
use geo_json::{Found, find_member, list_in, number_in, text_in};
use method_table::{Asr, Method, SunChoice, asr_word, method_of, sun_of};
use night_rule::{NightRule, night_rule_of};
use order_rule::{Offsets, offsets_of};
use std::alloc::Global;
use year_table::{RuleFault, Zone, read_rule};

/// The value of a member that must stand once.
pub fn needed<'a>(table: &'a JsonTable, member: Member) -> Result<&'a Json, OrderFault>
    ensures { Gives (λ v. tree_of v.now) result (needed member (entries_of table.now)) }
{
    match find_member(table, member_word(member)) {
        Found::Absent => Err(OrderFault::Missing(member)),
        Found::Once(value) => Ok(value),
        Found::Again => Err(OrderFault::Twice(member)),
    }
}

/// The value of a member that may stand once.
pub fn optional<'a>(table: &'a JsonTable, member: Member) -> Result<Option<&'a Json>, OrderFault>
    ensures { Gives (option_map (λ v. tree_of v.now)) result (optional member (entries_of table.now)) }
{
    match find_member(table, member_word(member)) {
        Found::Absent => Ok(None),
        Found::Once(value) => Ok(Some(value)),
        Found::Again => Err(OrderFault::Twice(member)),
    }
}

/// A whole number from low to high.
pub fn whole_within(number: &Decimal, low: i64, high: i64) -> Option<i64>
    ensures { result ≡ whole_within low high number.now }
{
    let whole = number.whole()?;
    if low <= whole && whole <= high {
        Some(whole)
    } else {
        None
    }
}

/// The first day, since 1970-01-01, of a date from 1900-01-01 to 2100-12-31.
#[tactic(auto, unfolding(crate::specs::Members::from_in))]
pub fn from_in(value: &Json) -> Result<i32, OrderFault>
    ensures given { Gives (λ day. day) result (from_in (tree_of value.now)) }
    ensures range { IfOk result (λ day. is_day day ≡ true) }
{
    let Some(ymd) = text_in(value).and_then(ymd_in) else {
        return Err(OrderFault::Kind(Member::From));
    };
    match day_of(ymd) {
        Some(day) => Ok(day),
        None => Err(OrderFault::Range(Member::From)),
    }
}

/// How many days, 1 to 366, the last of which is an order's too.
#[tactic(auto, unfolding(crate::specs::Members::days_in))]
pub fn days_in(value: &Json, from_day: i32) -> Result<u32, OrderFault>
    ensures given { Gives (λ days. days) result (days_in from_day (tree_of value.now)) }
    ensures some { IfOk result (λ days. 1 ≤ days) }
    ensures few { IfOk result (λ days. days ≤ 366) }
    ensures not_late { IfOk result (λ days. (from_day +ℤ pos days) ≤ℤ (last_day +ℤ pos 1)) }
{
    let Some(number) = number_in(value) else {
        return Err(OrderFault::Kind(Member::Days));
    };
    match whole_within(number, 1, 366) {
        Some(days) if from_day as i64 + days <= 47_847 => Ok(days as u32),
        _ => Err(OrderFault::Range(Member::Days)),
    }
}

/// The method.
pub fn method_in(value: &Json) -> Result<Method, OrderFault>
    ensures { Gives (λ method. method) result (method_in (tree_of value.now)) }
{
    let Some(word) = text_in(value) else {
        return Err(OrderFault::Kind(Member::Method));
    };
    match method_of(word) {
        Some(method) => Ok(method),
        None => Err(OrderFault::Range(Member::Method)),
    }
}

fn asr_of(word: &str) -> Option<Asr>
    ensures { result ≡ asr_of word.now }
{
    [Asr::Standard, Asr::Hanafi]
        .iter()
        .copied()
        .find(|asr| asr_word(*asr) == word)
}

/// The rule for Asr.
pub fn asr_in(value: &Json) -> Result<Asr, OrderFault>
    ensures { Gives (λ asr. asr) result (asr_in (tree_of value.now)) }
{
    let Some(word) = text_in(value) else {
        return Err(OrderFault::Kind(Member::Asr));
    };
    match asr_of(word) {
        Some(asr) => Ok(asr),
        None => Err(OrderFault::Range(Member::Asr)),
    }
}

// a fixed zone
fn zone_of_number(number: &Decimal) -> Result<Zone, OrderFault>
    ensures given { Gives (λ zone. zone) result (zone_of_number number.now) }
    ensures known { IfOk result (λ zone. is_zone zone ≡ true) }
{
    match whole_within(number, -720, 840) {
        Some(minutes) => Ok(Zone::Fixed {
            minutes: minutes as i32,
        }),
        None => Err(OrderFault::Range(Member::Zone)),
    }
}

// the zone of a rule
fn zone_of_text(alloc: Global, text: &str) -> Result<Zone, OrderFault>
    ensures given { Gives (λ zone. zone) result (zone_of_text text.now) }
    ensures known { IfOk result (λ zone. is_zone zone ≡ true) }
{
    match read_rule(alloc, text) {
        Ok(rule) => Ok(Zone::Rule { rule }),
        Err(RuleFault::NotRule) => Err(OrderFault::Kind(Member::Zone)),
        Err(RuleFault::NoMemory) => Err(OrderFault::NoMemory),
    }
}

/// The zone of the clock: minutes east of Universal Time, -720 to 840, or the text of a rule.
#[tactic(auto, unfolding(crate::specs::Members::zone_in))]
pub fn zone_in(alloc: Global, value: &Json) -> Result<Zone, OrderFault>
    ensures given { Gives (λ zone. zone) result (zone_in (tree_of value.now)) }
    ensures known { IfOk result (λ zone. is_zone zone ≡ true) }
{
    if let Some(number) = number_in(value) {
        return zone_of_number(number);
    }
    match text_in(value) {
        Some(text) => zone_of_text(alloc, text),
        None => Err(OrderFault::Kind(Member::Zone)),
    }
}

/// The offset of each day, in minutes east of Universal Time.
#[tactic(auto, unfolding(crate::specs::Members::offsets_in))]
pub fn offsets_in(
    alloc: Global,
    zone: &Zone,
    from_day: i32,
    days: u32,
) -> Result<Offsets, OrderFault>
    requires not_early { first_day ≤ℤ from_day }
    requires not_late { (from_day +ℤ pos days) ≤ℤ (last_day +ℤ pos 1) }
    ensures given { Gives (λ offsets. offsets) result (offsets_in from_day days zone.now) }
    ensures each { IfOk result (λ offsets. offsets_of zone.now from_day days ≡ Some offsets) }
    ensures count { IfOk result (λ offsets. length offsets ≡ days) }
{
    match offsets_of(alloc, zone, from_day, days)? {
        Some(offsets) => Ok(offsets),
        None => Err(OrderFault::Range(Member::Zone)),
    }
}

/// The height, in metres, 0 to 9,000.
#[tactic(auto, unfolding(crate::specs::Members::height_in))]
pub fn height_in(value: &Json) -> Result<u32, OrderFault>
    ensures given { Gives (λ height. height) result (height_in (tree_of value.now)) }
    ensures low { IfOk result (λ height. height ≤ 9000) }
{
    let Some(number) = number_in(value) else {
        return Err(OrderFault::Kind(Member::Height));
    };
    match whole_within(number, 0, 9_000) {
        Some(height) => Ok(height as u32),
        None => Err(OrderFault::Range(Member::Height)),
    }
}

/// Whose sun the entries are judged by.
pub fn sun_in(value: &Json) -> Result<SunChoice, OrderFault>
    ensures { Gives (λ sun. sun) result (sun_in (tree_of value.now)) }
{
    let Some(word) = text_in(value) else {
        return Err(OrderFault::Kind(Member::Sun));
    };
    match sun_of(word) {
        Some(sun) => Ok(sun),
        None => Err(OrderFault::Range(Member::Sun)),
    }
}

/// The rule for nights of high latitudes.
pub(crate) fn night_in(value: &Json) -> Result<NightRule, OrderFault>
    ensures { Gives (λ rule. rule) result (night_in (tree_of value.now)) }
{
    let Some(word) = text_in(value) else {
        return Err(OrderFault::Kind(Member::Night));
    };
    match night_rule_of(word) {
        Some(rule) => Ok(rule),
        None => Err(OrderFault::Range(Member::Night)),
    }
}

/// The same, where a rule may be lacking.
pub fn rule_in(value: &Json) -> Result<Option<NightRule>, OrderFault>
    ensures { Gives (λ night. night) result (rule_in (tree_of value.now)) }
{
    Ok(Some(night_in(value)?))
}
