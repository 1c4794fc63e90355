// The canonical line of an order.
ghost use Rattle.std.specs.Prelude.{◌≡◌, ◌<◌, ◌≤◌, ◌≤ℤ◌, ◌++◌, IfOk, OnOk, length, slice_index_or, [], true, Some};
ghost use Rattle.std.specs.List.{list_all};
ghost use Rattle.std.specs.String.{string_bytes};
ghost use Rattle.year_table.specs.Dates.{date_text};
ghost use Rattle.order_rule.specs.Asked.{asked_of};
ghost use Rattle.order_rule.specs.Late.{is_range};
ghost use Rattle.order_rule.specs.Offsets.{first_day, last_day};
ghost use Rattle.order_text.specs.Line.{is_plain, version_of, version_text, days_text, span_text, height_text, sun_text, night_text, second_text, third_text, extras_by, zone_text, words_by, words_text, range_text, items_text, list_text, comma_before, position_text, ring_text, polygon_text, district_text, order_line};

use method_table::{Asr, Method, SunChoice, asr_word, method_word, sun_word};
use night_rule::{NightRule, night_word};
use no_memory::NoMemory;
use order_rule::Order;
use region::District;
use std::alloc::Global;
use year_table::{Zone, date_text};

/// The canonical line of an order, with its LF: the order's one text, which `read_order_line` reads
/// again without the LF.
#[tactic(auto, unfolding(crate::specs::Line::order_body))]
pub fn order_line(alloc: Global, o: &Order) -> Result<Vec<u8>, NoMemory>
    ensures { IfOk result (λ t. t.items ≡ order_line (asked_of o.now)) }
{
    let mut line = Vec::new(alloc);
    let version = version_of(o);
    push_front(alloc, &mut line, o, version)?;
    push_words(alloc, &mut line, o.method, o.asr, &o.zone)?;
    push_extras(alloc, &mut line, o, version)?;
    append(&mut line, ",\"district\":")?;
    push_district(alloc, &mut line, &o.district)?;
    append(&mut line, "}\n")?;
    Ok(line)
}

/// Writes a text.
pub fn append(line: &mut Vec<u8>, text: &str) -> Result<(), NoMemory>
    ensures { OnOk result (line.new.items ≡ line.old.items ++ text.now) }
{
    line.extend_from_slice(text.as_bytes())?;
    Ok(())
}

fn push_date(alloc: Global, line: &mut Vec<u8>, day: i32) -> Result<(), NoMemory>
    requires not_early { first_day ≤ℤ day }
    requires not_late { day ≤ℤ last_day }
    ensures { OnOk result (line.new.items ≡ line.old.items ++ date_text day) }
{
    let date = date_text(alloc, day)?;
    line.extend_from_slice(date.as_slice())?;
    Ok(())
}

fn is_plain(o: &Order) -> bool
    ensures { result ≡ is_plain o.now.height o.now.late }
{
    o.height == 0 && o.late.pairs().is_empty()
}

fn version_of(o: &Order) -> u32
    ensures { result ≡ version_of (asked_of o.now) }
{
    match (o.sun, o.night) {
        (_, Some(_)) => 4,
        (SunChoice::Meeus, None) => 3,
        (SunChoice::Usno, None) if is_plain(o) => 1,
        (SunChoice::Usno, None) => 2,
    }
}

/// Writes the version, the first day and the number of days.
pub fn push_span(
    alloc: Global,
    line: &mut Vec<u8>,
    version: u32,
    from_day: i32,
    days: u32,
) -> Result<(), NoMemory>
    requires not_early { first_day ≤ℤ from_day }
    requires not_late { from_day ≤ℤ last_day }
    ensures { OnOk result (line.new.items ≡ line.old.items ++ span_text version from_day days) }
{
    let version = version_string(alloc, version)?;
    let days = days_string(alloc, days)?;
    append(line, version.as_str())?;
    push_date(alloc, line, from_day)?;
    append(line, days.as_str())?;
    Ok(())
}

// the same of an order
fn push_front(alloc: Global, line: &mut Vec<u8>, o: &Order, version: u32) -> Result<(), NoMemory>
    ensures { OnOk result (line.new.items ≡ line.old.items ++ span_text version o.now.from_day o.now.days) }
{
    push_span(alloc, line, version, o.from_day, o.days)
}

fn version_string(alloc: Global, version: u32) -> Result<String, NoMemory>
    ensures { IfOk result (λ s. string_bytes s ≡ version_text version) }
{
    Ok(format!(in alloc; "{{\"version\":{version},\"from\":\"")?)
}

fn days_string(alloc: Global, days: u32) -> Result<String, NoMemory>
    ensures { IfOk result (λ s. string_bytes s ≡ days_text days) }
{
    Ok(format!(in alloc; "\",\"days\":{days}")?)
}

/// Writes the method, the factor of Asr and the zone.
pub fn push_words(
    alloc: Global,
    line: &mut Vec<u8>,
    method: Method,
    asr: Asr,
    zone: &Zone,
) -> Result<(), NoMemory>
    ensures { OnOk result (line.new.items ≡ line.old.items ++ words_text method asr zone.now) }
{
    let zone = zone_string(alloc, zone)?;
    let words = words_string(alloc, method_word(method), asr_word(asr), zone.as_str())?;
    append(line, words.as_str())
}

fn words_string(alloc: Global, method: &str, asr: &str, zone: &str) -> Result<String, NoMemory>
    ensures { IfOk result (λ s. string_bytes s ≡ words_by method.now asr.now zone.now) }
{
    Ok(format!(in alloc; ",\"method\":\"{method}\",\"asr\":\"{asr}\",\"zone\":{zone}")?)
}

fn zone_string(alloc: Global, zone: &Zone) -> Result<String, NoMemory>
    ensures { IfOk result (λ s. string_bytes s ≡ zone_text zone.now) }
{
    match zone {
        Zone::Fixed { minutes } => Ok(minutes.to_string(alloc)?),
        Zone::Rule { rule } => Ok(format!(in alloc; "\"{}\"", rule.rule_text())?),
    }
}

fn push_second(alloc: Global, line: &mut Vec<u8>, o: &Order, version: u32) -> Result<(), NoMemory>
    ensures { OnOk result (line.new.items ≡ line.old.items ++ second_text version o.now.height o.now.late) }
{
    if version < 2 {
        return Ok(());
    }
    let height = height_string(alloc, o.height)?;
    append(line, height.as_str())?;
    push_late(alloc, line, o.late.pairs())?;
    Ok(())
}

fn push_third(
    alloc: Global,
    line: &mut Vec<u8>,
    sun: SunChoice,
    version: u32,
) -> Result<(), NoMemory>
    ensures { OnOk result (line.new.items ≡ line.old.items ++ third_text version sun) }
{
    if version < 3 {
        return Ok(());
    }
    let sun = sun_string(alloc, sun)?;
    append(line, sun.as_str())
}

fn push_night(alloc: Global, line: &mut Vec<u8>, night: Option<NightRule>) -> Result<(), NoMemory>
    ensures { OnOk result (line.new.items ≡ line.old.items ++ night_text night) }
{
    let Some(rule) = night else {
        return Ok(());
    };
    let night = night_string(alloc, rule)?;
    append(line, night.as_str())
}

fn push_extras(alloc: Global, line: &mut Vec<u8>, o: &Order, version: u32) -> Result<(), NoMemory>
    ensures { OnOk result (line.new.items ≡ line.old.items ++ extras_by version (asked_of o.now)) }
{
    push_second(alloc, line, o, version)?;
    push_third(alloc, line, o.sun, version)?;
    push_night(alloc, line, o.night)?;
    Ok(())
}

fn sun_string(alloc: Global, sun: SunChoice) -> Result<String, NoMemory>
    ensures { IfOk result (λ s. string_bytes s ≡ sun_text sun) }
{
    Ok(format!(in alloc; ",\"sun\":\"{}\"", sun_word(sun))?)
}

fn night_string(alloc: Global, rule: NightRule) -> Result<String, NoMemory>
    ensures { IfOk result (λ s. string_bytes s ≡ night_text (Some rule)) }
{
    Ok(format!(in alloc; ",\"night\":\"{}\"", night_word(rule))?)
}

fn height_string(alloc: Global, height: u32) -> Result<String, NoMemory>
    ensures { IfOk result (λ s. string_bytes s ≡ height_text height) }
{
    Ok(format!(in alloc; ",\"height\":{height},\"late_isha\":")?)
}

/// Writes the comma before the item that so many precede, if any does.
pub fn push_comma(line: &mut Vec<u8>, i: usize) -> Result<(), NoMemory>
    ensures { OnOk result (line.new.items ≡ line.old.items ++ comma_before i) }
{
    if i > 0 { append(line, ",") } else { Ok(()) }
}

fn push_range(alloc: Global, line: &mut Vec<u8>, range: (i32, i32)) -> Result<(), NoMemory>
    requires { is_range range ≡ true }
    ensures { OnOk result (line.new.items ≡ line.old.items ++ range_text range) }
{
    append(line, "[\"")?;
    push_date(alloc, line, range.0)?;
    append(line, "\",\"")?;
    push_date(alloc, line, range.1)?;
    append(line, "\"]")?;
    Ok(())
}

fn push_ranges(alloc: Global, line: &mut Vec<u8>, ranges: &[(i32, i32)]) -> Result<(), NoMemory>
    requires { list_all is_range ranges.now ≡ true }
    ensures { OnOk result (line.new.items ≡ line.old.items ++ items_text range_text ranges.now) }
{
    for (i, range) in ranges.iter().enumerate() {
        push_comma(line, i)?;
        push_range(alloc, line, *range)?;
    }
    Ok(())
}

fn push_late(alloc: Global, line: &mut Vec<u8>, ranges: &[(i32, i32)]) -> Result<(), NoMemory>
    requires { list_all is_range ranges.now ≡ true }
    ensures { OnOk result (line.new.items ≡ line.old.items ++ list_text range_text ranges.now) }
{
    append(line, "[")?;
    push_ranges(alloc, line, ranges)?;
    append(line, "]")
}

/// Writes a longitude and a latitude, in microdegrees.
pub fn push_position(alloc: Global, line: &mut Vec<u8>, p: (i64, i64)) -> Result<(), NoMemory>
    ensures { OnOk result (line.new.items ≡ line.old.items ++ position_text p) }
{
    append(line, format!(in alloc; "[{},{}]", p.0, p.1)?.as_str())
}

fn push_positions(
    alloc: Global,
    line: &mut Vec<u8>,
    district: &District,
    polygon: usize,
    ring: usize,
) -> Result<(), NoMemory>
    requires polygon { polygon < length district.now }
    requires ring { ring < length (slice_index_or district.now polygon []) }
    ensures { OnOk result (line.new.items ≡ line.old.items ++ items_text position_text (slice_index_or (slice_index_or district.now polygon []) ring [])) }
{
    for i in 0..district.position_count(polygon, ring) {
        push_comma(line, i)?;
        push_position(alloc, line, district.position(polygon, ring, i))?;
    }
    Ok(())
}

fn push_ring(
    alloc: Global,
    line: &mut Vec<u8>,
    district: &District,
    polygon: usize,
    ring: usize,
) -> Result<(), NoMemory>
    requires polygon { polygon < length district.now }
    requires ring { ring < length (slice_index_or district.now polygon []) }
    ensures { OnOk result (line.new.items ≡ line.old.items ++ ring_text (slice_index_or (slice_index_or district.now polygon []) ring [])) }
{
    append(line, "[")?;
    push_positions(alloc, line, district, polygon, ring)?;
    append(line, "]")
}

fn push_rings(
    alloc: Global,
    line: &mut Vec<u8>,
    district: &District,
    polygon: usize,
) -> Result<(), NoMemory>
    requires { polygon < length district.now }
    ensures { OnOk result (line.new.items ≡ line.old.items ++ items_text ring_text (slice_index_or district.now polygon [])) }
{
    for i in 0..district.ring_count(polygon) {
        push_comma(line, i)?;
        push_ring(alloc, line, district, polygon, i)?;
    }
    Ok(())
}

fn push_polygon(
    alloc: Global,
    line: &mut Vec<u8>,
    district: &District,
    polygon: usize,
) -> Result<(), NoMemory>
    requires { polygon < length district.now }
    ensures { OnOk result (line.new.items ≡ line.old.items ++ polygon_text (slice_index_or district.now polygon [])) }
{
    append(line, "[")?;
    push_rings(alloc, line, district, polygon)?;
    append(line, "]")
}

fn push_polygons(alloc: Global, line: &mut Vec<u8>, district: &District) -> Result<(), NoMemory>
    ensures { OnOk result (line.new.items ≡ line.old.items ++ items_text polygon_text district.now) }
{
    for i in 0..district.polygon_count() {
        push_comma(line, i)?;
        push_polygon(alloc, line, district, i)?;
    }
    Ok(())
}

fn push_district(alloc: Global, line: &mut Vec<u8>, district: &District) -> Result<(), NoMemory>
    ensures { OnOk result (line.new.items ≡ line.old.items ++ district_text district.now) }
{
    append(line, "[")?;
    push_polygons(alloc, line, district)?;
    append(line, "]")
}
