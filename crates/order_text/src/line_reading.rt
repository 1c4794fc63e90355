// Canonical lines, read again.
ghost use Rattle.std.specs.Prelude.{◌≡◌, ◌⊎◌, ◌≤◌, true, [], None, Ok, Err, IfOk, IfErr};
ghost use Rattle.json_value.specs.View.{entries_of, tree_of};
ghost use Rattle.order_member.specs.Gives.{Gives};
ghost use Rattle.order_member.specs.Members.{height_in, late_in, rule_in, sun_in};
ghost use Rattle.order_reader.specs.Parts.{extras_view};
ghost use Rattle.order_member.specs.declared.fault.Member.TheVariants as members;
ghost use Rattle.order_rule.specs.Asked.{asked_of};
ghost use Rattle.order_rule.specs.Late.{may_be_late};
ghost use Rattle.order_text.specs.LineReading.{ReadsLine, line_district, line_extras_of, line_order_in, line_order_of, since, version_in};
ghost use Rattle.method_table.specs.declared.sun.SunChoice.TheVariants.{Usno};

use exact_json::{Json, JsonTable, read};
use geo_json::{GeometryFault, list_in, number_in, object_in, read_line_district};
use method_table::{Method, SunChoice};
use night_rule::NightRule;
use order_reader::pieces::{
    Extras, basis_of, district_of, height_in, json_refusal, late_in, needed, order_with, rule_in,
    sun_in, whole_within,
};
use order_reader::{Member, OrderFault};
use order_rule::{Order, Ranges};
use region::District;
use std::alloc::Global;

// the version of a line, 1 to 4
#[tactic(auto, unfolding(crate::specs::LineReading::version_in))]
fn version_in(value: &Json) -> Result<u32, OrderFault>
    ensures { Gives (λ version. version) result (version_in (tree_of value.now)) }
{
    let Some(number) = number_in(value) else {
        return Err(OrderFault::Kind(Member::Version));
    };
    match whole_within(number, 1, 4) {
        Some(version) => Ok(version as u32),
        None => Err(OrderFault::Range(Member::Version)),
    }
}

fn height_of(table: &JsonTable, version: u32) -> Result<u32, OrderFault>
    ensures given { Gives (λ height. height) result (since 2 members.Height 0 height_in version (entries_of table.now)) }
    ensures low { IfOk result (λ height. height ≤ 9000) }
{
    if version < 2 {
        return Ok(0);
    }
    height_in(needed(table, Member::Height)?)
}

fn late_of(
    alloc: Global,
    table: &JsonTable,
    version: u32,
    method: Method,
) -> Result<Ranges, OrderFault>
    ensures given { Gives (λ late. late) result (since 2 members.LateIsha [] (late_in method) version (entries_of table.now)) }
    ensures range { IfOk result (λ late. may_be_late method late ≡ true) }
{
    if version < 2 {
        return Ok(Ranges::new(Vec::new(alloc)));
    }
    late_in(alloc, needed(table, Member::LateIsha)?, method)
}

fn sun_of(table: &JsonTable, version: u32) -> Result<SunChoice, OrderFault>
    ensures { Gives (λ sun. sun) result (since 3 members.Sun Usno sun_in version (entries_of table.now)) }
{
    if version < 3 {
        return Ok(SunChoice::Usno);
    }
    sun_in(needed(table, Member::Sun)?)
}

fn night_of(table: &JsonTable, version: u32) -> Result<Option<NightRule>, OrderFault>
    ensures { Gives (λ night. night) result (since 4 members.Night None rule_in version (entries_of table.now)) }
{
    if version < 4 {
        return Ok(None);
    }
    rule_in(needed(table, Member::Night)?)
}

// the members that the first version lacks
#[tactic(auto, unfolding(crate::specs::LineReading::line_extras_of))]
fn extras_of(
    alloc: Global,
    table: &JsonTable,
    version: u32,
    method: Method,
) -> Result<Extras, OrderFault>
    ensures given { Gives extras_view result (line_extras_of version method (entries_of table.now)) }
    ensures late { IfOk result (λ x. may_be_late method x.late ≡ true) }
{
    let height = height_of(table, version)?;
    let late = late_of(alloc, table, version, method)?;
    let sun = sun_of(table, version)?;
    let night = night_of(table, version)?;
    Ok(Extras {
        height,
        late,
        sun,
        night,
    })
}

#[tactic(auto, unfolding(crate::specs::LineReading::line_district))]
fn district_in(alloc: Global, value: &Json) -> Result<District, OrderFault>
    ensures { Gives (λ district. district) result (line_district (tree_of value.now)) }
{
    let Some(list) = list_in(value) else {
        return Err(OrderFault::Kind(Member::District));
    };
    match read_line_district(alloc, list) {
        Ok(polygons) => district_of(alloc, polygons),
        Err(GeometryFault::NotGeometry) => Err(OrderFault::Geometry),
        Err(GeometryFault::NoMemory) => Err(OrderFault::NoMemory),
    }
}

#[tactic(auto, unfolding(crate::specs::LineReading::line_order_of))]
fn order_of(alloc: Global, table: &JsonTable) -> Result<Order, OrderFault>
    ensures { Gives asked_of result (line_order_of (entries_of table.now)) }
{
    let version = version_in(needed(table, Member::Version)?)?;
    let basis = basis_of(alloc, table)?;
    let extras = extras_of(alloc, table, version, basis.method)?;
    let district = district_in(alloc, needed(table, Member::District)?)?;
    Ok(order_with(basis, extras, district))
}

#[tactic(auto, unfolding(crate::specs::LineReading::line_order_in))]
fn order_in(alloc: Global, value: &Json) -> Result<Order, OrderFault>
    ensures { Gives asked_of result (line_order_in (tree_of value.now)) }
{
    let Some(table) = object_in(value) else {
        return Err(OrderFault::Kind(Member::Order));
    };
    order_of(alloc, table)
}

/// Reads a canonical line without its LF, its members in any order and spelling: `version`, which is
/// from 1 to 4, then `from`, `days`, `method`, `asr`, `zone`, from version 2 on `height` and
/// `late_isha`, from version 3 on `sun`, in version 4 `night`, and `district`, a list of polygons, rings
/// and positions of exactly two whole numbers, in microdegrees. Each stands once, other members are
/// passed over, and the faults are those of an order.
pub fn read_order_line(alloc: Global, bytes: &[u8]) -> Result<Order, OrderFault>
    // `Ok` is the order that the line spells.
    ensures ok { IfOk result (λ o. ReadsLine bytes.now (Ok (asked_of o))) }
    // A refusal is the first one, or memory was not found.
    ensures fault { IfErr result (λ fault. (fault ≡ OrderFault.NoMemory) ⊎ ReadsLine bytes.now (Err fault)) }
{
    match read(alloc, bytes) {
        Ok(value) => order_in(alloc, &value),
        Err(fault) => Err(json_refusal(fault)),
    }
}
