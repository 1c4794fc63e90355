// Orders, read from JSON.
ghost use Rattle.std.specs.Prelude.{◌≡◌, ◌⊎◌, ◌≤◌, true, Ok, Err, IfOk, IfErr};
ghost use Rattle.json_value.specs.View.{entries_of, tree_of};
ghost use Rattle.order_member.specs.Gives.{Gives};
ghost use Rattle.order_member.specs.Members.{asr_in, days_in, from_in, height_in, late_in, method_in, offsets_in, sun_in, zone_in};
ghost use Rattle.order_reader.specs.Parts.{basis_view, extras_view};
ghost use Rattle.order_reader.specs.Reading.{asked_by, basis_of, district_in, district_of, extras_of, height_of, late_of, night_of, order_in, order_of, sun_of};
ghost use Rattle.order_rule.specs.Asked.{asked_of};
ghost use Rattle.order_rule.specs.Late.{may_be_late};
ghost use Rattle.ring_survey.specs.Vectors.{polygons_in};
ghost use Rattle.order_reader.specs.Reads.{ReadsOrder, json_refusal};

use crate::parts::{Basis, Extras};
use exact_json::{Json, JsonFault, JsonTable, read};
use geo_json::{GeometryFault, object_in, read_geometry};
use method_table::{Method, SunChoice};
use night_rule::NightRule;
use order_member::{
    Member, OrderFault, asr_in, days_in, from_in, height_in, late_in, method_in, needed,
    offsets_in, optional, rule_in, sun_in, zone_in,
};
use order_rule::{Order, Ranges};
use region::{District, RegionFault};
use std::alloc::Global;

/// What every order says.
#[tactic(auto, unfolding(crate::specs::Reading::basis_of))]
pub fn basis_of(alloc: Global, table: &JsonTable) -> Result<Basis, OrderFault>
    ensures { Gives basis_view result (basis_of (entries_of table.now)) }
{
    let from_day = from_in(needed(table, Member::From)?)?;
    let days = days_in(needed(table, Member::Days)?, from_day)?;
    let method = method_in(needed(table, Member::Method)?)?;
    let asr = asr_in(needed(table, Member::Asr)?)?;
    let zone = zone_in(alloc, needed(table, Member::Zone)?)?;
    let offsets = offsets_in(alloc, &zone, from_day, days)?;
    Ok(Basis {
        from_day,
        days,
        method,
        asr,
        zone,
        offsets,
    })
}

#[tactic(auto, unfolding(order_member::specs::Members::height_in))]
fn height_of(table: &JsonTable) -> Result<u32, OrderFault>
    ensures given { Gives (λ height. height) result (height_of (entries_of table.now)) }
    ensures low { IfOk result (λ height. height ≤ 9000) }
{
    match optional(table, Member::Height)? {
        Some(value) => height_in(value),
        None => Ok(0),
    }
}

fn late_of(alloc: Global, table: &JsonTable, method: Method) -> Result<Ranges, OrderFault>
    ensures given { Gives (λ late. late) result (late_of method (entries_of table.now)) }
    ensures range { IfOk result (λ late. may_be_late method late ≡ true) }
{
    match optional(table, Member::LateIsha)? {
        Some(value) => late_in(alloc, value, method),
        None => Ok(Ranges::new(Vec::new(alloc))),
    }
}

fn sun_of(table: &JsonTable) -> Result<SunChoice, OrderFault>
    ensures { Gives (λ sun. sun) result (sun_of (entries_of table.now)) }
{
    match optional(table, Member::Sun)? {
        Some(value) => sun_in(value),
        None => Ok(SunChoice::Usno),
    }
}

fn night_of(table: &JsonTable) -> Result<Option<NightRule>, OrderFault>
    ensures { Gives (λ night. night) result (night_of (entries_of table.now)) }
{
    match optional(table, Member::Night)? {
        Some(value) => rule_in(value),
        None => Ok(None),
    }
}

/// What an order of the method may say beside.
#[tactic(auto, unfolding(crate::specs::Reading::extras_of))]
pub fn extras_of(alloc: Global, table: &JsonTable, method: Method) -> Result<Extras, OrderFault>
    ensures given { Gives extras_view result (extras_of method (entries_of table.now)) }
    ensures late { IfOk result (λ x. may_be_late method x.late ≡ true) }
{
    let height = height_of(table)?;
    let late = late_of(alloc, table, method)?;
    let sun = sun_of(table)?;
    let night = night_of(table)?;
    Ok(Extras {
        height,
        late,
        sun,
        night,
    })
}

/// The district of polygons, each a list of rings of positions in microdegrees.
pub fn district_of(
    alloc: Global,
    polygons: Vec<Vec<Vec<(i64, i64)>>>,
) -> Result<District, OrderFault>
    ensures { Gives (λ district. district) result (district_of (polygons_in polygons.items)) }
{
    match District::new(alloc, polygons) {
        Ok(district) => Ok(district),
        Err(RegionFault::NoMemory) => Err(OrderFault::NoMemory),
        Err(fault) => Err(OrderFault::Region(fault)),
    }
}

#[tactic(auto, unfolding(crate::specs::Reading::district_in))]
fn district_in(alloc: Global, value: &Json) -> Result<District, OrderFault>
    ensures { Gives (λ district. district) result (district_in (tree_of value.now)) }
{
    let Some(table) = object_in(value) else {
        return Err(OrderFault::Kind(Member::District));
    };
    match read_geometry(alloc, table) {
        Ok(polygons) => district_of(alloc, polygons),
        Err(GeometryFault::NotGeometry) => Err(OrderFault::Geometry),
        Err(GeometryFault::NoMemory) => Err(OrderFault::NoMemory),
    }
}

/// The order of its parts.
pub fn order_with(basis: Basis, extras: Extras, district: District) -> Order
    requires late { may_be_late basis.method extras.late ≡ true }
    ensures { asked_of result ≡ asked_by (basis_view basis) (extras_view extras) district }
{
    Order {
        from_day: basis.from_day,
        days: basis.days,
        method: basis.method,
        asr: basis.asr,
        zone: basis.zone,
        offsets: basis.offsets,
        height: extras.height,
        late: extras.late,
        sun: extras.sun,
        night: extras.night,
        district,
    }
}

#[tactic(auto, unfolding(crate::specs::Reading::order_of))]
fn order_of(alloc: Global, table: &JsonTable) -> Result<Order, OrderFault>
    ensures { Gives asked_of result (order_of (entries_of table.now)) }
{
    let basis = basis_of(alloc, table)?;
    let extras = extras_of(alloc, table, basis.method)?;
    let district = district_in(alloc, needed(table, Member::District)?)?;
    Ok(order_with(basis, extras, district))
}

/// The order of a value, or its first refusal.
#[tactic(auto, unfolding(crate::specs::Reading::order_in))]
pub fn order_in(alloc: Global, value: &Json) -> Result<Order, OrderFault>
    ensures { Gives asked_of result (order_in (tree_of value.now)) }
{
    let Some(table) = object_in(value) else {
        return Err(OrderFault::Kind(Member::Order));
    };
    order_of(alloc, table)
}

/// The refusal of bytes that are no JSON text.
pub fn json_refusal(fault: JsonFault) -> OrderFault
    ensures { result ≡ json_refusal fault }
{
    match fault {
        JsonFault::NoMemory => OrderFault::NoMemory,
        _ => OrderFault::Json(fault),
    }
}

/// Reads an order: a JSON text (RFC 8259) within its limits whose value is an object with the members
/// `from`, `days`, `method`, `asr`, `zone` and `district`, each once, and perhaps `height`,
/// `late_isha`, `sun` and `night`. Other members are passed over. The answer is the order, or its first refusal: of the
/// text, and then of the members in the order `from`, `days`, `method`, `asr`, `zone`, `height`,
/// `late_isha`, `sun`, `night`, `district`, of each that it is missing, stands twice, is of another
/// kind, or out of its range.
pub fn read_order(alloc: Global, bytes: &[u8]) -> Result<Order, OrderFault>
    // `Ok` is the order that the bytes spell.
    ensures ok { IfOk result (λ o. ReadsOrder bytes.now (Ok (asked_of o))) }
    // A refusal is the first one, or memory was not found.
    ensures fault { IfErr result (λ fault. (fault ≡ OrderFault.NoMemory) ⊎ ReadsOrder bytes.now (Err fault)) }
{
    match read(alloc, bytes) {
        Ok(value) => order_in(alloc, &value),
        Err(fault) => Err(json_refusal(fault)),
    }
}
