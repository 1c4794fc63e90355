// Why bytes are no order.
ghost use Rattle.std.specs.Prelude.{◌≡◌};
ghost use Rattle.order_member.specs.Words.{member_word};
ghost use Rattle.order_member.specs.declared.fault.OrderFault.TheVariants.{NoMemory as OutOfMemory};

use exact_json::JsonFault;
use no_memory::NoMemory;
use region::RegionFault;
use thiserror::Error;

/// A member of an order, or the order itself.
#[derive(Clone, Copy, Debug, PartialEq, Eq)]
pub enum Member {
    Order,
    Version,
    From,
    Days,
    Method,
    Asr,
    Zone,
    Height,
    LateIsha,
    Sun,
    Night,
    District,
}

/// The name of a member.
pub fn member_word(member: Member) -> &'static str
    ensures { result.now ≡ member_word member }
{
    match member {
        Member::Order => "order",
        Member::Version => "version",
        Member::From => "from",
        Member::Days => "days",
        Member::Method => "method",
        Member::Asr => "asr",
        Member::Zone => "zone",
        Member::Height => "height",
        Member::LateIsha => "late_isha",
        Member::Sun => "sun",
        Member::Night => "night",
        Member::District => "district",
    }
}

/// The first refusal of an order.
#[derive(Clone, Copy, Debug, Error)]
pub enum OrderFault {
    /// The bytes are no JSON text within its limits.
    #[error("no JSON: {0:?}")]
    Json(JsonFault),
    #[error("a member is missing: {0:?}")]
    Missing(Member),
    #[error("a member stands twice: {0:?}")]
    Twice(Member),
    /// The member's value is of another kind than it must be.
    #[error("a member of another kind: {0:?}")]
    Kind(Member),
    /// The member's value is out of its range.
    #[error("a member out of range: {0:?}")]
    Range(Member),
    /// The district is in none of the forms of a district.
    #[error("no geometry of a district")]
    Geometry,
    #[error("no district: {0:?}")]
    Region(RegionFault),
    #[error("no memory")]
    NoMemory,
}

impl From<NoMemory> for OrderFault {
    ghost from_gives = { λ _ e. e ≡ OutOfMemory };

    fn from(_: NoMemory) -> OrderFault {
        OrderFault::NoMemory
    }
}
