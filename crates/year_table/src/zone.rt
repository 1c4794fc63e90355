// Zones: a fixed offset, or a rule of POSIX.
ghost use Rattle.year_table.specs.declared.zone.RuleFault.TheVariants.{NoMemory};
ghost use Rattle.std.specs.Prelude.{◌≡◌, ◌↔◌, List, ℕ, IfOk, Err, true, false, ◌≤ℤ◌, neg_ℤ, pos};
ghost use Rattle.std.specs.List.{list_all};
ghost use Rattle.jiff.specs.Words.{compatible_offset, plain_offsets};
ghost use Rattle.year_table.specs.Rules.{IsNoonOffset, is_plain, is_rule, is_rule_byte};

use crate::date::noon_of;
use jiff::tz::{AmbiguousOffset, TimeZone};
use std::alloc::{AllocError, Global};
use std::marker::Model;

/// The clock of an order.
#[derive(Debug, Drop)]
pub enum Zone {
    /// So many minutes ahead of Universal Time.
    Fixed { minutes: i32 },
    /// By a rule.
    Rule { rule: Rule },
}

/// A time zone rule of POSIX, as `CET-1CEST,M3.5.0,M10.5.0/3`. It is seen as its text.
#[derive(Debug, Drop)]
pub struct Rule {
    text: String,
    zone: TimeZone<'static>,
}

impl Model for Rule {
    ghost use Rattle.std.specs.Prelude.{List, ℕ};
    ghost use Rattle.std.specs.String.{string_bytes};

    ghost Value = { List ℕ };

    ghost use Rattle.year_table.specs.RuleParts.{IsRuleOf};

    ghost view = { λ a. string_bytes a.text };

    ghost invariant = { λ a. IsRuleOf (string_bytes a.text) a.zone };
}

/// Why a text is no rule.
#[derive(Clone, Copy, Debug, PartialEq, Eq)]
pub enum RuleFault {
    /// It isn't of 1 to 64 bytes from `!` to `~` without `"` and `\`, or POSIX has no such rule.
    NotRule,
    NoMemory,
}

impl From<AllocError> for RuleFault {
    ghost from_gives = { λ _ e. e ≡ NoMemory };

    fn from(_: AllocError) -> RuleFault {
        RuleFault::NoMemory
    }
}

/// The rule of a text.
pub fn read_rule(alloc: Global, text: &str) -> Result<Rule, RuleFault>
    ensures ok { IfOk result (λ r. r ≡ text.now) }
    ensures not_rule { (result ≡ Err RuleFault.NotRule) ↔ (is_rule text.now ≡ false) }
{
    if !is_plain(text) {
        return Err(RuleFault::NotRule);
    }
    let Ok(zone) = TimeZone::posix(text) else {
        return Err(RuleFault::NotRule);
    };
    let text = String::from_str(alloc, text)?;
    Ok(Rule { text, zone })
}

impl Rule {
    /// The text of the rule.
    pub fn rule_text(&self) -> &str
        ensures text { result.now ≡ self.now }
        ensures rule { is_rule self.now ≡ true }
    {
        self.text.as_str()
    }

    // the offset at civil noon of a day, in seconds
    pub(crate) fn noon_seconds(&self, day: i32) -> i32
        requires not_early { neg_ℤ (pos 25567) ≤ℤ day }
        requires not_late { day ≤ℤ pos 47846 }
        ensures { IsNoonOffset self.now day result }
    {
        let offsets = self.zone.to_ambiguous_timestamp(noon_of(day)).offset();
        compatible_seconds(offsets)
    }
}

// the offset that a clock takes where it leaps or repeats itself: the one before
fn compatible_seconds(offsets: AmbiguousOffset) -> i32
    ensures { result ≡ (compatible_offset (plain_offsets offsets)).seconds }
{
    match offsets {
        AmbiguousOffset::Unambiguous { offset } => offset.seconds(),
        AmbiguousOffset::Gap { before, .. } => before.seconds(),
        AmbiguousOffset::Fold { before, .. } => before.seconds(),
    }
}

// whether a text may stand in quotes as it is, and is no longer than a rule may be
fn is_plain(text: &str) -> bool
    ensures { result ≡ is_plain text.now }
{
    if text.is_empty() || text.len() > 64 {
        return false;
    }
    has_rule_bytes(text)
}

fn has_rule_bytes(text: &str) -> bool
    ensures { result ≡ list_all is_rule_byte text.now }
{
    text.as_bytes().iter().all(|b| is_rule_byte(*b))
}

fn is_rule_byte(b: u8) -> bool
    ensures { result ≡ is_rule_byte b }
{
    b'!' <= b && b <= b'~' && b != b'"' && b != b'\\'
}
