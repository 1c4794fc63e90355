// The members of a line.
ghost use Rattle.std.specs.Prelude.{◌≡◌, ◌≤◌, option_map, pos, ◌≤ℤ◌, IfSome};
ghost use Rattle.serde_json.specs.View.{view};
ghost use Rattle.covering_check.specs.Members.{cell_in, claim_in, claim_of, is_empty, is_point, is_within, natural_at, natural_to, number_at, point_in, text_at, whole_at, ordinal_of_claim};

use crate::claim::{Claim, Numbers};
use crate::numerals::whole_in;
use cell_split::Cell;
use serde_json::Value;

/// The text of a member.
pub(crate) fn text_at<'v>(value: &'v Value, name: &str) -> Option<&'v str>
    ensures { option_map (λ s. s.now) result ≡ text_at name.now (view value.now) }
{
    value.get(name)?.as_str()
}

/// What the members `r`, `refuted` and `point` say to be refuted.
#[tactic(auto, unfolding(crate::specs::Members::claim_in))]
pub(crate) fn claim_in(value: &Value) -> Option<Claim>
    ensures value { result ≡ claim_in (view value.now) }
    ensures in_frame { IfSome result (λ claim. ordinal_of_claim claim ≤ 721) }
{
    let r = value.get("r")?.as_i64()?;
    let refuted = value.get("refuted")?;
    let point = value.get("point")?;
    claim_of(r, refuted, point)
}

fn claim_of(r: i64, refuted: &Value, point: &Value) -> Option<Claim>
    ensures value { result ≡ claim_of r (view refuted.now) (view point.now) }
    ensures in_frame { IfSome result (λ claim. ordinal_of_claim claim ≤ 721) }
{
    if r == -1 {
        return if is_empty(refuted) && is_empty(point) {
            Some(Claim::Nowhere)
        } else {
            None
        };
    }
    Some(Claim::UpTo {
        rank: natural_to(720, r)?,
        cell: cell_in(refuted)?,
        point: point_in(point)?,
    })
}

fn is_empty(list: &Value) -> bool
    ensures { result ≡ is_empty (view list.now) }
{
    list.is_array() && list.get(0usize).is_none()
}

// five numbers that fit a cell
#[tactic(auto, unfolding(crate::specs::Members::cell_in))]
fn cell_in(list: &Value) -> Option<Cell>
    ensures { result ≡ cell_in (view list.now) }
{
    if list.get(5usize).is_some() {
        return None;
    }
    Some(Cell {
        x: number_at(list, 0)?,
        y: number_at(list, 1)?,
        size: natural_at(255, list, 2)? as u8,
        first: natural_at(u32::MAX, list, 3)?,
        last: natural_at(u32::MAX, list, 4)?,
    })
}

// three texts that spell a place
#[tactic(auto, unfolding(crate::specs::Members::point_in))]
fn point_in(list: &Value) -> Option<Numbers>
    ensures { result ≡ point_in (view list.now) }
{
    if list.get(3usize).is_some() {
        return None;
    }
    let point = Numbers {
        a: whole_at(list, 0)?,
        b: whole_at(list, 1)?,
        d: whole_at(list, 2)?,
    };
    if is_point(point) { Some(point) } else { None }
}

fn is_point(p: Numbers) -> bool
    ensures { result ≡ is_point p }
{
    let short = 1 <= p.d && p.d <= 1 << 30;
    short && is_within(1 << 70, p.a) && is_within(1 << 70, p.b)
}

fn is_within(most: i128, z: i128) -> bool
    requires { pos 0 ≤ℤ most }
    ensures { result ≡ is_within most z }
{
    -most <= z && z <= most
}

fn number_at(list: &Value, i: usize) -> Option<i64>
    ensures { result ≡ number_at i (view list.now) }
{
    list.get(i)?.as_i64()
}

fn natural_at(most: u32, list: &Value, i: usize) -> Option<u32>
    ensures value { result ≡ natural_at most i (view list.now) }
    ensures most { IfSome result (λ n. n ≤ most) }
{
    natural_to(most, number_at(list, i)?)
}

// a number from 0 to `most`
fn natural_to(most: u32, number: i64) -> Option<u32>
    ensures value { result ≡ natural_to most number }
    ensures most { IfSome result (λ n. n ≤ most) }
{
    if 0 <= number && number <= most as i64 {
        Some(number as u32)
    } else {
        None
    }
}

// a number that a text spells
fn whole_at(list: &Value, i: usize) -> Option<i128>
    ensures { result ≡ whole_at i (view list.now) }
{
    whole_in(list.get(i)?.as_str()?)
}
