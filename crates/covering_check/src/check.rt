// What a line of a covering shows.
ghost use Rattle.std.specs.Prelude.{◌≡◌, ◌<◌, ◌≤◌};
ghost use Rattle.serde_json.specs.View.{view};
ghost use Rattle.cell_split.specs.Cells.{IsRoot};
ghost use Rattle.covering_check.specs.Cells.{is_cell_of};
ghost use Rattle.covering_check.specs.Checks.{is_failing, is_refuted_at, shown_by, shown_in, shown_of, value_in};
ghost use Rattle.covering_check.specs.Gives.{Gives};
ghost use Rattle.covering_check.specs.Members.{ordinal_of_claim};
ghost use Rattle.covering_check.specs.Left.{left};

use crate::claim::{Claim, Numbers};
use crate::fault::CoverFault;
use crate::letters::{Letters, letters_in};
use crate::members::{claim_in, text_at};
use crate::walk::walk;
use cell_split::{Cell, Entry, Judge, Task, Verdict, within};
use covering::entry_by;
use serde_json::Value;
use std::alloc::Global;

/// The entry of problem `k` that a line shows for a column and a day, both as they stand in the line. It walks
/// the tree along the line's letters, judges each cell anew that the line names, and trusts nobody who made it.
/// It takes memory for the line's JSON alone.
pub fn check_line<J: Judge>(
    alloc: Global,
    judge: &J,
    k: u32,
    column: &str,
    day: &str,
    line: &[u8],
) -> Result<Entry, CoverFault>
    requires { k < (J.content judge.now).problems }
    ensures value { Gives (λ e. e) result (shown_of (J.content judge.now) k column.now day.now line.now) }
{
    let value = read_value(alloc, line)?;
    check_value(judge, k, column, day, &value)
}

// the value of the line's text
#[tactic(auto, unfolding(crate::specs::Checks::value_in))]
fn read_value(alloc: Global, line: &[u8]) -> Result<Value, CoverFault>
    ensures { Gives view result (value_in line.now) }
{
    match Value::from_slice(alloc, line) {
        Ok(value) => Ok(value),
        Err(fault) => Err(if fault.is_memory() {
            CoverFault::NoMemory
        } else {
            CoverFault::NotLine
        }),
    }
}

// what the line's value shows
fn check_value<J: Judge>(
    judge: &J,
    k: u32,
    column: &str,
    day: &str,
    value: &Value,
) -> Result<Entry, CoverFault>
    requires { k < (J.content judge.now).problems }
    ensures { result ≡ shown_in (J.content judge.now) k column.now day.now (view value.now) }
{
    let Some(named) = text_at(value, "column") else {
        return Err(CoverFault::NotLine);
    };
    let Some(dated) = text_at(value, "day") else {
        return Err(CoverFault::NotLine);
    };
    let Some(claim) = claim_in(value) else {
        return Err(CoverFault::NotLine);
    };
    let Some(mut letters) = letters_in(value) else {
        return Err(CoverFault::NotLine);
    };
    if named != column || dated != day {
        return Err(CoverFault::Column);
    }
    check_claim(judge, k, claim, &mut letters)
}

// what a claim and the letters show
fn check_claim<J: Judge>(
    judge: &J,
    k: u32,
    claim: Claim,
    letters: &mut Letters<'_>,
) -> Result<Entry, CoverFault>
    requires known { k < (J.content judge.now).problems }
    requires in_frame { ordinal_of_claim claim ≤ 721 }
    ensures { result ≡ shown_by (J.content judge.now) k claim (left letters.old) }
{
    let root = Task {
        problem: k,
        cell: judge.root(),
    };
    let refuted = claim.rank();
    let open = match walk(judge, root, &mut J::Kept::default(), refuted, letters, None) {
        Ok(open) => open,
        Err(fault) => return Err(fault),
    };
    if !letters.are_spent() {
        return Err(CoverFault::Long);
    }
    if !is_failing(judge, k, claim) {
        return Err(CoverFault::NotFailing);
    }
    Ok(entry_by(refuted, open))
}

// whether the claim's cell is refuted at its place
fn is_failing<J: Judge>(judge: &J, k: u32, claim: Claim) -> bool
    requires { k < (J.content judge.now).problems }
    ensures { result ≡ is_failing (J.content judge.now) k claim }
{
    match claim {
        Claim::Nowhere => true,
        Claim::UpTo { rank, cell, point } => {
            if !is_cell_of(&cell, &judge.root()) {
                return false;
            }
            cell.last == rank && is_refuted_at(judge.judge(Task { problem: k, cell }), point)
        }
    }
}

// whether any numbers are a well-formed cell of the root
fn is_cell_of(cell: &Cell, root: &Cell) -> bool
    requires { IsRoot root.now }
    ensures { result ≡ is_cell_of root.now cell.now }
{
    within(cell, root)
}

fn is_refuted_at(verdict: Verdict, point: Numbers) -> bool
    ensures { result ≡ is_refuted_at point verdict }
{
    match verdict {
        Verdict::Refuted(p) => point.a == p.a && point.b == p.b && point.d == p.d,
        _ => false,
    }
}
