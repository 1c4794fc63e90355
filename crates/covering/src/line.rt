// The lines of a covering.
ghost use Rattle.std.specs.Prelude.{◌≡◌, IfOk, OnOk, codes, string_bytes};
ghost use Rattle.serde_json.specs.Written.{compact_text};
ghost use Rattle.serde_json.specs.View.{view};
ghost use Rattle.covering.specs.Lines.{IsReadAs, cell_data, members_data, point_data, runs_data, runs_line, tree_data, tree_line};

use crate::runs::runs_text;
use crate::settled::Settled;
use cell_split::Cell;
use no_memory::NoMemory;
use plane_edges::Point;
use serde_json::{Value, json};
use std::alloc::{AllocError, Global};

/// The line of a column and a day, with its LF: a compact JSON object of the members `column`, `day`,
/// `point`, `r`, `refuted` and `runs`, the letters in runs. It takes memory for the line and its letters.
pub fn cover_line(alloc: Global, column: &str, day: &str, s: &Settled) -> Result<Vec<u8>, NoMemory>
    ensures line { IfOk result (λ line. line.items ≡ runs_line column.now day.now s.now) }
    ensures reads { OnOk result (IsReadAs (runs_data column.now day.now s.now) (compact_text (runs_data column.now day.now s.now))) }
{
    let value = runs_value(alloc, column, day, s)?;
    let mut line = value.to_vec(alloc)?;
    line.push(b'\n')?;
    Ok(line)
}

/// The same with `tree`, the letters one by one, in place of `runs`.
pub fn cover_line_1(
    alloc: Global,
    column: &str,
    day: &str,
    s: &Settled,
) -> Result<Vec<u8>, NoMemory>
    ensures line { IfOk result (λ line. line.items ≡ tree_line column.now day.now s.now) }
    ensures reads { OnOk result (IsReadAs (tree_data column.now day.now s.now) (compact_text (tree_data column.now day.now s.now))) }
{
    let value = tree_value(alloc, column, day, s)?;
    let mut line = value.to_vec(alloc)?;
    line.push(b'\n')?;
    Ok(line)
}

fn runs_value(alloc: Global, column: &str, day: &str, s: &Settled) -> Result<Value, NoMemory>
    ensures { IfOk result (λ v. view v ≡ runs_data column.now day.now s.now) }
{
    let point = point_value(alloc, &s.refuted)?;
    let refuted = cell_value(alloc, &s.refuted)?;
    let runs = runs_text(alloc, s.letters.as_bytes())?;
    Ok(with_runs(alloc, column, day, point, s.r, refuted, runs)?)
}

fn with_runs(
    alloc: Global,
    column: &str,
    day: &str,
    point: Value,
    r: i32,
    refuted: Value,
    runs: String,
) -> Result<Value, AllocError>
    ensures { IfOk result (λ v. view v ≡ members_data column.now day.now (view point) r (view refuted) (codes "runs") (string_bytes runs)) }
{
    json!(in alloc; {"column": column, "day": day, "point": point, "r": r, "refuted": refuted, "runs": runs})
}

fn tree_value(alloc: Global, column: &str, day: &str, s: &Settled) -> Result<Value, NoMemory>
    ensures { IfOk result (λ v. view v ≡ tree_data column.now day.now s.now) }
{
    let point = point_value(alloc, &s.refuted)?;
    let refuted = cell_value(alloc, &s.refuted)?;
    Ok(with_tree(alloc, column, day, point, s.r, refuted, s.letters.as_str())?)
}

fn with_tree(
    alloc: Global,
    column: &str,
    day: &str,
    point: Value,
    r: i32,
    refuted: Value,
    tree: &str,
) -> Result<Value, AllocError>
    ensures { IfOk result (λ v. view v ≡ members_data column.now day.now (view point) r (view refuted) (codes "tree") tree.now) }
{
    json!(in alloc; {"column": column, "day": day, "point": point, "r": r, "refuted": refuted, "tree": tree})
}

// the numerators and the denominator of the place that refutes
fn point_value(alloc: Global, refuted: &Option<(Cell, Point)>) -> Result<Value, NoMemory>
    ensures { IfOk result (λ v. view v ≡ point_data refuted.now) }
{
    let Some((_, p)) = refuted else {
        return Ok(json!(in alloc; [])?);
    };
    let a = p.a.to_string(alloc)?;
    let b = p.b.to_string(alloc)?;
    let d = p.d.to_string(alloc)?;
    Ok(json!(in alloc; [a, b, d])?)
}

// the refuted cell
fn cell_value(alloc: Global, refuted: &Option<(Cell, Point)>) -> Result<Value, NoMemory>
    ensures { IfOk result (λ v. view v ≡ cell_data refuted.now) }
{
    let Some((c, _)) = refuted else {
        return Ok(json!(in alloc; [])?);
    };
    Ok(json!(in alloc; [c.x, c.y, c.size, c.first, c.last])?)
}
