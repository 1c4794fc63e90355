// Worked rows of the split rule, and a judge of the tests' own.
ghost use Rattle.std.proofs.Common.{rules};
ghost use Rattle.std.specs.Prelude.{◌≡◌, pos};
ghost use Rattle.cell_split.specs.Cells.{root_at};
ghost use Rattle.cell_split.specs.declared.verdict.Verdict.TheVariants.{Outside};

use cell_split::{
    Cell, Children, Judge, Task, Verdict, children, is_smallest, key, rect_of, root_at, within,
};
use std::process::Abort;

fn cell(x: i64, y: i64, size: u8, first: u32, last: u32) -> Cell
    ensures x { result.x ≡ x }
    ensures y { result.y ≡ y }
    ensures size { result.size ≡ size }
    ensures first { result.first ≡ first }
    ensures last { result.last ≡ last }
{
    Cell {
        x,
        y,
        size,
        first,
        last,
    }
}

// a cell is this
fn expect_cell(rt: &impl Abort, found: &Cell, wanted: Cell) {
    assert_eq!(rt; *found, wanted);
}

#[test]
fn the_root_is_divided_by_its_ranks(rt: HostRuntime) {
    let root = root_at(100_000, 0);
    expect_cell(&rt, &root, cell(12_800_000, 0, 29, 0, 720));
    let below = children(&root);
    assert_eq!(rt; below.count, 2);
    expect_cell(&rt, &below.cells[0], cell(12_800_000, 0, 29, 360, 720));
    expect_cell(&rt, &below.cells[1], cell(12_800_000, 0, 29, 0, 359));
}

// the children of a cell of the root at 0, 0, of which there are so many
fn children_below(rt: &impl Abort, c: &Cell, count: u8) -> Children {
    let root = root_at(0, 0);
    let inside = within(c, &root);
    assert!(rt; inside);
    let below = children(c);
    assert_eq!(rt; below.count, count);
    below
}

#[test]
fn few_ranks_leave_the_place_to_be_quartered(rt: HostRuntime) {
    let side = 268_435_456;
    let below = children_below(&rt, &cell(0, 0, 29, 0, 10), 4);
    expect_cell(&rt, &below.cells[0], cell(0, 0, 28, 0, 10));
    expect_cell(&rt, &below.cells[1], cell(side, 0, 28, 0, 10));
    expect_cell(&rt, &below.cells[2], cell(0, side, 28, 0, 10));
    expect_cell(&rt, &below.cells[3], cell(side, side, 28, 0, 10));
    let halves = children_below(&rt, &below.cells[0], 2);
    expect_cell(&rt, &halves.cells[0], cell(0, 0, 28, 5, 10));
    expect_cell(&rt, &halves.cells[3], cell(0, 0, 28, 0, 4));
    children_below(&rt, &cell(0, 0, 4, 7, 7), 0);
}

// the numbers of a cell, and whether it is in the root at 0, 0
const ANY: [(i64, i64, u8, u32, u32, bool); 11] = [
    (0, 0, 29, 0, 720, true),
    (536_870_896, 0, 4, 720, 720, true),
    (536_870_897, 0, 4, 720, 720, false),
    (0, -1, 4, 0, 0, false),
    (0, 0, 3, 0, 0, false),
    (0, 0, 30, 0, 0, false),
    (0, 0, 255, 0, 0, false),
    (0, 0, 4, 1, 0, false),
    (0, 0, 4, 0, 721, false),
    (9_223_372_036_854_775_807, 0, 29, 0, 0, false),
    (-9_223_372_036_854_775_808, 0, 29, 0, 0, false),
];

// whether a cell is in the root at 0, 0
fn expect_within(rt: &impl Abort, c: &Cell, inside: bool) {
    let root = root_at(0, 0);
    assert_eq!(rt; within(c, &root), inside, "at {c:?}");
}

#[test]
fn any_numbers_are_tried_against_a_root(rt: HostRuntime) {
    for (x, y, size, first, last, inside) in &ANY {
        expect_within(&rt, &cell(*x, *y, *size, *first, *last), *inside);
    }
}

#[test]
fn a_smallest_cell_has_a_box_and_a_key(rt: HostRuntime) {
    let root = root_at(0, 0);
    assert!(rt; !is_smallest(&root));
    let rect = rect_of(&root);
    assert!(rt; rect.x0 == 0 && rect.x1 == 536_870_912 && rect.y1 == 536_870_912);
    assert_eq!(rt; key(&cell(1, 2, 3, 4, 5)), (4, 5, 3, 1, 2));
}

// one who finds no place of a district anywhere
#[derive(Drop)]
struct Nobody;

impl Judge for Nobody {
    ghost content = { λ _. record { problems = 1; root = root_at (pos 0) (pos 0); verdict = λ _. Outside } };

    type Kept = ();

    fn problems(&self) -> u32 {
        1
    }

    fn root(&self) -> Cell {
        root_at(0, 0)
    }

    fn judge(&self, _: Task) -> Verdict {
        Verdict::Outside
    }

    ghost lawful = { Prim.search rules };
}

// the verdict over a judge's root
fn verdict_at_root<J: Judge>(rt: &impl Abort, judge: &J) -> Verdict {
    assert!(rt; judge.problems() > 0);
    let cell = judge.root();
    judge.judge(Task { problem: 0, cell })
}

#[test]
fn a_judge_is_asked_through_its_bound(rt: HostRuntime) {
    let verdict = verdict_at_root(&rt, &Nobody);
    assert!(rt; !verdict.splits() && !verdict.refutes());
}
