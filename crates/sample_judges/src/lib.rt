// Judges of few words by which searches and coverings are tried.
// Contract: their verdicts, by cases of ranks and places; only tests use them.
#![tactic(auto)]

ghost use Rattle.std.proofs.Common.{rules};
ghost use Rattle.std.specs.Prelude.{◌≡◌, pos};
ghost use Rattle.cell_split.specs.Cells.{IsRoot, root_at};
ghost use Rattle.cell_split.specs.Judges.{IsLawful};
ghost use Rattle.cell_split.specs.declared.verdict.Verdict.TheVariants.{Outside, Proved};
ghost use Rattle.sample_judges.specs.Samples.{late, steps, threshold};

use cell_split::{Cell, Judge, Task, Verdict, root_at};
use plane_edges::Point;

/// Refutes the ranks up to 99, proves those from 101 on, and is open at rank 100 in the root's corner.
#[derive(Drop)]
pub struct Threshold {
    pub root: Cell,
    pub point: Point,
    ghost lawful: { IsLawful (threshold root point) },
}

impl Threshold {
    #[tactic(auto, using(crate::proofs::SampleLaws::threshold_lawful))]
    pub fn new(root: Cell, point: Point) -> Threshold
        requires { IsRoot root }
        ensures root { result.root ≡ root }
        ensures point { result.point ≡ point }
    {
        Threshold { root, point }
    }
}

impl Judge for Threshold {
    ghost content = { λ j. threshold j.root j.point };

    type Kept = ();

    ghost lawful = { λ j. j.lawful };

    fn problems(&self) -> u32 {
        1
    }

    fn root(&self) -> Cell {
        self.root
    }

    fn judge(&self, t: Task) -> Verdict {
        let c = t.cell;
        if c.last < 100 {
            Verdict::Refuted(self.point)
        } else if c.first > 100 {
            Verdict::Proved
        } else if c.x != self.root.x || c.y != self.root.y {
            Verdict::Outside
        } else if c.size == 4 && c.first == c.last {
            Verdict::Open(self.point)
        } else {
            Verdict::Split
        }
    }
}

/// Refutes the ranks from 360 on, and proves cells of at most 16 ranks.
#[derive(Drop)]
pub struct Late {
    pub root: Cell,
    pub point: Point,
    ghost lawful: { IsLawful (late root point) },
}

impl Late {
    #[tactic(auto, using(crate::proofs::SampleLaws::late_lawful))]
    pub fn new(root: Cell, point: Point) -> Late
        requires { IsRoot root }
        ensures root { result.root ≡ root }
        ensures point { result.point ≡ point }
    {
        Late { root, point }
    }
}

impl Judge for Late {
    ghost content = { λ j. late j.root j.point };

    type Kept = ();

    ghost lawful = { λ j. j.lawful };

    fn problems(&self) -> u32 {
        1
    }

    fn root(&self) -> Cell {
        self.root
    }

    fn judge(&self, t: Task) -> Verdict {
        let c = t.cell;
        if c.first > 359 {
            Verdict::Refuted(self.point)
        } else if c.last - c.first < 16 {
            Verdict::Proved
        } else {
            Verdict::Split
        }
    }
}

/// For problem `k` of seven it refutes the ranks below `100 * k` and proves the others.
#[derive(Drop)]
pub struct Steps {
    pub root: Cell,
    pub point: Point,
    ghost lawful: { IsLawful (steps root point) },
}

impl Steps {
    #[tactic(auto, using(crate::proofs::SampleLaws::steps_lawful))]
    pub fn new(root: Cell, point: Point) -> Steps
        requires { IsRoot root }
        ensures root { result.root ≡ root }
        ensures point { result.point ≡ point }
    {
        Steps { root, point }
    }
}

impl Judge for Steps {
    ghost content = { λ j. steps j.root j.point };

    type Kept = ();

    ghost lawful = { λ j. j.lawful };

    fn problems(&self) -> u32 {
        7
    }

    fn root(&self) -> Cell {
        self.root
    }

    fn judge(&self, t: Task) -> Verdict {
        let step = 100 * t.problem;
        if t.cell.last < step {
            Verdict::Refuted(self.point)
        } else if step <= t.cell.first {
            Verdict::Proved
        } else {
            Verdict::Split
        }
    }
}

/// Finds no place of a district anywhere.
#[derive(Drop)]
pub struct Nobody;

impl Judge for Nobody {
    ghost content = { λ _. record { problems = 1; root = root_at (pos 0) (pos 0); verdict = λ _. Outside } };

    type Kept = ();

    fn problems(&self) -> u32 {
        1
    }

    fn root(&self) -> Cell {
        root_at(0, 0)
    }

    fn judge(&self, _: Task) -> Verdict {
        Verdict::Outside
    }

    ghost lawful = { Prim.search rules };
}

/// Proves everything at once.
#[derive(Drop)]
pub struct Sure;

impl Judge for Sure {
    ghost content = { λ _. record { problems = 1; root = root_at (pos 0) (pos 0); verdict = λ _. Proved } };

    type Kept = ();

    fn problems(&self) -> u32 {
        1
    }

    fn root(&self) -> Cell {
        root_at(0, 0)
    }

    fn judge(&self, _: Task) -> Verdict {
        Verdict::Proved
    }

    ghost lawful = { Prim.search rules };
}
