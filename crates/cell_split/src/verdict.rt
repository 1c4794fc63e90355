// What a judge says of a cell, and what is said of a problem.
ghost use Rattle.std.specs.Prelude.{◌≡◌};
ghost use Rattle.cell_split.specs.Verdicts.{is_refuted, is_split};

use crate::cell::{Cell, Task};
use plane_edges::Point;

/// What a judge says of a cell.
#[derive(Clone, Copy, Debug, PartialEq, Eq)]
pub enum Verdict {
    /// No place of the district is in the box.
    Outside,
    /// The condition holds at every place of the district in the box, at every rank of the cell.
    Proved,
    /// The condition fails at this place of the district, at every rank of the cell.
    Refuted(Point),
    /// Undecided: the children are to be judged.
    Split,
    /// Undecided at a smallest cell, whose box has this place of the district.
    Open(Point),
}

impl Verdict {
    /// Whether the children are to be judged.
    pub fn splits(self) -> bool
        ensures { result ≡ is_split self }
    {
        matches!(self, Verdict::Split)
    }

    /// Whether the condition fails at a place of the cell.
    pub fn refutes(self) -> bool
        ensures { result ≡ is_refuted self }
    {
        matches!(self, Verdict::Refuted(_))
    }
}

/// A cell of the tree that isn't split, with its verdict.
#[derive(Clone, Copy, Debug, PartialEq, Eq)]
pub struct Leaf {
    pub task: Task,
    pub verdict: Verdict,
}

/// What is printed of a problem. Ranks are from 0 to 720, counted so that later ones are safer.
#[derive(Clone, Copy, Debug, PartialEq, Eq)]
pub enum Entry {
    /// The least rank from which every rank is proved.
    Minute { rank: u32 },
    /// Every rank is proved.
    Whole,
    /// The last rank is refuted.
    Never,
    /// Ranks from `safe` on are proved, those before `from` are not all safe, and at rank `safe - 1`
    /// this smallest cell is undecided. `safe` may be 721.
    Open { safe: u32, from: u32, cell: Cell },
}
