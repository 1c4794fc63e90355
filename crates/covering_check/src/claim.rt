// What a line says to be refuted.
ghost use Rattle.std.specs.Prelude.{◌≡◌};
ghost use Rattle.plain_search.specs.Harvests.{ordinal_of};
ghost use Rattle.covering_check.specs.Members.{ordinal_of_claim};

use cell_split::Cell;

/// The numerators and the denominator of a place, as a line spells them.
#[derive(Clone, Copy)]
pub(crate) struct Numbers {
    pub a: i128,
    pub b: i128,
    pub d: i128,
}

/// The greatest refuted rank, with a cell that has it as its last rank and the place that refutes it.
#[derive(Clone, Copy)]
pub(crate) enum Claim {
    Nowhere,
    UpTo {
        rank: u32,
        cell: Cell,
        point: Numbers,
    },
}

impl Claim {
    pub(crate) fn rank(self) -> Option<u32>
        ensures { ordinal_of result ≡ ordinal_of_claim self }
    {
        match self {
            Claim::Nowhere => None,
            Claim::UpTo { rank, .. } => Some(rank),
        }
    }
}
