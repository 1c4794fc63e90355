// What a search gives.
use cell_split::Leaf;
use std::marker::Model;

/// For each problem the greatest refuted rank, None where no rank is refuted. Contracts see a list.
#[derive(Drop)]
pub struct Ranks {
    ranks: Vec<Option<u32>>,
}

impl Model for Ranks {
    ghost use Rattle.std.specs.Prelude.{ℕ, List, Option};

    ghost Value = { List (Option ℕ) };

    ghost view = { λ r. r.ranks.items };
}

impl Ranks {
    ghost use Rattle.std.specs.Prelude.{◌≡◌};

    pub fn of(ranks: Vec<Option<u32>>) -> Ranks
        ensures { result ≡ ranks.items }
    {
        Ranks { ranks }
    }
}

/// Leaves of a judge's trees, in no order that is promised. Contracts see a list.
#[derive(Drop)]
pub struct Leaves {
    leaves: Vec<Leaf>,
}

impl Model for Leaves {
    ghost use Rattle.std.specs.Prelude.{List};
    ghost use Rattle.cell_split.specs.declared.verdict.Leaf.{Leaf};

    ghost Value = { List Leaf };

    ghost view = { λ l. l.leaves.items };
}

impl Leaves {
    ghost use Rattle.std.specs.Prelude.{◌≡◌};

    pub fn of(leaves: Vec<Leaf>) -> Leaves
        ensures { result ≡ leaves.items }
    {
        Leaves { leaves }
    }
}

/// For each problem the greatest refuted rank, and each leaf above it, with leaves below it maybe.
#[derive(Drop)]
pub struct Harvest {
    pub refuted: Ranks,
    pub leaves: Leaves,
}

impl Harvest {
    ghost use Rattle.std.specs.Prelude.{◌≡◌, ◌<◌, length, slice_get, Some};

    /// The greatest refuted rank of problem `k`, None where no rank is refuted.
    pub fn refuted_rank(&self, k: u32) -> Option<u32>
        requires { k < length self.now.refuted }
        ensures { slice_get self.now.refuted k ≡ Some result }
    {
        self.refuted.ranks[k as usize]
    }

    pub fn leaf_count(&self) -> usize
        ensures { result ≡ length self.now.leaves }
    {
        self.leaves.leaves.len()
    }

    pub fn leaf(&self, i: usize) -> Leaf
        requires { i < length self.now.leaves }
        ensures { slice_get self.now.leaves i ≡ Some result }
    {
        self.leaves.leaves[i]
    }
}
