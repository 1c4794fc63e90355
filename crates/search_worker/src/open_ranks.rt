// The greatest open rank of each problem, and no leaf.
ghost use Rattle.std.specs.Prelude.{◌≡◌, ◌≢◌, ◌<◌, ℕ, length, max, if◌then◌else◌};
ghost use Rattle.cell_split.specs.Entries.{last_ordinal};
ghost use Rattle.cell_split.specs.Verdicts.{is_open};
ghost use Rattle.plain_search.specs.Harvests.{ordinal_of, ordinals_of};
ghost use Rattle.search_worker.specs.OpenRanks.{AreOpenRanks};

use crate::store::Store;
use cell_split::{Leaf, Verdict};
use no_memory::NoMemory;
use std::alloc::Global;

/// For each problem the greatest open rank of the leaves that were taken in, None where none is open.
#[derive(Drop)]
pub struct OpenRanks {
    pub ranks: Vec<Option<u32>>,
}

impl Store for OpenRanks {
    ghost keeps = { λ problems s kept. AreOpenRanks problems s.ranks.items kept };

    fn new(alloc: Global, problems: u32) -> Result<OpenRanks, NoMemory> {
        Ok(OpenRanks {
            ranks: vec![in alloc; None; problems as usize]?,
        })
    }

    fn keep(&mut self, leaf: Leaf) -> Result<(), NoMemory> {
        self.raise(leaf.task.problem as usize, open_rank(&leaf));
        Ok(())
    }

    fn join(&mut self, other: OpenRanks) -> Result<(), NoMemory> {
        for (problem, rank) in other.ranks.iter().enumerate() {
            self.raise(problem, *rank);
        }
        Ok(())
    }
}

impl OpenRanks {
    // Takes in a rank of a problem, where there is such a problem.
    fn raise(&mut self, problem: usize, rank: Option<u32>)
        ensures counted { length self.new.ranks.items ≡ length self.old.ranks.items }
        ensures here { problem < length self.old.ranks.items → ordinals_of self.new.ranks.items problem ≡ max (ordinals_of self.old.ranks.items problem) (ordinal_of rank) }
        ensures others { (k : ℕ) → k ≢ problem → ordinals_of self.new.ranks.items k ≡ ordinals_of self.old.ranks.items k }
    {
        if problem < self.ranks.len() {
            self.ranks[problem] = greater(self.ranks[problem], rank);
        }
    }
}

// The last rank of a leaf, if it is open.
fn open_rank(leaf: &Leaf) -> Option<u32>
    ensures { ordinal_of result ≡ (if is_open leaf.now.verdict then last_ordinal leaf.now else 0) }
{
    match leaf.verdict {
        Verdict::Open(_) => Some(leaf.task.cell.last),
        _ => None,
    }
}

// The greater rank, where None is below all.
fn greater(a: Option<u32>, b: Option<u32>) -> Option<u32>
    ensures { ordinal_of result ≡ max (ordinal_of a) (ordinal_of b) }
{
    match (a, b) {
        (Some(first), Some(second)) => Some(first.max(second)),
        (None, _) => b,
        (_, None) => a,
    }
}
