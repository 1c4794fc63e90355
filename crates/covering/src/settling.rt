// What is settled of the tree of one problem.
ghost use Rattle.std.specs.Prelude.{◌≡◌, ◌<◌, ◌≤◌, IfOk};
ghost use Rattle.cell_split.specs.Judges.{IsTask};
ghost use Rattle.cell_split.specs.Tree.{leaves};
ghost use Rattle.plain_search.specs.Harvests.{IsHarvest, ordinal_of};
ghost use Rattle.covering.specs.Entries.{IsEntryIn};
ghost use Rattle.covering.specs.Refuted.{first_refuted, rank_of, refuted_at};
ghost use Rattle.covering.specs.Settles.{IsSettled};

use crate::entry::entry_of;
use crate::leaf_walk::{Sought, first_leaf};
use crate::letter_walk::write_letters;
use crate::settled::{Letters, Settled};
use cell_split::{Cell, Judge, Leaf, Task, Verdict};
use no_memory::NoMemory;
use plain_search::Harvest;
use plane_edges::Point;
use std::alloc::Global;

/// Settles problem `k` from the harvest of a search for this judge: what is said holds of the whole tree,
/// though a search leaves cells out and keeps leaves in no order. It judges anew the cells above the
/// refuted rank, and those that have the refuted rank up to the first refuted leaf. It takes memory for
/// the letters alone.
pub fn settle<J: Judge>(
    alloc: Global,
    judge: &J,
    harvest: &Harvest,
    k: u32,
) -> Result<Settled, NoMemory>
    requires harvest { IsHarvest (J.content judge.now) harvest.now.refuted harvest.now.leaves }
    requires known { k < (J.content judge.now).problems }
    ensures settled { IfOk result (λ s. IsSettled (J.content judge.now) k s) }
    ensures in_root { IfOk result (λ s. IsEntryIn (J.content judge.now).root s.entry) }
{
    let root = Task {
        problem: k,
        cell: judge.root(),
    };
    let rank = harvest.refuted_rank(k);
    let mut letters = Vec::new(alloc);
    write_letters(judge, root, rank, &mut letters)?;
    Ok(Settled {
        entry: entry_of(judge, harvest, k),
        r: number_of(rank),
        letters: Letters { letters },
        refuted: first_refuted(judge, root, rank),
    })
}

// the rank, -1 for none
fn number_of(rank: Option<u32>) -> i32
    requires { ordinal_of rank ≤ 721 }
    ensures { result ≡ rank_of (ordinal_of rank) }
{
    match rank {
        Some(rank) => rank as i32,
        None => -1,
    }
}

// the first refuted leaf with the refuted rank
fn first_refuted<J: Judge>(judge: &J, root: Task, rank: Option<u32>) -> Option<(Cell, Point)>
    requires { IsTask (J.content judge.now) root }
    ensures { result ≡ first_refuted (ordinal_of rank) (leaves (J.content judge.now) root) }
{
    let leaf = first_leaf(judge, root, Sought::Refuted, rank?)?;
    refuted_at(leaf)
}

// the cell of a refuted leaf, and the place that refutes it
fn refuted_at(leaf: Leaf) -> Option<(Cell, Point)>
    ensures { result ≡ refuted_at leaf }
{
    match leaf.verdict {
        Verdict::Refuted(point) => Some((leaf.task.cell, point)),
        _ => None,
    }
}
