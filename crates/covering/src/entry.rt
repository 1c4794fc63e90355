// The entry of a tree, from a harvest or by a search of its own.
ghost use Rattle.std.specs.Prelude.{◌≡◌, ◌+◌, ◌<◌, ◌≤◌, max, IfSome};
ghost use Rattle.cell_split.specs.Entries.{decided, entry_by, entry_of, greatest_ordinal, last_ordinal};
ghost use Rattle.plain_search.specs.Harvests.{IsHarvest, ordinal_of};
ghost use Rattle.plain_search.specs.TopRanks.{AreTopOrdinals, is_open_of};
ghost use Rattle.covering.specs.Entries.{IsEntryIn};
ghost use Rattle.covering.specs.Seeks.{open_of};
ghost use Rattle.covering.specs.Settles.{leaves_of, open_ordinal_of};

use crate::leaf_walk::{Sought, first_leaf};
use cell_split::{Entry, Judge, Leaf, Task, Verdict};
use plain_search::{Harvest, TopRanks, is_cut, top_ranks};

/// The entry of problem `k`, from the harvest of a search for this judge. Where a rank above the refuted
/// one is open, the cells at that rank are judged anew up to the first open one, since a harvest is in
/// no order. It takes no memory.
pub fn entry_of<J: Judge>(judge: &J, harvest: &Harvest, k: u32) -> Entry
    requires harvest { IsHarvest (J.content judge.now) harvest.now.refuted harvest.now.leaves }
    requires known { k < (J.content judge.now).problems }
    ensures value { result ≡ entry_of (leaves_of (J.content judge.now) k) }
    ensures in_root { IsEntryIn (J.content judge.now).root result }
{
    let refuted = harvest.refuted_rank(k);
    let left_open = open_rank(harvest, k, refuted);
    entry_of_ranks(judge, k, TopRanks { refuted, left_open })
}

/// The entry of problem `k`, by a search of its tree that keeps the ranks alone; an open entry's cells
/// are judged anew as in `entry_of`. It takes no memory.
pub fn entry_at<J: Judge>(judge: &J, k: u32) -> Entry
    requires known { k < (J.content judge.now).problems }
    ensures value { result ≡ entry_of (leaves_of (J.content judge.now) k) }
    ensures in_root { IsEntryIn (J.content judge.now).root result }
{
    entry_of_ranks(judge, k, top_ranks(judge, k))
}

/// The entry of problem `k`, from the ranks that a search found for this judge; an open entry's cells are
/// judged anew as in `entry_of`. It takes no memory.
pub fn entry_of_ranks<J: Judge>(judge: &J, k: u32, ranks: TopRanks) -> Entry
    requires known { k < (J.content judge.now).problems }
    requires ranks { AreTopOrdinals (leaves_of (J.content judge.now) k) (ordinal_of ranks.refuted) (ordinal_of ranks.left_open) }
    ensures value { result ≡ entry_of (leaves_of (J.content judge.now) k) }
    ensures in_root { IsEntryIn (J.content judge.now).root result }
{
    entry_by(ranks.refuted, first_open(judge, k, ranks.left_open))
}

// the first open leaf at the greatest open rank above the refuted rank
fn first_open<J: Judge>(judge: &J, k: u32, left_open: Option<u32>) -> Option<Leaf>
    requires known { k < (J.content judge.now).problems }
    requires left_open { ordinal_of left_open ≡ open_ordinal_of (J.content judge.now) k }
    ensures { result ≡ open_of (leaves_of (J.content judge.now) k) }
{
    let root = Task {
        problem: k,
        cell: judge.root(),
    };
    first_leaf(judge, root, Sought::Open, left_open?)
}

// the greatest open rank of a problem above its refuted rank
fn open_rank(harvest: &Harvest, k: u32, refuted: Option<u32>) -> Option<u32>
    ensures { ordinal_of result ≡ greatest_ordinal (is_open_of k (ordinal_of refuted)) harvest.now.leaves }
{
    let mut open = None;
    for i in 0..harvest.leaf_count() {
        let leaf = harvest.leaf(i);
        if is_open_of(&leaf, k, refuted) {
            open = Some(later(open, leaf.task.cell.last));
        }
    }
    open
}

// whether a leaf is an open one of the problem, above its refuted rank
fn is_open_of(leaf: &Leaf, k: u32, refuted: Option<u32>) -> bool
    ensures { result ≡ is_open_of k (ordinal_of refuted) leaf.now }
{
    let is_open = matches!(leaf.verdict, Verdict::Open(_));
    leaf.task.problem == k && is_open && !is_cut(&leaf.task.cell, refuted)
}

// the later of two ranks
fn later(known: Option<u32>, rank: u32) -> u32
    ensures { result + 1 ≡ max (ordinal_of known) (rank + 1) }
{
    match known {
        Some(known) => known.max(rank),
        None => rank,
    }
}

/// The entry of a refuted rank, `None` for none, where this is the first open leaf of the greatest open rank
/// above it.
pub fn entry_by(refuted: Option<u32>, first: Option<Leaf>) -> Entry
    requires refuted { ordinal_of refuted ≤ 721 }
    requires first { IfSome first (λ l. last_ordinal l ≤ 721) }
    ensures { result ≡ entry_by (ordinal_of refuted) first }
{
    match first {
        Some(leaf) => Entry::Open {
            safe: leaf.task.cell.last + 1,
            from: rank_after(refuted),
            cell: leaf.task.cell,
        },
        None => decided(refuted),
    }
}

// the entry where nothing is open above the refuted rank
fn decided(refuted: Option<u32>) -> Entry
    requires { ordinal_of refuted ≤ 721 }
    ensures { result ≡ decided (ordinal_of refuted) }
{
    match refuted {
        None => Entry::Whole,
        Some(720) => Entry::Never,
        Some(rank) => Entry::Minute { rank: rank + 1 },
    }
}

// the first rank after the refuted ones
fn rank_after(refuted: Option<u32>) -> u32
    requires { ordinal_of refuted ≤ 721 }
    ensures { result ≡ ordinal_of refuted }
{
    match refuted {
        Some(rank) => rank + 1,
        None => 0,
    }
}
