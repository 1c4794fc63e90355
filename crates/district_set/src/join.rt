// The entry of many districts together.
ghost use Rattle.std.specs.Prelude.{◌≡◌, ◌<◌, ◌≤◌, All, length};
ghost use Rattle.cell_split.specs.Entries.{decided};
ghost use Rattle.district_set.specs.Joins.{IsInFrame, decided_value, first_open, greatest, join_entries, joined, open_from, open_safe};

use cell_split::Entry;

/// The entry of districts taken together, from the entries of each for one problem: the latest decided one, or an
/// undecided one where that may be later still. The list isn't empty, and its ranks are a frame's.
#[tactic(auto, unfolding(crate::specs::Joins::join_entries))]
pub fn join_entries(entries: &[Entry]) -> Entry
    requires some { 0 < length entries.now }
    requires in_frame { All IsInFrame entries.now }
    ensures { result ≡ join_entries entries.now }
{
    let greatest = greatest_in(entries);
    let left = if greatest.safe <= greatest.decided {
        None
    } else {
        first_open(entries, greatest.safe)
    };
    joined(greatest.decided, greatest.from, left)
}

// the greatest of each number that entries have
#[derive(Clone, Copy)]
struct Greatest {
    decided: u32,
    safe: u32,
    from: u32,
}

fn greatest_in(entries: &[Entry]) -> Greatest
    ensures decided { result.decided ≡ greatest decided_value entries.now }
    ensures safe { result.safe ≡ greatest open_safe entries.now }
    ensures from { result.from ≡ greatest open_from entries.now }
{
    let (mut decided, mut safe, mut from) = (0, 0, 0);
    for e in entries {
        decided = decided_value(e).max(decided);
        safe = open_safe(e).max(safe);
        from = open_from(e).max(from);
    }
    Greatest {
        decided,
        safe,
        from,
    }
}

// the rank from which on a decided entry is safe, 721 for none
fn decided_value(e: &Entry) -> u32
    ensures { result ≡ decided_value e.now }
{
    match e {
        Entry::Minute { rank } => *rank,
        Entry::Whole => 0,
        Entry::Never => 721,
        Entry::Open { .. } => 0,
    }
}

// the rank from which on an undecided entry is safe
fn open_safe(e: &Entry) -> u32
    ensures { result ≡ open_safe e.now }
{
    match e {
        Entry::Open { safe, .. } => *safe,
        _ => 0,
    }
}

// the rank before which an undecided entry isn't safe
fn open_from(e: &Entry) -> u32
    ensures { result ≡ open_from e.now }
{
    match e {
        Entry::Open { from, .. } => *from,
        _ => 0,
    }
}

// the first undecided entry that is safe from this rank on
fn first_open(entries: &[Entry], safe: u32) -> Option<Entry>
    ensures { result ≡ first_open safe entries.now }
{
    entries.iter().copied().find(|e| open_safe(e) == safe)
}

// what is said of all, with the undecided entry that is left
fn joined(value: u32, from: u32, left: Option<Entry>) -> Entry
    ensures { result ≡ joined value from left }
{
    match left {
        Some(Entry::Open { safe, cell, .. }) => Entry::Open {
            safe,
            from: value.max(from),
            cell,
        },
        _ => decided(value),
    }
}

fn decided(value: u32) -> Entry
    ensures { result ≡ decided value }
{
    match value {
        0 => Entry::Whole,
        721 => Entry::Never,
        rank => Entry::Minute { rank },
    }
}
