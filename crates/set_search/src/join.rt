// The entries of all districts together.
ghost use Rattle.std.specs.Prelude.{◌≡◌, ◌<◌, All, IfOk, length, slice_index_or};
ghost use Rattle.cell_split.specs.declared.verdict.Entry.TheVariants.{Whole};
ghost use Rattle.district_set.specs.Joins.{join_entries};
ghost use Rattle.order_table.specs.Printing.{IsPrintable};
ghost use Rattle.set_search.specs.Searches.{IsFound};
ghost use Rattle.set_search.specs.Joined.{column_of, joined_of};

use cell_split::Entry;
use district_set::join_entries;
use no_memory::NoMemory;
use std::alloc::Global;

/// The entry of a column.
fn entry_at(entries: &[Entry; 7], column: usize) -> Entry
    requires column { column < 7 }
    requires found { All IsFound entries.now }
    ensures value { result ≡ slice_index_or entries.now column Whole }
    ensures found { IsFound result }
{
    entries[column]
}

/// The entry of a column in each district.
fn column_of(alloc: Global, column: usize, found: &[[Entry; 7]]) -> Result<Vec<Entry>, NoMemory>
    requires column { column < 7 }
    requires found { All (All IsFound) found.now }
    ensures value { IfOk result (λ entries. entries.items ≡ column_of column found.now) }
    ensures found { IfOk result (λ entries. All IsFound entries.items) }
{
    let mut entries = Vec::new(alloc);
    for part in found {
        entries.push(entry_at(part, column))?;
    }
    Ok(entries)
}

/// The entry of a column in all districts together.
fn joined_at(alloc: Global, column: usize, found: &[[Entry; 7]]) -> Result<Entry, NoMemory>
    requires some { 0 < length found.now }
    requires column { column < 7 }
    requires found { All (All IsFound) found.now }
    ensures value { IfOk result (λ entry. entry ≡ join_entries (column_of column found.now)) }
    ensures printable { IfOk result IsPrintable }
{
    let entries = column_of(alloc, column, found)?;
    Ok(join_entries(&entries))
}

/// For each column the entry of all districts together. Want of memory is its only fault.
#[tactic(auto, unfolding(crate::specs::Joined::joined_of))]
pub fn joined_of(alloc: Global, found: &[[Entry; 7]]) -> Result<[Entry; 7], NoMemory>
    requires some { 0 < length found.now }
    requires found { All (All IsFound) found.now }
    ensures value { IfOk result (λ entries. entries ≡ joined_of found.now) }
    ensures printable { IfOk result (All IsPrintable) }
{
    Ok([
        joined_at(alloc, 0, found)?,
        joined_at(alloc, 1, found)?,
        joined_at(alloc, 2, found)?,
        joined_at(alloc, 3, found)?,
        joined_at(alloc, 4, found)?,
        joined_at(alloc, 5, found)?,
        joined_at(alloc, 6, found)?,
    ])
}
