// The lines of a set that a table of one district hasn't.
ghost use Rattle.std.specs.Prelude.{◌≡◌, ◌++◌, codes, decimal, IfOk};
ghost use Rattle.order_rule.specs.Asked.{asked_of};
ghost use Rattle.set_table.specs.Table.{district_line, order_line, set_end_line, set_head};

use no_memory::NoMemory;
use order_rule::Order;
use order_table::head_of;
use std::alloc::Global;

/// The line of the district of this number.
pub(crate) fn district_line(alloc: Global, i: usize) -> Result<Vec<u8>, NoMemory>
    ensures { IfOk result (λ t. t.items ≡ district_line i) }
{
    Ok(format!(in alloc; "district {i}\n")?.into_bytes())
}

/// The last line of a table: how many days and districts it has, and how many of the districts' entries are undecided.
pub(crate) fn end_line(
    alloc: Global,
    days: u32,
    districts: usize,
    undecided: u32,
) -> Result<Vec<u8>, NoMemory>
    ensures { IfOk result (λ t. t.items ≡ set_end_line days districts undecided) }
{
    Ok(format!(in alloc; "end days {days} districts {districts} open {undecided}\n")?.into_bytes())
}

/// What the order asked for: the second line of its table's head.
fn order_line(alloc: Global, order: &Order) -> Result<Vec<u8>, NoMemory>
    ensures { IfOk result (λ t. t.items ≡ order_line (asked_of order.now)) }
{
    let first = b"prayer timetable 1\n";
    let last = b"\ndate         fajr  f.end  dhuhr    asr   magh  m.end   isha\n";
    let mut line = Vec::new(alloc);
    let head = head_of(alloc, order)?;
    line.extend_from_slice(&head[first.len()..head.len() - last.len()])?;
    Ok(line)
}

/// The first four lines of the table of so many districts.
pub(crate) fn set_head(alloc: Global, order: &Order, districts: usize) -> Result<Vec<u8>, NoMemory>
    ensures { IfOk result (λ t. t.items ≡ set_head (order_line (asked_of order.now)) districts) }
{
    let mut head = Vec::new(alloc);
    head.extend_from_slice(b"prayer set 1\n")?;
    head.extend_from_slice(&order_line(alloc, order)?)?;
    head.extend_from_slice(&districts_lines(alloc, districts)?)?;
    Ok(head)
}

/// How many districts there are, and the names of the columns.
fn districts_lines(alloc: Global, districts: usize) -> Result<Vec<u8>, NoMemory>
    ensures { IfOk result (λ t. t.items ≡ codes "\ndistricts " ++ decimal districts ++ codes "\ndate         fajr  f.end  dhuhr    asr   magh  m.end   isha\n") }
{
    let names = "date         fajr  f.end  dhuhr    asr   magh  m.end   isha";
    Ok(format!(in alloc; "\ndistricts {districts}\n{names}\n")?.into_bytes())
}
