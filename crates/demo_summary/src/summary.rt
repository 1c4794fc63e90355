// The summary of the table of a number's order.
ghost use Rattle.std.specs.Prelude.{◌≡◌, ◌≤◌, ◌++◌, All, IfOk, length, map};
ghost use Rattle.std.specs.String.{string_bytes};
ghost use Rattle.order_table.specs.Printing.{IsPrintable};
ghost use Rattle.order_table.specs.Ready.{found_in};
ghost use Rattle.order_table.specs.Trees.{table_of_trees, undecided};
ghost use Rattle.outcome.specs.Writing.{Writes};
ghost use Rattle.worker_table.specs.Entries.{entries_on};
ghost use Rattle.demo_summary.specs.Demo.{demo_asked};
ghost use Rattle.demo_summary.specs.Summary.{counts_text, head_text, line_of, sum_text, summary_line, tally_of};

use crate::order::demo_order;
use crate::tally::{Tally, Variant, sum_of};
use cell_split::Entry;
use no_memory::NoMemory;
use order_table::{Ready, prepare};
use outcome::{Stop, write_text};
use source_sink::Sink;
use std::alloc::Global;
use std::sync::Wait;
use std::thread::Threads;
use steal_pool::Gate;
use worker_table::search_days;

/// The tally of these days with their entries.
fn tally_of(ready: &Ready, entries: &[[Entry; 7]]) -> Tally
    requires entries { entries.now ≡ map (entries_on ready.now.sky.sun ready.now.sky.district ready.now.sky.root) ready.now.days.items }
    requires printable { All (All IsPrintable) entries.now }
    requires few { length ready.now.days.items ≤ 366 }
    ensures { result ≡ tally_of (found_in ready.now) }
{
    Tally {
        minutes: Variant::Minute.count_of(entries),
        whole: Variant::Whole.count_of(entries),
        never: Variant::Never.count_of(entries),
        undecided: Variant::Open.count_of(entries),
        sum: sum_of(&ready.days, entries),
    }
}

/// The tally of the table of a number's order, searched by 1 to 16 workers.
fn demo_tally<R: Threads + Wait + Sync, G: Gate + Sync>(
    rt: &R,
    alloc: Global,
    number: u32,
    workers: u32,
    gate: &G,
) -> Result<Tally, NoMemory>
    requires some { 1 ≤ workers }
    requires few { workers ≤ 16 }
    ensures { IfOk result (λ t. t ≡ tally_of (table_of_trees (demo_asked number))) }
{
    let order = demo_order(alloc, number)?;
    let ready = prepare(alloc, order)?;
    let entries = search_days(rt, alloc, &ready.sky, &ready.days, workers, gate)?;
    Ok(tally_of(&ready, &entries))
}

fn head_string(alloc: Global, number: u32) -> Result<String, NoMemory>
    ensures { IfOk result (λ s. string_bytes s ≡ head_text number) }
{
    Ok(format!(in alloc; "demo {number} positions 65 days 30")?)
}

fn counts_string(alloc: Global, t: Tally) -> Result<String, NoMemory>
    ensures { IfOk result (λ s. string_bytes s ≡ counts_text t) }
{
    Ok(format!(in alloc;
        " minutes {} whole {} never {} open {}",
        t.minutes, t.whole, t.never, t.undecided
    )?)
}

fn sum_string(alloc: Global, sum: i32) -> Result<String, NoMemory>
    ensures { IfOk result (λ s. string_bytes s ≡ sum_text sum) }
{
    Ok(format!(in alloc; " sum {sum}\n")?)
}

/// The line of a tally.
fn line_of(alloc: Global, number: u32, t: Tally) -> Result<Vec<u8>, NoMemory>
    ensures { IfOk result (λ line. line.items ≡ line_of number t) }
{
    let counts = counts_string(alloc, t)?;
    let sum = sum_string(alloc, t.sum)?;
    let mut line = head_string(alloc, number)?.into_bytes();
    line.extend_from_slice(counts.as_bytes())?;
    line.extend_from_slice(sum.as_bytes())?;
    Ok(line)
}

/// Writes the summary of the table of a number's order, searched by 1 to 16 workers: how many of its 210 entries are of
/// each variant, and the sum of the printed minutes; answers how many entries are undecided.
#[tactic(auto, unfolding(crate::specs::Summary::summary_line))]
pub fn write_summary<R: Threads + Wait + Sync, K: Sink, G: Gate + Sync>(
    rt: &R,
    alloc: Global,
    number: u32,
    workers: u32,
    gate: &G,
    out: &mut K,
) -> Result<u32, Stop>
    requires some { 1 ≤ workers }
    requires few { workers ≤ 16 }
    ensures writes { Writes (summary_line number) result
        (K.faults out.old) (K.faults out.new) (K.held out.old) (K.held out.new) }
    ensures count { IfOk result (λ count. count ≡ undecided (demo_asked number)) }
{
    let Ok(tally) = demo_tally(rt, alloc, number, workers, gate) else {
        return Err(Stop::NoMemory);
    };
    let Ok(line) = line_of(alloc, number, tally) else {
        return Err(Stop::NoMemory);
    };
    write_text(out, &line, tally.undecided)
}
