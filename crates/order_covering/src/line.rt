// The line of a column of a day.
ghost use Rattle.std.specs.Prelude.{◌≡◌, ◌≤◌, IfOk};
ghost use Rattle.order_covering.specs.Made.{settled_line, undecided_in};
ghost use Rattle.outcome.specs.Writing.{Writes};

use crate::form::Form;
use cell_split::Entry;
use covering::{Settled, cover_line, cover_line_1};
use no_memory::NoMemory;
use outcome::Stop;
use source_sink::{Sink, write_all};
use std::alloc::Global;

fn line_of(
    alloc: Global,
    form: Form,
    column: &str,
    date: &str,
    settled: &Settled,
) -> Result<Vec<u8>, NoMemory>
    ensures { IfOk result (λ line. line.items ≡ settled_line form column.now date.now settled.now) }
{
    match form {
        Form::Letters => cover_line_1(alloc, column, date, settled),
        Form::Runs => cover_line(alloc, column, date, settled),
    }
}

// 1 where the entry is undecided, else 0
fn undecided_in(entry: &Entry) -> u32
    ensures { result ≡ undecided_in entry.now }
{
    match entry {
        Entry::Open { .. } => 1,
        _ => 0,
    }
}

/// Writes the line of what is settled; answers how many entries it leaves undecided, none or one.
pub(crate) fn write_line<K: Sink>(
    alloc: Global,
    form: Form,
    column: &str,
    date: &str,
    settled: &Settled,
    out: &mut K,
) -> Result<u32, Stop>
    ensures writes { Writes (settled_line form column.now date.now settled.now) result
        (K.faults out.old) (K.faults out.new) (K.held out.old) (K.held out.new) }
    ensures count { IfOk result (λ count. count ≡ undecided_in settled.now.entry) }
    ensures few { IfOk result (λ count. count ≤ 1) }
{
    let Ok(line) = line_of(alloc, form, column, date, settled) else {
        return Err(Stop::NoMemory);
    };
    match write_all(out, &line) {
        Ok(()) => Ok(undecided_in(&settled.entry)),
        Err(_) => Err(Stop::WriteFault),
    }
}
