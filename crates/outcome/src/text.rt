// A text that is written at once.
ghost use Rattle.std.specs.Prelude.{◌≡◌, IfOk};
ghost use Rattle.outcome.specs.Writing.{Writes};

use crate::Stop;
use source_sink::{Sink, write_all};

/// Writes a whole text; answers how many entries or verdicts are undecided in it, as it was told.
pub fn write_text<K: Sink>(out: &mut K, text: &[u8], undecided: u32) -> Result<u32, Stop>
    ensures writes { Writes text.now result
        (K.faults out.old) (K.faults out.new) (K.held out.old) (K.held out.new) }
    ensures count { IfOk result (λ count. count ≡ undecided) }
{
    match write_all(out, text) {
        Ok(()) => Ok(undecided),
        Err(_) => Err(Stop::WriteFault),
    }
}
