// What bytes go to, one call at a time and whole.
ghost use Rattle.std.specs.Prelude.{ℕ, ◌<◌, ◌≤◌, List, Option, length, OnOk, OnErr};
ghost use Rattle.source_sink.specs.Outside.{Rose, Adds, AddsPart};
ghost use Rattle.source_sink.specs.Writing.{Writes};

/// What one write answers.
#[derive(Clone, Copy, Debug, PartialEq, Eq)]
pub enum Put {
    /// So many bytes of the piece, at least one, were taken.
    Took(usize),
    /// A fault, which was counted. No byte was taken.
    Failed,
}

/// What bytes go to.
pub trait Sink {
    // The bytes held, where the sink tells them.
    ghost held: { Self → Option (List ℕ) };

    // How many faults were counted, which never falls.
    ghost faults: { Self → ℕ };

    /// Takes the first bytes of the piece.
    fn write(&mut self, piece: &[u8]) -> Put
        requires { 0 < length piece.now }
        ensures { Writes (held self.old) (held self.new) (faults self.old) (faults self.new)
            piece.now result };
}

/// A write failed.
#[derive(Clone, Copy, Debug, PartialEq, Eq)]
pub struct WriteFault;

/// Writes all bytes, or, where a write fails, only the first of them.
pub fn write_all<K: Sink>(sink: &mut K, bytes: &[u8]) -> Result<(), WriteFault>
    ensures later { K.faults sink.old ≤ K.faults sink.new }
    ensures ok { OnOk result (Adds (K.held sink.old) (K.held sink.new) bytes.now) }
    ensures part { OnErr result (AddsPart (K.held sink.old) (K.held sink.new) bytes.now) }
    ensures failed { OnErr result (Rose (K.faults sink.old) (K.faults sink.new)) }
{
    let mut at = 0;
    'turns: while at < bytes.len() {
        match sink.write(&bytes[at..]) {
            Put::Took(count) => at += count,
            Put::Failed => return Err(WriteFault),
        }
    }
    Ok(())
}
