// What bytes come from, one call at a time and whole.
ghost use Rattle.std.specs.Prelude.{◌≡◌, ℕ, ◌<◌, ◌≤◌, List, Option, length, IfOk, IsErrOf};
ghost use Rattle.source_sink.specs.Outside.{Rose};
ghost use Rattle.source_sink.specs.Reading.{Reads, GivesWithin, GivesAll, IsLonger};
ghost use Rattle.source_sink.specs.declared.reading.ReadFault.TheVariants.{NoMemory};

use std::alloc::{AllocError, Global};

/// What one read answers.
#[derive(Clone, Copy, Debug, PartialEq, Eq)]
pub enum Got {
    /// So many bytes, at least one, stand at the front of the buffer: the next ones that were left.
    Bytes(usize),
    /// Nothing is left.
    End,
    /// A fault, which was counted. No byte was given.
    Failed,
}

/// What bytes come from.
pub trait Source {
    // The bytes left, where the source tells them.
    ghost left: { Self → Option (List ℕ) };

    // How many faults were counted, which never falls.
    ghost faults: { Self → ℕ };

    /// Reads the next bytes into the front of the buffer.
    fn read(&mut self, buffer: &mut [u8]) -> Got
        requires { 0 < length buffer.old }
        ensures { Reads (left self.old) (left self.new) (faults self.old) (faults self.new)
            buffer.new result };
}

/// Why a source was not read to its end.
#[derive(Clone, Copy, Debug, PartialEq, Eq)]
pub enum ReadFault {
    /// A read failed.
    Failed,
    /// More bytes than the limit were read.
    TooLong,
    /// Memory was not found.
    NoMemory,
}

impl From<AllocError> for ReadFault {
    ghost from_gives = { λ _ e. e ≡ NoMemory };

    fn from(_: AllocError) -> ReadFault {
        ReadFault::NoMemory
    }
}

/// The most bytes that one turn of `read_all` asks for.
const PIECE: usize = 65_536;

/// All bytes that the source has left, at most `limit`. It reads until the end, until a read fails, or until it
/// has more bytes than the limit, of which it then took at most one piece more.
pub fn read_all<S: Source>(
    alloc: Global,
    source: &mut S,
    limit: usize,
) -> Result<Vec<u8>, ReadFault>
    ensures later { S.faults source.old ≤ S.faults source.new }
    ensures some { GivesWithin limit (S.left source.old) (S.left source.new) }
    ensures whole { IfOk result (λ bytes.
        GivesAll (S.left source.old) (S.left source.new) bytes.items) }
    ensures within { IfOk result (λ bytes. length bytes.items ≤ limit) }
    ensures failed { IsErrOf result ReadFault.Failed → Rose (S.faults source.old) (S.faults source.new) }
    ensures long { IsErrOf result ReadFault.TooLong → IsLonger (S.left source.old) limit }
{
    let mut room = vec![in alloc; 0u8; PIECE]?;
    let buffer = room.as_mut_slice();
    let mut found: Vec<u8> = Vec::new(alloc);
    'turns: while found.len() <= limit {
        match source.read(buffer) {
            Got::Bytes(count) => found.extend_from_slice(&buffer[..count])?,
            Got::End => return Ok(found),
            Got::Failed => return Err(ReadFault::Failed),
        }
    }
    Err(ReadFault::TooLong)
}
