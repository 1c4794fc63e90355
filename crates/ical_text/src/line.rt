// The value of a line.
ghost use Rattle.std.specs.Prelude.{◌≡◌, IfOk};

use no_memory::NoMemory;
use std::alloc::Global;
use std::marker::Model;

/// The value of a property as it stands. It is seen as its bytes.
#[derive(Debug, Drop)]
pub struct Line {
    bytes: Vec<u8>,
}

impl Model for Line {
    ghost use Rattle.std.specs.Prelude.{List, ℕ};

    ghost Value = { List ℕ };

    ghost view = { λ a. a.bytes.items };
}

impl Line {
    pub(crate) fn new(alloc: Global, bytes: &[u8]) -> Result<Line, NoMemory>
        ensures { IfOk result (λ a. a ≡ bytes.now) }
    {
        Ok(Line {
            bytes: Vec::from_slice(alloc, bytes)?,
        })
    }

    /// The bytes of the value.
    pub fn bytes(&self) -> &[u8]
        ensures { result.now ≡ self.now }
    {
        self.bytes.as_slice()
    }
}
