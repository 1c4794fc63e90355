// Why a text was not written whole.
ghost use Rattle.std.specs.Prelude.{◌≡◌};
ghost use Rattle.outcome.specs.declared.stop.Stop.TheVariants.{NoMemory as OutOfMemory, WriteFault as Unwritten};

use no_memory::NoMemory;
use source_sink::WriteFault;

/// Why a text was not written whole.
#[derive(Clone, Copy, Debug, PartialEq, Eq)]
pub enum Stop {
    /// Memory was not found.
    NoMemory,
    /// A write failed.
    WriteFault,
}

impl From<NoMemory> for Stop {
    ghost from_gives = { λ _ e. e ≡ OutOfMemory };

    fn from(_: NoMemory) -> Stop {
        Stop::NoMemory
    }
}

impl From<WriteFault> for Stop {
    ghost from_gives = { λ _ e. e ≡ Unwritten };

    fn from(_: WriteFault) -> Stop {
        Stop::WriteFault
    }
}
