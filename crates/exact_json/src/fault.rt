//! Why bytes are no JSON text within the limits.

ghost use Rattle.exact_json.specs.declared.fault.JsonFault.TheVariants.{NoMemory as OutOfMemory};
ghost use Rattle.std.specs.Prelude.{◌≡◌};

use no_memory::NoMemory;

/// Places count bytes from 0, a byte order mark included.
#[derive(Clone, Copy, Debug, PartialEq, Eq)]
pub enum JsonFault {
    /// The byte at the place is the first with which no JSON text begins; the length of the bytes where they
    /// end too early.
    NotJson(u64),
    /// The byte at the place opens the 65th list or table inside each other.
    TooDeep(u64),
    /// The number that begins at the place has a 65th byte.
    LongNumber(u64),
    NoMemory,
}

impl From<NoMemory> for JsonFault {
    ghost from_gives = { λ _ e. e ≡ OutOfMemory };

    fn from(_: NoMemory) -> JsonFault {
        JsonFault::NoMemory
    }
}
