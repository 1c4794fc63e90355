// What the words behind the program's name ask for.
use order_covering::Form;
use sun_verdict::Request;

/// What the words behind the program's name ask for.
#[derive(Clone, Copy, Debug, PartialEq, Eq)]
pub enum Command {
    /// The words are none that the program takes.
    Unknown,
    /// `sun`, with what it asks.
    Sun(Request),
    /// `order`.
    Order,
    /// `plain`.
    Plain,
    /// `table`.
    Table {
        /// How many workers search, from 1 to 16.
        workers: u32,
    },
    /// `cover`.
    Cover {
        /// How many workers search, from 1 to 16.
        workers: u32,
        /// How the letters are spelled.
        form: Form,
    },
    /// `check`.
    Check,
    /// `demo`.
    Demo {
        /// The number of the order that is made.
        number: u32,
        /// How many workers search, from 1 to 16.
        workers: u32,
    },
    /// `ical`.
    Ical {
        /// How many workers search, from 1 to 16.
        workers: u32,
    },
    /// `agenda`.
    Agenda,
    /// `set`.
    Set {
        /// How many workers search, from 1 to 16.
        workers: u32,
    },
}
