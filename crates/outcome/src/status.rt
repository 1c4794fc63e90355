// The statuses of the program.
ghost use Rattle.std.specs.Prelude.{◌≡◌};
ghost use Rattle.outcome.specs.Answer.{number_of, line_of_status};

/// How a run ended. From `Usage` on, one line went to the error stream.
#[derive(Clone, Copy, Debug, PartialEq, Eq)]
pub enum Status {
    /// The whole text was written, and nothing in it is undecided.
    Done,
    /// The whole text was written, and an entry or a verdict in it is undecided.
    Open,
    /// The words are none that the program takes.
    Usage,
    /// The input is no order, or too long for one.
    OrderRefused,
    /// A read of the input failed.
    ReadFault,
    /// A write of the text failed.
    WriteFault,
    /// Memory was not found.
    NoMemory,
    /// The input is no covering that the checker accepts, or too long for one.
    CoverRefused,
    /// The input is no calendar, or too long for one.
    IcalRefused,
}

impl Status {
    /// The status with which the program exits.
    pub fn number(self) -> u8
        ensures { result ≡ number_of self }
    {
        self as u8
    }

    /// The line on the error stream, where the status says no more than its name; else nothing.
    #[tactic(auto, unfolding(crate::specs::Answer::line_of_status))]
    pub fn line(self) -> &'static str
        ensures { result.now ≡ line_of_status self }
    {
        match self {
            Status::ReadFault => "read fault\n",
            Status::WriteFault => "write fault\n",
            Status::NoMemory => "no memory\n",
            Status::Done
            | Status::Open
            | Status::Usage
            | Status::OrderRefused
            | Status::CoverRefused
            | Status::IcalRefused => "",
        }
    }
}
