//! The answers of the command.

ghost use Rattle.std.specs.Prelude.{◌≡◌};

/// What the command answers, but for a failed write and where it is out of memory.
#[derive(Clone, Copy, Debug, PartialEq, Eq)]
pub(crate) enum Status {
    /// The job is done.
    Done,
    /// The text has a fault.
    Refused,
    /// The words are not accepted.
    Usage,
    /// A read failed.
    ReadFault,
    /// A change of attributes was refused at its time.
    Stopped,
    /// The turns were too few.
    Spent,
    /// The text is too long.
    TooLong,
    /// The stop is too late for the resolution of the model.
    StopTooLong,
    /// The text of the state is too long.
    StateTooLong,
    /// The bytes are the text of no state.
    BadState,
    /// The stop is before the time of the state.
    StopTooEarly,
}

/// The answer of a failed write.
pub const WRITE_FAULT: u8 = 4;

/// The answer where it is out of memory.
pub const NO_MEMORY: u8 = 7;

/// The answer to words that are not accepted.
pub const USAGE: u8 = 2;

impl Status {
    ghost use Rattle.tdf_cli.specs.Status.{status_number};

    /// The number of this answer.
    pub(crate) fn number(self) -> u8
        ensures { result ≡ status_number self }
    {
        match self {
            Status::Done => 0,
            Status::Refused => 1,
            Status::Usage => USAGE,
            Status::ReadFault => 3,
            Status::Stopped => 5,
            Status::Spent => 6,
            Status::TooLong => 8,
            Status::StopTooLong => 9,
            Status::StateTooLong => 10,
            Status::BadState => 11,
            Status::StopTooEarly => 12,
        }
    }
}
