//! How the program ends.
ghost use Rattle.std.specs.Prelude.{◌≡◌, MatchResult};
ghost use Rattle.nk_run.specs.Statuses.{status_number};

use nk_host::SinkFault;

/// How the program ends.
#[derive(Clone, Copy)]
pub(crate) enum Status {
    /// All was done.
    Done,
    /// The image isn't admitted, or has no room.
    Refused,
    /// The words have none of the forms.
    Usage,
    /// A file couldn't be read.
    Unread,
    /// The text couldn't be written whole.
    Cut,
    /// There was no memory.
    NoMemory,
    /// A line of the plan, of the journal, of the list of modules or of the text isn't right.
    WrongLine,
    /// A file is longer than such a file may be.
    TooLong,
    /// A module has no bytes, or the modules don't fit behind the image.
    Unfit,
    /// No call of the journal gave a region the identifier, or its writes aren't logged.
    NoRegion,
    /// No code of the image stands at the address.
    NoAddress,
}

impl Status {
    /// The exit status.
    pub(crate) fn number(self) -> u8
        ensures { result ≡ status_number self }
    {
        match self {
            Status::Done => 0,
            Status::Refused => 1,
            Status::Usage => 2,
            Status::Unread => 3,
            Status::Cut => 4,
            Status::NoMemory => 5,
            Status::WrongLine => 6,
            Status::TooLong => 7,
            Status::Unfit => 8,
            Status::NoRegion => 9,
            Status::NoAddress => 10,
        }
    }

    /// This status where its text was put, else that of a fault of the sink.
    pub(crate) fn unless_cut(self, put: Result<(), SinkFault>) -> Status
        ensures { MatchResult put (λ _. result ≡ self) (λ _. result ≡ Status.Cut) }
    {
        match put {
            Ok(()) => self,
            Err(SinkFault) => Status::Cut,
        }
    }
}
