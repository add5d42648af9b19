//! How a run ends.

ghost use Rattle.std.specs.Prelude.{◌≡◌, ◌↔◌, IsNone};
ghost use Rattle.craig_top.specs.Statuses.{status_number};

/// How a run of the program ends.
#[derive(Clone, Copy, Debug, PartialEq, Eq)]
pub enum Status {
    /// The input was read to its end and every reply was put whole.
    Done,
    /// The words are refused. Nothing was read or put.
    Usage,
    /// A read failed. The replies to the lines that were whole are put.
    ReadFault,
    /// A write failed. Whole replies were put, and perhaps the beginning of the next one.
    WriteFault,
    /// The script has at least as many bytes as the bound. The replies to the lines that were whole are put.
    TooLong,
    /// Memory ran out. Whole replies were put.
    NoMemory,
}

impl Status {
    /// The exit status of the program. It takes no memory.
    pub fn number(self) -> u8
        ensures { result ≡ status_number self }
    {
        match self {
            Status::Done => 0,
            Status::Usage => 1,
            Status::ReadFault => 2,
            Status::WriteFault => 3,
            Status::TooLong => 4,
            Status::NoMemory => 5,
        }
    }

    /// What the program puts to standard error, as a line: how the run ended, or how the program is called. There is
    /// none where the run is done.
    pub fn message(self) -> Option<&'static str>
        ensures { IsNone result ↔ (self ≡ Status.Done) }
    {
        match self {
            Status::Done => None,
            Status::Usage => Some(
                "usage: craig [--system WORD] [--format WORD] [--limit N|none] [--gen N]",
            ),
            Status::ReadFault => {
                Some("craig: a read failed; the replies to the lines before it stand")
            }
            Status::WriteFault => Some("craig: a write failed; the replies before it stand"),
            Status::TooLong => Some(
                "craig: the script has 4294967296 bytes or more; the replies so far stand",
            ),
            Status::NoMemory => Some("craig: memory ran out; the replies so far stand"),
        }
    }
}
