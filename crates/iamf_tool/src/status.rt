ghost use Rattle.std.specs.Prelude.{◌≡◌};
ghost use Rattle.iamf_tool.specs.Status.{status_number, status_line};

/// How a run ended.
#[derive(Clone, Copy, Debug, PartialEq, Eq)]
pub enum Status {
    /// The output stands on `out`.
    Done,
    /// The input is refused.
    Refused,
    /// The words are no command.
    Usage,
    /// There is no memory.
    Memory,
    /// The source failed.
    ReadFault,
    /// `out` failed.
    WriteFault,
    /// The input has more than 2^30 bytes.
    TooLarge,
}

impl Status {
    /// The exit status of the program.
    pub fn number(self) -> u8
        ensures { result ≡ status_number self }
    {
        match self {
            Status::Done => 0,
            Status::Refused => 1,
            Status::Usage => 2,
            Status::Memory => 3,
            Status::ReadFault => 4,
            Status::WriteFault => 5,
            Status::TooLarge => 6,
        }
    }

    /// The line that is noted of it: none of an output, and of a refusal it has its own.
    pub fn line(self) -> &'static [u8]
        ensures { result.now ≡ status_line self }
    {
        match self {
            Status::Done | Status::Refused => b"",
            Status::Usage => b"usage: iamf_tool COMMAND < INPUT > OUTPUT\n",
            Status::Memory => b"out of memory\n",
            Status::ReadFault => b"read failed\n",
            Status::WriteFault => b"write failed\n",
            Status::TooLarge => b"input too large\n",
        }
    }
}
