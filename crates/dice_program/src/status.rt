//! How a run of the program ends.
ghost use Rattle.std.specs.Prelude.{◌≡◌};

/// How a run of the program ended, which its exit status tells.
#[derive(Clone, Copy, Debug, PartialEq, Eq)]
pub enum Status {
    /// The script was answered.
    Done,
    /// The program was called with words, which it does not take.
    Usage,
    /// The script could not be read.
    ReadFault,
    /// The transcript could not be written.
    WriteFault,
    /// The script has too many lines or bytes.
    TooMany,
    /// Memory was refused.
    NoMemory,
}

impl Status {
    ghost use Rattle.dice_program.specs.Status.{message_of, number_of};

    /// The exit status of the process.
    pub fn number(self) -> u8
        ensures { result ≡ number_of self }
    {
        match self {
            Status::Done => 0,
            Status::Usage => 2,
            Status::ReadFault => 3,
            Status::WriteFault => 4,
            Status::TooMany => 6,
            Status::NoMemory => 7,
        }
    }

    /// What is said of it on standard error: nothing, or one line.
    pub fn message(self) -> &'static [u8]
        ensures { result.now ≡ message_of self }
    {
        match self {
            Status::Done | Status::Usage => b"",
            Status::ReadFault => b"dice11: the script could not be read\n",
            Status::WriteFault => b"dice11: the transcript could not be written\n",
            Status::TooMany => b"dice11: the script has too many lines or bytes\n",
            Status::NoMemory => b"dice11: out of memory\n",
        }
    }
}
