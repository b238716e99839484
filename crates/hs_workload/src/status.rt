//! How a call of the program ends.

ghost use Rattle.std.specs.Prelude.{◌≡◌};
ghost use Rattle.hs_workload.specs.Statuses.{status_number};

/// How a call ended (`docs/FORMATS.md`, "The program").
#[derive(Clone, Copy)]
pub enum Status {
    /// The command ran, and its output was written.
    Done,
    /// The words are no command. Nothing was read.
    Usage,
    /// The whole input was read, and it is no workload; or, of `check`, its parts are no workload and no journal.
    Refused,
    /// The source failed. Nothing was written.
    ReadFault,
    /// The sink failed. What was written is a front of the text that was due.
    WriteFault,
    /// There was no memory. Nothing was written.
    Memory,
    /// The input has more bytes than it may have.
    TooLong,
    /// The whole input was read, and the journal in it is not lawful for the workload in it.
    Unlawful,
}

impl Status {
    /// The number with which the program ends.
    pub fn number(self) -> u8
        ensures { result ≡ status_number self }
    {
        match self {
            Status::Done => 0,
            Status::Usage => 2,
            Status::Refused => 3,
            Status::ReadFault => 4,
            Status::WriteFault => 5,
            Status::Memory => 6,
            Status::TooLong => 7,
            Status::Unlawful => 8,
        }
    }
}
