//! How a run ends.

ghost use Rattle.std.specs.Prelude.{◌≡◌};
ghost use Rattle.alg_cli.specs.Runs.{code_of};

/// How a run ended. The program's exit status is its `code`.
#[derive(Clone, Copy, Debug, PartialEq, Eq)]
pub enum Status {
    /// All was read and written, and each goal is proved.
    Done,
    /// All was read and written, and some goal is not proved.
    NotAll,
    /// What was read is refused, and the refusal was written.
    Refused,
    /// The words are none that the program knows.
    Usage,
    /// The source failed; nothing was written.
    ReadFault,
    /// The sink failed.
    WriteFault,
    /// There was not enough memory; nothing was written.
    NoMemory,
}

impl Status {
    /// The exit status of the program, 0 to 6. Takes no memory.
    pub fn code(self) -> u8
        ensures { result ≡ code_of self }
    {
        match self {
            Status::Done => 0,
            Status::NotAll => 1,
            Status::Refused => 2,
            Status::Usage => 3,
            Status::ReadFault => 4,
            Status::WriteFault => 5,
            Status::NoMemory => 6,
        }
    }
}
