ghost use Rattle.std.specs.Prelude.{◌≡◌};

/// How a call ends, in the order of the numbers that the program ends with.
#[derive(Clone, Copy, Debug, PartialEq, Eq)]
pub enum Status {
    /// No rule is broken.
    Yes,
    /// Rules are broken, and the report lists where.
    Faults,
    /// The words are not those of a command.
    Usage,
    /// A file could not be read.
    ReadFault,
    /// The report could not be written, or not whole.
    WriteFault,
    /// There was not enough memory.
    Memory,
    /// A file has too many bytes, or there are too many files, or too many bytes in all.
    TooLarge,
}

impl Status {
    ghost use Rattle.eifcheck.specs.Answers.{number_of};

    /// The exit status of the program.
    pub fn number(self) -> u8
        ensures { result ≡ number_of self }
    {
        match self {
            Status::Yes => 0,
            Status::Faults => 1,
            Status::Usage => 2,
            Status::ReadFault => 3,
            Status::WriteFault => 4,
            Status::Memory => 5,
            Status::TooLarge => 6,
        }
    }
}
