// How a call of the program ended, as a number for whoever started it.
ghost use Rattle.std.specs.Prelude.{◌≡◌};
ghost use Rattle.st_run.specs.Statuses.{code};

/// How a call of the program ended.
#[derive(Clone, Copy, Debug, PartialEq, Eq)]
pub enum Status {
    /// The command is done.
    Done,
    /// The input is no program, or breaks a static rule.
    Refused,
    /// The words are no command.
    Usage,
    /// A run ended with an exception that nothing handled.
    Unhandled,
    /// A run took more steps than it may.
    StepLimit,
    /// More activations stood than may.
    DepthLimit,
    /// A run took more cells than it may.
    CellLimit,
    /// An integer would have been too large.
    IntegerLimit,
    /// The source failed.
    ReadFault,
    /// The output or the report failed.
    WriteFault,
    /// Memory was wanted.
    OutOfMemory,
    /// The trace isn't disciplined.
    Undisciplined,
}

impl Status {
    /// The number of the status: 0 to 11, in the order of the variants.
    pub fn code(self) -> u8
        ensures { result ≡ code self }
    {
        match self {
            Status::Done => 0,
            Status::Refused => 1,
            Status::Usage => 2,
            Status::Unhandled => 3,
            Status::StepLimit => 4,
            Status::DepthLimit => 5,
            Status::CellLimit => 6,
            Status::IntegerLimit => 7,
            Status::ReadFault => 8,
            Status::WriteFault => 9,
            Status::OutOfMemory => 10,
            Status::Undisciplined => 11,
        }
    }
}
