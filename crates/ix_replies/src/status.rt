//! How a call of the tool ends.
ghost use Rattle.std.specs.Prelude.{◌≡◌};
ghost use Rattle.ix_replies.specs.Statuses.{number_of};

/// How a call of the tool ends.
#[derive(Clone, Copy, Debug, PartialEq, Eq)]
pub enum Status {
    /// The source was accepted, the run ended, or the certificate was accepted.
    Done,
    /// The source has errors, or the certificate is refused, as `out` says.
    Rejected,
    /// The words are no command.
    Usage,
    /// The file could not be read because of a fault of the source.
    ReadFault,
    /// A sink took no more because of a fault of it.
    WriteFault,
    /// A counted quantity passes its limit.
    Limit,
    /// Memory is wanting.
    Memory,
    /// A run stopped otherwise than at its end.
    Stopped,
    /// A run made the stated number of steps and wasn't at its end.
    StepsSpent,
    /// A run was not begun, for its entry or its inputs.
    InputsRefused,
}

impl Status {
    /// The number that the program ends with.
    pub fn number(self) -> u8
        ensures { result ≡ number_of self }
    {
        match self {
            Status::Done => 0,
            Status::Rejected => 1,
            Status::Usage => 2,
            Status::ReadFault => 3,
            Status::WriteFault => 4,
            Status::Limit => 5,
            Status::Memory => 6,
            Status::Stopped => 7,
            Status::StepsSpent => 8,
            Status::InputsRefused => 9,
        }
    }
}
