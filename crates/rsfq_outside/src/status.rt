//! The status that a program ends with.
ghost use Rattle.std.specs.Prelude.{◌≡◌};

/// What a program answers.
#[derive(Clone, Copy, Debug, PartialEq, Eq)]
pub enum Status {
    /// What was asked for holds: a netlist signed off, a clean replay, a proof verified.
    Accepted,
    /// It does not hold, and the text shows why.
    Rejected,
    /// The words of the command line are not a command.
    Words,
    /// The budget was spent before an answer was found.
    Undecided,
    /// A file is not of its form, or passes a limit.
    Refused,
    /// A file could not be read or written, or the text could not.
    Fault,
    /// Memory was wanting.
    Memory,
}

impl Status {
    ghost use Rattle.rsfq_outside.specs.Exits.{exit_number};

    /// The number that the process ends with: 0 to 6, in the order of the variants.
    pub fn exit_number(self) -> u8
        ensures { result ≡ exit_number self }
    {
        match self {
            Status::Accepted => 0,
            Status::Rejected => 1,
            Status::Words => 2,
            Status::Undecided => 3,
            Status::Refused => 4,
            Status::Fault => 5,
            Status::Memory => 6,
        }
    }
}
