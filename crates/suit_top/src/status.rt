//! How a run ends.
ghost use Rattle.std.specs.Prelude.{◌≡◌};
ghost use Rattle.suit_top.specs.Statuses.{code_of};

/// How a run ended. Each has a number, with which the program ends.
#[derive(Clone, Copy, Debug, PartialEq, Eq)]
pub enum Status {
    /// All is well: the whole text is out, and nothing of the input is left.
    Done,
    /// The answer text has a fault, or the answer is not valid for its question.
    NotValid,
    /// The words form no command.
    Usage,
    /// The question text has a fault.
    Malformed,
    /// The question's tree has more nodes than its budget.
    Nodes,
    /// The run of a program needs more pivots than the question's budget.
    Pivots,
    /// A number of the run of a program, or a denominator that is read from its optimum, is too wide.
    Wide,
    /// The source failed.
    ReadFault,
    /// The sink failed or took nothing, before the whole text was written.
    WriteFault,
    /// For want of memory nothing was written.
    Memory,
    /// The program of a support is too large.
    Support,
    /// The input has more bytes than the command takes.
    Long,
    /// A record of a table has more or fewer than thirteen fields.
    Csv,
}

impl Status {
    /// The number of the status.
    pub fn code(self) -> u8
        ensures { result ≡ code_of self }
    {
        match self {
            Status::Done => 0,
            Status::NotValid => 1,
            Status::Usage => 2,
            Status::Malformed => 3,
            Status::Nodes => 4,
            Status::Pivots => 5,
            Status::Wide => 6,
            Status::ReadFault => 7,
            Status::WriteFault => 8,
            Status::Memory => 9,
            Status::Support => 10,
            Status::Long => 11,
            Status::Csv => 12,
        }
    }
}
