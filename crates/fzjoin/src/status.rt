//! What the joiner answers.
ghost use Rattle.std.specs.Prelude.{◌≡◌};
ghost use Rattle.fzjoin.specs.Answers.{code_of};

use fz_print::refusal::Refusal;

/// What the joiner answers.
#[derive(Clone, Copy, Debug, PartialEq, Eq)]
pub enum JoinStatus {
    /// The texts are joined, and all of it is printed.
    Done,
    /// The words are not the names of a model and of parts, or one is standard input. Nothing was read or printed.
    Usage,
    /// A call of the source failed.
    SourceFault,
    /// A call of the sink failed.
    SinkFault,
    /// The model's text is refused, and that is printed.
    Refused(Refusal),
    /// Memory was refused, or the text of the parts is longer than its limit.
    NoMemory,
    /// The line of the parts, counted from 1, that is of no part of the model. Nothing was printed.
    NoParts(usize),
    /// Two of the parts have the same text. Nothing was printed.
    SameParts,
    /// What was read isn't the whole texts of runs of the parts: one is cut off, or a line is of no run.
    CutOff,
    /// The part of this place, counted from 0, has no text, or more than one.
    Part(usize),
    /// A run was to better a value that no run shows.
    Bound,
    /// A block is of no solution, though each variable is shown. It and those behind it are not printed.
    NoSolution,
}

impl JoinStatus {
    /// The exit status of the program.
    pub fn code(&self) -> u8
        ensures { result ≡ code_of self.now }
    {
        match self {
            JoinStatus::Done => 0,
            JoinStatus::Usage => 2,
            JoinStatus::SourceFault => 3,
            JoinStatus::SinkFault => 4,
            JoinStatus::Refused(_) => 5,
            JoinStatus::NoMemory => 6,
            JoinStatus::NoParts(_) => 7,
            JoinStatus::SameParts => 8,
            JoinStatus::CutOff => 9,
            JoinStatus::Part(_) => 10,
            JoinStatus::Bound => 11,
            JoinStatus::NoSolution => 12,
        }
    }
}
