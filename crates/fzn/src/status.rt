//! How a run ends.
ghost use Rattle.std.specs.Prelude.{◌≡◌};
ghost use Rattle.fzn.specs.Promises.{code_of};

use fz_print::refusal::Refusal;

/// Why a model has no such part as is asked for.
#[derive(Clone, Copy, Debug, PartialEq, Eq)]
pub enum Misfit {
    /// No part of the model has the text.
    NoPart(fz_part::Refusal),
    /// Something better than a value is sought, and the model has no goal.
    NoGoal,
    /// With the part's decisions there are more constraints than a model may have.
    TooMany,
}

/// How a run ends.
#[derive(Clone, Copy, Debug, PartialEq, Eq)]
pub enum Status {
    /// All that was asked for is printed.
    Done,
    /// The text is refused, and that is printed.
    Refused(Refusal),
    /// The words are refused. Nothing was read or printed.
    Usage,
    /// A call of the source failed. Nothing was printed.
    SourceFault,
    /// A call of the sink failed. It took a prefix of what was to be printed.
    SinkFault,
    /// Memory was refused. The sink took a prefix of what was to be printed.
    NoMemory,
    /// The model has no such part. Nothing was printed.
    NoTask(Misfit),
}

impl Status {
    /// The exit status of the program.
    pub fn code(&self) -> u8
        ensures { result ≡ code_of self.now }
    {
        match self {
            Status::Done => 0,
            Status::Refused(_) => 1,
            Status::Usage => 2,
            Status::SourceFault => 3,
            Status::SinkFault => 4,
            Status::NoMemory => 5,
            Status::NoTask(_) => 6,
        }
    }
}
