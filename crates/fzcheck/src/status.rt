//! What the checker answers.
ghost use Rattle.std.specs.Prelude.{◌≡◌};
ghost use Rattle.fzcheck.specs.Answers.{code_of};

use fz_print::refusal::Refusal;

/// What the checker answers.
#[derive(Clone, Copy, Debug, PartialEq, Eq)]
pub enum CheckStatus {
    /// The output proves.
    Yes,
    /// It does not, or it is too long.
    No,
    /// The words are not the names of a model and of an output, or both are standard input. Nothing was read or printed.
    Usage,
    /// A call of the source failed. Nothing was printed.
    SourceFault,
    /// A call of the sink failed. It took a prefix of what was to be printed.
    SinkFault,
    /// The model's text is refused, and that is printed.
    Refused(Refusal),
    /// Memory was refused. Nothing was printed.
    NoMemory,
}

impl CheckStatus {
    /// The exit status of the program.
    pub fn code(&self) -> u8
        ensures { result ≡ code_of self.now }
    {
        match self {
            CheckStatus::Yes => 0,
            CheckStatus::No => 1,
            CheckStatus::Usage => 2,
            CheckStatus::SourceFault => 3,
            CheckStatus::SinkFault => 4,
            CheckStatus::Refused(_) => 5,
            CheckStatus::NoMemory => 6,
        }
    }
}
