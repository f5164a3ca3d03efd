//! Codes of refusals.
ghost use Rattle.std.specs.Prelude.{◌≡◌};
ghost use Rattle.fz_spec.specs.Codes.{code_number};

/// Why a text is refused (fzn's own codes; what is printed is in brackets).
#[derive(Clone, Copy, Debug, PartialEq, Eq)]
pub enum Code {
    /// A byte that begins no token, or a string without its end (E01).
    UnknownByte,
    /// A number outside the limits (E02).
    LargeNumber,
    /// A token that no text of the grammar goes on with (E03).
    UnexpectedToken,
    /// A name that is declared twice (E04).
    DeclaredTwice,
    /// A name that isn't declared, or only later (E05).
    UnknownName,
    /// A value, an element or an argument of a wrong type, or an output annotation where it has no place or of another form (E06).
    WrongType,
    /// A wrong number of arguments (E07).
    WrongArity,
    /// A constraint of a name that isn't known (E08).
    UnknownConstraint,
    /// What FlatZinc has and fzn has not: floats, sets that vary, parameters of other types, constraints over them, half reified ones
    /// and powers, and a seventh index range for output (E09).
    Unsupported,
    /// Lists whose lengths do not fit (E10).
    WrongLengths,
    /// Over a limit (E11).
    OverLimit,
}

impl Code {
    /// The number of the code, as in its name.
    pub fn number(self) -> u8
        ensures { result ≡ code_number self }
    {
        match self {
            Code::UnknownByte => 1,
            Code::LargeNumber => 2,
            Code::UnexpectedToken => 3,
            Code::DeclaredTwice => 4,
            Code::UnknownName => 5,
            Code::WrongType => 6,
            Code::WrongArity => 7,
            Code::UnknownConstraint => 8,
            Code::Unsupported => 9,
            Code::WrongLengths => 10,
            Code::OverLimit => 11,
        }
    }
}
