//! What may be at fault: a token, the syntax, or a rule.

/// What is at fault where a text has no token.
#[derive(Clone, Copy, Debug, PartialEq, Eq)]
pub enum TokenFault {
    /// A byte that begins no token, or a string without its end.
    UnknownByte,
    /// An integer outside the limits.
    LargeNumber,
}

/// What is at fault where tokens spell no program.
#[derive(Clone, Copy, Debug, PartialEq, Eq)]
pub enum SyntaxFault {
    /// A token with which no program goes on, or the end of the text.
    Unexpected,
    /// A bracket that opens a level over the limit.
    TooDeep,
}

/// What is at fault where a program breaks a rule, in the order in which the rules of one item come.
#[derive(Clone, Copy, Debug, PartialEq, Eq)]
pub enum RuleFault {
    /// What FlatZinc has and fzn has not: floats, sets that vary, parameters of other types, constraints over them, half reified ones
    /// and powers, and a seventh index range for output.
    Unsupported,
    /// A constraint of a name that isn't known.
    UnknownConstraint,
    /// A wrong number of arguments.
    WrongArity,
    /// A name that isn't declared, or only later.
    UnknownName,
    /// What is of another type than is asked, or an output annotation where it has no place or of another form.
    WrongType,
    /// Lists whose lengths do not fit.
    WrongLengths,
    /// A name that is declared twice.
    DeclaredTwice,
    /// Over a limit.
    OverLimit,
}
