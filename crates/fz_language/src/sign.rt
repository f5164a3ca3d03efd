//! Signs of the language.

/// A token made of signs (MiniZinc Handbook, "FlatZinc grammar").
#[derive(Clone, Copy, Debug, PartialEq, Eq)]
pub enum Sign {
    Semicolon,
    Colon,
    DoubleColon,
    Comma,
    LeftParenthesis,
    RightParenthesis,
    LeftBracket,
    RightBracket,
    LeftBrace,
    RightBrace,
    Equals,
    DoubleDot,
}
