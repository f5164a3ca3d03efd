//! Kinds of tokens.
use crate::keyword::Keyword;
use crate::sign::Sign;

/// What the grammar asks of a token: one look ahead tells which rule goes on. `End` is the end of the text.
#[derive(Clone, Copy, Debug, PartialEq, Eq)]
pub enum TokenKind {
    End,
    Identifier,
    Integer,
    Float,
    Text,
    Sign(Sign),
    Keyword(Keyword),
}
