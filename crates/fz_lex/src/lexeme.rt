//! What tokens say.
use fz_language::keyword::Keyword;
use fz_language::sign::Sign;

/// What a token says. An identifier is its bytes, up to the one at `stop`; an integer is its value.
#[derive(Clone, Copy, Debug, PartialEq, Eq)]
pub(crate) enum Lexeme {
    Identifier { stop: u32 },
    Word(Keyword),
    Integer(i32),
    Float,
    Text,
    Sign(Sign),
}
