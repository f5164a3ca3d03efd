//! What words and signs spell.
ghost use Rattle.std.specs.Prelude.{◌≡◌, ℕ, length, MatchOption};
ghost use Rattle.fz_language.specs.Tokens.{sign_bytes, keyword_bytes};
ghost use Rattle.fz_language.specs.Tokens as spec;
ghost use Rattle.fz_lex.specs.Steps.{FitsSign, FitsNoSign, IsFree, candidate_of};

use crate::run::byte_at;
use fz_language::keyword::Keyword;
use fz_language::sign::Sign;

/// Whether a word may begin with the byte.
pub(crate) fn is_word_start(byte: u8) -> bool
    ensures { result ≡ spec.is_word_start byte }
{
    byte.is_ascii_alphabetic() || byte == b'_'
}

/// The word of the language of these bytes, if there is one.
pub(crate) fn keyword_of(bytes: &[u8]) -> Option<Keyword>
    ensures { MatchOption result (IsFree bytes.now) (λ k. bytes.now ≡ keyword_bytes k) }
{
    match candidate(bytes.len(), byte_at(bytes, 1)) {
        Some(keyword) => {
            if bytes == spelling(keyword) {
                Some(keyword)
            } else {
                None
            }
        }
        None => None,
    }
}

/// The only word of the language of this length and this second byte, if there is one.
fn candidate(length: usize, second: u8) -> Option<Keyword>
    ensures { result ≡ candidate_of length second }
{
    match (length, second) {
        (2, b'f') => Some(Keyword::Of),
        (3, b'a') => Some(Keyword::Var),
        (3, b'e') => Some(Keyword::Set),
        (3, b'n') => Some(Keyword::Int),
        (4, b'o') => Some(Keyword::Bool),
        (4, b'r') => Some(Keyword::True),
        (5, b'a') => Some(Keyword::False),
        (5, b'l') => Some(Keyword::Float),
        (5, b'o') => Some(Keyword::Solve),
        (5, b'r') => Some(Keyword::Array),
        (7, b'a') => Some(Keyword::Satisfy),
        (8, b'a') => Some(Keyword::Maximize),
        (8, b'i') => Some(Keyword::Minimize),
        (9, b'r') => Some(Keyword::Predicate),
        (10, b'o') => Some(Keyword::Constraint),
        _ => None,
    }
}

/// The bytes of a word of the language.
fn spelling(keyword: Keyword) -> &'static [u8]
    ensures { result.now ≡ keyword_bytes keyword }
{
    match keyword {
        Keyword::Array => b"array",
        Keyword::Bool => b"bool",
        Keyword::Constraint => b"constraint",
        Keyword::False => b"false",
        Keyword::Float => b"float",
        Keyword::Int => b"int",
        Keyword::Maximize => b"maximize",
        Keyword::Minimize => b"minimize",
        Keyword::Of => b"of",
        Keyword::Predicate => b"predicate",
        Keyword::Satisfy => b"satisfy",
        Keyword::Set => b"set",
        Keyword::Solve => b"solve",
        Keyword::True => b"true",
        Keyword::Var => b"var",
    }
}

/// The longest sign that begins with the first byte, or with both.
pub(crate) fn sign_of(first: u8, second: u8) -> Option<Sign>
    ensures { MatchOption result (FitsNoSign first second) (λ s. FitsSign s first second) }
{
    match first {
        b';' => Some(Sign::Semicolon),
        b':' if second == b':' => Some(Sign::DoubleColon),
        b':' => Some(Sign::Colon),
        b',' => Some(Sign::Comma),
        b'(' => Some(Sign::LeftParenthesis),
        b')' => Some(Sign::RightParenthesis),
        b'[' => Some(Sign::LeftBracket),
        b']' => Some(Sign::RightBracket),
        b'{' => Some(Sign::LeftBrace),
        b'}' => Some(Sign::RightBrace),
        b'=' => Some(Sign::Equals),
        b'.' if second == b'.' => Some(Sign::DoubleDot),
        _ => None,
    }
}

/// How many bytes a sign has.
pub(crate) fn sign_length(sign: Sign) -> usize
    ensures { result ≡ length (sign_bytes sign) }
{
    match sign {
        Sign::DoubleColon | Sign::DoubleDot => 2,
        _ => 1,
    }
}
