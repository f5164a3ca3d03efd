//! The token at a place.
ghost use Rattle.std.specs.Prelude.{◌≡◌, ◌≢◌, ℕ, ◌<◌, ◌≤◌, ◌⊎◌, length, slice_index, IsTrue, false, MatchResult, MatchOption};
ghost use Rattle.std.specs.Char.{is_ascii_digit};
ghost use Rattle.fz_spec.specs.declared.limits.TheConstants.{TEXT_LIMIT};
ghost use Rattle.fz_language.specs.Tokens.{is_blank, is_word_start, IsInside, IsFault};
ghost use Rattle.fz_lex.specs.Steps.{HasNone, StepsInside, IsFoundAt};

use crate::lexeme::Lexeme;
use crate::number::number_at;
use crate::run::{byte_at, word_end};
use crate::spelling::{is_word_start, keyword_of, sign_length, sign_of};
use fz_language::fault::TokenFault;

/// A token up to `stop`.
#[derive(Clone, Copy)]
pub(crate) struct Found {
    pub lexeme: Lexeme,
    pub stop: usize,
}

/// The token that begins at a byte which is no blank, or why there is none.
pub(crate) fn token_at(text: &[u8], at: usize) -> Result<Found, TokenFault>
    requires within { at < length text.now }
    requires short { length text.now ≤ TEXT_LIMIT }
    requires visible { is_blank (slice_index text.now at) ≡ false }
    ensures { MatchResult result (IsFoundAt text.now at) (λ fault. IsFault text.now fault at) }
{
    let first = text[at];
    if is_word_start(first) {
        return Ok(word_at(text, at));
    }
    if first.is_ascii_digit() || first == b'-' {
        return number_at(text, at);
    }
    if first == b'"' {
        return text_at(text, at);
    }
    sign_at(text, at)
}

/// The word that begins at a letter or an underscore.
fn word_at(text: &[u8], at: usize) -> Found
    requires within { at < length text.now }
    requires first { IsTrue (is_word_start (slice_index text.now at)) }
    requires short { length text.now ≤ TEXT_LIMIT }
    ensures { IsFoundAt text.now at result }
{
    let stop = word_end(text, at + 1);
    let lexeme = match keyword_of(&text[at..stop]) {
        Some(keyword) => Lexeme::Word(keyword),
        None => Lexeme::Identifier { stop: stop as u32 },
    };
    Found { lexeme, stop }
}

/// The string that begins at a quote.
fn text_at(text: &[u8], at: usize) -> Result<Found, TokenFault>
    requires within { at < length text.now }
    requires quote { slice_index text.now at ≡ 34 }
    ensures { MatchResult result (IsFoundAt text.now at) (λ fault. IsFault text.now fault at) }
{
    let mut stop = at + 1;
    'string: while stop < text.len() {
        if text[stop] == b'"' {
            return Ok(Found {
                lexeme: Lexeme::Text,
                stop: stop + 1,
            });
        }
        match step_inside(text, stop) {
            Some(next) => stop = next,
            None => return Err(TokenFault::UnknownByte),
        }
    }
    Err(TokenFault::UnknownByte)
}

/// After the next byte of a string, and after the byte that a backslash takes with it. A line end ends the string.
fn step_inside(text: &[u8], at: usize) -> Option<usize>
    requires within { at < length text.now }
    requires inside { slice_index text.now at ≢ 34 }
    ensures { MatchOption result (HasNone IsInside text.now at) (StepsInside text.now at) }
{
    if text[at] == b'\n' {
        return None;
    }
    if text[at] != b'\\' {
        return Some(at + 1);
    }
    if at + 1 == text.len() {
        return None;
    }
    if text[at + 1] == b'\n' {
        return None;
    }
    Some(at + 2)
}

/// The sign at a byte that begins no word, no number and no string.
fn sign_at(text: &[u8], at: usize) -> Result<Found, TokenFault>
    requires within { at < length text.now }
    requires visible { is_blank (slice_index text.now at) ≡ false }
    requires no_word { is_word_start (slice_index text.now at) ≡ false }
    requires no_number { is_ascii_digit (slice_index text.now at) ≡ false }
    requires no_minus { slice_index text.now at ≢ 45 }
    requires no_quote { slice_index text.now at ≢ 34 }
    ensures { MatchResult result (IsFoundAt text.now at) (λ fault. IsFault text.now fault at) }
{
    match sign_of(text[at], byte_at(text, at + 1)) {
        Some(sign) => Ok(Found {
            lexeme: Lexeme::Sign(sign),
            stop: at + sign_length(sign),
        }),
        None => Err(TokenFault::UnknownByte),
    }
}
