//! What the matches say.
ghost use Rattle.std.specs.Prelude.{◌≡◌, ◌≤◌, ◌≤ℤ◌, IfSome, option_map};
ghost use Rattle.clap.specs.Words.{rows_of, found_of, first_of};
ghost use Rattle.fz_cmd.specs.Meaning as meaning;
ghost use Rattle.fz_cmd.specs.Meaning.{HasDefault, IsSignedBy, IsTakenBy};

use crate::options::{Row, Takes};
use clap::ArgMatches;

/// The text of an argument.
pub(crate) fn text<'a>(matches: &ArgMatches<'a>, id: &str) -> Option<&'a str>
    ensures { option_map (λ s. s.now) result ≡ first_of id.now (rows_of (found_of matches.now)) }
{
    matches.get_str(id)
}

/// Whether a flag was given.
pub(crate) fn is_on(matches: &ArgMatches<'_>, id: &str) -> bool
    ensures { result ≡ meaning.is_on id.now (rows_of (found_of matches.now)) }
{
    match text(matches, id) {
        Some(text) => text == "true",
        None => false,
    }
}

/// The number of an option: its own, its default if it has one, or none; and no answer if its text is no number within the bounds.
pub(crate) fn number(matches: &ArgMatches<'_>, row: &Row) -> Option<Option<u64>>
    requires default { HasDefault row.now.2 }
    ensures is { result
        ≡ meaning.number_at (rows_of (found_of matches.now)) row.now.0.now row.now.2 }
    ensures within { IfSome result (λ n. IfSome n (IsTakenBy row.now.2)) }
{
    let (name, _, takes, _) = *row;
    match takes {
        Takes::Number(least, most) => given(matches, name, least, most),
        Takes::Defaulted(least, most, default) => {
            let number = given(matches, name, least, most)?;
            Some(Some(number.unwrap_or(default)))
        }
        _ => Some(None),
    }
}

/// The number of an option that is given: none if it isn't, and no answer if its text is no number within the bounds.
fn given(matches: &ArgMatches<'_>, id: &str, least: u64, most: u64) -> Option<Option<u64>>
    ensures is { result ≡ meaning.given_in least most (first_of id.now (rows_of (found_of matches.now))) }
    ensures within { IfSome result (λ n. IfSome n (λ k. (least ≤ k) × (k ≤ most))) }
{
    match text(matches, id) {
        Some(text) => match number_in(text, least, most) {
            Some(number) => Some(Some(number)),
            None => None,
        },
        None => Some(None),
    }
}

fn number_in(text: &str, least: u64, most: u64) -> Option<u64>
    ensures is { result ≡ meaning.number_in least most text.now }
    ensures within { IfSome result (λ k. (least ≤ k) × (k ≤ most)) }
{
    match text.parse::<u64>() {
        Ok(number) => {
            if least <= number && number <= most {
                Some(number)
            } else {
                None
            }
        }
        Err(_) => None,
    }
}

/// The number of an option that may be below 0: none if it isn't given, and no answer if its text is no number within the bounds.
pub(crate) fn signed(matches: &ArgMatches<'_>, row: &Row) -> Option<Option<i64>>
    ensures is { result
        ≡ meaning.signed_at (rows_of (found_of matches.now)) row.now.0.now row.now.2 }
    ensures within { IfSome result (λ n. IfSome n (IsSignedBy row.now.2)) }
{
    let (name, _, takes, _) = *row;
    match takes {
        Takes::Signed(least, most) => given_signed(text(matches, name), least, most),
        _ => Some(None),
    }
}

fn given_signed(text: Option<&str>, least: i64, most: i64) -> Option<Option<i64>>
    ensures is { result ≡ meaning.given_signed least most (option_map (λ s. s.now) text.entry) }
    ensures within { IfSome result (λ n. IfSome n (λ k. (least ≤ℤ k) × (k ≤ℤ most))) }
{
    match text {
        Some(text) => match signed_in(text, least, most) {
            Some(number) => Some(Some(number)),
            None => None,
        },
        None => Some(None),
    }
}

fn signed_in(text: &str, least: i64, most: i64) -> Option<i64>
    ensures is { result ≡ meaning.signed_in least most text.now }
    ensures within { IfSome result (λ k. (least ≤ℤ k) × (k ≤ℤ most)) }
{
    match text.parse::<i64>() {
        Ok(value) => {
            if least <= value && value <= most {
                Some(value)
            } else {
                None
            }
        }
        Err(_) => None,
    }
}
