//! The words.
ghost use Rattle.std.specs.Prelude.{◌≡◌, ◌≤◌, ◌≤ℤ◌, pos, negsuc, IfOk, IfSome, map, option_map, unwrap_or, string_bytes};
ghost use Rattle.clap.specs.Words.{rows_of, found_of};
ghost use Rattle.fz_cmd.specs.Meaning as meaning;
ghost use Rattle.fz_cmd.specs.Meaning.{AreInRange};

use crate::command::parse;
use crate::name::Name;
use crate::options::{
    ADAPTIVE_DISTANCE, ALL, ASSETS, BETTER, CERTIFICATE, COMMIT_DISTANCE, DISTINCT, GENERATE,
    INTERLEAVE, LIMIT, Options, PART, SPLIT, STATS, WORKERS,
};
use crate::reading::{is_on, number, signed, text};
use clap::ArgMatches;
use clap::error::ErrorKind;
use std::alloc::{AllocError, Global};

/// The numbers of the options.
#[derive(Clone, Copy)]
pub(crate) struct Numbers {
    pub limit: Option<u32>,
    pub workers: u32,
    pub assets: u32,
    pub commit_distance: u32,
    pub adaptive_distance: u32,
    pub interleave: Option<u64>,
    pub generate: Option<u32>,
    pub split: Option<u32>,
    pub better: Option<i32>,
}

/// The options that the words of a command line give, those after the name of the program; `None` where they are refused.
///
/// # Errors
/// `AllocError` where there is no memory.
pub fn options(alloc: Global, words: &[String]) -> Result<Option<Options>, AllocError>
    ensures { IfOk result (λ r. r ≡ meaning.options_of (map string_bytes words.now)) }
{
    match parse(alloc, words) {
        Ok(matches) => read(alloc, &matches),
        Err(error) => {
            if error.kind() == ErrorKind::OutOfMemory {
                Err(AllocError)
            } else {
                Ok(None)
            }
        }
    }
}

fn read(alloc: Global, matches: &ArgMatches<'_>) -> Result<Option<Options>, AllocError>
    ensures { IfOk result (λ r. r ≡ meaning.read (rows_of (found_of matches.now))) }
{
    match numbers_of(matches) {
        Some(numbers) => with_file(alloc, matches, numbers, text(matches, "file")),
        None => Ok(None),
    }
}

/// The options that the numbers, the flags and the name of a file give.
fn with_file(
    alloc: Global,
    matches: &ArgMatches<'_>,
    numbers: Numbers,
    file: Option<&str>,
) -> Result<Option<Options>, AllocError>
    requires { AreInRange numbers }
    ensures { IfOk result (λ r. r ≡ meaning.with_file (rows_of (found_of matches.now)) numbers
        (option_map (λ s. s.now) file.entry)) }
{
    if are_apart(matches, numbers, file) {
        return Ok(None);
    }
    let part = named(alloc, part_of(matches))?;
    let file = Name::new(alloc, file.unwrap_or("-"))?;
    Ok(Some(Options {
        all: is_on(matches, ALL.0),
        limit: numbers.limit,
        distinct: is_on(matches, DISTINCT.0),
        workers: numbers.workers,
        assets: numbers.assets,
        commit_distance: numbers.commit_distance,
        adaptive_distance: numbers.adaptive_distance,
        interleave: numbers.interleave,
        stats: is_on(matches, STATS.0),
        certificate: is_on(matches, CERTIFICATE.0),
        generate: numbers.generate,
        split: numbers.split,
        part,
        better: numbers.better,
        file,
    }))
}

/// The text of the part that is run.
fn part_of<'a>(matches: &ArgMatches<'a>) -> Option<&'a str>
    ensures { option_map (λ s. s.now) result ≡ meaning.part_of (rows_of (found_of matches.now)) }
{
    text(matches, PART.0)
}

/// The name that a text is, if there is one.
fn named(alloc: Global, text: Option<&str>) -> Result<Option<Name>, AllocError>
    ensures { IfOk result (λ n. n ≡ option_map (λ s. s.now) text.entry) }
{
    match text {
        Some(text) => Ok(Some(Name::new(alloc, text)?)),
        None => Ok(None),
    }
}

/// Whether options were given that don't go together.
fn are_apart(matches: &ArgMatches<'_>, numbers: Numbers, file: Option<&str>) -> bool
    ensures { result ≡ meaning.are_apart (rows_of (found_of matches.now)) numbers
        (option_map (λ s. s.now) file.entry) }
{
    numbers.generate.is_some() && file.is_some()
        || is_on(matches, CERTIFICATE.0) && suits_no_certificate(matches, numbers)
        || 1 < numbers.assets && suits_no_assets(matches, numbers)
        || parts_are_apart(matches, numbers)
}

/// Whether an option was given that a split, a part, or what a part is to be better than can't stand beside.
fn parts_are_apart(matches: &ArgMatches<'_>, numbers: Numbers) -> bool
    ensures { result ≡ meaning.parts_are_apart (rows_of (found_of matches.now)) numbers }
{
    let (split, part) = (numbers.split.is_some(), part_of(matches).is_some());
    (split || part) && are_not_plain(matches, numbers)
        || split && suits_no_split(matches, numbers)
        || numbers.better.is_some() && !part
}

/// Whether an option was given that neither a split nor a part can stand beside.
fn are_not_plain(matches: &ArgMatches<'_>, numbers: Numbers) -> bool
    ensures { result ≡ meaning.are_not_plain (rows_of (found_of matches.now)) numbers }
{
    numbers.limit.is_some()
        || is_on(matches, DISTINCT.0)
        || 1 < numbers.assets
        || numbers.interleave.is_some()
        || is_on(matches, STATS.0)
        || is_on(matches, CERTIFICATE.0)
        || numbers.generate.is_some()
}

/// Whether an option of a search was given, which a split can't stand beside.
fn suits_no_split(matches: &ArgMatches<'_>, numbers: Numbers) -> bool
    ensures { result ≡ meaning.suits_no_split (rows_of (found_of matches.now)) numbers }
{
    is_on(matches, ALL.0) || 1 < numbers.workers || part_of(matches).is_some()
}

/// Whether several assets are more than the workers, or an option was given that they can't stand beside.
fn suits_no_assets(matches: &ArgMatches<'_>, numbers: Numbers) -> bool
    ensures { result ≡ meaning.suits_no_assets (rows_of (found_of matches.now)) numbers }
{
    numbers.workers < numbers.assets
        || is_on(matches, ALL.0)
        || numbers.limit.is_some()
        || is_on(matches, DISTINCT.0)
        || numbers.interleave.is_some()
}

/// Whether an option was given that a certificate can't stand beside.
fn suits_no_certificate(matches: &ArgMatches<'_>, numbers: Numbers) -> bool
    ensures { result ≡ meaning.suits_no_certificate (rows_of (found_of matches.now)) numbers }
{
    is_on(matches, ALL.0)
        || numbers.limit.is_some()
        || is_on(matches, DISTINCT.0)
        || is_on(matches, STATS.0)
        || numbers.generate.is_some()
}

/// The numbers that the matches give, each within its bounds.
fn numbers_of(matches: &ArgMatches<'_>) -> Option<Numbers>
    ensures is { result ≡ meaning.numbers_of (rows_of (found_of matches.now)) }
    ensures within { IfSome result AreInRange }
{
    let limit = number(matches, &LIMIT)?;
    let workers = number(matches, &WORKERS)?;
    let assets = number(matches, &ASSETS)?;
    let distance = number(matches, &COMMIT_DISTANCE)?;
    let adaptive = number(matches, &ADAPTIVE_DISTANCE)?;
    let interleave = number(matches, &INTERLEAVE)?;
    let generate = number(matches, &GENERATE)?;
    let split = number(matches, &SPLIT)?;
    let better = signed(matches, &BETTER)?;
    Some(Numbers {
        limit: short(limit),
        workers: defaulted(workers),
        assets: defaulted(assets),
        commit_distance: defaulted(distance),
        adaptive_distance: defaulted(adaptive),
        interleave,
        generate: short(generate),
        split: short(split),
        better: short_signed(better),
    })
}

/// A number that takes at most 32 bits, if there is one.
fn short(number: Option<u64>) -> Option<u32>
    requires { IfSome number (λ n. n ≤ 4294967295) }
    ensures { result ≡ number }
{
    match number {
        Some(number) => Some(number as u32),
        None => None,
    }
}

/// The same of a number that may be below 0.
fn short_signed(number: Option<i64>) -> Option<i32>
    requires { IfSome number (λ n. (negsuc 2147483647 ≤ℤ n) × (n ≤ℤ pos 2147483647)) }
    ensures { result ≡ number }
{
    match number {
        Some(number) => Some(number as i32),
        None => None,
    }
}

/// A number that takes at most 32 bits, which an option with a default always has.
fn defaulted(number: Option<u64>) -> u32
    requires { IfSome number (λ n. n ≤ 4294967295) }
    ensures { result ≡ unwrap_or number 0 }
{
    match number {
        Some(number) => number as u32,
        None => 0,
    }
}
