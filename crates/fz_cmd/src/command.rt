//! The command that clap reads the words by.
ghost use Rattle.std.specs.Prelude.{◌≡◌, false, Some, None, IfOk, fold, map, string_bytes};
ghost use Rattle.clap.specs.Words.{app_of, rule_of, with_rule, rows_of, found_of, matches_of, fault_of, FailsBy};
ghost use Rattle.clap.specs.Simple.{new_rule};
ghost use Rattle.clap.specs.declared.builder.action.ArgAction.TheVariants.{Set};
ghost use Rattle.fz_cmd.specs.Command.{rule_of_row, word_of, file_rule, plain_app, fzn_app};

use crate::options::{OPTIONS, Row, Takes};
use clap::builder::ValueParser;
use clap::{Arg, ArgAction, ArgMatches, Command, Error};
use std::alloc::{AllocError, Global};

/// The argument of an option.
fn option_arg<'a>(alloc: Global, row: &Row) -> Arg<'a>
    ensures rule { rule_of result ≡ rule_of_row row.now }
    ensures local { result.global ≡ false }
{
    let (name, letter, takes, _) = *row;
    let arg = called(alloc, name, letter);
    match takes {
        Takes::Nothing => arg.action(ArgAction::SetTrue),
        Takes::Number(least, most) => parsed(arg, ValueParser::Unsigned(least, most)),
        Takes::Defaulted(least, most, _) => parsed(arg, ValueParser::Unsigned(least, most)),
        Takes::Text => arg.action(ArgAction::Set),
        Takes::Signed(least, most) => parsed(arg, ValueParser::Signed(least, most)),
    }
}

/// An argument that is called by a letter, if it has one, or else by its name.
fn called<'a>(alloc: Global, name: &'static str, letter: Option<char>) -> Arg<'a>
    ensures rule { rule_of result
        ≡ record (new_rule name.now) { short = letter; long = word_of name.now letter } }
    ensures plain { result.value_parser ≡ None }
    ensures local { result.global ≡ false }
{
    let arg = Arg::new(alloc, name);
    match letter {
        Some(letter) => arg.short(letter),
        None => arg.long(name),
    }
}

/// An argument that takes a value by this parser.
fn parsed<'a>(arg: Arg<'a>, parser: ValueParser<'a>) -> Arg<'a>
    ensures rule { rule_of result
        ≡ record (rule_of arg.entry) { action = Some Set; parser = Some parser.entry } }
    ensures local { result.global ≡ arg.entry.global }
{
    arg.action(ArgAction::Set).value_parser(parser)
}

/// FILE
fn file_arg<'a>(alloc: Global) -> Arg<'a>
    ensures rule { rule_of result ≡ file_rule }
    ensures local { result.global ≡ false }
{
    Arg::new(alloc, "file").action(ArgAction::Set)
}

/// The command without arguments: each word is an argument, and there are no options but its own.
fn plain<'a>(alloc: Global) -> Command<'a>
    ensures { app_of result ≡ plain_app }
{
    Command::new(alloc, "fzn")
        .no_binary_name(true)
        .disable_help_flag(true)
}

/// The command of all options, and FILE.
fn command<'a>(alloc: Global) -> Result<Command<'a>, AllocError>
    ensures { IfOk result (λ c. app_of c ≡ fzn_app) }
{
    with_options(alloc, plain(alloc), &OPTIONS)?.arg(file_arg(alloc))
}

/// A command with these options more.
fn with_options<'a>(
    alloc: Global,
    command: Command<'a>,
    rows: &[Row],
) -> Result<Command<'a>, AllocError>
    ensures { IfOk result (λ c. app_of c
        ≡ fold with_rule (app_of command.entry) (map rule_of_row rows.now)) }
{
    let mut command = command;
    for i in 0..rows.len() {
        command = command.arg(option_arg(alloc, &rows[i]))?;
    }
    Ok(command)
}

/// What clap makes of the words.
pub(crate) fn parse<'a>(alloc: Global, words: &'a [String]) -> Result<ArgMatches<'a>, Error>
    ensures ok { IfOk result (λ m. rows_of (found_of m)
        ≡ matches_of fzn_app (map string_bytes words.entry.now)) }
    ensures exact { FailsBy (fault_of fzn_app (map string_bytes words.entry.now)) result }
{
    let command = command(alloc)?;
    command.try_get_matches_from(words)
}
