//! The reading of predicate items.
ghost use Rattle.std.specs.Prelude.{◌≡◌, ◌≤◌, ◌<◌, OnOk, IfErr, map, length};
ghost use Rattle.fz_language.specs.Grammar as grammar;
ghost use Rattle.fz_syntax.specs.Trees.{index_of, predicate_parameter_of, predicate_item_of};
ghost use Rattle.fz_parse.specs.Steps.{Parses, ParsesAt, ParsesLow, IsUnexpected, option_of};

use crate::steps::{identifier, integer, is, take};
use crate::stop::Stop;
use crate::value_type::value_type;
use fz_language::keyword::Keyword;
use fz_language::sign::Sign;
use fz_language::token_kind::TokenKind;
use fz_lex::Lexer;
use fz_syntax::{Index, PredicateItem, PredicateParameter};
use std::alloc::Global;

/// Takes an index set.
fn index(lexer: &mut Lexer) -> Result<Index, Stop>
    ensures taken { Parses grammar.Index index_of
        lexer.old.tokens lexer.new.tokens result }
    ensures cause { IfErr result IsUnexpected }
    ensures forward { OnOk result (length lexer.new.tokens < length lexer.old.tokens) }
    ensures same { lexer.new.source ≡ lexer.old.source }
{
    if is(lexer, TokenKind::Keyword(Keyword::Int)) {
        take(lexer, TokenKind::Keyword(Keyword::Int))?;
        return Ok(Index::AnyIndex);
    }
    let low = integer(lexer)?;
    take(lexer, TokenKind::Sign(Sign::DoubleDot))?;
    let high = integer(lexer)?;
    Ok(Index::IndexRange { low, high })
}

/// Takes index sets, one at least.
fn index_sets(alloc: Global, lexer: &mut Lexer) -> Result<Vec<Index>, Stop>
    ensures taken { Parses grammar.IndexSets (λ i. map index_of i.items)
        lexer.old.tokens lexer.new.tokens result }
    ensures forward { OnOk result (length lexer.new.tokens < length lexer.old.tokens) }
    ensures same { lexer.new.source ≡ lexer.old.source }
{
    let mut found = Vec::new(alloc);
    found.push(index(lexer)?)?;
    'indexes: while is(lexer, TokenKind::Sign(Sign::Comma)) {
        take(lexer, TokenKind::Sign(Sign::Comma))?;
        found.push(index(lexer)?)?;
    }
    Ok(found)
}

/// Takes the index sets of an array with its `of`, if an array stands there.
fn indexes(alloc: Global, lexer: &mut Lexer) -> Result<Option<Vec<Index>>, Stop>
    ensures taken { ParsesLow grammar.OfArray (option_of (λ i. map index_of i.items))
        lexer.old.tokens lexer.new.tokens result }
    ensures forward { OnOk result (length lexer.new.tokens ≤ length lexer.old.tokens) }
    ensures same { lexer.new.source ≡ lexer.old.source }
{
    if !is(lexer, TokenKind::Keyword(Keyword::Array)) {
        return Ok(None);
    }
    take(lexer, TokenKind::Keyword(Keyword::Array))?;
    take(lexer, TokenKind::Sign(Sign::LeftBracket))?;
    let found = index_sets(alloc, lexer)?;
    take(lexer, TokenKind::Sign(Sign::RightBracket))?;
    take(lexer, TokenKind::Keyword(Keyword::Of))?;
    Ok(Some(found))
}

/// Takes `var`, if it stands there.
pub(crate) fn variability(lexer: &mut Lexer) -> Result<bool, Stop>
    ensures taken { Parses grammar.Variability (λ b. b)
        lexer.old.tokens lexer.new.tokens result }
    ensures cause { IfErr result IsUnexpected }
    ensures forward { OnOk result (length lexer.new.tokens ≤ length lexer.old.tokens) }
    ensures same { lexer.new.source ≡ lexer.old.source }
{
    if !is(lexer, TokenKind::Keyword(Keyword::Var)) {
        return Ok(false);
    }
    take(lexer, TokenKind::Keyword(Keyword::Var))?;
    Ok(true)
}

/// Takes a parameter.
fn parameter<'a>(alloc: Global, lexer: &mut Lexer<'a>) -> Result<PredicateParameter<'a>, Stop>
    ensures taken { ParsesLow grammar.Parameter predicate_parameter_of
        lexer.old.tokens lexer.new.tokens result }
    ensures forward { OnOk result (length lexer.new.tokens < length lexer.old.tokens) }
    ensures same { lexer.new.source ≡ lexer.old.source }
{
    let indexes = indexes(alloc, lexer)?;
    let variable = variability(lexer)?;
    let value_type = value_type(alloc, lexer)?;
    take(lexer, TokenKind::Sign(Sign::Colon))?;
    let name = identifier(lexer)?;
    Ok(PredicateParameter {
        indexes,
        variable,
        value_type,
        name,
    })
}

/// Takes parameters, up to the closing parenthesis.
fn parameters<'a>(alloc: Global, lexer: &mut Lexer<'a>) -> Result<Vec<PredicateParameter<'a>>, Stop>
    ensures taken { ParsesLow (grammar.Listed grammar.Parameters)
        (λ p. map predicate_parameter_of p.items)
        lexer.old.tokens lexer.new.tokens result }
    ensures forward { OnOk result (length lexer.new.tokens ≤ length lexer.old.tokens) }
    ensures same { lexer.new.source ≡ lexer.old.source }
{
    if is(lexer, TokenKind::Sign(Sign::RightParenthesis)) {
        return Ok(Vec::new(alloc));
    }
    let mut found = Vec::with_capacity(alloc, 1)?;
    found.push(parameter(alloc, lexer)?)?;
    'parameters: while is(lexer, TokenKind::Sign(Sign::Comma)) {
        take(lexer, TokenKind::Sign(Sign::Comma))?;
        found.push(parameter(alloc, lexer)?)?;
    }
    Ok(found)
}

/// Takes a predicate item.
pub(crate) fn predicate_item<'a>(
    alloc: Global,
    lexer: &mut Lexer<'a>,
) -> Result<PredicateItem<'a>, Stop>
    ensures taken { ParsesAt 0 grammar.PredicateItem predicate_item_of
        lexer.old.tokens lexer.new.tokens result }
    ensures forward { OnOk result (length lexer.new.tokens < length lexer.old.tokens) }
    ensures same { lexer.new.source ≡ lexer.old.source }
{
    take(lexer, TokenKind::Keyword(Keyword::Predicate))?;
    let name = identifier(lexer)?;
    take(lexer, TokenKind::Sign(Sign::LeftParenthesis))?;
    let parameters = parameters(alloc, lexer)?;
    take(lexer, TokenKind::Sign(Sign::RightParenthesis))?;
    take(lexer, TokenKind::Sign(Sign::Semicolon))?;
    Ok(PredicateItem { name, parameters })
}
