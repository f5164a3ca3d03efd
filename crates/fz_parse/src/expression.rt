//! The reading of expressions.
ghost use Rattle.std.specs.Prelude.{◌≡◌, ◌≤◌, ◌<◌, OnOk, IfOk, IfErr, IfSome, length, map};
ghost use Rattle.fz_language.specs.Trees as trees;
ghost use Rattle.fz_language.specs.Grammar as grammar;
ghost use Rattle.fz_syntax.specs.Trees.{number_of, set_of, basic_of, elements_of, list_of, expression_of};
ghost use Rattle.fz_parse.specs.Steps.{Parses, ParsesLow, IsUnexpected, option_of};

use crate::list::{begun, push};
use crate::steps::{identifier, integer, is, take};
use crate::stop::Stop;
use fz_language::keyword::Keyword;
use fz_language::sign::Sign;
use fz_language::token_kind::TokenKind;
use fz_lex::Lexer;
use fz_syntax::{Basic, Elements, Expression, ListLiteral, Number, SetLiteral};
use std::alloc::{AllocError, Global};

/// Takes a number.
pub(crate) fn number(lexer: &mut Lexer) -> Result<Number, Stop>
    ensures taken { Parses grammar.OneNumber number_of
        lexer.old.tokens lexer.new.tokens result }
    ensures cause { IfErr result IsUnexpected }
    ensures forward { OnOk result (length lexer.new.tokens < length lexer.old.tokens) }
    ensures same { lexer.new.source ≡ lexer.old.source }
{
    if is(lexer, TokenKind::Float) {
        let at = take(lexer, TokenKind::Float)?;
        return Ok(Number::Float { at });
    }
    let integer = integer(lexer)?;
    Ok(Number::Whole(integer))
}

/// Takes the members of a set literal, up to its closing brace.
fn members(alloc: Global, lexer: &mut Lexer) -> Result<Vec<Number>, Stop>
    ensures taken { Parses (grammar.Listed grammar.Members) (λ m. map number_of m.items)
        lexer.old.tokens lexer.new.tokens result }
    ensures forward { OnOk result (length lexer.new.tokens ≤ length lexer.old.tokens) }
    ensures same { lexer.new.source ≡ lexer.old.source }
{
    let mut found = Vec::new(alloc);
    if is(lexer, TokenKind::Sign(Sign::RightBrace)) {
        return Ok(found);
    }
    found.push(number(lexer)?)?;
    'members: while is(lexer, TokenKind::Sign(Sign::Comma)) {
        take(lexer, TokenKind::Sign(Sign::Comma))?;
        found.push(number(lexer)?)?;
    }
    Ok(found)
}

/// Takes a set literal between braces.
pub(crate) fn braces(alloc: Global, lexer: &mut Lexer) -> Result<SetLiteral, Stop>
    ensures taken { Parses grammar.Braces set_of
        lexer.old.tokens lexer.new.tokens result }
    ensures forward { OnOk result (length lexer.new.tokens < length lexer.old.tokens) }
    ensures same { lexer.new.source ≡ lexer.old.source }
{
    let at = take(lexer, TokenKind::Sign(Sign::LeftBrace))?;
    let members = members(alloc, lexer)?;
    take(lexer, TokenKind::Sign(Sign::RightBrace))?;
    Ok(SetLiteral::Braces { at, members })
}

/// Takes a set literal.
pub(crate) fn set_literal(alloc: Global, lexer: &mut Lexer) -> Result<SetLiteral, Stop>
    ensures taken { Parses grammar.SetLiteral set_of
        lexer.old.tokens lexer.new.tokens result }
    ensures forward { OnOk result (length lexer.new.tokens < length lexer.old.tokens) }
    ensures same { lexer.new.source ≡ lexer.old.source }
{
    if is(lexer, TokenKind::Sign(Sign::LeftBrace)) {
        let set = braces(alloc, lexer)?;
        return Ok(set);
    }
    let low = number(lexer)?;
    take(lexer, TokenKind::Sign(Sign::DoubleDot))?;
    let high = number(lexer)?;
    Ok(SetLiteral::Range { low, high })
}

/// Takes the upper end of a range, if one stands there.
fn range_end(lexer: &mut Lexer) -> Result<Option<Number>, Stop>
    ensures taken { Parses grammar.RangeEnd (option_of number_of)
        lexer.old.tokens lexer.new.tokens result }
    ensures cause { IfErr result IsUnexpected }
    ensures forward { OnOk result (length lexer.new.tokens ≤ length lexer.old.tokens) }
    ensures same { lexer.new.source ≡ lexer.old.source }
{
    if !is(lexer, TokenKind::Sign(Sign::DoubleDot)) {
        return Ok(None);
    }
    take(lexer, TokenKind::Sign(Sign::DoubleDot))?;
    let high = number(lexer)?;
    Ok(Some(high))
}

/// The expression that a set in braces of at most one member is.
fn small<'a>(set: &SetLiteral) -> Option<Basic<'a>>
    ensures { IfSome result (λ b. basic_of b ≡ trees.Literal (set_of set.now)) }
{
    match set {
        SetLiteral::Braces { at, members } => match members.as_slice() {
            [] => Some(Basic::Small {
                at: *at,
                member: None,
            }),
            [only] => Some(Basic::Small {
                at: *at,
                member: Some(*only),
            }),
            _ => None,
        },
        SetLiteral::Range { .. } => None,
    }
}

/// The expression that a set is.
fn literal<'a>(alloc: Global, set: SetLiteral) -> Result<Basic<'a>, AllocError>
    ensures { IfOk result (λ b. basic_of b ≡ trees.Literal (set_of set)) }
{
    match small(&set) {
        Some(basic) => Ok(basic),
        None => Ok(Basic::Literal(Box::new(alloc, set)?)),
    }
}

/// Takes an expression that is no list and no name.
pub(crate) fn constant<'a>(alloc: Global, lexer: &mut Lexer<'a>) -> Result<Basic<'a>, Stop>
    ensures taken { Parses grammar.Constant basic_of
        lexer.old.tokens lexer.new.tokens result }
    ensures forward { OnOk result (length lexer.new.tokens < length lexer.old.tokens) }
    ensures same { lexer.new.source ≡ lexer.old.source }
{
    if is(lexer, TokenKind::Keyword(Keyword::True)) {
        let at = take(lexer, TokenKind::Keyword(Keyword::True))?;
        return Ok(Basic::Truth { value: true, at });
    }
    if is(lexer, TokenKind::Keyword(Keyword::False)) {
        let at = take(lexer, TokenKind::Keyword(Keyword::False))?;
        return Ok(Basic::Truth { value: false, at });
    }
    if is(lexer, TokenKind::Sign(Sign::LeftBrace)) {
        let set = braces(alloc, lexer)?;
        let found = literal(alloc, set)?;
        return Ok(found);
    }
    let low = number(lexer)?;
    match range_end(lexer)? {
        Some(high) => {
            let range = Box::new(alloc, SetLiteral::Range { low, high })?;
            Ok(Basic::Literal(range))
        }
        None => Ok(Basic::Numeral(low)),
    }
}

/// Takes an expression that is no list.
pub(crate) fn basic<'a>(alloc: Global, lexer: &mut Lexer<'a>) -> Result<Basic<'a>, Stop>
    ensures taken { Parses grammar.Basic basic_of
        lexer.old.tokens lexer.new.tokens result }
    ensures forward { OnOk result (length lexer.new.tokens < length lexer.old.tokens) }
    ensures same { lexer.new.source ≡ lexer.old.source }
{
    if is(lexer, TokenKind::Identifier) {
        let name = identifier(lexer)?;
        return Ok(Basic::Named {
            at: name.at,
            bytes: name.bytes,
        });
    }
    let basic = constant(alloc, lexer)?;
    Ok(basic)
}

/// How many elements a list has room for once its first is taken: one where no comma follows, and else three, since many have no more.
fn room(lexer: &Lexer) -> usize {
    if is(lexer, TokenKind::Sign(Sign::Comma)) {
        3
    } else {
        1
    }
}

/// Takes the elements of a list, up to its closing bracket.
fn elements<'a>(alloc: Global, lexer: &mut Lexer<'a>) -> Result<Elements<'a>, Stop>
    ensures taken { Parses (grammar.Listed grammar.Elements) elements_of
        lexer.old.tokens lexer.new.tokens result }
    ensures forward { OnOk result (length lexer.new.tokens ≤ length lexer.old.tokens) }
    ensures same { lexer.new.source ≡ lexer.old.source }
{
    if is(lexer, TokenKind::Sign(Sign::RightBracket)) {
        return Ok(Elements::Integers(Vec::new(alloc)));
    }
    let first = basic(alloc, lexer)?;
    let mut found = begun(alloc, first, room(lexer))?;
    'elements: while is(lexer, TokenKind::Sign(Sign::Comma)) {
        take(lexer, TokenKind::Sign(Sign::Comma))?;
        let next = basic(alloc, lexer)?;
        push(alloc, &mut found, next)?;
    }
    Ok(found)
}

/// Takes a list.
pub(crate) fn list_literal<'a>(
    alloc: Global,
    lexer: &mut Lexer<'a>,
) -> Result<ListLiteral<'a>, Stop>
    ensures taken { ParsesLow grammar.ListLiteral list_of
        lexer.old.tokens lexer.new.tokens result }
    ensures forward { OnOk result (length lexer.new.tokens < length lexer.old.tokens) }
    ensures same { lexer.new.source ≡ lexer.old.source }
{
    let at = take(lexer, TokenKind::Sign(Sign::LeftBracket))?;
    let elements = elements(alloc, lexer)?;
    take(lexer, TokenKind::Sign(Sign::RightBracket))?;
    Ok(ListLiteral { at, elements })
}

/// A list as an argument of a constraint.
fn listed<'a>(list: ListLiteral<'a>) -> Expression<'a>
    ensures { expression_of result ≡ trees.Listed (list_of list.entry) }
{
    let ListLiteral { at, elements } = list;
    match elements {
        Elements::Integers(integers) => Expression::Integers { at, integers },
        Elements::Basics(basics) => Expression::Basics { at, basics },
    }
}

/// Takes an argument of a constraint.
pub(crate) fn expression<'a>(alloc: Global, lexer: &mut Lexer<'a>) -> Result<Expression<'a>, Stop>
    ensures taken { ParsesLow grammar.Expression expression_of
        lexer.old.tokens lexer.new.tokens result }
    ensures forward { OnOk result (length lexer.new.tokens < length lexer.old.tokens) }
    ensures same { lexer.new.source ≡ lexer.old.source }
{
    if is(lexer, TokenKind::Sign(Sign::LeftBracket)) {
        let list = list_literal(alloc, lexer)?;
        return Ok(listed(list));
    }
    let basic = basic(alloc, lexer)?;
    Ok(Expression::Scalar(basic))
}
