//! The reading of types.
ghost use Rattle.std.specs.Prelude.{◌≡◌, ◌≤◌, ◌<◌, OnOk, length};
ghost use Rattle.fz_language.specs.Grammar as grammar;
ghost use Rattle.fz_syntax.specs.Trees.{plain_of, type_of};
ghost use Rattle.fz_parse.specs.Steps.{Parses};

use crate::expression::set_literal;
use crate::steps::{is, take};
use crate::stop::Stop;
use fz_language::keyword::Keyword;
use fz_language::token_kind::TokenKind;
use fz_lex::Lexer;
use fz_syntax::{Plain, ValueType};
use std::alloc::Global;

/// Takes a type of one value.
fn plain(alloc: Global, lexer: &mut Lexer) -> Result<Plain, Stop>
    ensures taken { Parses grammar.Plain plain_of
        lexer.old.tokens lexer.new.tokens result }
    ensures forward { OnOk result (length lexer.new.tokens < length lexer.old.tokens) }
    ensures same { lexer.new.source ≡ lexer.old.source }
{
    if is(lexer, TokenKind::Keyword(Keyword::Bool)) {
        let at = take(lexer, TokenKind::Keyword(Keyword::Bool))?;
        return Ok(Plain::AnyBool { at });
    }
    if is(lexer, TokenKind::Keyword(Keyword::Int)) {
        let at = take(lexer, TokenKind::Keyword(Keyword::Int))?;
        return Ok(Plain::AnyInt { at });
    }
    if is(lexer, TokenKind::Keyword(Keyword::Float)) {
        let at = take(lexer, TokenKind::Keyword(Keyword::Float))?;
        return Ok(Plain::AnyFloat { at });
    }
    let set = set_literal(alloc, lexer)?;
    Ok(Plain::Within(set))
}

/// Takes a type.
pub(crate) fn value_type(alloc: Global, lexer: &mut Lexer) -> Result<ValueType, Stop>
    ensures taken { Parses grammar.ValueType type_of
        lexer.old.tokens lexer.new.tokens result }
    ensures forward { OnOk result (length lexer.new.tokens < length lexer.old.tokens) }
    ensures same { lexer.new.source ≡ lexer.old.source }
{
    if is(lexer, TokenKind::Keyword(Keyword::Set)) {
        let at = take(lexer, TokenKind::Keyword(Keyword::Set))?;
        take(lexer, TokenKind::Keyword(Keyword::Of))?;
        let plain = plain(alloc, lexer)?;
        return Ok(ValueType::SetOf { at, plain });
    }
    let plain = plain(alloc, lexer)?;
    Ok(ValueType::One(plain))
}
