//! The reading of declarations.
ghost use Rattle.std.specs.Prelude.{◌≡◌, ◌≤◌, ◌<◌, OnOk, map, length};
ghost use Rattle.fz_language.specs.Grammar as grammar;
ghost use Rattle.fz_syntax.specs.Trees.{basic_of, variable_item_of, parameter_item_of, array_item_of};
ghost use Rattle.fz_parse.specs.Steps.{Parses, ParsesAt, option_of};

use crate::annotation::annotations;
use crate::expression::{basic, list_literal};
use crate::predicate::variability;
use crate::steps::{identifier, integer, is, take};
use crate::stop::Stop;
use crate::value_type::value_type;
use fz_language::keyword::Keyword;
use fz_language::sign::Sign;
use fz_language::token_kind::TokenKind;
use fz_lex::Lexer;
use fz_syntax::{ArrayItem, Basic, ParameterItem, VariableItem};
use std::alloc::Global;

/// Takes the value of a variable, if one stands there.
fn optional_value<'a>(alloc: Global, lexer: &mut Lexer<'a>) -> Result<Option<Basic<'a>>, Stop>
    ensures taken { Parses grammar.OptionalValue (option_of basic_of)
        lexer.old.tokens lexer.new.tokens result }
    ensures forward { OnOk result (length lexer.new.tokens ≤ length lexer.old.tokens) }
    ensures same { lexer.new.source ≡ lexer.old.source }
{
    if !is(lexer, TokenKind::Sign(Sign::Equals)) {
        return Ok(None);
    }
    take(lexer, TokenKind::Sign(Sign::Equals))?;
    let value = basic(alloc, lexer)?;
    Ok(Some(value))
}

/// Takes a declaration of a variable.
pub(crate) fn variable_item<'a>(
    alloc: Global,
    lexer: &mut Lexer<'a>,
) -> Result<VariableItem<'a>, Stop>
    ensures taken { ParsesAt 0 grammar.VariableItem variable_item_of
        lexer.old.tokens lexer.new.tokens result }
    ensures forward { OnOk result (length lexer.new.tokens < length lexer.old.tokens) }
    ensures same { lexer.new.source ≡ lexer.old.source }
{
    take(lexer, TokenKind::Keyword(Keyword::Var))?;
    let value_type = value_type(alloc, lexer)?;
    take(lexer, TokenKind::Sign(Sign::Colon))?;
    let name = identifier(lexer)?;
    let annotations = annotations(alloc, lexer)?;
    let value = optional_value(alloc, lexer)?;
    take(lexer, TokenKind::Sign(Sign::Semicolon))?;
    Ok(VariableItem {
        value_type,
        name,
        annotations,
        value,
    })
}

/// Takes a declaration of a parameter.
pub(crate) fn parameter_item<'a>(
    alloc: Global,
    lexer: &mut Lexer<'a>,
) -> Result<ParameterItem<'a>, Stop>
    ensures taken { ParsesAt 0 grammar.ParameterItem parameter_item_of
        lexer.old.tokens lexer.new.tokens result }
    ensures forward { OnOk result (length lexer.new.tokens < length lexer.old.tokens) }
    ensures same { lexer.new.source ≡ lexer.old.source }
{
    let value_type = value_type(alloc, lexer)?;
    take(lexer, TokenKind::Sign(Sign::Colon))?;
    let name = identifier(lexer)?;
    let annotations = annotations(alloc, lexer)?;
    take(lexer, TokenKind::Sign(Sign::Equals))?;
    let value = basic(alloc, lexer)?;
    take(lexer, TokenKind::Sign(Sign::Semicolon))?;
    Ok(ParameterItem {
        value_type,
        name,
        annotations,
        value,
    })
}

/// Takes a declaration of an array.
pub(crate) fn array_item<'a>(alloc: Global, lexer: &mut Lexer<'a>) -> Result<ArrayItem<'a>, Stop>
    ensures taken { ParsesAt 0 grammar.ArrayItem array_item_of
        lexer.old.tokens lexer.new.tokens result }
    ensures forward { OnOk result (length lexer.new.tokens < length lexer.old.tokens) }
    ensures same { lexer.new.source ≡ lexer.old.source }
{
    take(lexer, TokenKind::Keyword(Keyword::Array))?;
    take(lexer, TokenKind::Sign(Sign::LeftBracket))?;
    let low = integer(lexer)?;
    take(lexer, TokenKind::Sign(Sign::DoubleDot))?;
    let high = integer(lexer)?;
    take(lexer, TokenKind::Sign(Sign::RightBracket))?;
    take(lexer, TokenKind::Keyword(Keyword::Of))?;
    let variable = variability(lexer)?;
    let value_type = value_type(alloc, lexer)?;
    take(lexer, TokenKind::Sign(Sign::Colon))?;
    let name = identifier(lexer)?;
    let annotations = annotations(alloc, lexer)?;
    take(lexer, TokenKind::Sign(Sign::Equals))?;
    let list = list_literal(alloc, lexer)?;
    take(lexer, TokenKind::Sign(Sign::Semicolon))?;
    Ok(ArrayItem {
        low,
        high,
        variable,
        value_type,
        name,
        annotations,
        list,
    })
}
