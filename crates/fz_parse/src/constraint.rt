//! The reading of constraint items.
ghost use Rattle.std.specs.Prelude.{◌≡◌, ◌≤◌, ◌<◌, OnOk, map, length};
ghost use Rattle.fz_language.specs.Grammar as grammar;
ghost use Rattle.fz_syntax.specs.Trees.{expression_of, constraint_item_of};
ghost use Rattle.fz_parse.specs.Steps.{ParsesLow, ParsesAt};

use crate::annotation::annotations;
use crate::expression::expression;
use crate::steps::{identifier, is, take};
use crate::stop::Stop;
use fz_language::keyword::Keyword;
use fz_language::sign::Sign;
use fz_language::token_kind::TokenKind;
use fz_lex::Lexer;
use fz_syntax::{ConstraintItem, Expression};
use std::alloc::Global;

/// How many arguments there is room for at first: most constraints have as many.
const ARGUMENTS: usize = 3;

/// Takes the arguments of a constraint, up to the closing parenthesis.
fn expressions<'a>(alloc: Global, lexer: &mut Lexer<'a>) -> Result<Vec<Expression<'a>>, Stop>
    ensures taken { ParsesLow (grammar.Listed grammar.Expressions) (λ e. map expression_of e.items)
        lexer.old.tokens lexer.new.tokens result }
    ensures forward { OnOk result (length lexer.new.tokens ≤ length lexer.old.tokens) }
    ensures same { lexer.new.source ≡ lexer.old.source }
{
    let mut found = Vec::new(alloc);
    if is(lexer, TokenKind::Sign(Sign::RightParenthesis)) {
        return Ok(found);
    }
    found.reserve_exact(ARGUMENTS)?;
    found.push(expression(alloc, lexer)?)?;
    'expressions: while is(lexer, TokenKind::Sign(Sign::Comma)) {
        take(lexer, TokenKind::Sign(Sign::Comma))?;
        found.push(expression(alloc, lexer)?)?;
    }
    Ok(found)
}

/// Takes a constraint item.
pub(crate) fn constraint_item<'a>(
    alloc: Global,
    lexer: &mut Lexer<'a>,
) -> Result<ConstraintItem<'a>, Stop>
    ensures taken { ParsesAt 0 grammar.ConstraintItem constraint_item_of
        lexer.old.tokens lexer.new.tokens result }
    ensures forward { OnOk result (length lexer.new.tokens < length lexer.old.tokens) }
    ensures same { lexer.new.source ≡ lexer.old.source }
{
    take(lexer, TokenKind::Keyword(Keyword::Constraint))?;
    let name = identifier(lexer)?;
    take(lexer, TokenKind::Sign(Sign::LeftParenthesis))?;
    let arguments = expressions(alloc, lexer)?;
    take(lexer, TokenKind::Sign(Sign::RightParenthesis))?;
    let annotations = annotations(alloc, lexer)?;
    take(lexer, TokenKind::Sign(Sign::Semicolon))?;
    Ok(ConstraintItem {
        name,
        arguments,
        annotations,
    })
}
