//! The reading of items and of a program.
ghost use Rattle.std.specs.Prelude.{◌≡◌, ◌≤◌, ◌<◌, OnOk, map, length};
ghost use Rattle.fz_language.specs.Kinds.{number};
ghost use Rattle.fz_language.specs.Grammar as grammar;
ghost use Rattle.fz_grammar.specs.Reading.{head, has};
ghost use Rattle.fz_syntax.specs.Trees.{item_of, method_of, solve_item_of, program_of};
ghost use Rattle.fz_parse.specs.Steps.{Parses, ParsesAt};

use crate::annotation::annotations;
use crate::constraint::constraint_item;
use crate::declaration::{array_item, parameter_item, variable_item};
use crate::expression::basic;
use crate::predicate::predicate_item;
use crate::steps::{is, take};
use crate::stop::Stop;
use fz_language::keyword::Keyword;
use fz_language::sign::Sign;
use fz_language::token_kind::TokenKind;
use fz_lex::Lexer;
use fz_syntax::{Item, Method, Program, SolveItem};
use std::alloc::Global;

/// Whether a type begins with a token of this kind.
fn begins_type(kind: TokenKind) -> bool
    ensures { result ≡ has (map number grammar.type_kinds) (number kind) }
{
    matches!(
        kind,
        TokenKind::Integer
            | TokenKind::Float
            | TokenKind::Sign(Sign::LeftBrace)
            | TokenKind::Keyword(Keyword::Bool | Keyword::Float | Keyword::Int | Keyword::Set)
    )
}

/// Whether an item before the solve item begins with a token of this kind.
fn begins_item(kind: TokenKind) -> bool
    ensures { result ≡ has (map number grammar.item_kinds) (number kind) }
{
    begins_type(kind)
        || matches!(
            kind,
            TokenKind::Keyword(
                Keyword::Array | Keyword::Constraint | Keyword::Predicate | Keyword::Var
            )
        )
}

/// Takes an item before the solve item.
fn item<'a>(alloc: Global, lexer: &mut Lexer<'a>) -> Result<Item<'a>, Stop>
    ensures taken { ParsesAt 0 grammar.OneItem item_of
        lexer.old.tokens lexer.new.tokens result }
    ensures forward { OnOk result (length lexer.new.tokens < length lexer.old.tokens) }
    ensures same { lexer.new.source ≡ lexer.old.source }
{
    if is(lexer, TokenKind::Keyword(Keyword::Predicate)) {
        let item = predicate_item(alloc, lexer)?;
        return Ok(Item::Predicate(item));
    }
    if is(lexer, TokenKind::Keyword(Keyword::Var)) {
        let item = variable_item(alloc, lexer)?;
        return Ok(Item::Variable(item));
    }
    if is(lexer, TokenKind::Keyword(Keyword::Array)) {
        let item = array_item(alloc, lexer)?;
        return Ok(Item::Array(Box::new(alloc, item)?));
    }
    if begins_type(lexer.kind()) {
        let item = parameter_item(alloc, lexer)?;
        return Ok(Item::Parameter(item));
    }
    let item = constraint_item(alloc, lexer)?;
    Ok(Item::Constraint(item))
}

/// Takes the items before the solve item.
fn items<'a>(alloc: Global, lexer: &mut Lexer<'a>) -> Result<Vec<Item<'a>>, Stop>
    ensures taken { ParsesAt 0 grammar.Items (λ i. map item_of i.items)
        lexer.old.tokens lexer.new.tokens result }
    ensures forward { OnOk result (length lexer.new.tokens ≤ length lexer.old.tokens) }
    ensures same { lexer.new.source ≡ lexer.old.source }
{
    let mut found = Vec::new(alloc);
    'items: while begins_item(lexer.kind()) {
        found.push(item(alloc, lexer)?)?;
    }
    Ok(found)
}

/// Takes what the solve item asks for.
fn method<'a>(alloc: Global, lexer: &mut Lexer<'a>) -> Result<Method<'a>, Stop>
    ensures taken { Parses grammar.Method method_of
        lexer.old.tokens lexer.new.tokens result }
    ensures forward { OnOk result (length lexer.new.tokens < length lexer.old.tokens) }
    ensures same { lexer.new.source ≡ lexer.old.source }
{
    if is(lexer, TokenKind::Keyword(Keyword::Minimize)) {
        let at = take(lexer, TokenKind::Keyword(Keyword::Minimize))?;
        let objective = basic(alloc, lexer)?;
        return Ok(Method::Minimize { at, objective });
    }
    if is(lexer, TokenKind::Keyword(Keyword::Maximize)) {
        let at = take(lexer, TokenKind::Keyword(Keyword::Maximize))?;
        let objective = basic(alloc, lexer)?;
        return Ok(Method::Maximize { at, objective });
    }
    let at = take(lexer, TokenKind::Keyword(Keyword::Satisfy))?;
    Ok(Method::Satisfy { at })
}

/// Takes the solve item.
fn solve_item<'a>(alloc: Global, lexer: &mut Lexer<'a>) -> Result<SolveItem<'a>, Stop>
    ensures taken { ParsesAt 0 grammar.SolveItem solve_item_of
        lexer.old.tokens lexer.new.tokens result }
    ensures forward { OnOk result (length lexer.new.tokens < length lexer.old.tokens) }
    ensures same { lexer.new.source ≡ lexer.old.source }
{
    take(lexer, TokenKind::Keyword(Keyword::Solve))?;
    let annotations = annotations(alloc, lexer)?;
    let method = method(alloc, lexer)?;
    take(lexer, TokenKind::Sign(Sign::Semicolon))?;
    Ok(SolveItem {
        annotations,
        method,
    })
}

/// Takes a program.
pub(crate) fn program<'a>(alloc: Global, lexer: &mut Lexer<'a>) -> Result<Program<'a>, Stop>
    ensures taken { ParsesAt 0 grammar.WholeProgram program_of
        lexer.old.tokens lexer.new.tokens result }
    ensures same { lexer.new.source ≡ lexer.old.source }
{
    let items = items(alloc, lexer)?;
    let solve = solve_item(alloc, lexer)?;
    Ok(Program { items, solve })
}
