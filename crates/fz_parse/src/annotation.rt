//! The reading of annotations.
ghost use Rattle.std.specs.Prelude.{◌≡◌, ◌≤◌, ◌<◌, ◌-◌, OnOk, IfOk, length};
ghost use Rattle.fz_language.specs.Grammar as grammar;
ghost use Rattle.fz_language.specs.Grammar.{level_limit};
ghost use Rattle.fz_syntax.specs.Trees.{annotation_of, annotations_of, arguments_of, trees_of};
ghost use Rattle.fz_parse.specs.Added.{AreAdded, added, first_in, called_in, count_in};
ghost use Rattle.fz_parse.specs.Steps.{ParsesAt};

use crate::expression::constant;
use crate::list::grow;
use crate::steps::{identifier, is, take};
use crate::stop::Stop;
use fz_language::fault::SyntaxFault;
use fz_language::limits::LEVEL_LIMIT;
use fz_language::sign::Sign;
use fz_language::token_kind::TokenKind;
use fz_lex::Lexer;
use fz_syntax::{Annotation, Argument, Basic, Name};
use std::alloc::Global;

/// Takes the annotations of an item.
pub(crate) fn annotations<'a>(
    alloc: Global,
    lexer: &mut Lexer<'a>,
) -> Result<Vec<Annotation<'a>>, Stop>
    ensures taken { ParsesAt 0 grammar.Annotations (λ a. annotations_of a.items)
        lexer.old.tokens lexer.new.tokens result }
    ensures forward { OnOk result (length lexer.new.tokens ≤ length lexer.old.tokens) }
    ensures same { lexer.new.source ≡ lexer.old.source }
{
    let mut found = Vec::new(alloc);
    'annotations: while is(lexer, TokenKind::Sign(Sign::DoubleColon)) {
        take(lexer, TokenKind::Sign(Sign::DoubleColon))?;
        grow(&mut found)?;
        found.push(annotation(alloc, lexer)?)?;
    }
    Ok(found)
}

/// Takes an annotation.
fn annotation<'a>(alloc: Global, lexer: &mut Lexer<'a>) -> Result<Annotation<'a>, Stop>
    ensures taken { ParsesAt 0 grammar.Annotation annotation_of
        lexer.old.tokens lexer.new.tokens result }
    ensures forward { OnOk result (length lexer.new.tokens < length lexer.old.tokens) }
    ensures same { lexer.new.source ≡ lexer.old.source }
{
    let name = identifier(lexer)?;
    let mut found = Vec::new(alloc);
    match called(alloc, lexer, LEVEL_LIMIT, &mut found)? {
        Some(_) => Ok(Annotation {
            name,
            arguments: Some(found),
        }),
        None => Ok(Annotation {
            name,
            arguments: None,
        }),
    }
}

/// Takes arguments between parentheses, and tells how many there are; none where no parenthesis opens. This many levels of brackets
/// may open.
#[cycle(nested)]
fn called<'a>(
    alloc: Global,
    lexer: &mut Lexer<'a>,
    left: u32,
    found: &mut Vec<Argument<'a>>,
) -> Result<Option<usize>, Stop>
    requires left { left ≤ level_limit }
    ensures taken { ParsesAt (level_limit - left) grammar.Called
        (λ count. called_in (added found.old.items found.new.items) count)
        lexer.old.tokens lexer.new.tokens result }
    ensures added { IfOk result (λ count. AreAdded (count_in count) found.old.items found.new.items) }
    ensures forward { OnOk result (length lexer.new.tokens ≤ length lexer.old.tokens) }
    ensures same { lexer.new.source ≡ lexer.old.source }
{
    if !is(lexer, TokenKind::Sign(Sign::LeftParenthesis)) {
        return Ok(None);
    }
    if left == 0 {
        return Err(Stop::Fault(SyntaxFault::TooDeep));
    }
    take(lexer, TokenKind::Sign(Sign::LeftParenthesis))?;
    let count = arguments(alloc, lexer, left - 1, found)?;
    take(lexer, TokenKind::Sign(Sign::RightParenthesis))?;
    Ok(Some(count))
}

/// Takes arguments of an annotation, up to what closes them, and tells how many there are.
#[cycle(nested)]
fn arguments<'a>(
    alloc: Global,
    lexer: &mut Lexer<'a>,
    left: u32,
    found: &mut Vec<Argument<'a>>,
) -> Result<usize, Stop>
    requires left { left ≤ level_limit }
    ensures taken { ParsesAt (level_limit - left) (grammar.Listed grammar.Arguments)
        (λ count. arguments_of (added found.old.items found.new.items))
        lexer.old.tokens lexer.new.tokens result }
    ensures added { IfOk result (λ count. AreAdded count found.old.items found.new.items) }
    ensures forward { OnOk result (length lexer.new.tokens ≤ length lexer.old.tokens) }
    ensures same { lexer.new.source ≡ lexer.old.source }
{
    if is(lexer, TokenKind::Sign(Sign::RightParenthesis)) {
        return Ok(0);
    }
    if is(lexer, TokenKind::Sign(Sign::RightBracket)) {
        return Ok(0);
    }
    argument(alloc, lexer, left, found)?;
    let mut count: usize = 1;
    'arguments: while is(lexer, TokenKind::Sign(Sign::Comma)) {
        take(lexer, TokenKind::Sign(Sign::Comma))?;
        argument(alloc, lexer, left, found)?;
        let _ = found.len();
        count += 1;
    }
    Ok(count)
}

/// Takes an argument of an annotation.
#[cycle(nested)]
fn argument<'a>(
    alloc: Global,
    lexer: &mut Lexer<'a>,
    left: u32,
    found: &mut Vec<Argument<'a>>,
) -> Result<(), Stop>
    requires left { left ≤ level_limit }
    ensures taken { ParsesAt (level_limit - left) grammar.Argument
        (λ done. first_in (trees_of (added found.old.items found.new.items)))
        lexer.old.tokens lexer.new.tokens result }
    ensures added { OnOk result (AreAdded 1 found.old.items found.new.items) }
    ensures forward { OnOk result (length lexer.new.tokens < length lexer.old.tokens) }
    ensures same { lexer.new.source ≡ lexer.old.source }
{
    grow(found)?;
    let place = found.len();
    if is(lexer, TokenKind::Text) {
        let at = take(lexer, TokenKind::Text)?;
        found.push(Argument::Text { at })?;
        return Ok(());
    }
    if is(lexer, TokenKind::Sign(Sign::LeftBracket)) {
        if left == 0 {
            return Err(Stop::Fault(SyntaxFault::TooDeep));
        }
        let at = take(lexer, TokenKind::Sign(Sign::LeftBracket))?;
        found.push(Argument::Brackets { at, count: 0 })?;
        let count = arguments(alloc, lexer, left - 1, found)?;
        take(lexer, TokenKind::Sign(Sign::RightBracket))?;
        found[place] = Argument::Brackets { at, count };
        return Ok(());
    }
    if is(lexer, TokenKind::Identifier) {
        let Name { bytes, at } = identifier(lexer)?;
        found.push(Argument::Simple(Basic::Named { at, bytes }))?;
        let Some(count) = called(alloc, lexer, left, found)? else {
            return Ok(());
        };
        found[place] = Argument::Call { at, bytes, count };
        return Ok(());
    }
    let constant = constant(alloc, lexer)?;
    found.push(Argument::Simple(constant))?;
    Ok(())
}
