//! From a text to a program.
ghost use Rattle.std.specs.Prelude.{◌≡◌, ◌≤◌, IfOk, MatchResult, length};
ghost use Rattle.fz_spec.specs.declared.limits.TheConstants.{TEXT_LIMIT};
ghost use Rattle.fz_language.specs.Grammar.{Spells};
ghost use Rattle.fz_language.specs.Reads.{IsProgramText};
ghost use Rattle.fz_syntax.specs.Trees.{program_of};
ghost use Rattle.fz_parse.specs.Parsed.{IsTextFault, Blames};

use crate::program::program;
use crate::steps::is;
use crate::stop::Stop;
use fz_language::fault::SyntaxFault;
use fz_language::token_kind::TokenKind;
use fz_lex::{LexFault, Lexer};
use fz_syntax::Program;
use std::alloc::{AllocError, Global};

/// Why and where tokens spell no program: at the first token with which none begins, or at the text's end, or at a bracket
/// that opens a level over the limit. The place is the count of bytes before it.
#[derive(Clone, Copy, Debug, PartialEq, Eq)]
pub struct ParseFault {
    pub cause: SyntaxFault,
    pub at: u32,
}

/// What is wrong with a text that is no program: the first fault of its tokens, or, of a text that has tokens, the fault of their
/// syntax.
#[derive(Clone, Copy, Debug, PartialEq, Eq)]
pub enum TextFault {
    Token(LexFault),
    Syntax(ParseFault),
}

/// The program of a text, or the text's fault. The text is read once, to its end: tokens and syntax side by side. An `AllocError`
/// says that memory ran out.
pub fn parse<'a>(
    alloc: Global,
    text: &'a [u8],
) -> Result<Result<Program<'a>, TextFault>, AllocError>
    requires short { length text.now ≤ TEXT_LIMIT }
    ensures { IfOk result (λ found. MatchResult found
        (λ p. IsProgramText text.now (program_of p)) (IsTextFault text.now)) }
{
    let mut lexer = Lexer::new(text);
    let found = whole(alloc, &mut lexer);
    let at = lexer.place();
    if let Some(fault) = lexer.fault() {
        return Ok(Err(TextFault::Token(fault)));
    }
    match found {
        Ok(program) => Ok(Ok(program)),
        Err(Stop::Memory) => Err(AllocError),
        Err(Stop::Fault(cause)) => Ok(Err(TextFault::Syntax(ParseFault { cause, at }))),
    }
}

/// Takes a program and the end of the tokens.
fn whole<'a>(alloc: Global, lexer: &mut Lexer<'a>) -> Result<Program<'a>, Stop>
    ensures taken { MatchResult result (λ p. Spells lexer.old.tokens (program_of p))
        (λ why. Blames lexer.old.tokens why lexer.new.tokens) }
    ensures same { lexer.new.source ≡ lexer.old.source }
{
    let program = program(alloc, lexer)?;
    if !is(lexer, TokenKind::End) {
        return Err(Stop::Fault(SyntaxFault::Unexpected));
    }
    Ok(program)
}
