//! From a text to its model.
ghost use Rattle.std.specs.Prelude.{◌≡◌, ℕ, List, ◌<◌, ◌≤◌, IfOk, MatchResult, length};
ghost use Rattle.fz_spec.specs.Codes.{code_number};
ghost use Rattle.fz_spec.specs.declared.limits.TheConstants.{TEXT_LIMIT};
ghost use Rattle.fz_language.specs.Places.{line_of, column_of};
ghost use Rattle.fz_language.specs.Reads.{IsShort, Reads, Accepted, IsProgramText};
ghost use Rattle.fz_language.specs.Reads as reads;
ghost use Rattle.fz_syntax.specs.Trees.{program_of};
ghost use Rattle.fz_parse.specs.Parsed.{IsTextFault};
ghost use Rattle.fz_reader.specs.Refusals.{IsRefusal, IsCause};

use fz_check::{Fault, check};
use fz_language::fault::{RuleFault, SyntaxFault, TokenFault};
use fz_lex::{LexFault, place_of};
use fz_model::model::Model;
use fz_parse::{ParseFault, TextFault, parse};
use fz_print::refusal::Refusal;
use fz_spec::code::Code;
use fz_spec::limits::TEXT_LIMIT;
use fz_syntax::Program;
use std::alloc::{AllocError, Global};

/// Why a text is refused, and where: the count of bytes before the place.
#[derive(Clone, Copy)]
pub struct Cause {
    pub code: Code,
    pub at: usize,
}

/// The model of a text that is accepted, or its refusal. Of a text that is too long, the first bytes are enough, one more than a
/// text may have.
///
/// # Errors
/// `AllocError` where there is no memory.
pub fn model_of(alloc: Global, text: &[u8]) -> Result<Result<Model, Refusal>, AllocError>
    ensures { IfOk result (λ reading. MatchResult reading (λ model. Reads text.now (Accepted model))
        (IsRefusal text.now)) }
{
    if text.len() > TEXT_LIMIT {
        return Ok(Err(too_long(text)));
    }
    match read(alloc, text) {
        Ok(Ok(model)) => Ok(Ok(model)),
        Ok(Err(cause)) => Ok(Err(refusal_of(text, cause))),
        Err(error) => Err(error),
    }
}

/// The refusal of a text that is too long, at its first byte over the limit.
fn too_long(text: &[u8]) -> Refusal
    requires long { TEXT_LIMIT < length text.now }
    ensures { IsRefusal text.now result }
{
    refusal_of(
        &text[..TEXT_LIMIT],
        Cause {
            code: Code::OverLimit,
            at: TEXT_LIMIT,
        },
    )
}

/// The refusal of a text for a cause, by line and column.
fn refusal_of(text: &[u8], cause: Cause) -> Refusal
    requires short { length text.now ≤ TEXT_LIMIT }
    ensures code { result.code ≡ code_number cause.code }
    ensures line { result.line ≡ line_of text.now cause.at }
    ensures column { result.column ≡ column_of text.now cause.at }
{
    let place = place_of(text, cause.at);
    Refusal {
        code: cause.code.number(),
        line: place.line,
        column: place.column,
    }
}

/// The model of a text that is accepted, or the cause of its refusal.
fn read(alloc: Global, text: &[u8]) -> Result<Result<Model, Cause>, AllocError>
    requires short { length text.now ≤ TEXT_LIMIT }
    ensures { IfOk result (λ reading. MatchResult reading (λ model. Reads text.now (Accepted model))
        (IsCause text.now)) }
{
    match parse(alloc, text) {
        Ok(Ok(program)) => read_program(alloc, text, program),
        Ok(Err(fault)) => Ok(Err(cause_of(fault))),
        Err(error) => Err(error),
    }
}

/// The model of a text whose tokens spell this program, or the cause of its refusal.
fn read_program(
    alloc: Global,
    _text: &[u8],
    program: Program<'_>,
) -> Result<Result<Model, Cause>, AllocError>
    requires spelt { IsProgramText _text.now (program_of program) }
    ensures { IfOk result (λ reading. MatchResult reading (λ model. Reads _text.now (Accepted model))
        (IsCause _text.now)) }
{
    match check(alloc, program) {
        Ok(Ok(model)) => Ok(Ok(model)),
        Ok(Err(fault)) => Ok(Err(wrong(fault))),
        Err(error) => Err(error),
    }
}

/// The cause for which a text with this fault is refused.
fn cause_of(fault: TextFault) -> Cause
    ensures { (text : List ℕ) → IsShort text → IsTextFault text fault → IsCause text result }
{
    match fault {
        TextFault::Token(fault) => unlexed(fault),
        TextFault::Syntax(fault) => unspelt(fault),
    }
}

fn unlexed(fault: LexFault) -> Cause
    ensures code { result.code ≡ reads.token_code fault.cause }
    ensures at { result.at ≡ fault.at }
{
    let code = match fault.cause {
        TokenFault::UnknownByte => Code::UnknownByte,
        TokenFault::LargeNumber => Code::LargeNumber,
    };
    Cause {
        code,
        at: fault.at as usize,
    }
}

fn unspelt(fault: ParseFault) -> Cause
    ensures code { result.code ≡ reads.syntax_code fault.cause }
    ensures at { result.at ≡ fault.at }
{
    let code = match fault.cause {
        SyntaxFault::Unexpected => Code::UnexpectedToken,
        SyntaxFault::TooDeep => Code::OverLimit,
    };
    Cause {
        code,
        at: fault.at as usize,
    }
}

fn wrong(fault: Fault) -> Cause
    ensures code { result.code ≡ reads.rule_code fault.rule }
    ensures at { result.at ≡ fault.at }
{
    let code = match fault.rule {
        RuleFault::Unsupported => Code::Unsupported,
        RuleFault::UnknownConstraint => Code::UnknownConstraint,
        RuleFault::WrongArity => Code::WrongArity,
        RuleFault::UnknownName => Code::UnknownName,
        RuleFault::WrongType => Code::WrongType,
        RuleFault::WrongLengths => Code::WrongLengths,
        RuleFault::DeclaredTwice => Code::DeclaredTwice,
        RuleFault::OverLimit => Code::OverLimit,
    };
    Cause {
        code,
        at: fault.at as usize,
    }
}
