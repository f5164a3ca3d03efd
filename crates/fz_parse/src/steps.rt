//! Steps of the reading: tests and takings of one token.
ghost use Rattle.std.specs.Prelude.{◌≡◌, ◌<◌, ℕ, [], ◌∷◌, OnOk, IfErr, MatchResult, length, true};
ghost use Rattle.fz_language.specs.declared.token_kind.TokenKind.TheVariants as kinds;
ghost use Rattle.fz_language.specs.Kinds.{number};
ghost use Rattle.fz_grammar.specs.Reading.{head, has};
ghost use Rattle.fz_language.specs.Grammar.{flatzinc};
ghost use Rattle.fz_parse.specs.Steps.{IsMark, TakesMark, TakesName, TakesInteger, MissesKind, IsUnexpected};

use crate::stop::Stop;
use fz_language::fault::SyntaxFault;
use fz_language::token_kind::TokenKind;
use fz_lex::Lexer;
use fz_syntax::{Integer, Name};

/// Whether the next token is of this kind.
pub(crate) fn is(lexer: &Lexer, kind: TokenKind) -> bool
    ensures found { result ≡ has (number kind ∷ []) (head flatzinc lexer.now.tokens) }
{
    lexer.kind() == kind
}

/// Takes the next token if it is of this kind, and gives its place.
pub(crate) fn take(lexer: &mut Lexer, kind: TokenKind) -> Result<u32, Stop>
    requires mark { IsMark kind }
    ensures taken { MatchResult result
        (λ at. TakesMark kind at lexer.old.tokens lexer.new.tokens)
        (MissesKind kind lexer.old.tokens lexer.new.tokens) }
    ensures cause { IfErr result IsUnexpected }
    ensures forward { OnOk result (length lexer.new.tokens < length lexer.old.tokens) }
    ensures same { lexer.new.source ≡ lexer.old.source }
{
    if !is(lexer, kind) {
        return Err(Stop::Fault(SyntaxFault::Unexpected));
    }
    let at = lexer.place();
    lexer.advance();
    Ok(at)
}

/// Takes the next token if it is an identifier.
pub(crate) fn identifier<'a>(lexer: &mut Lexer<'a>) -> Result<Name<'a>, Stop>
    ensures taken { MatchResult result
        (λ n. TakesName n.bytes.now n.at lexer.old.tokens lexer.new.tokens)
        (MissesKind kinds.Identifier lexer.old.tokens lexer.new.tokens) }
    ensures cause { IfErr result IsUnexpected }
    ensures forward { OnOk result (length lexer.new.tokens < length lexer.old.tokens) }
    ensures same { lexer.new.source ≡ lexer.old.source }
{
    match lexer.name() {
        Some(name) => {
            lexer.advance();
            Ok(name)
        }
        None => Err(Stop::Fault(SyntaxFault::Unexpected)),
    }
}

/// Takes the next token if it is an integer.
pub(crate) fn integer(lexer: &mut Lexer) -> Result<Integer, Stop>
    ensures taken { MatchResult result
        (λ i. TakesInteger i.value i.at lexer.old.tokens lexer.new.tokens)
        (MissesKind kinds.Integer lexer.old.tokens lexer.new.tokens) }
    ensures cause { IfErr result IsUnexpected }
    ensures forward { OnOk result (length lexer.new.tokens < length lexer.old.tokens) }
    ensures same { lexer.new.source ≡ lexer.old.source }
{
    match lexer.integer() {
        Some(integer) => {
            lexer.advance();
            Ok(integer)
        }
        None => Err(Stop::Fault(SyntaxFault::Unexpected)),
    }
}
