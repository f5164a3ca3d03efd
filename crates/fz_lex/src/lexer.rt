//! A text, read token by token.
ghost use Rattle.std.specs.Prelude.{◌≡◌, ◌<◌, ◌≤◌, ℕ, List, length, drop, MatchOption};
ghost use Rattle.fz_spec.specs.declared.limits.TheConstants.{TEXT_LIMIT};
ghost use Rattle.fz_language.specs.declared.token_kind.TokenKind.TheVariants as kinds;
ghost use Rattle.fz_language.specs.Tokens.{Identifier, Number, LeadsTo, End, Fault};
ghost use Rattle.fz_language.specs.Kinds.{number};
ghost use Rattle.fz_language.specs.Kinds as language_kinds;
ghost use Rattle.fz_lex.specs.Ahead.{Begins, IsNotAt, head_kind, place_ahead};
ghost use Rattle.fz_lex.specs.Lexers.{IsLexer, ahead_of};
ghost use Rattle.fz_lex.specs.Lexed.{lexeme_of};
ghost use Rattle.fz_lex.specs.Steps.{EndsGap};

use crate::blanks::skip_blanks;
use crate::lexeme::Lexeme;
use crate::reading::token_at;
use fz_language::fault::TokenFault;
use fz_language::token_kind::TokenKind;
use fz_syntax::{Integer, Name};
use std::marker::Model;

/// Why and where a text has no tokens: at the first byte that begins none, or at the first large number, as the count of bytes
/// before it.
#[derive(Clone, Copy, Debug, PartialEq, Eq)]
pub struct LexFault {
    pub cause: TokenFault,
    pub at: u32,
}

/// What stands at a place where no blank begins.
#[derive(Clone, Copy)]
pub(crate) enum Head {
    Token { lexeme: Lexeme, stop: usize },
    End,
    Fault(TokenFault),
}

/// A text, and a place in it that the tokens before it end at: what is ahead is the tokens from there on, and after them the
/// text's end or its first fault. No token is kept but the next, and no text is copied.
#[derive(Drop)]
pub struct Lexer<'a> {
    text: &'a [u8],
    at: usize,
    head: Head,
}

impl<'a> Model for Lexer<'a> {
    ghost use Rattle.fz_lex.specs.Ahead.{Ahead};
    ghost use Rattle.fz_lex.specs.Lexers.{IsLexer, ahead_of};

    ghost Value = { Ahead };

    ghost view = { λ l. ahead_of l.text.now l.at };

    ghost invariant = { λ l. IsLexer l.text.now l.at l.head };
}

impl<'a> Lexer<'a> {
    /// All tokens of a text are ahead.
    pub fn new(text: &'a [u8]) -> Lexer<'a>
        requires short { length text.now ≤ TEXT_LIMIT }
        ensures text { result.source.text ≡ text.now }
        ensures ahead { LeadsTo text.now 0 result.tokens result.source.ending }
    {
        let mut at = 0;
        let mut head = Head::End;
        settle(text, 0, &mut at, &mut head);
        Lexer { text, at, head }
    }

    /// The kind of the next token, or `End` where none is ahead.
    pub fn kind(&self) -> TokenKind
        ensures { number result ≡ head_kind self.now.tokens }
    {
        match self.head {
            Head::Token { lexeme, .. } => kind_of(lexeme),
            _ => TokenKind::End,
        }
    }

    /// The place of the next token, or of what stands after the last.
    pub fn place(&self) -> u32
        ensures { result ≡ place_ahead self.now }
    {
        self.at as u32
    }

    /// The next token, if it is an identifier.
    pub fn name(&self) -> Option<Name<'a>>
        ensures { MatchOption result (IsNotAt self.now.tokens kinds.Identifier)
            (λ n. Begins self.now.tokens (Identifier n.bytes.now) n.at) }
    {
        match self.head {
            Head::Token { lexeme, .. } => match lexeme {
                Lexeme::Identifier { stop } => Some(Name {
                    bytes: &self.text[self.at..stop as usize],
                    at: self.at as u32,
                }),
                _ => None,
            },
            _ => None,
        }
    }

    /// The next token, if it is an integer.
    pub fn integer(&self) -> Option<Integer>
        ensures { MatchOption result (IsNotAt self.now.tokens kinds.Integer)
            (λ i. Begins self.now.tokens (Number i.value) i.at) }
    {
        match self.head {
            Head::Token { lexeme, .. } => match lexeme {
                Lexeme::Integer(value) => Some(Integer {
                    value,
                    at: self.at as u32,
                }),
                _ => None,
            },
            _ => None,
        }
    }

    /// Passes the next token, if one is ahead.
    pub fn advance(&mut self)
        ensures tokens { self.new.tokens ≡ drop 1 self.old.tokens }
        ensures source { self.new.source ≡ self.old.source }
    {
        if let Head::Token { stop, .. } = self.head {
            settle(self.text, stop, &mut self.at, &mut self.head);
        }
    }

    /// The text's first fault, if it has one. It is read on to there.
    pub fn fault(self) -> Option<LexFault>
        ensures { MatchOption result (self.entry.source.ending ≡ End)
            (λ f. self.entry.source.ending ≡ Fault f.cause f.at) }
    {
        let mut lexer = self;
        'tokens: while lexer.kind() != TokenKind::End {
            lexer.advance();
        }
        match lexer.head {
            Head::Fault(cause) => Some(LexFault {
                cause,
                at: lexer.at as u32,
            }),
            _ => None,
        }
    }
}

/// Moves to the first place from one on where no blank begins.
fn settle(text: &[u8], from: usize, at: &mut usize, head: &mut Head)
    requires within { from ≤ length text.now }
    requires short { length text.now ≤ TEXT_LIMIT }
    ensures lexer { IsLexer text.now at.new head.new }
    ensures ahead { ahead_of text.now at.new ≡ ahead_of text.now from }
{
    *at = skip_blanks(text, from);
    *head = head_at(text, *at);
}

/// What stands at a place where no blank begins.
fn head_at(text: &[u8], at: usize) -> Head
    requires within { at ≤ length text.now }
    requires short { length text.now ≤ TEXT_LIMIT }
    requires end { EndsGap text.now at }
    ensures { IsLexer text.now at result }
{
    if at == text.len() {
        return Head::End;
    }
    match token_at(text, at) {
        Ok(found) => Head::Token {
            lexeme: found.lexeme,
            stop: found.stop,
        },
        Err(fault) => Head::Fault(fault),
    }
}

/// The kind of a token.
fn kind_of(lexeme: Lexeme) -> TokenKind
    ensures { (bytes : List ℕ) (at : ℕ) → result ≡ language_kinds.kind_of (lexeme_of bytes at lexeme) }
{
    match lexeme {
        Lexeme::Identifier { .. } => TokenKind::Identifier,
        Lexeme::Word(keyword) => TokenKind::Keyword(keyword),
        Lexeme::Integer(_) => TokenKind::Integer,
        Lexeme::Float => TokenKind::Float,
        Lexeme::Text => TokenKind::Text,
        Lexeme::Sign(sign) => TokenKind::Sign(sign),
    }
}
