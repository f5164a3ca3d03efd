//! Laws that the definitions keep: each is the clause of a function that does nothing, so that the clause is proved.
ghost use Rattle.fz_language.specs.Laws.{EachIsJudged, OneFirstRule, ReadingIsOne, SomeReading};
ghost use Rattle.fz_language.specs.SyntaxLaws.{SpellingIsOne, FaultIsOne, DepthIsOne, VerdictIsOne, SomeVerdict};
ghost use Rattle.fz_language.specs.SetLaws.{RangesAreOfNumbers};
ghost use Rattle.fz_language.specs.WithinLaws.{ProgramsFit};
ghost use Rattle.fz_language.specs.TokenLaws.{TokensAreOne, TokenFaultIsOne, TokensOrFault, SomeTokens};

/// A text has one list of tokens at most.
pub fn tokens_are_one()
    ensures { TokensAreOne }
{}

/// A text has one first fault of tokens at most.
pub fn token_fault_is_one()
    ensures { TokenFaultIsOne }
{}

/// A text with tokens has no fault of tokens.
pub fn tokens_or_fault()
    ensures { TokensOrFault }
{}

/// A text has tokens, or a first fault of tokens.
pub fn some_tokens()
    ensures { SomeTokens }
{}

/// Tokens spell one program at most.
pub fn spelling_is_one()
    ensures { SpellingIsOne }
{}

/// The first token with which no program begins is one.
pub fn fault_is_one()
    ensures { FaultIsOne }
{}

/// The first bracket that opens a level over the limit is one.
pub fn depth_is_one()
    ensures { DepthIsOne }
{}

/// Tokens that spell a program have neither fault, and none have both.
pub fn verdict_is_one()
    ensures { VerdictIsOne }
{}

/// Each list of tokens spells a program, or has its fault of syntax, or its first bracket over the limit.
pub fn some_verdict()
    ensures { SomeVerdict }
{}

/// The ranges of numbers rise, and hold those numbers and no other.
pub fn ranges_are_of_numbers()
    ensures { RangesAreOfNumbers }
{}

/// A program of a text within its limit is no larger than the text, and its integers lie within the limits.
pub fn programs_fit()
    ensures { ProgramsFit }
{}

/// Each program keeps all rules, or has a first one that it breaks.
pub fn each_is_judged()
    ensures { EachIsJudged }
{}

/// A program has one first rule that it breaks, at most.
pub fn first_rule_is_one()
    ensures { OneFirstRule }
{}

/// A text has one reading at most: it is accepted with one model, or refused with one code and place.
pub fn reading_is_one()
    ensures { ReadingIsOne }
{}

/// Each text has a reading: it is accepted with a model, or refused with a code and place.
pub fn some_reading()
    ensures { SomeReading }
{}
