//! What part a text may be of. What is read is printed again and compared with the text, so nothing rests on it where there is a
//! part. Where there is none, this does: what a part prints is read as that part.
ghost use Rattle.std.specs.Prelude.{◌≡◌, ◌++◌, ◌∷◌, ◌<◌, ◌≤◌, ℕ, List, [], length, IfOk, IfSome, IsSomeAnd, Some};
ghost use Rattle.std.specs.List.{AllByRecursion};
ghost use Rattle.fz_tree.specs.declared.decision.Comparison.{Comparison};
ghost use Rattle.fz_tree.specs.declared.decision.Decision.{Decision};
ghost use Rattle.fz_part.specs.Texts.{sign_of, part_text, IsWritten};

use crate::print::sign_of;
use crate::word::{integer, natural, split_number};
use fz_tree::decision::{Comparison, Decision};
use std::alloc::{AllocError, Global};

/// The decisions that a text may be of.
pub fn decisions_of(alloc: Global, text: &[u8]) -> Result<Option<Vec<Decision>>, AllocError>
    ensures { IfOk result (λ o. (p : List Decision) → AllByRecursion IsWritten p
        → part_text p ≡ text.now → IsSomeAnd o (λ v. v.items ≡ p)) }
{
    let mut decisions = Vec::new(alloc);
    let mut left = text;
    'decisions: while !left.is_empty() {
        let Some((decision, later)) = next_decision(left) else {
            return Ok(None);
        };
        decisions.push(decision)?;
        left = later;
    }
    Ok(Some(decisions))
}

/// The decision that a text begins with, and what stands after it and a comma.
fn next_decision(text: &[u8]) -> Option<(Decision, &[u8])>
    ensures next { (d : Decision) (ds : List Decision) → IsWritten d
        → part_text (d ∷ ds) ≡ text.now
        → IsSomeAnd result (λ next. (next.0 ≡ d) × (next.1.now ≡ part_text ds)) }
    ensures shorter { IfSome result (λ next. length next.1.now < length text.now) }
{
    let (first, rest) = split_number(text);
    let Some((comparison, rest)) = comparison_at(rest) else {
        return None;
    };
    let (second, rest) = split_number(rest);
    let Some(variable) = natural(first) else {
        return None;
    };
    let Some(value) = integer(second) else {
        return None;
    };
    let decision = Decision {
        variable,
        comparison,
        value,
    };
    Some((decision, after_one(rest)))
}

/// The comparison that a text begins with, by its first byte, and what stands after it.
fn comparison_at(text: &[u8]) -> Option<(Comparison, &[u8])>
    ensures sign { (comparison : Comparison) (rest : List ℕ)
        → text.now ≡ sign_of comparison ++ rest
        → IsSomeAnd result (λ found. (found.0 ≡ comparison) × (found.1.now ≡ rest)) }
    ensures shorter { IfSome result (λ found. length found.1.now < length text.now) }
{
    let Some(first) = text.first() else {
        return None;
    };
    let Some(comparison) = comparison_of(*first) else {
        return None;
    };
    let length = sign_of(comparison).len();
    if text.len() < length {
        return None;
    }
    Some((comparison, &text[length..]))
}

fn comparison_of(byte: u8) -> Option<Comparison>
    ensures { (comparison : Comparison) (rest : List ℕ) → byte ∷ rest ≡ sign_of comparison
        → result ≡ Some comparison }
{
    match byte {
        b'=' => Some(Comparison::Equal),
        b'!' => Some(Comparison::NotEqual),
        b'<' => Some(Comparison::AtMost),
        b'>' => Some(Comparison::Above),
        _ => None,
    }
}

/// What stands after the first byte, if there is one.
fn after_one(text: &[u8]) -> &[u8]
    ensures empty { text.now ≡ [] → result.now ≡ [] }
    ensures after { (byte : ℕ) (rest : List ℕ) → text.now ≡ byte ∷ rest → result.now ≡ rest }
    ensures shorter { length result.now ≤ length text.now }
{
    if text.is_empty() { text } else { &text[1..] }
}
