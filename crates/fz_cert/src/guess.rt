//! What a text may say. What is guessed is printed again and compared with the text, so nothing rests on it where the checker says
//! yes. Where it says no, this does: a guess gives back what was printed.
ghost use Rattle.std.specs.Prelude.{◌≡◌, ◌++◌, ◌∷◌, ℕ, ℤ, ◌^◌, ◌<◌, List, Option, Some, IfOk, decimal, flat_map, length};
ghost use Rattle.std.specs.Fmt.{signed_decimal};
ghost use Rattle.fz_sets.specs.Sets.{IsWithinLimits};
ghost use Rattle.fz_model.specs.Kept.{AreNumbers, IsModel};
ghost use Rattle.fz_refutes.specs.Boxes.{IsWord};
ghost use Rattle.fz_refutes.specs.Trees.{Line};
ghost use Rattle.fz_refutes.specs.Texts.{ProvesHead, comment, line_text};
ghost use Rattle.fz_cert.specs.Guesses.{AreBeforeZ, EndsWord, HasWords, IsGuessed};

use crate::step::Step;
use crate::text::behind;
use crate::word::{integer, natural, split_word};
use fz_model::{Assignment, Model};
use std::alloc::{AllocError, Global};

/// The line of a tree that a text begins with.
pub fn step(text: &[u8]) -> Option<Step>
    ensures { (line : Line) (rest : List ℕ) → HasWords line
        → text.now ≡ comment (line_text line) ++ rest → IsGuessed result line }
{
    if behind(text, b"%c e").is_some() {
        return Some(Step::Empty);
    }
    if behind(text, b"%c g").is_some() {
        return Some(Step::Worse);
    }
    if let Some(rest) = behind(text, b"%c f ") {
        return failing(rest);
    }
    let Some(rest) = behind(text, b"%c s ") else {
        return None;
    };
    split(rest)
}

fn failing(text: &[u8]) -> Option<Step>
    ensures { (c : ℕ) (rest : List ℕ) → c < 2 ^ 32 → EndsWord rest
        → text.now ≡ decimal c ++ rest → result ≡ Some (Step.Failing c) }
{
    let (word, _) = split_word(text);
    let Some(constraint) = natural(word) else {
        return None;
    };
    Some(Step::Failing(constraint))
}

fn split(text: &[u8]) -> Option<Step>
    ensures { (v : ℕ) (n : ℤ) (rest : List ℕ) → v < 2 ^ 32 → IsWord n → EndsWord rest
        → text.now ≡ decimal v ++ (32 ∷ (signed_decimal n ++ rest)) → result ≡ Some (Step.Split v n) }
{
    let (first, rest) = split_word(text);
    let Some(variable) = natural(first) else {
        return None;
    };
    let Some(later) = behind(rest, b" ") else {
        return None;
    };
    let (second, _) = split_word(later);
    let Some(number) = integer(second) else {
        return None;
    };
    Some(Step::Split(variable, number))
}

/// The assignment that the certificate of an output begins with, or none.
pub fn head(alloc: Global, model: &Model, output: &[u8]) -> Result<Option<Assignment>, AllocError>
    ensures { IfOk result (λ guess. (head : Option (List ℤ)) → ProvesHead model.now head output.now
        → guess ≡ head) }
{
    let count = model.variables().len();
    let certificate = behind_z(output);
    let Some(best) = behind(certificate, b"cert 1\n%c best") else {
        return Ok(None);
    };
    let values = values(alloc, count, best)?;
    Ok(Some(Assignment::new(alloc, &values)?))
}

/// What stands after the last z, which a certificate has in its first line alone.
fn behind_z(output: &[u8]) -> &[u8]
    ensures { (front rest : List ℕ) → AreBeforeZ rest → output.now ≡ front ++ 122 ∷ rest → result.now ≡ rest }
{
    let mut rest = output;
    for (i, byte) in output.iter().enumerate() {
        if *byte == b'z' {
            rest = &output[i + 1..];
        }
    }
    rest
}

/// That many values, a blank before each.
fn values(alloc: Global, count: usize, text: &[u8]) -> Result<Vec<i32>, AllocError>
    ensures numbers { IfOk result (λ v. AreNumbers v.items) }
    ensures values { IfOk result (λ v. (values : List ℤ) (rest : List ℕ)
        → length values ≡ count → AreNumbers values
        → text.now ≡ flat_map (λ x. 32 ∷ signed_decimal x) values ++ 10 ∷ rest → v.items ≡ values) }
{
    let mut values = Vec::new(alloc);
    let mut left = text;
    for _i in 0..count {
        let (value, later) = next_value(left);
        values.push(value)?;
        left = later;
    }
    Ok(values)
}

/// The value after a blank, within the limits of the language, and what stands after it.
fn next_value(text: &[u8]) -> (i32, &[u8])
    ensures within { IsWithinLimits result.0 }
    ensures value { (n : ℤ) (rest : List ℕ) → IsWithinLimits n → EndsWord rest
        → text.now ≡ 32 ∷ (signed_decimal n ++ rest) → (result.0 ≡ n) × (result.1.now ≡ rest) }
{
    let Some(later) = behind(text, b" ") else {
        return (0, text);
    };
    let (word, rest) = split_word(later);
    let Some(number) = integer(word) else {
        return (0, rest);
    };
    (limited(number), rest)
}

/// A number within the limits of the language.
fn limited(number: i32) -> i32
    ensures within { IsWithinLimits result }
    ensures same { IsWithinLimits number → result ≡ number }
{
    number.clamp(-2_147_483_646, 2_147_483_646)
}
