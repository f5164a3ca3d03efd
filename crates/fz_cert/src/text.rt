//! Certificates as text.
ghost use Rattle.std.specs.Prelude.{◌≡◌, ◌++◌, OnOk, IfSome, IfNone, List, ℕ, codes, decimal, flat_map};
ghost use Rattle.std.specs.Fmt.{signed_decimal};
ghost use Rattle.fz_refutes.specs.Texts.{comment, line_text, head_text};
ghost use Rattle.fz_cert.specs.Steps.{line_of};

use crate::step::Step;
use fz_model::Assignment;
use itoa::Buffer;
use std::alloc::AllocError;

/// Appends a line of a tree.
pub fn push_step(text: &mut Vec<u8>, step: Step) -> Result<(), AllocError>
    ensures { OnOk result (text.new.items ≡ text.old.items ++ comment (line_text (line_of step))) }
{
    text.extend_from_slice(b"%c ")?;
    push_line(text, step)?;
    text.extend_from_slice(b"\n")?;
    Ok(())
}

fn push_line(text: &mut Vec<u8>, step: Step) -> Result<(), AllocError>
    ensures { OnOk result (text.new.items ≡ text.old.items ++ line_text (line_of step)) }
{
    match step {
        Step::Empty => text.extend_from_slice(b"e"),
        Step::Failing(constraint) => push_failing(text, constraint),
        Step::Worse => text.extend_from_slice(b"g"),
        Step::Split(variable, number) => push_split(text, variable, number),
    }
}

fn push_failing(text: &mut Vec<u8>, constraint: u32) -> Result<(), AllocError>
    ensures { OnOk result (text.new.items ≡ text.old.items ++ (codes "f " ++ decimal constraint)) }
{
    text.extend_from_slice(b"f ")?;
    text.extend_from_slice(Buffer::new().format(constraint).as_bytes())?;
    Ok(())
}

fn push_split(text: &mut Vec<u8>, variable: u32, number: i32) -> Result<(), AllocError>
    ensures { OnOk result (text.new.items ≡ text.old.items
        ++ (codes "s " ++ (decimal variable ++ (codes " " ++ signed_decimal number)))) }
{
    text.extend_from_slice(b"s ")?;
    text.extend_from_slice(Buffer::new().format(variable).as_bytes())?;
    text.extend_from_slice(b" ")?;
    text.extend_from_slice(Buffer::new().format(number).as_bytes())?;
    Ok(())
}

/// Appends the line of a head.
pub fn push_head(text: &mut Vec<u8>, head: &Option<Assignment>) -> Result<(), AllocError>
    ensures { OnOk result (text.new.items ≡ text.old.items ++ comment (head_text head.now)) }
{
    text.extend_from_slice(b"%c ")?;
    match head {
        None => text.extend_from_slice(b"none")?,
        Some(best) => push_best(text, best.values())?,
    }
    text.extend_from_slice(b"\n")?;
    Ok(())
}

fn push_best(text: &mut Vec<u8>, values: &[i32]) -> Result<(), AllocError>
    ensures { OnOk result (text.new.items ≡ text.old.items
        ++ (codes "best" ++ flat_map (λ x. codes " " ++ signed_decimal x) values.now)) }
{
    text.extend_from_slice(b"best")?;
    for value in values {
        push_value(text, *value)?;
    }
    Ok(())
}

fn push_value(text: &mut Vec<u8>, value: i32) -> Result<(), AllocError>
    ensures { OnOk result (text.new.items ≡ text.old.items ++ (codes " " ++ signed_decimal value)) }
{
    text.extend_from_slice(b" ")?;
    text.extend_from_slice(Buffer::new().format(value).as_bytes())?;
    Ok(())
}

/// What is after a piece that a text begins with.
pub fn behind<'a>(text: &'a [u8], piece: &[u8]) -> Option<&'a [u8]>
    ensures some { IfSome result (λ rest. text.now ≡ piece.now ++ rest.now) }
    ensures none { IfNone result ((rest : List ℕ) → text.now ≡ piece.now ++ rest → ⊥) }
{
    if text.len() < piece.len() {
        return None;
    }
    let (front, rest) = text.split_at(piece.len());
    if front == piece { Some(rest) } else { None }
}
