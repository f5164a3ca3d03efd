//! Parts as text.
ghost use Rattle.std.specs.Prelude.{◌≡◌, ◌++◌, ◌↔◌, IsTrue, IfOk, OnOk};
ghost use Rattle.fz_part.specs.Texts.{sign_of, decision_text, later_text, part_text};

use fz_tree::decision::{Comparison, Decision};
use itoa::Buffer;
use std::alloc::{AllocError, Global};

/// Appends the text of a part.
pub fn push_part(text: &mut Vec<u8>, decisions: &[Decision]) -> Result<(), AllocError>
    ensures { OnOk result (text.new.items ≡ text.old.items ++ part_text decisions.now) }
{
    if decisions.is_empty() {
        return Ok(());
    }
    push_decision(text, decisions[0])?;
    'later: for place in 1..decisions.len() {
        push_later(text, decisions[place])?;
    }
    Ok(())
}

fn push_later(text: &mut Vec<u8>, decision: Decision) -> Result<(), AllocError>
    ensures { OnOk result (text.new.items ≡ text.old.items ++ later_text decision) }
{
    text.extend_from_slice(b",")?;
    push_decision(text, decision)
}

fn push_decision(text: &mut Vec<u8>, decision: Decision) -> Result<(), AllocError>
    ensures { OnOk result (text.new.items ≡ text.old.items ++ decision_text decision) }
{
    text.extend_from_slice(Buffer::new().format(decision.variable).as_bytes())?;
    text.extend_from_slice(sign_of(decision.comparison))?;
    text.extend_from_slice(Buffer::new().format(decision.value).as_bytes())?;
    Ok(())
}

/// How a comparison is written.
pub fn sign_of(comparison: Comparison) -> &'static [u8]
    ensures { result.now ≡ sign_of comparison }
{
    match comparison {
        Comparison::Equal => b"=",
        Comparison::NotEqual => b"!=",
        Comparison::AtMost => b"<=",
        Comparison::Above => b">",
    }
}

/// Whether a text is that of these decisions.
pub fn has_text(alloc: Global, decisions: &[Decision], text: &[u8]) -> Result<bool, AllocError>
    ensures { IfOk result (λ is. IsTrue is ↔ (part_text decisions.now ≡ text.now)) }
{
    let mut printed = Vec::new(alloc);
    push_part(&mut printed, decisions)?;
    Ok(printed.as_slice() == text)
}
