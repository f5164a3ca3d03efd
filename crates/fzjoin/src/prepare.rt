//! What is read before the texts: the model, and its parts.
ghost use Rattle.std.specs.Prelude.{◌≡◌, ℕ, ◌-◌, ◌^◌, ◌<◌, ◌≤◌, List, Option, IfOk, length};
ghost use Rattle.std.specs.List.{AllByRecursion};
ghost use Rattle.fz_part.specs.Parts.{IsPartOf};
ghost use Rattle.fz_join.specs.Joins.{parts_text};
ghost use Rattle.fzjoin.specs.Answers.{AreRead, Files, IsModelOf, IsReadOf};
ghost use Rattle.fzjoin.specs.Steps.{HasReadyCause, HasStopCause, IsPrepared};

use crate::status::JoinStatus;
use fz_io::outside::Source;
use fz_io::whole::{Whole, read_all};
use fz_join::{Join, parts_of};
use fz_model::model::Model;
use fz_part::Part;
use fz_reader::model_of;
use fz_spec::limits::TEXT_LIMIT;
use std::alloc::Global;

/// How many bytes the text of the parts may have.
pub const PARTS_LIMIT: usize = 1_073_741_824;

/// Why a text could not be read.
#[derive(Clone, Copy, Debug, PartialEq, Eq)]
pub enum Stop {
    Memory,
    Fault,
}

/// A join of the parts of these names.
pub(crate) fn prepare<R: Source>(
    alloc: Global,
    all: bool,
    model: &str,
    parts: &str,
    source: &mut R,
) -> Result<Join, JoinStatus>
    requires { R.faults source.old < 2 ^ 64 - 1 }
    ensures texts { R.texts source.new ≡ R.texts source.old }
    ensures prepared { (texts : Option (List ℕ)) → IsPrepared result all (record {
      model = R.texts source.old model.now;
      parts = R.texts source.old parts.now;
      texts = texts;
    }) }
    ensures cause { HasReadyCause (R.faults source.old) (R.faults source.new) result }
{
    match read_text(alloc, model, TEXT_LIMIT, source) {
        Ok(text) => prepare_text(alloc, all, &text, parts, source),
        Err(Stop::Fault) => Err(JoinStatus::SourceFault),
        Err(Stop::Memory) => Err(JoinStatus::NoMemory),
    }
}

/// A join of the parts of this name, of the model of this text, or of its first bytes.
fn prepare_text<R: Source>(
    alloc: Global,
    all: bool,
    text: &[u8],
    parts: &str,
    source: &mut R,
) -> Result<Join, JoinStatus>
    requires { R.faults source.old < 2 ^ 64 - 1 }
    ensures texts { R.texts source.new ≡ R.texts source.old }
    ensures prepared { (file texts : Option (List ℕ)) → IsReadOf TEXT_LIMIT file text.now
        → IsPrepared result all (record {
          model = file;
          parts = R.texts source.old parts.now;
          texts = texts;
        }) }
    ensures cause { HasReadyCause (R.faults source.old) (R.faults source.new) result }
{
    match model_of(alloc, text) {
        Ok(Ok(model)) => prepare_model(alloc, all, model, parts, source),
        Ok(Err(refused)) => Err(JoinStatus::Refused(refused)),
        Err(_) => Err(JoinStatus::NoMemory),
    }
}

/// A join of the parts of this name.
fn prepare_model<R: Source>(
    alloc: Global,
    all: bool,
    model: Model,
    parts: &str,
    source: &mut R,
) -> Result<Join, JoinStatus>
    requires { R.faults source.old < 2 ^ 64 - 1 }
    ensures texts { R.texts source.new ≡ R.texts source.old }
    ensures prepared { (file texts : Option (List ℕ)) → IsModelOf file model
        → IsPrepared result all (record {
          model = file;
          parts = R.texts source.old parts.now;
          texts = texts;
        }) }
    ensures cause { HasReadyCause (R.faults source.old) (R.faults source.new) result }
{
    match read_text(alloc, parts, PARTS_LIMIT, source) {
        Ok(text) => begin(alloc, all, model, &text),
        Err(Stop::Fault) => Err(JoinStatus::SourceFault),
        Err(Stop::Memory) => Err(JoinStatus::NoMemory),
    }
}

/// A join of the parts of this text, or of its first bytes.
fn begin(alloc: Global, all: bool, model: Model, text: &[u8]) -> Result<Join, JoinStatus>
    ensures prepared { (f : Files) → IsModelOf f.model model → IsReadOf PARTS_LIMIT f.parts text.now
        → IsPrepared result all f }
    ensures cause { (a : ℕ) → HasReadyCause a a result }
{
    if text.len() > PARTS_LIMIT {
        return Err(JoinStatus::NoMemory);
    }
    match parts_of(alloc, &model, text) {
        Ok(Ok(parts)) => join_of(alloc, all, model, parts),
        Ok(Err(misplaced)) => Err(JoinStatus::NoParts(misplaced.line)),
        Err(_) => Err(JoinStatus::NoMemory),
    }
}

/// A join of these parts.
fn join_of(alloc: Global, all: bool, model: Model, parts: Vec<Part>) -> Result<Join, JoinStatus>
    requires of_model { AllByRecursion (IsPartOf model) parts.items }
    ensures prepared { (f : Files) → AreRead f model (parts_text parts.items) → IsPrepared result all f }
    ensures cause { (a : ℕ) → HasReadyCause a a result }
{
    match Join::new(alloc, model, parts, all) {
        Ok(Some(join)) => Ok(join),
        Ok(None) => Err(JoinStatus::SameParts),
        Err(_) => Err(JoinStatus::NoMemory),
    }
}

/// The text of this name, or the first bytes of one that is longer than the limit, one more than it.
fn read_text<R: Source>(
    alloc: Global,
    name: &str,
    limit: usize,
    source: &mut R,
) -> Result<Vec<u8>, Stop>
    requires { R.faults source.old < 2 ^ 64 - 1 }
    ensures texts { R.texts source.new ≡ R.texts source.old }
    ensures read { IfOk result (λ text. IsReadOf limit (R.texts source.old name.now) text.items) }
    ensures cause { HasStopCause (R.faults source.old) (R.faults source.new) result }
{
    match source.select(name) {
        Ok(()) => read_selected(alloc, limit, source),
        Err(_) => Err(Stop::Fault),
    }
}

fn read_selected<R: Source>(alloc: Global, limit: usize, source: &mut R) -> Result<Vec<u8>, Stop>
    requires { R.faults source.old < 2 ^ 64 - 1 }
    ensures texts { R.texts source.new ≡ R.texts source.old }
    ensures read { IfOk result (λ text. IsReadOf limit (R.left source.old) text.items) }
    ensures cause { HasStopCause (R.faults source.old) (R.faults source.new) result }
{
    match read_all(alloc, source, limit) {
        Ok(Whole::Bytes(text)) => Ok(text),
        Ok(Whole::TooLong(text)) => Ok(text),
        Ok(Whole::Failed) => Err(Stop::Fault),
        Err(_) => Err(Stop::Memory),
    }
}
