//! Joining.
ghost use Rattle.std.specs.Prelude.{◌≡◌, ◌↔◌, ◌++◌, [], IfOk, IfSome, IfNone, IsTrue, OnOk};
ghost use Rattle.std.specs.List.{AllByRecursion};
ghost use Rattle.fz_part.specs.Parts.{IsPartOf};
ghost use Rattle.fz_join.specs.Joins.{AreNamed, ArePartsOf};
ghost use Rattle.fz_join.specs.Joining.{Ends, Reads};
ghost use Rattle.fz_join.specs.Machine.{closing_text, ending_text, is_enough};
ghost use Rattle.fz_join.specs.Tallies.{IsShown, state_of};

use crate::lack::Lack;
use crate::machine::State;
use crate::reader::Reader;
use crate::tally::Tally;
use crate::told::Told;
use fz_model::{Goal, Model};
use fz_part::Part;
use fz_shown::shows_all;
use std::alloc::{AllocError, Global};

/// A join of what runs of parts of a model printed. It holds one block, and for a goal the best one. Where each variable is shown,
/// a block is printed only if it is of a solution. Contracts see it as the model, whether all solutions are asked for, the parts,
/// what was read, and what is printed.
#[derive(Drop)]
pub struct Join {
    model: Model,
    all: bool,
    parts: Vec<Part>,
    reader: Reader,
    /// Memory was refused while it read, so what it holds is of no use.
    is_broken: bool,
    read: Told,
}

impl std::marker::Model for Join {
    ghost use Rattle.std.specs.Prelude.{◌≡◌, false};
    ghost use Rattle.fz_join.specs.Checking.{Knows};
    ghost use Rattle.fz_join.specs.Joining.{Joining};
    ghost use Rattle.fz_join.specs.Machine.{begun, read_text};
    ghost use Rattle.fz_join.specs.Tallies.{reading_of};

    ghost Value = { Joining };

    ghost view = { λ j. record {
      model = j.model;
      all = j.all;
      parts = j.parts.items;
      read = j.read.bytes;
      printed = j.reader.printed.bytes;
    } };

    // What it knows is what is read of a join that began.
    ghost invariant = { λ j. j.is_broken ≡ false
        → (read_text j.model j.all (begun j.parts.items) j.read.bytes ≡ reading_of j.reader) × Knows j.model j.reader };
}

impl Join {
    /// A join of parts of a model, for all solutions or one. `None` where two parts have the same text.
    ///
    /// # Errors
    /// `AllocError` where there is no memory.
    pub fn new(
        alloc: Global,
        model: Model,
        parts: Vec<Part>,
        all: bool,
    ) -> Result<Option<Join>, AllocError>
        requires of_model { AllByRecursion (IsPartOf model) parts.items }
        ensures join { IfOk result (λ made. IfSome made (λ j. j ≡ record {
          model = model;
          all = all;
          parts = parts.items;
          read = [];
          printed = [];
        })) }
        ensures parts { IfOk result (λ made. IfSome made (λ j. ArePartsOf model parts.items)) }
        ensures same { IfOk result (λ made. IfNone made (ArePartsOf model parts.items → ⊥)) }
    {
        let Some(tally) = Tally::new(alloc, &parts)? else {
            return Ok(None);
        };
        let is_checked = shows_all(alloc, &model)?;
        Ok(Some(Join {
            model,
            all,
            parts,
            reader: Reader::new(alloc, tally, is_checked),
            is_broken: false,
            read: Told::new(),
        }))
    }

    /// Reads a piece of what the runs printed, and appends to the text what is to be printed by then.
    ///
    /// # Errors
    /// `AllocError` where there is no memory; then the join is of no use, and each later call says so, too.
    pub fn feed(&mut self, piece: &[u8], text: &mut Vec<u8>) -> Result<(), AllocError>
        ensures { OnOk result (Reads piece.now self.old self.new text.old.items text.new.items) }
    {
        if self.is_broken {
            return Err(AllocError);
        }
        self.is_broken = true;
        self.reader.read(&self.model, self.all, piece, text)?;
        self.read = self.read.with(piece);
        self.is_broken = false;
        Ok(())
    }

    /// Ends the join: appends what is left to be printed, or says what lacks. Then nothing is appended.
    ///
    /// # Errors
    /// `AllocError` where there is no memory; within it what lacks.
    pub fn finish(self, text: &mut Vec<u8>) -> Result<Result<(), Lack>, AllocError>
        requires { AreNamed self.model }
        ensures { IfOk result (λ answer. Ends answer self text.old.items text.new.items) }
    {
        self.end(text)
    }

    /// Appends what is left to be printed, or says what lacks.
    fn end(&self, text: &mut Vec<u8>) -> Result<Result<(), Lack>, AllocError>
        requires { AreNamed self.now.model }
        ensures { IfOk result (λ answer. Ends answer self.now text.old.items text.new.items) }
    {
        if self.is_broken {
            return Err(AllocError);
        }
        let goal = self.model.goal();
        let state = &self.reader.state;
        if self.reader.is_false {
            return Ok(Err(Lack::NoSolution));
        }
        if !self.reader.is_whole() {
            return Ok(Err(Lack::CutOff));
        }
        if is_found(goal, self.all, state) {
            return Ok(Ok(()));
        }
        if let Some(place) = state.lacking(&self.parts)? {
            return Ok(Err(Lack::Part(place)));
        }
        if !is_reached(goal, state) {
            return Ok(Err(Lack::Bound));
        }
        if self.reader.has_false_best(&self.model)? {
            return Ok(Err(Lack::NoSolution));
        }
        print_ending(goal, state, text)?;
        Ok(Ok(()))
    }
}

/// Whether one solution is asked for and found.
fn is_found(goal: &Goal, all: bool, state: &State) -> bool
    ensures { IsTrue result ↔ IsShown goal.now all (state_of state.now) }
{
    *goal == Goal::Satisfy && !all && state.has_shown()
}

/// Whether nothing better than what is shown was asked for.
fn is_reached(goal: &Goal, state: &State) -> bool
    ensures { result ≡ is_enough goal.now (state_of state.now) }
{
    match goal {
        Goal::Satisfy => true,
        _ => state.is_reached(),
    }
}

/// Appends the block of a best one, if there is one, and the closing line.
fn print_ending(goal: &Goal, state: &State, text: &mut Vec<u8>) -> Result<(), AllocError>
    ensures { OnOk result (text.new.items ≡ text.old.items ++ ending_text goal.now (state_of state.now)) }
{
    match (goal, state.best()) {
        (Goal::Satisfy, _) => print_closing(state.has_shown(), text),
        (_, None) => print_closing(false, text),
        (_, Some(best)) => {
            text.extend_from_slice(&best.block)?;
            print_closing(true, text)
        }
    }
}

/// Appends the closing line.
fn print_closing(has_shown: bool, text: &mut Vec<u8>) -> Result<(), AllocError>
    ensures { OnOk result (text.new.items ≡ text.old.items ++ closing_text has_shown) }
{
    if has_shown {
        text.extend_from_slice(b"==========\n")
    } else {
        text.extend_from_slice(b"=====UNSATISFIABLE=====\n")
    }
}
