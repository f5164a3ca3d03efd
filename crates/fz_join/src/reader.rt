//! Reading what runs printed, piece by piece.
ghost use Rattle.std.specs.Prelude.{◌≡◌, ◌≢◌, ◌↔◌, [], IfOk, IfSome, IsFalse, IsTrue, OnOk};
ghost use Rattle.fz_spec.specs.declared.goal.Goal.TheVariants.{Satisfy};
ghost use Rattle.fz_spec.specs.Instance.{Instance};
ghost use Rattle.fz_shown.specs.Shown.{IsSolutionText, ShowsAll};
ghost use Rattle.fz_join.specs.Checking.{IsFalseBest, Knows};
ghost use Rattle.fz_join.specs.Machine.{IsWhole, begun, end_line, none_ran, read_text};
ghost use Rattle.fz_join.specs.Tallies.{IsAppended, reading_of, state_of, times_of};

use crate::machine::State;
use crate::tally::Tally;
use crate::told::Told;
use crate::words::next_line;
use fz_model::{Goal, Model};
use fz_shown::is_solution;
use std::alloc::{AllocError, Global};

/// What is known of what is read, up to any byte of a line.
#[derive(Drop)]
pub(crate) struct Reader {
    pub state: State,
    /// Of a line that isn't ended.
    partial: Vec<u8>,
    /// Whether solutions are checked.
    is_checked: bool,
    /// Whether a block was of no solution. None is passed on since.
    pub is_false: bool,
    /// The blocks to be printed, whatever they are of.
    found: Told,
    printed: Told,
}

impl Reader {
    /// Nothing is read.
    pub(crate) fn new(alloc: Global, tally: Tally, is_checked: bool) -> Reader
        ensures reading { (ps : _) → times_of tally ≡ none_ran ps → reading_of result ≡ begun ps }
        ensures printed { result.printed.bytes ≡ [] }
        ensures knows { (m : Instance) → (IsTrue is_checked ↔ ShowsAll m) → Knows m result }
    {
        Reader {
            state: State::new(alloc, tally),
            partial: Vec::new(alloc),
            is_checked,
            is_false: false,
            found: Told::new(),
            printed: Told::new(),
        }
    }

    /// Reads a piece, and appends to a text what is to be printed by then.
    pub(crate) fn read(
        &mut self,
        model: &Model,
        all: bool,
        piece: &[u8],
        text: &mut Vec<u8>,
    ) -> Result<(), AllocError>
        requires { Knows model.now self.old }
        ensures read { OnOk result (reading_of self.new ≡ read_text model.now all (reading_of self.old) piece.now) }
        ensures text { OnOk result (IsAppended self.old.printed.bytes self.new.printed.bytes text.old.items text.new.items) }
        ensures knows { OnOk result (Knows model.now self.new) }
    {
        let mut left = piece;
        'lines: while let Some((front, later)) = next_line(left) {
            self.partial.extend_from_slice(front)?;
            self.end_line(model, all, text)?;
            left = later;
        }
        self.partial.extend_from_slice(left)?;
        Ok(())
    }

    /// Reads the line that ends here.
    fn end_line(&mut self, model: &Model, all: bool, text: &mut Vec<u8>) -> Result<(), AllocError>
        requires { Knows model.now self.old }
        ensures read { OnOk result (reading_of self.new ≡ end_line model.now all (reading_of self.old)) }
        ensures text { OnOk result (IsAppended self.old.printed.bytes self.new.printed.bytes text.old.items text.new.items) }
        ensures knows { OnOk result (Knows model.now self.new) }
    {
        self.state.take_line(model, all, &self.partial)?;
        self.partial.clear();
        self.found = self.found.with(self.state.out());
        if self.is_false {
            self.state.discard();
            return Ok(());
        }
        if self.has_false_out(model)? {
            self.is_false = true;
            self.state.discard();
            return Ok(());
        }
        self.printed = self.printed.with(self.state.out());
        self.state.drain(text)?;
        Ok(())
    }

    /// Whether the block that is to be printed now is of no solution, where solutions are checked.
    fn has_false_out(&self, model: &Model) -> Result<bool, AllocError>
        requires { IsTrue self.now.is_checked ↔ ShowsAll model.now }
        ensures other { IfOk result (λ is. IsTrue is → ((state_of self.now.state).out ≢ [])
            × (IsSolutionText model.now (state_of self.now.state).out → ⊥)) }
        ensures sound { IfOk result (λ is. IsFalse is → (state_of self.now.state).out ≢ [] → ShowsAll model.now
            → IsSolutionText model.now (state_of self.now.state).out) }
    {
        let out = self.state.out();
        if out.is_empty() {
            return Ok(false);
        }
        self.is_no_solution(model, out)
    }

    /// Whether the block of a best one is of no solution, where solutions are checked.
    pub(crate) fn has_false_best(&self, model: &Model) -> Result<bool, AllocError>
        requires { IsTrue self.now.is_checked ↔ ShowsAll model.now }
        ensures other { IfOk result (λ is. IsTrue is → IsFalseBest model.now (state_of self.now.state).best) }
        ensures sound { IfOk result (λ is. IsFalse is → model.now.goal ≢ Satisfy → ShowsAll model.now
            → IfSome (state_of self.now.state).best (λ b. IsSolutionText model.now b.1)) }
    {
        if *model.goal() == Goal::Satisfy {
            return Ok(false);
        }
        match self.state.best() {
            Some(best) => self.is_no_solution(model, &best.block),
            None => Ok(false),
        }
    }

    /// Whether a block is of no solution, where solutions are checked.
    fn is_no_solution(&self, model: &Model, block: &[u8]) -> Result<bool, AllocError>
        requires { IsTrue self.now.is_checked ↔ ShowsAll model.now }
        ensures other { IfOk result (λ is. IsTrue is → IsSolutionText model.now block.now → ⊥) }
        ensures sound { IfOk result (λ is. IsFalse is → ShowsAll model.now → IsSolutionText model.now block.now) }
    {
        if !self.is_checked {
            return Ok(false);
        }
        let alloc = *self.partial.allocator();
        Ok(!is_solution(alloc, model, block)?)
    }

    /// Whether each line was of a run, and each part that began is ended.
    pub(crate) fn is_whole(&self) -> bool
        ensures { IsTrue result ↔ (IsWhole (state_of self.now.state) × (self.now.partial.items ≡ [])) }
    {
        self.state.is_whole() && self.partial.is_empty()
    }
}
