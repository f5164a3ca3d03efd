//! How what runs printed is read, line by line.
ghost use Rattle.std.specs.Prelude.{◌≡◌, ◌↔◌, ◌<◌, ◌++◌, Bool, None, Some, [], false, codes, is_some, slice_get, option_copied, option_map, IsTrue, IfOk, IfSome, IfNone, IsSomeAnd, OnOk};
ghost use Rattle.std.specs.List.{AllByRecursion};
ghost use Rattle.fz_spec.specs.declared.limits.TheConstants.{TEXT_LIMIT};
ghost use Rattle.fz_spec.specs.Instance.{Instance};
ghost use Rattle.fz_part.specs.Texts.{part_text};
ghost use Rattle.fz_join.specs.Joins.{rank};
ghost use Rattle.fz_join.specs.Machine.{IsSmall, IsWhole, after, begin_part, block_line, bound_of, comment, comment_of, drained, end_block, end_part, fresh, is_reached, least_of, number_of, section_line, spoilt, take_line, tell_value};
ghost use Rattle.fz_join.specs.Tallies.{state_of, times_of};

use crate::tally::Tally;
use crate::words::{after, is_ending, number, split_word};
use fz_model::{Goal, Model, Output};
use fz_part::Part;
use std::alloc::{AllocError, Global};
use std::mem;

/// What is read of a part.
#[derive(Drop)]
pub(crate) struct Section {
    /// Of how many items of a block the lines have come.
    items: usize,
    /// These lines.
    block: Vec<u8>,
    /// The last whole block.
    last: Vec<u8>,
    /// The rank of the value that is told.
    value: Option<i64>,
}

impl std::marker::Model for Section {
    ghost use Rattle.fz_join.specs.Machine as machine;

    ghost Value = { machine.Section };

    ghost view = { λ x. record {
      items = x.items;
      block = x.block.items;
      last = x.last.items;
      value = x.value;
    } };
}

impl Section {
    /// No line of a block has come since this one. The lines are kept in a spare buffer.
    fn fresh(mut spare: Vec<u8>, last: Vec<u8>) -> Section
        ensures { result ≡ fresh last.items }
    {
        spare.clear();
        Section {
            items: 0,
            block: spare,
            last,
            value: None,
        }
    }
}

/// A best value, by its rank, and the block that shows it.
#[derive(Drop)]
pub(crate) struct Best {
    pub rank: i64,
    pub block: Vec<u8>,
}

impl std::marker::Model for Best {
    ghost use Rattle.std.specs.Prelude.{ℤ, ℕ, List};

    ghost Value = { ℤ × List ℕ };

    ghost view = { λ b. (b.rank, b.block.items) };
}

/// What is known between two lines.
#[derive(Drop)]
pub(crate) struct State {
    tally: Tally,
    section: Option<Section>,
    best: Option<Best>,
    bound: Option<i64>,
    shown: bool,
    wrong: bool,
    /// The block that is to be printed now.
    out: Vec<u8>,
}

impl State {
    /// No line is read.
    pub(crate) fn new(alloc: Global, tally: Tally) -> State
        ensures { state_of result ≡ record {
          times = times_of tally;
          section = None;
          best = None;
          bound = None;
          shown = false;
          wrong = false;
          out = [];
        } }
    {
        State {
            tally,
            section: None,
            best: None,
            bound: None,
            shown: false,
            wrong: false,
            out: Vec::new(alloc),
        }
    }

    /// Reads a line, without its end.
    pub(crate) fn take_line(
        &mut self,
        model: &Model,
        all: bool,
        line: &[u8],
    ) -> Result<(), AllocError>
        ensures { OnOk result (state_of self.new ≡ take_line model.now all (state_of self.old) line.now) }
    {
        if self.wrong {
            return Ok(());
        }
        match self.section.take() {
            Some(section) => self.take_in(model, all, section, line),
            None => {
                self.begin_part(model, line);
                Ok(())
            }
        }
    }

    /// A line was of no run.
    fn spoil(&mut self)
        ensures { state_of self.new ≡ spoilt (state_of self.old) }
    {
        self.section = None;
        self.wrong = true;
    }

    /// Begins a part.
    fn begin_part(&mut self, model: &Model, line: &[u8])
        ensures { state_of self.new ≡ begin_part model.now (state_of self.old) (after (codes "%%%part ") line.now) }
    {
        let Some(words) = after(b"%%%part ", line) else {
            return self.spoil();
        };
        let (name, behind) = split_word(words);
        let Some(bound) = bound_of(behind) else {
            return self.spoil();
        };
        if !self.tally.count(name) {
            return self.spoil();
        }
        let alloc = *self.out.allocator();
        self.section = Some(Section::fresh(Vec::new(alloc), Vec::new(alloc)));
        self.bound = least_of(self.bound, bound.map(|value| rank(model.goal(), value)));
    }

    /// Reads a line of a part.
    fn take_in(
        &mut self,
        model: &Model,
        all: bool,
        section: Section,
        line: &[u8],
    ) -> Result<(), AllocError>
        ensures { OnOk result (state_of self.new ≡ section_line model.now all (state_of self.old) section line.now (comment_of section.block line.now)) }
    {
        if let Some(text) = comment_of(&section.block, line) {
            self.comment(model, section, text);
            return Ok(());
        }
        match model.outputs().get(section.items) {
            Some(output) => self.take_item(section, output, line),
            None => self.take_dashes(model, all, section, line),
        }
    }

    /// Reads the line of an item.
    fn take_item(
        &mut self,
        section: Section,
        output: &Output,
        line: &[u8],
    ) -> Result<(), AllocError>
        requires { section.items < TEXT_LIMIT }
        ensures { (m : Instance) (all : Bool) → OnOk result
            (state_of self.new ≡ block_line m all (state_of self.old) section line.now (Some output.now)) }
    {
        if !is_line_of(output, line) {
            self.spoil();
            return Ok(());
        }
        let mut section = section;
        section.block.extend_from_slice(line)?;
        section.block.push(b'\n')?;
        section.items += 1;
        self.section = Some(section);
        Ok(())
    }

    /// Reads the dashes that end a block.
    fn take_dashes(
        &mut self,
        model: &Model,
        all: bool,
        section: Section,
        line: &[u8],
    ) -> Result<(), AllocError>
        ensures { OnOk result (state_of self.new ≡ block_line model.now all (state_of self.old) section line.now None) }
    {
        if line != b"----------".as_slice() {
            self.spoil();
            return Ok(());
        }
        let mut block = section.block;
        block.extend_from_slice(b"----------\n")?;
        self.end_block(model.goal(), all, block);
        Ok(())
    }

    /// Takes a whole block.
    fn end_block(&mut self, goal: &Goal, all: bool, block: Vec<u8>)
        ensures { state_of self.new ≡ end_block all (state_of self.old) block.items goal.now }
    {
        let alloc = *block.allocator();
        if *goal != Goal::Satisfy {
            self.section = Some(Section::fresh(Vec::new(alloc), block));
            return;
        }
        let mut spare = block;
        if all || !self.shown {
            self.shown = true;
            spare = mem::replace(&mut self.out, spare);
        }
        self.section = Some(Section::fresh(spare, Vec::new(alloc)));
    }

    /// Reads a line behind a part's blocks, without the `%%%`.
    fn comment(&mut self, model: &Model, section: Section, text: &[u8])
        ensures { state_of self.new ≡ comment model.now (state_of self.old) section text.now (after (codes "value ") text.now) }
    {
        match after(b"value ", text) {
            Some(word) => self.tell_value(model.goal(), section, word),
            None if is_ending(text) => self.end_part(section),
            None => self.spoil(),
        }
    }

    /// Reads the value of a part's last block.
    fn tell_value(&mut self, goal: &Goal, section: Section, word: &[u8])
        ensures { (m : Instance) → m.goal ≡ goal.now
            → state_of self.new ≡ tell_value m (state_of self.old) section (number_of word.now) }
    {
        match number(word) {
            Some(value) => {
                self.section = Some(Section {
                    value: Some(rank(goal, value)),
                    ..section
                })
            }
            None => self.spoil(),
        }
    }

    /// Ends a part.
    fn end_part(&mut self, section: Section)
        ensures { state_of self.new ≡ end_part (state_of self.old) section }
    {
        self.section = None;
        let Some(rank) = section.value else {
            return;
        };
        let is_better = match &self.best {
            Some(best) => rank < best.rank,
            None => true,
        };
        if is_better {
            self.best = Some(Best {
                rank,
                block: section.last,
            });
        }
    }

    /// The block that is to be printed now, or nothing.
    pub(crate) fn out(&self) -> &[u8]
        ensures { result.now ≡ (state_of self.now).out }
    {
        &self.out
    }

    /// Appends the block that is to be printed now, if there is one.
    pub(crate) fn drain(&mut self, text: &mut Vec<u8>) -> Result<(), AllocError>
        ensures text { OnOk result (text.new.items ≡ text.old.items ++ (state_of self.old).out) }
        ensures drained { OnOk result (state_of self.new ≡ drained (state_of self.old)) }
    {
        text.extend_from_slice(&self.out)?;
        self.discard();
        Ok(())
    }

    /// Drops the block that was to be printed now.
    pub(crate) fn discard(&mut self)
        ensures { state_of self.new ≡ drained (state_of self.old) }
    {
        self.out.clear();
    }

    /// Whether each line was of a run, and each part that began is ended.
    pub(crate) fn is_whole(&self) -> bool
        ensures { IsTrue result ↔ IsWhole (state_of self.now) }
    {
        !self.wrong && self.section.is_none()
    }

    /// Whether a block was printed.
    pub(crate) fn has_shown(&self) -> bool
        ensures { result ≡ (state_of self.now).shown }
    {
        self.shown
    }

    /// A best value and its block, if a value was told.
    pub(crate) fn best(&self) -> Option<&Best>
        ensures { option_copied result ≡ (state_of self.now).best }
    {
        self.best.as_ref()
    }

    /// The place of the first of some parts that hasn't run once, if there is one.
    pub(crate) fn lacking(&self, parts: &[Part]) -> Result<Option<usize>, AllocError>
        ensures none { IfOk result (λ found. IfNone found
            (AllByRecursion (λ p. (state_of self.now).times (part_text p) ≡ Some 1) parts.now)) }
        ensures some { IfOk result (λ found. IfSome found (λ place. IsSomeAnd (slice_get parts.now place)
            (λ p. (state_of self.now).times (part_text p) ≡ Some 1 → ⊥))) }
    {
        let mut text = Vec::new(*self.out.allocator());
        for (place, part) in parts.iter().enumerate() {
            text.clear();
            part.print(&mut text)?;
            if self.tally.times(&text) != Some(1) {
                return Ok(Some(place));
            }
        }
        Ok(None)
    }

    /// Whether the best value is as good as each that was to be bettered.
    pub(crate) fn is_reached(&self) -> bool
        ensures { result ≡ is_reached (state_of self.now).bound (state_of self.now).best }
    {
        match (self.bound, &self.best) {
            (None, _) => true,
            (Some(bound), Some(best)) => best.rank <= bound,
            (Some(_), None) => false,
        }
    }
}

/// What stands behind `%%%` between two blocks.
fn comment_of<'a>(block: &[u8], line: &'a [u8]) -> Option<&'a [u8]>
    ensures { option_map (λ rest. rest.now) result ≡ comment_of block.now line.now }
{
    if block.is_empty() {
        after(b"%%%", line)
    } else {
        None
    }
}

/// Whether a line is of an output item.
fn is_line_of(output: &Output, line: &[u8]) -> bool
    ensures { result ≡ is_some (after (output.now.name ++ codes " = ") line.now) }
{
    match after(output.name().as_str().as_bytes(), line) {
        Some(rest) => after(b" = ", rest).is_some(),
        None => false,
    }
}

/// The value that is to be bettered, if there is one, of what stands behind a part's text.
fn bound_of(behind: &[u8]) -> Option<Option<i64>>
    ensures value { result ≡ bound_of behind.now }
    ensures small { IfSome result (λ bound. IfSome bound IsSmall) }
{
    if behind.is_empty() {
        return Some(None);
    }
    let word = after(b" bound ", behind)?;
    Some(Some(number(word)?))
}

/// The rank of a value: the less, the better.
fn rank(goal: &Goal, value: i64) -> i64
    requires { IsSmall value }
    ensures { result ≡ rank goal.now value }
{
    match goal {
        Goal::Satisfy => 0,
        Goal::Minimize(_) => value,
        Goal::Maximize(_) => -value,
    }
}

/// The lesser of two numbers, where there are two.
fn least_of(first: Option<i64>, second: Option<i64>) -> Option<i64>
    ensures { result ≡ least_of first second }
{
    match (first, second) {
        (Some(a), Some(b)) => Some(a.min(b)),
        (first, None) => first,
        (None, second) => second,
    }
}
