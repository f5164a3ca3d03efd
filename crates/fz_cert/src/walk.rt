//! A walk over the boxes that the lines of a tree refute, one after another.
ghost use Rattle.std.specs.Prelude.{◌≡◌, ◌↔◌, ◌∷◌, [], ◌<◌, IsTrue, IfOk, OnOk, List, ℤ, reverse, length};
ghost use Rattle.fz_refutes.specs.Boxes.{above, low_half, high_half};
ghost use Rattle.fz_cert.specs.Walks.{boxes_left, boxes_behind, AreTurns, IsPlace, IsSplitAt, IsClosed};

use crate::area::Area;
use crate::half::{high_part, low_part};
use fz_dom::Dom;
use std::alloc::{AllocError, Global};
use std::marker::Model;

/// A split above the box: its variable and number, the set that the variable had there, and which half the box lies in.
#[derive(Drop)]
pub struct Turn {
    variable: u32,
    number: i32,
    whole: Dom,
    is_high: bool,
}

impl Turn {
    /// The high half of the variable's set.
    fn high(&self, alloc: Global) -> Result<Dom, AllocError>
        ensures { IfOk result (λ d. d ≡ above self.now.number self.now.whole) }
    {
        high_part(alloc, &self.whole, self.number)
    }
}

/// The box that is to be refuted next, and the splits above it. The boxes after it are the high halves of those splits that it lies
/// in the low half of.
#[derive(Drop)]
pub struct Walk {
    area: Area,
    turns: Vec<Turn>,
    is_done: bool,
}

impl Model for Walk {
    ghost use Rattle.std.specs.Prelude.{ℤ, List, reverse, ◌<◌, length};
    ghost use Rattle.fz_cert.specs.Walks.{boxes_left, AreTurns};

    ghost Value = { List (List (List (ℤ × ℤ))) };

    ghost view = { λ w. boxes_left w.is_done w.area (reverse w.turns.items) };

    ghost invariant = { λ w. AreTurns (length w.area) (reverse w.turns.items) };
}

impl Walk {
    /// One box is to be refuted.
    pub fn new(alloc: Global, area: Area) -> Walk
        ensures { result ≡ area ∷ [] }
    {
        Walk {
            area,
            turns: Vec::new(alloc),
            is_done: false,
        }
    }

    /// Whether all are refuted.
    pub fn is_done(&self) -> bool
        ensures { IsTrue result ↔ (self.now ≡ []) }
    {
        self.is_done
    }

    /// The box that is next.
    pub fn area(&self) -> &Area
        requires { 0 < length self.now }
        ensures { (rest : List (List (List (ℤ × ℤ)))) × (self.now ≡ result.now ∷ rest) }
    {
        &self.area
    }

    /// Splits the box that is next at a number of a variable: its low half is next, and then its high half.
    pub fn split(&mut self, alloc: Global, variable: u32, number: i32) -> Result<(), AllocError>
        requires some { 0 < length self.old }
        requires place { IsPlace variable self.old }
        ensures { OnOk result (IsSplitAt variable number self.old self.new) }
    {
        let low = low_part(alloc, &self.area.sets()[variable as usize], number)?;
        let whole = self.area.put(variable, low);
        self.turns.push(Turn {
            variable,
            number,
            whole,
            is_high: false,
        })?;
        Ok(())
    }

    /// Takes the box that is next away.
    pub fn close(&mut self, alloc: Global) -> Result<(), AllocError>
        requires { 0 < length self.old }
        ensures { OnOk result (IsClosed self.old self.new) }
    {
        self.is_done = next_box(alloc, &mut self.area, &mut self.turns)?;
        Ok(())
    }
}

/// Goes on to the box after this one: the high half of the lowest split that the box lies in the low half of. Whether there is
/// none.
fn next_box(alloc: Global, area: &mut Area, turns: &mut Vec<Turn>) -> Result<bool, AllocError>
    requires { AreTurns (length area.old) (reverse turns.old.items) }
    ensures boxes { IfOk result (λ done. boxes_left done area.new (reverse turns.new.items)
        ≡ boxes_behind area.old (reverse turns.old.items)) }
    ensures turns { AreTurns (length area.new) (reverse turns.new.items) }
{
    while let Some(mut turn) = turns.pop() {
        if turn.is_high {
            area.put(turn.variable, turn.whole);
        } else {
            let high = turn.high(alloc)?;
            area.put(turn.variable, high);
            turn.is_high = true;
            turns.push(turn)?;
            return Ok(false);
        }
    }
    Ok(true)
}
