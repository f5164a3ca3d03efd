//! Edges.
ghost use Rattle.std.specs.Prelude.{◌≡◌, ◌<◌, ◌+◌, ◌↔◌, true, IsTrue, IfOk};
ghost use Rattle.std.specs.List.{list_any};
ghost use Rattle.fz_tree.specs.Choice.{meets};
ghost use Rattle.fz_tree.specs.Frontier.{IsEdge, edge_has_rest, meets_taken, others, settled_edge, cut_edge, kept_edge};
ghost use Rattle.fz_region.specs.Places.{next_edge};

use crate::choice::Choice;
use std::alloc::AllocError;
use std::marker::Model;

/// An edge of a search tree: the alternative of a choice that the path takes, and the last one that is open.
#[derive(Drop)]
pub struct Edge {
    pub choice: Choice,
    pub taken: u32,
    pub last: u32,
}

impl Model for Edge {
    ghost use Rattle.fz_tree.specs.Frontier as frontier;

    ghost Value = { frontier.Edge };

    ghost view = { λ e. record { choice = e.choice; taken = e.taken; last = e.last } };

    ghost inverse = { λ e. record { choice = e.choice; taken = e.taken; last = e.last } };
}

impl Edge {
    /// Whether an alternative after the taken one is open.
    pub fn has_rest(&self) -> bool
        ensures { result ≡ edge_has_rest self.now }
    {
        self.taken < self.last
    }

    /// The edge of the part that a cut takes here: the last half of the alternatives after the taken one, rounded up, its first
    /// one taken.
    ///
    /// # Errors
    /// `AllocError` where the choice can't be copied.
    pub fn cut(&self) -> Result<Edge, AllocError>
        requires { edge_has_rest self.now ≡ true }
        ensures { IfOk result (λ e. e ≡ cut_edge self.now) }
    {
        let choice = self.choice.copy()?;
        Ok(Edge {
            choice,
            taken: self.last - (self.last - self.taken).div_ceil(2) + 1,
            last: self.last,
        })
    }

    /// Leaves out what a cut takes here.
    pub fn drop_cut(&mut self)
        requires { edge_has_rest self.old ≡ true }
        ensures { self.new ≡ kept_edge self.old }
    {
        self.last -= (self.last - self.taken).div_ceil(2);
    }

    /// Takes the next alternative, which is open.
    pub fn take_next(&mut self)
        requires { edge_has_rest self.old ≡ true }
        ensures { self.new ≡ next_edge self.old }
    {
        let _last = self.last;
        self.taken += 1;
    }

    /// Whether the numbers of an assignment meet the taken decision.
    pub fn taken_is_met_by(&self, numbers: &[i32]) -> bool
        requires { IsEdge self.now }
        ensures { result ≡ meets_taken numbers.now self.now }
    {
        self.choice.decision(self.taken).is_met_by(numbers)
    }

    /// Whether they meet an open alternative after the taken one.
    pub fn other_is_met_by(&self, numbers: &[i32]) -> bool
        requires { IsEdge self.now }
        ensures { result ≡ list_any (meets numbers.now) (others self.now) }
    {
        let _ = self.choice.len();
        for alternative in self.taken + 1..self.last + 1 {
            if self.choice.decision(alternative).is_met_by(numbers) {
                return true;
            }
        }
        false
    }

    /// The edge with nothing open after the taken alternative.
    ///
    /// # Errors
    /// `AllocError` where the choice can't be copied.
    pub fn settled(&self) -> Result<Edge, AllocError>
        ensures { IfOk result (λ e. e ≡ settled_edge self.now) }
    {
        let choice = self.choice.copy()?;
        Ok(Edge {
            choice,
            taken: self.taken,
            last: self.taken,
        })
    }

    /// The same edge once more.
    ///
    /// # Errors
    /// `AllocError` where the choice can't be copied.
    pub fn copy(&self) -> Result<Edge, AllocError>
        ensures { IfOk result (λ e. e ≡ self.now) }
    {
        let choice = self.choice.copy()?;
        Ok(Edge {
            choice,
            taken: self.taken,
            last: self.last,
        })
    }

    /// Whether the two are the same.
    pub fn same(&self, other: &Edge) -> bool
        ensures { IsTrue result ↔ (self.now ≡ other.now) }
    {
        self.choice.same(&other.choice) && self.taken == other.taken && self.last == other.last
    }
}
