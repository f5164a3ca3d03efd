//! Frontiers.
ghost use Rattle.std.specs.Prelude.{◌≡◌, ◌≤◌, ◌<◌, ◌++◌, ◌∷◌, [], ◌↔◌, true, false, cond, is_some, length, IfOk, IfSome, IfNone, OnOk, OnErr, OnSome, IsTrue};
ghost use Rattle.std.specs.Bool.{OnTrue, OnFalse};
ghost use Rattle.std.specs.List.{list_any};
ghost use Rattle.fz_tree.specs.Choice.{IsChoice};
ghost use Rattle.fz_tree.specs.Frontier.{AreEdges, In, is_in, is_below, times_in, can_cut, has_rest, closed, branched, moved, part_of, rest_of, node_below, AreParts, cut_edge, kept_edge};

use crate::choice::Choice;
use crate::edge::Edge;
use crate::edges::Edges;
use fz_model::assignment::Assignment;
use std::alloc::{AllocError, Global};
use std::marker::Model;

/// The open part of a search tree: edges from the root down, and whether the place below them is open.
#[derive(Drop)]
pub struct Frontier {
    edges: Edges,
    current_open: bool,
}

impl Model for Frontier {
    ghost use Rattle.fz_tree.specs.Frontier as frontier;

    ghost Value = { frontier.Frontier };

    ghost view = { λ f. record { edges = f.edges; current_open = f.current_open } };

    ghost invariant = { λ f. frontier.AreEdges f.edges };
}

impl Frontier {
    /// The whole tree. It takes no memory.
    pub fn root(alloc: Global) -> Frontier
        ensures { result ≡ record { edges = []; current_open = true } }
    {
        Frontier {
            edges: Edges::new(alloc),
            current_open: true,
        }
    }

    /// The edges, from the root down.
    pub fn edges(&self) -> &Edges
        ensures edges { result.now ≡ self.now.edges }
        ensures kept { AreEdges self.now.edges }
    {
        &self.edges
    }

    /// The allocator that it was made with.
    pub fn allocator(&self) -> Global
        ensures { AreEdges self.now.edges }
    {
        self.edges.allocator()
    }

    /// Whether the place below the edges is open.
    pub fn is_current_open(&self) -> bool
        ensures open_below { result ≡ self.now.current_open }
        ensures kept { AreEdges self.now.edges }
    {
        self.current_open
    }

    /// Whether some edge has an open alternative after the taken one.
    pub fn can_cut(&self) -> bool
        ensures { result ≡ can_cut self.now }
    {
        self.edges.has_rest()
    }

    /// Whether anything is open.
    pub fn has_rest(&self) -> bool
        ensures { result ≡ has_rest self.now }
    {
        self.current_open || self.can_cut()
    }

    /// Adds an edge below the others. The place below it is open where the place below the others was.
    ///
    /// # Errors
    /// `AllocError` where there is no memory; the frontier is as before.
    pub fn push(&mut self, choice: Choice, taken: u32, last: u32) -> Result<(), AllocError>
        requires order { taken ≤ last }
        requires below { last < length choice }
        ensures ok { OnOk result (self.new ≡ record {
          edges = self.old.edges ++ record { choice = choice; taken = taken; last = last } ∷ [];
          current_open = self.old.current_open;
        }) }
        ensures err { OnErr result (self.new ≡ self.old) }
    {
        let _ = choice.len();
        self.edges.push(Edge {
            choice,
            taken,
            last,
        })?;
        Ok(())
    }

    /// The place below, which is open, is done.
    pub fn close(&mut self)
        ensures { self.new ≡ closed self.old }
    {
        self.current_open = false;
    }

    /// Moves to the deepest open alternative after a taken one, and drops the edges below it. It says whether there was one;
    /// where there was none, the frontier is as before.
    pub fn advance(&mut self) -> bool
        ensures moved { OnTrue result (self.new ≡ moved self.old) }
        ensures some { result ≡ can_cut self.old }
        ensures none { OnFalse result (self.new ≡ self.old) }
    {
        if !self.edges.take_next() {
            return false;
        }
        self.current_open = true;
        true
    }

    /// What a cut takes: the edges above the topmost one that has open alternatives after the taken one, and at that one the
    /// last half of them, rounded up. `None` exactly where there is no such edge.
    ///
    /// # Errors
    /// `AllocError` where there is no memory.
    pub fn part(&self) -> Result<Option<Frontier>, AllocError>
        ensures part { IfOk result (λ o. IfSome o (λ f. f ≡ part_of self.now)) }
        ensures some { IfOk result (λ o. is_some o ≡ can_cut self.now) }
    {
        let Some(edges) = self.edges.cut()? else {
            return Ok(None);
        };
        Ok(Some(Frontier {
            edges,
            current_open: true,
        }))
    }

    /// Leaves out what a cut takes. It takes no memory.
    pub fn drop_part(&mut self)
        requires { can_cut self.old ≡ true }
        ensures { self.new ≡ rest_of self.old }
    {
        self.edges.drop_cut();
    }

    /// Cuts a part off and hands it out. `None` exactly where no edge has open alternatives after the taken one; the frontier is
    /// then as before.
    ///
    /// # Errors
    /// `AllocError` where there is no memory; the frontier is as before.
    pub fn cut_last(&mut self) -> Result<Option<Frontier>, AllocError>
        ensures part { IfOk result (λ o. IfSome o (λ f. f ≡ part_of self.old)) }
        ensures rest { IfOk result (λ o. OnSome o (self.new ≡ rest_of self.old)) }
        ensures parts { IfOk result (λ o. IfSome o (λ f. AreParts self.old f self.new)) }
        ensures some { IfOk result (λ o. is_some o ≡ can_cut self.old) }
        ensures none { IfOk result (λ o. IfNone o (self.new ≡ self.old)) }
        ensures err { OnErr result (self.new ≡ self.old) }
    {
        let _ = &self.edges;
        let Some(part) = self.part()? else {
            return Ok(None);
        };
        self.drop_part();
        Ok(Some(part))
    }

    /// The node below the taken alternatives alone: a frontier of its own, on whose edges nothing else is open.
    ///
    /// # Errors
    /// `AllocError` where there is no memory.
    pub fn node(&self) -> Result<Frontier, AllocError>
        ensures { IfOk result (λ f. f ≡ node_below self.now) }
    {
        let _ = self.allocator();
        let edges = self.edges.settled()?;
        Ok(Frontier {
            edges,
            current_open: true,
        })
    }

    /// Whether an assignment is in the frontier: it meets all taken decisions and the place below is open, or for one edge it meets
    /// the taken decisions above it and one of its open alternatives after the taken one.
    pub fn contains(&self, assignment: &Assignment) -> bool
        ensures inside { IsTrue result ↔ In self.now assignment.now }
        ensures once { times_in self.now assignment.now ≡ cond result 1 0 }
    {
        is_inside(&self.edges, self.current_open, assignment.values())
    }

    /// Whether the two are the same.
    pub fn same(&self, other: &Frontier) -> bool
        ensures { IsTrue result ↔ (self.now ≡ other.now) }
    {
        self.current_open == other.current_open && self.edges.same(&other.edges)
    }

    /// Another frontier that is the same.
    ///
    /// # Errors
    /// `AllocError` where there is no memory.
    pub fn copy(&self) -> Result<Frontier, AllocError>
        ensures copy { IfOk result (λ f. f ≡ self.now) }
        ensures kept { AreEdges self.now.edges }
    {
        let edges = self.edges.copy()?;
        Ok(Frontier {
            edges,
            current_open: self.current_open,
        })
    }
}

/// Whether the numbers are in an open place of the edges, or in the one below them if it is open.
fn is_inside(edges: &Edges, current_open: bool, numbers: &[i32]) -> bool
    requires { AreEdges edges.now }
    ensures { result ≡ is_below edges.now current_open numbers.now }
{
    for i in 0..edges.len() {
        let edge = edges.edge(i);
        if edge.other_is_met_by(numbers) {
            return true;
        }
        if !edge.taken_is_met_by(numbers) {
            return false;
        }
    }
    current_open
}
