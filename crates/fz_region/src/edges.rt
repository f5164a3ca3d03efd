//! Lists of edges.
ghost use Rattle.std.specs.Prelude.{◌≡◌, ◌<◌, ◌-◌, ◌++◌, ◌∷◌, [], ◌↔◌, false, is_some, IsTrue, length, map, slice_index_or, option_copied, MatchOption, IfOk, IfSome, OnOk, OnErr};
ghost use Rattle.std.specs.Bool.{OnTrue, OnFalse};
ghost use Rattle.std.specs.List.{slice_get, list_any};
ghost use Rattle.fz_tree.specs.Frontier.{AreEdges, edge_has_rest, next_edges, settled_edge, cut_part, cut_rest};
ghost use Rattle.fz_region.specs.Places.{IsTopmost};

use crate::edge::Edge;
use crate::pieces::{PIECE, edge_at, same_pieces, share};
use crate::places::{deepest, topmost};
use crate::tail::{
    copies_of, cut_part_of, drop_cut_in, same_edges, settled_from, settled_of, take_next_in,
};
use std::alloc::{AllocError, Global};
use std::marker::Model;
use std::sync::ArcSlice;

/// A list of edges. Those above the topmost one with an open alternative after the taken one are settled: nothing changes them any
/// more. They stand in pieces, which copies share, but for the last few hundred; all others stand in the tail.
#[derive(Drop)]
pub struct Edges {
    pieces: Vec<ArcSlice<Edge>>,
    tail: Vec<Edge>,
    /// That many of the tail's first edges are known to be settled.
    settled: usize,
}

impl Model for Edges {
    ghost use Rattle.std.specs.Prelude.{List};
    ghost use Rattle.std.specs.Arc.{arc_slice_items};
    ghost use Rattle.fz_tree.specs.Frontier as frontier;
    ghost use Rattle.fz_region.specs.Pieces.{joined, ArePieces};

    ghost Value = { List frontier.Edge };

    ghost view = { λ e. joined arc_slice_items e.pieces.items e.tail.items };

    ghost invariant = { λ e. ArePieces arc_slice_items e.pieces.items e.tail.items e.settled };
}

impl Edges {
    /// None. It takes no memory.
    pub fn new(alloc: Global) -> Edges
        ensures { result ≡ [] }
    {
        Edges {
            pieces: Vec::new(alloc),
            tail: Vec::new(alloc),
            settled: 0,
        }
    }

    /// The allocator that it was made with.
    pub fn allocator(&self) -> Global {
        *self.tail.allocator()
    }

    /// How many there are.
    pub fn len(&self) -> usize
        ensures { result ≡ length self.now }
    {
        self.pieces.len() * PIECE + self.tail.len()
    }

    /// The edge at a place, from 0.
    pub fn edge(&self, place: usize) -> &Edge
        requires { place < length self.now }
        ensures { result.now ≡ slice_index_or self.now place result.now }
    {
        let shared = self.pieces.len() * PIECE;
        if place < shared {
            return edge_at(&self.pieces, place);
        }
        &self.tail[place - shared]
    }

    /// The lowest edge.
    pub fn last(&self) -> Option<&Edge>
        ensures { option_copied result ≡ slice_get self.now (length self.now - 1) }
    {
        let len = self.len();
        if len == 0 {
            return None;
        }
        let edge = self.edge(len - 1);
        Some(edge)
    }

    /// Whether some edge has an open alternative after the taken one.
    pub fn has_rest(&self) -> bool
        ensures { result ≡ list_any edge_has_rest self.now }
    {
        deepest(&self.tail).is_some()
    }

    /// The place of the topmost edge that has an open alternative after the taken one.
    pub fn topmost(&self) -> Option<usize>
        ensures { MatchOption result (list_any edge_has_rest self.now ≡ false) (IsTopmost self.now) }
    {
        match topmost(&self.tail) {
            Some(place) => Some(self.pieces.len() * PIECE + place),
            None => None,
        }
    }

    /// Adds an edge below the others.
    ///
    /// # Errors
    /// `AllocError` where there is no memory; the list is as before.
    pub fn push(&mut self, edge: Edge) -> Result<(), AllocError>
        ensures ok { OnOk result (self.new ≡ self.old ++ edge ∷ []) }
        ensures err { OnErr result (self.new ≡ self.old) }
    {
        self.settled = settled_from(&self.tail, self.settled);
        if self.settled >= PIECE {
            share(&mut self.pieces, &mut self.tail, self.settled)?;
            self.settled %= PIECE;
        }
        self.tail.push(edge)?;
        Ok(())
    }

    /// Takes the next alternative at the deepest edge that has an open one, and drops the edges below it. It says whether there was
    /// one; where there was none, the list is as before. It takes no memory.
    pub fn take_next(&mut self) -> bool
        ensures moved { OnTrue result (self.new ≡ next_edges self.old) }
        ensures some { result ≡ list_any edge_has_rest self.old }
        ensures none { OnFalse result (self.new ≡ self.old) }
    {
        take_next_in(&mut self.tail)
    }

    /// The edges of the part that a cut takes: those above the topmost one that has open alternatives after the taken one, and of that
    /// one what a cut takes there. `None` exactly where there is no such edge.
    ///
    /// # Errors
    /// `AllocError` where there is no memory.
    pub fn cut(&self) -> Result<Option<Edges>, AllocError>
        ensures part { IfOk result (λ o. IfSome o (λ es. es ≡ cut_part self.now)) }
        ensures some { IfOk result (λ o. is_some o ≡ list_any edge_has_rest self.now) }
    {
        let Some(tail) = cut_part_of(self.allocator(), &self.tail)? else {
            return Ok(None);
        };
        let pieces = Vec::from_clones(self.allocator(), &self.pieces)?;
        Ok(Some(Edges {
            pieces,
            tail,
            settled: self.settled,
        }))
    }

    /// Leaves out what a cut takes. It takes no memory.
    pub fn drop_cut(&mut self)
        ensures { self.new ≡ cut_rest self.old }
    {
        drop_cut_in(&mut self.tail);
    }

    /// The same list once more.
    ///
    /// # Errors
    /// `AllocError` where there is no memory.
    pub fn copy(&self) -> Result<Edges, AllocError>
        ensures { IfOk result (λ es. es ≡ self.now) }
    {
        let pieces = Vec::from_clones(self.allocator(), &self.pieces)?;
        let tail = copies_of(self.allocator(), &self.tail, 0)?;
        Ok(Edges {
            pieces,
            tail,
            settled: self.settled,
        })
    }

    /// The same edges, with nothing open on any of them.
    ///
    /// # Errors
    /// `AllocError` where there is no memory.
    pub fn settled(&self) -> Result<Edges, AllocError>
        requires { AreEdges self.now }
        ensures { IfOk result (λ es. es ≡ map settled_edge self.now) }
    {
        let pieces = Vec::from_clones(self.allocator(), &self.pieces)?;
        let tail = settled_of(self.allocator(), &self.tail)?;
        let settled = tail.len();
        Ok(Edges {
            pieces,
            tail,
            settled,
        })
    }

    /// Whether the two are the same.
    pub fn same(&self, other: &Edges) -> bool
        ensures { IsTrue result ↔ (self.now ≡ other.now) }
    {
        if self.pieces.len() != other.pieces.len() {
            return self.same_each(other);
        }
        same_edges(&self.tail, &other.tail) && same_pieces(&self.pieces, &other.pieces)
    }

    /// Whether the two are the same, which stand in more pieces or in less.
    fn same_each(&self, other: &Edges) -> bool
        ensures { IsTrue result ↔ (self.now ≡ other.now) }
    {
        if self.len() != other.len() {
            return false;
        }
        for i in 0..self.len() {
            if !self.edge(i).same(other.edge(i)) {
                return false;
            }
        }
        true
    }
}
