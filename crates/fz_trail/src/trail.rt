//! The spaces beside a path.
ghost use Rattle.std.specs.Prelude.{◌≡◌, ◌⊎◌, ◌↔◌, ◌≤◌, ◌<◌, ◌+◌, ◌-◌, max, ◌++◌, ◌∷◌, [], ℕ, ℤ, List, length, take, false, IsTrue, Option, Some, None, IfNone, is_some, option_map, MatchOption, IfOk, IfSome, IsSomeAnd, OnOk, OnErr};
ghost use Rattle.std.specs.List.{AllByRecursion, slice_range};
ghost use Rattle.std.specs.Arc.{arc_value};
ghost use Rattle.std.specs.Vec.{vec_len, vec_capacity};
ghost use Rattle.fz_spec.specs.Instance.{Instance};
ghost use Rattle.fz_tree.specs.declared.decision.Decision.{Decision};
ghost use Rattle.fz_tree.specs.Frontier as frontier;
ghost use Rattle.fz_tree.specs.Frontier.{AreEdges, next_edges};
ghost use Rattle.fz_search_space.specs.Spaces.{Covers};
ghost use Rattle.fz_trail.specs.Nodes.{IsAt, AreDecidedAlike, decisions_of};
ghost use Rattle.fz_trail.specs.Places.{IsNear, AreLeftDownTo, IsOneMore, IsUsedUp, HasUsedCopy, IsClose, gap_at, IsLeastMissed, HasRoom, HasOneMore, IsWayLong, IsOneBetween, IsDueBetween, AreBehind, half_down, nearest_node, last_of, spacing, IsDue, commits_for, depths_of, deepest_to, AreBelow, IsLastAbove};
ghost use Rattle.fz_trail.specs.Trails.{IsTrail, IsKept, AreKept};
ghost use Rattle.fz_trail.specs.declared.kept.TheConstants.{COPIES_MOST};

use crate::kept::{CLOSE, COPIES_MOST, Kept};
use crate::steps::Steps;
use fz_region::Edges;
use fz_search_space::SearchSpace;
use std::alloc::{AllocError, Global};
use std::sync::Arc;
use std::sync::ledger::Ledger;

/// The space of the root, which paths beside each other share, copies of spaces at nodes of the path, and the space of the node above its last edge, if that is at hand.
/// Spaces that are done with are written over.
#[derive(Drop)]
pub struct Trail<S> {
    pub root: Arc<S>,
    pub copies: Vec<Kept<S>>,
    pub current: Option<S>,
    pub spare: Vec<S>,
    pub distance: u32,
    pub adaptive: u32,
    /// Copies above this node may be missing.
    pub sparse: usize,
    /// The most edges that the path has had since it was begun.
    pub longest: usize,
    /// The node that the path came back to last.
    pub back: Option<usize>,
}

impl<S: SearchSpace> Trail<S> {
    /// The root's space alone.
    pub fn new(alloc: Global, root: Arc<S>, distance: u32, adaptive: u32) -> Trail<S>
        requires { (1 ≤ distance) × (1 ≤ adaptive) }
        ensures distances { (result.distance ≡ distance) × (result.adaptive ≡ adaptive) }
        ensures begun { (result.copies.items ≡ []) × (result.current ≡ None)
            × (result.sparse ≡ 0) }
        ensures longest { result.longest ≡ 0 }
        ensures trail { (m : Instance) (known : Option (List ℤ))
            → IsAt m known [] (S.spaced (arc_value root))
            → IsTrail S.spaced m known [] result }
    {
        Trail {
            root,
            copies: Vec::new(alloc),
            current: None,
            spare: Vec::new(alloc),
            distance,
            adaptive,
            sparse: 0,
            longest: 0,
            back: None,
        }
    }

    /// The spaces beside another path of which nothing is begun: the root's alone, which is shared.
    ///
    /// # Errors
    /// `AllocError` where there is no memory.
    pub fn alone(&self) -> Result<Trail<S>, AllocError>
        requires { (1 ≤ self.now.distance) × (1 ≤ self.now.adaptive) }
        ensures distances { IfOk result (λ t. (t.distance ≡ self.now.distance)
            × (t.adaptive ≡ self.now.adaptive)) }
        ensures begun { IfOk result (λ t. (t.copies.items ≡ []) × (t.current ≡ None)
            × (t.sparse ≡ 0)) }
        ensures longest { IfOk result (λ t. t.longest ≡ 0) }
        ensures trail { IfOk result (λ t. (m : Instance) (known : Option (List ℤ))
            (es : List frontier.Edge) → IsTrail S.spaced m known es self.now
            → IsTrail S.spaced m known [] t) }
    {
        let root = self.root.clone()?;
        let alloc = *self.copies.allocator();
        Ok(Trail::new(alloc, root, self.distance, self.adaptive))
    }

    /// Forgets all but the root. The path that is begun has that many edges.
    pub fn clear(&mut self, edges: usize)
        ensures distances { (self.new.distance ≡ self.old.distance)
            × (self.new.adaptive ≡ self.old.adaptive) }
        ensures begun { (self.new.copies.items ≡ []) × (self.new.current ≡ None)
            × (self.new.sparse ≡ edges) }
        ensures longest { self.new.longest ≡ edges }
        ensures back { self.new.back ≡ None }
        ensures trail { (m : Instance) (known : Option (List ℤ))
            (es fs : List frontier.Edge) → IsTrail S.spaced m known es self.old
            → edges ≡ length fs → IsTrail S.spaced m known fs self.new }
    {
        self.copies.clear();
        self.current = None;
        self.sparse = edges;
        self.longest = edges;
        self.back = None;
    }

    /// Room for one copy.
    ///
    /// # Errors
    /// `AllocError` where there is no memory.
    pub fn room(&self) -> Result<Vec<Kept<S>>, AllocError>
        ensures { IfOk result (λ v. (v.items ≡ []) × (1 ≤ vec_capacity v)) }
    {
        Vec::with_capacity(*self.copies.allocator(), 1)
    }

    /// Forgets all but the root and a space of a node of the path that is begun, which has that many edges.
    pub fn begin_near(&mut self, room: Vec<Kept<S>>, edges: usize, kept: Kept<S>)
        requires room { (room.items ≡ []) × (1 ≤ vec_capacity room) }
        ensures distances { (self.new.distance ≡ self.old.distance)
            × (self.new.adaptive ≡ self.old.adaptive) }
        ensures copies { self.new.copies.items ≡ kept ∷ [] }
        ensures begun { (self.new.current ≡ None) × (self.new.sparse ≡ edges) }
        ensures longest { self.new.longest ≡ edges }
        ensures back { self.new.back ≡ Some edges }
        ensures trail { (m : Instance) (known : Option (List ℤ))
            (es fs : List frontier.Edge) → IsTrail S.spaced m known es self.old
            → edges ≡ length fs → IsKept S.spaced m known fs kept
            → IsTrail S.spaced m known fs self.new }
    {
        let mut copies = room;
        copies.push_reserved(kept);
        self.copies = copies;
        self.current = None;
        self.sparse = edges;
        self.longest = edges;
        self.back = Some(edges);
    }

    /// A copy of the nearest copy that stands at a node or above it. None where none does.
    ///
    /// # Errors
    /// `AllocError` where there is no memory.
    pub fn copy_above(&self, node: usize) -> Result<Option<Kept<S>>, AllocError>
        requires { (m : Instance) × (known : Option (List ℤ)) × (es : List frontier.Edge)
            × IsTrail S.spaced m known es self.now }
        ensures depth { IfOk result (λ o. option_map (λ (k : Kept S). k.depth) o
            ≡ deepest_to (depths_of self.now.copies.items) node) }
        ensures space { IfOk result (λ o. IfSome o (λ k. (m : Instance)
            (known : Option (List ℤ)) (es : List frontier.Edge)
            → IsTrail S.spaced m known es self.now → IsKept S.spaced m known es k)) }
    {
        let Some(i) = self.place_above(node) else {
            return Ok(None);
        };
        let kept = &self.copies[i];
        let space = kept.space.copy()?;
        Ok(Some(Kept {
            depth: kept.depth,
            space,
        }))
    }

    /// How many edges are above the nearest copy that stands at a node or above it. None where none does.
    pub fn depth_above(&self, node: u64) -> Option<u64>
        requires { (m : Instance) × (known : Option (List ℤ)) × (es : List frontier.Edge)
            × IsTrail S.spaced m known es self.now }
        ensures { result ≡ deepest_to (depths_of self.now.copies.items) node }
    {
        match self.place_above(node as usize) {
            Some(i) => Some(self.copies[i].depth as u64),
            None => None,
        }
    }

    /// The place of the nearest copy that stands at a node or above it.
    fn place_above(&self, node: usize) -> Option<usize>
        ensures { MatchOption result (AreBelow self.now.copies.items node)
            (IsLastAbove self.now.copies.items node) }
    {
        for i in (0..self.copies.len()).rev() {
            if self.copies[i].depth <= node {
                return Some(i);
            }
        }
        None
    }

    /// The path has moved to these edges: what isn't above them goes.
    pub fn retreat(&mut self, edges: &Edges)
        ensures distances { (self.new.distance ≡ self.old.distance)
            × (self.new.adaptive ≡ self.old.adaptive) }
        ensures sparse { self.new.sparse ≡ self.old.sparse }
        ensures longest { self.new.longest ≡ self.old.longest }
        ensures left { AreLeftDownTo
            (length edges.now - 1) self.old.copies.items self.new.copies.items }
        ensures above { (m : Instance) (known : Option (List ℤ)) (es : List frontier.Edge)
            → IsTrail S.spaced m known es self.old → AllByRecursion
            (λ (k : Kept S). k.depth ≤ length edges.now - 1) self.new.copies.items }
        ensures current { self.new.current ≡ None }
        ensures back { self.new.back ≡ Some (length edges.now) }
        ensures trail { (m : Instance) (known : Option (List ℤ)) (es : List frontier.Edge)
            → edges.now ≡ next_edges es
            → IsTrail S.spaced m known es self.old → IsTrail S.spaced m known edges.now self.new }
    {
        drop_current(&mut self.current, &mut self.spare);
        let depth = count_above(edges);
        drop_below(&mut self.copies, &mut self.spare, depth);
        self.back = Some(edges.len());
    }

    /// The path is back at a node with that many edges above it, and no copy below it stands any more. Nothing is known of how near
    /// copies are above it.
    pub fn come_back(&mut self, edges: usize)
        ensures distances { (self.new.distance ≡ self.old.distance)
            × (self.new.adaptive ≡ self.old.adaptive) }
        ensures trail { (m : Instance) (known : Option (List ℤ)) (es fs : List frontier.Edge)
            → edges ≡ length es → AreDecidedAlike es fs
            → IsTrail S.spaced m known fs self.old → IsTrail S.spaced m known es self.new }
    {
        drop_current(&mut self.current, &mut self.spare);
        drop_below(&mut self.copies, &mut self.spare, edges);
        self.sparse = edges;
        self.longest = self.longest.max(edges);
    }

    /// The space of the node below the edges. A tick is a commit.
    ///
    /// # Errors
    /// `AllocError` where there is no memory.
    pub fn take_at<L: Ledger>(
        &mut self,
        edges: &Edges,
        steps: &mut Steps<L>,
    ) -> Result<S, AllocError>
        requires edges { AreEdges edges.now }
        requires trail { (m : Instance) × (known : Option (List ℤ))
            × IsTrail S.spaced m known edges.now self.old }
        ensures distances { (self.new.distance ≡ self.old.distance)
            × (self.new.adaptive ≡ self.old.adaptive) }
        ensures sparse { self.new.sparse ≡ self.old.sparse }
        ensures longest { self.new.longest ≡ self.old.longest }
        ensures back { self.new.back ≡ self.old.back }
        ensures copies { AreBehind
            self.old.adaptive edges.now self.old.copies.items self.new.copies.items }
        ensures due { OnOk result (self.old.current ≡ None → IsDueBetween self.old.adaptive
            (nearest_node self.old.copies.items) (length edges.now)
            self.old.copies.items self.new.copies.items) }
        ensures space { IfOk result (λ s. (m : Instance) (known : Option (List ℤ))
            → IsTrail S.spaced m known edges.now self.old
            → IsAt m known edges.now (S.spaced s)) }
        ensures kept { (m : Instance) (known : Option (List ℤ))
            → IsTrail S.spaced m known edges.now self.old
            → IsTrail S.spaced m known edges.now self.new }
        ensures current { self.new.current ≡ None }
        ensures count { steps.new ≤ steps.old + commits_for
            (is_some self.old.current) (nearest_node self.old.copies.items) (length edges.now) }
        ensures exact { OnOk result (steps.new ≡ steps.old + commits_for
            (is_some self.old.current) (nearest_node self.old.copies.items) (length edges.now)) }
    {
        if let Some(space) = self.current.take() {
            return came_down(space, edges, steps);
        }
        self.remade(edges, steps)
    }

    /// The space of a node, made anew from the nearest copy by the decisions after it.
    fn remade<L: Ledger>(&mut self, edges: &Edges, steps: &mut Steps<L>) -> Result<S, AllocError>
        requires edges { AreEdges edges.now }
        requires trail { (m : Instance) × (known : Option (List ℤ))
            × IsTrail S.spaced m known edges.now self.old }
        ensures distances { (self.new.distance ≡ self.old.distance)
            × (self.new.adaptive ≡ self.old.adaptive) }
        ensures sparse { self.new.sparse ≡ self.old.sparse }
        ensures longest { self.new.longest ≡ self.old.longest }
        ensures back { self.new.back ≡ self.old.back }
        ensures current { self.new.current ≡ self.old.current }
        ensures copies { AreBehind
            self.old.adaptive edges.now self.old.copies.items self.new.copies.items }
        ensures due { OnOk result (IsDueBetween self.old.adaptive
            (nearest_node self.old.copies.items) (length edges.now)
            self.old.copies.items self.new.copies.items) }
        ensures space { IfOk result (λ s. (m : Instance) (known : Option (List ℤ))
            → IsTrail S.spaced m known edges.now self.old
            → IsAt m known edges.now (S.spaced s)) }
        ensures kept { (m : Instance) (known : Option (List ℤ))
            → IsTrail S.spaced m known edges.now self.old
            → IsTrail S.spaced m known edges.now self.new }
        ensures count { steps.new ≤ steps.old
            + (length edges.now - nearest_node self.old.copies.items) }
        ensures exact { OnOk result (steps.new ≡ steps.old
            + (length edges.now - nearest_node self.old.copies.items)) }
    {
        let kept = self.near(edges, steps)?;
        let mut space = kept.space;
        commit_all(&mut space, edges, kept.depth, edges.len(), steps)?;
        Ok(space)
    }

    /// A space above the node below the edges: the nearest one, brought half of the way down where that is long.
    fn near<L: Ledger>(
        &mut self,
        edges: &Edges,
        steps: &mut Steps<L>,
    ) -> Result<Kept<S>, AllocError>
        requires edges { AreEdges edges.now }
        requires trail { (m : Instance) × (known : Option (List ℤ))
            × IsTrail S.spaced m known edges.now self.old }
        ensures distances { (self.new.distance ≡ self.old.distance)
            × (self.new.adaptive ≡ self.old.adaptive) }
        ensures sparse { self.new.sparse ≡ self.old.sparse }
        ensures longest { self.new.longest ≡ self.old.longest }
        ensures back { self.new.back ≡ self.old.back }
        ensures current { self.new.current ≡ self.old.current }
        ensures copies { AreBehind
            self.old.adaptive edges.now self.old.copies.items self.new.copies.items }
        ensures due { OnOk result (IsDueBetween self.old.adaptive
            (nearest_node self.old.copies.items) (length edges.now)
            self.old.copies.items self.new.copies.items) }
        ensures below { IfOk result (λ k. k.depth ≤ length edges.now) }
        ensures space { IfOk result (λ k. (m : Instance) (known : Option (List ℤ))
            → IsTrail S.spaced m known edges.now self.old
            → IsKept S.spaced m known edges.now k) }
        ensures kept { (m : Instance) (known : Option (List ℤ))
            → IsTrail S.spaced m known edges.now self.old
            → IsTrail S.spaced m known edges.now self.new }
        ensures count { steps.new ≤ steps.old
            + (length edges.now - nearest_node self.old.copies.items) }
        ensures exact { IfOk result (λ k. steps.new + (length edges.now - k.depth)
            ≡ steps.old + (length edges.now - nearest_node self.old.copies.items)) }
    {
        let kept = self.nearest(edges)?;
        self.brought_down(edges, kept, steps)
    }

    /// Brings a space half of the way down to the node below the edges, and keeps a copy of it there, where the way is long.
    fn brought_down<L: Ledger>(
        &mut self,
        edges: &Edges,
        kept: Kept<S>,
        steps: &mut Steps<L>,
    ) -> Result<Kept<S>, AllocError>
        requires edges { AreEdges edges.now }
        requires above { kept.depth ≤ length edges.now }
        ensures distances { (self.new.distance ≡ self.old.distance)
            × (self.new.adaptive ≡ self.old.adaptive) }
        ensures sparse { self.new.sparse ≡ self.old.sparse }
        ensures longest { self.new.longest ≡ self.old.longest }
        ensures back { self.new.back ≡ self.old.back }
        ensures current { self.new.current ≡ self.old.current }
        ensures copies { (self.new.copies.items ≡ self.old.copies.items)
            ⊎ IsOneBetween self.old.adaptive kept.depth (length edges.now)
            self.old.copies.items self.new.copies.items }
        ensures due { OnOk result (IsDueBetween self.old.adaptive kept.depth
            (length edges.now) self.old.copies.items self.new.copies.items) }
        ensures below { IfOk result (λ k. k.depth ≤ length edges.now) }
        ensures space { IfOk result (λ k. (m : Instance) (known : Option (List ℤ))
            → IsKept S.spaced m known edges.now kept
            → IsKept S.spaced m known edges.now k) }
        ensures kept { (m : Instance) (known : Option (List ℤ))
            → IsKept S.spaced m known edges.now kept
            → IfSome (last_of self.old.copies.items) (λ k. k.depth ≤ kept.depth)
            → IsTrail S.spaced m known edges.now self.old
            → IsTrail S.spaced m known edges.now self.new }
        ensures count { steps.new ≤ steps.old + (length edges.now - kept.depth) }
        ensures exact { IfOk result (λ k. steps.new + (length edges.now - k.depth)
            ≡ steps.old + (length edges.now - kept.depth)) }
    {
        if !self.is_way_long(kept.depth, edges) {
            return Ok(kept);
        }
        self.go_halfway(edges, kept, steps)
    }

    /// Whether the way from a node down to the one below the edges has a middle and is as long as the adaptive distance, and there
    /// is room for a copy.
    fn is_way_long(&self, from: usize, edges: &Edges) -> bool
        requires { from ≤ length edges.now }
        ensures { IsTrue result
            ↔ IsWayLong self.now.adaptive from (length edges.now) self.now.copies.items }
    {
        let count = edges.len() - from;
        count >= 2 && count >= self.adaptive as usize && self.copies.len() < COPIES_MOST
    }

    /// Brings a space half of a long way down, and keeps a copy of it there.
    fn go_halfway<L: Ledger>(
        &mut self,
        edges: &Edges,
        kept: Kept<S>,
        steps: &mut Steps<L>,
    ) -> Result<Kept<S>, AllocError>
        requires edges { AreEdges edges.now }
        requires long { IsWayLong
            self.old.adaptive kept.depth (length edges.now) self.old.copies.items }
        ensures distances { (self.new.distance ≡ self.old.distance)
            × (self.new.adaptive ≡ self.old.adaptive) }
        ensures sparse { self.new.sparse ≡ self.old.sparse }
        ensures longest { self.new.longest ≡ self.old.longest }
        ensures back { self.new.back ≡ self.old.back }
        ensures current { self.new.current ≡ self.old.current }
        ensures copies { (self.new.copies.items ≡ self.old.copies.items)
            ⊎ IsOneBetween self.old.adaptive kept.depth (length edges.now)
            self.old.copies.items self.new.copies.items }
        ensures due { OnOk result (IsOneBetween self.old.adaptive kept.depth
            (length edges.now) self.old.copies.items self.new.copies.items) }
        ensures below { IfOk result (λ k. k.depth ≤ length edges.now) }
        ensures space { IfOk result (λ k. (m : Instance) (known : Option (List ℤ))
            → IsKept S.spaced m known edges.now kept
            → IsKept S.spaced m known edges.now k) }
        ensures kept { (m : Instance) (known : Option (List ℤ))
            → IsKept S.spaced m known edges.now kept
            → IfSome (last_of self.old.copies.items) (λ k. k.depth ≤ kept.depth)
            → IsTrail S.spaced m known edges.now self.old
            → IsTrail S.spaced m known edges.now self.new }
        ensures count { steps.new ≤ steps.old + (length edges.now - kept.depth) }
        ensures exact { IfOk result (λ k. steps.new + (length edges.now - k.depth)
            ≡ steps.old + (length edges.now - kept.depth)) }
    {
        let depth = half_way(edges, kept.depth);
        let space = brought_to(edges, kept, depth, steps)?;
        self.put(depth, &space)?;
        Ok(Kept { depth, space })
    }

    /// Puts a copy of the space at the node below that many edges after the others.
    fn put(&mut self, depth: usize, space: &S) -> Result<(), AllocError>
        ensures distances { (self.new.distance ≡ self.old.distance)
            × (self.new.adaptive ≡ self.old.adaptive) }
        ensures copies { OnOk result (IsOneMore
            S.spaced depth space.now self.old.copies.items self.new.copies.items) }
        ensures none { OnErr result (self.new.copies.items ≡ self.old.copies.items) }
        ensures rest { (self.new.root ≡ self.old.root) × (self.new.current ≡ self.old.current)
            × (self.new.sparse ≡ self.old.sparse) }
        ensures longest { self.new.longest ≡ self.old.longest }
        ensures back { self.new.back ≡ self.old.back }
    {
        let space = copied(&mut self.spare, space)?;
        self.copies.push(Kept { depth, space })?;
        Ok(())
    }

    /// A space above the node below the edges: the nearest copy, or what was one.
    fn nearest(&mut self, edges: &Edges) -> Result<Kept<S>, AllocError>
        ensures distances { (self.new.distance ≡ self.old.distance)
            × (self.new.adaptive ≡ self.old.adaptive) }
        ensures sparse { self.new.sparse ≡ self.old.sparse }
        ensures longest { self.new.longest ≡ self.old.longest }
        ensures back { self.new.back ≡ self.old.back }
        ensures current { self.new.current ≡ self.old.current }
        ensures copies { (self.new.copies.items ≡ self.old.copies.items)
            ⊎ IsUsedUp edges.now self.old.copies.items self.new.copies.items }
        ensures nearest { IfOk result (λ k. k.depth ≡ nearest_node self.old.copies.items) }
        ensures space { IfOk result (λ k. (m : Instance) (known : Option (List ℤ))
            → IsTrail S.spaced m known edges.now self.old
            → IsKept S.spaced m known edges.now k) }
        ensures kept { (m : Instance) (known : Option (List ℤ))
            → IsTrail S.spaced m known edges.now self.old
            → IsTrail S.spaced m known edges.now self.new }
    {
        match self.used_copy(edges) {
            Some(kept) => Ok(kept),
            None => self.copy_of_nearest(),
        }
    }

    /// The nearest copy itself, where no other node is remade from it.
    fn used_copy(&mut self, edges: &Edges) -> Option<Kept<S>>
        ensures distances { (self.new.distance ≡ self.old.distance)
            × (self.new.adaptive ≡ self.old.adaptive) }
        ensures sparse { self.new.sparse ≡ self.old.sparse }
        ensures longest { self.new.longest ≡ self.old.longest }
        ensures back { self.new.back ≡ self.old.back }
        ensures current { self.new.current ≡ self.old.current }
        ensures copies { (self.new.copies.items ≡ self.old.copies.items)
            ⊎ IsUsedUp edges.now self.old.copies.items self.new.copies.items }
        ensures nearest { IfSome result (λ k. k.depth ≡ nearest_node self.old.copies.items) }
        ensures none { IfNone result (self.new.copies.items ≡ self.old.copies.items) }
        ensures used { IsTrue (is_some result) ↔ HasUsedCopy edges.now self.old.copies.items }
        ensures space { IfSome result (λ k. (m : Instance) (known : Option (List ℤ))
            → IsTrail S.spaced m known edges.now self.old
            → IsKept S.spaced m known edges.now k) }
        ensures kept { (m : Instance) (known : Option (List ℤ))
            → IsTrail S.spaced m known edges.now self.old
            → IsTrail S.spaced m known edges.now self.new }
    {
        if !self.has_used_copy(edges) {
            return None;
        }
        self.copies.pop()
    }

    /// A copy of the nearest copy, or of the root's space.
    fn copy_of_nearest(&mut self) -> Result<Kept<S>, AllocError>
        ensures distances { (self.new.distance ≡ self.old.distance)
            × (self.new.adaptive ≡ self.old.adaptive) }
        ensures sparse { self.new.sparse ≡ self.old.sparse }
        ensures longest { self.new.longest ≡ self.old.longest }
        ensures back { self.new.back ≡ self.old.back }
        ensures current { self.new.current ≡ self.old.current }
        ensures copies { self.new.copies.items ≡ self.old.copies.items }
        ensures nearest { IfOk result (λ k. k.depth ≡ nearest_node self.old.copies.items) }
        ensures space { IfOk result (λ k. (m : Instance) (known : Option (List ℤ))
            (es : List frontier.Edge)
            → IsTrail S.spaced m known es self.old → IsKept S.spaced m known es k) }
        ensures kept { (m : Instance) (known : Option (List ℤ)) (es : List frontier.Edge)
            → IsTrail S.spaced m known es self.old → IsTrail S.spaced m known es self.new }
    {
        match self.copies.last() {
            Some(kept) => copy_of(&mut self.spare, kept.depth, &kept.space),
            None => copy_of(&mut self.spare, 0, &self.root),
        }
    }

    /// Whether the nearest copy stands at the last edge, which takes its last alternative: no other node is remade from it.
    fn has_used_copy(&self, edges: &Edges) -> bool
        ensures { IsTrue result ↔ HasUsedCopy edges.now self.now.copies.items }
    {
        match (self.copies.last(), edges.last()) {
            (Some(kept), Some(edge)) => kept.depth == edges.len() - 1 && !edge.has_rest(),
            _ => false,
        }
    }

    /// Keeps a copy of the space at the node below that many edges, where one is due: where none is as near above it as copies are made
    /// apart, and where the path came back to it or close above it and none stands there.
    ///
    /// # Errors
    /// `AllocError` where there is no memory.
    pub fn keep(&mut self, depth: usize, space: &S) -> Result<(), AllocError>
        ensures distances { (self.new.distance ≡ self.old.distance)
            × (self.new.adaptive ≡ self.old.adaptive) }
        ensures sparse { self.new.sparse ≡ self.old.sparse }
        ensures longest { self.new.longest ≡ self.old.longest }
        ensures copies { HasRoom self.old.copies.items self.new.copies.items
            ⊎ HasOneMore S.spaced depth space.now self.old.copies.items self.new.copies.items }
        ensures due { OnOk result (IsDue self.old.back self.old.distance
            self.old.copies.items depth → HasOneMore
            S.spaced depth space.now self.old.copies.items self.new.copies.items) }
        ensures undue { (IsDue self.old.back self.old.distance
            self.old.copies.items depth → ⊥)
            → HasRoom self.old.copies.items self.new.copies.items }
        ensures near { OnOk result ((m : Instance) (known : Option (List ℤ))
            (es : List frontier.Edge) → depth ≡ length es → IsTrail S.spaced m known es self.old
            → IsNear (spacing self.new.distance depth) self.new.copies.items depth) }
        ensures none { OnErr result (HasRoom self.old.copies.items self.new.copies.items) }
        ensures trail { (m : Instance) (known : Option (List ℤ)) (es : List frontier.Edge)
            → depth ≡ length es
            → IsAt m known es (S.spaced space.now) → IsTrail S.spaced m known es self.old
            → IsTrail S.spaced m known es self.new }
    {
        self.make_room();
        if !self.is_due(depth) {
            return Ok(());
        }
        self.put(depth, space)?;
        Ok(())
    }

    /// Where as many copies stand as may, the one goes that is missed least.
    fn make_room(&mut self)
        ensures distances { (self.new.distance ≡ self.old.distance)
            × (self.new.adaptive ≡ self.old.adaptive) }
        ensures sparse { self.new.sparse ≡ self.old.sparse }
        ensures longest { self.new.longest ≡ self.old.longest }
        ensures copies { HasRoom self.old.copies.items self.new.copies.items }
        ensures back { self.new.back ≡ self.old.back }
        ensures room { length self.old.copies.items ≤ COPIES_MOST
            → length self.new.copies.items < COPIES_MOST }
        ensures trail { (m : Instance) (known : Option (List ℤ)) (es : List frontier.Edge)
            → IsTrail S.spaced m known es self.old → IsTrail S.spaced m known es self.new }
    {
        if self.copies.len() < COPIES_MOST {
            return;
        }
        let place = least_missed(&self.copies);
        let kept = self.copies.remove(place);
        let _ = self.spare.push(kept.space);
    }

    /// Whether a copy is due at the node below that many edges.
    fn is_due(&self, depth: usize) -> bool
        ensures due { IsTrue result
            ↔ IsDue self.now.back self.now.distance self.now.copies.items depth }
        ensures near { result ≡ false → 1 ≤ self.now.distance
            → IsSomeAnd (last_of self.now.copies.items)
            (λ kept. depth < kept.depth + spacing self.now.distance depth) }
    {
        match self.copies.last() {
            Some(kept) => {
                kept.depth < depth
                    && (self.is_close(depth) || depth - kept.depth >= self.spacing(depth))
            }
            None => true,
        }
    }

    /// How far apart copies are made on the way down to the node below that many edges.
    fn spacing(&self, depth: usize) -> usize
        ensures { result ≡ spacing self.now.distance depth }
    {
        (depth / COPIES_MOST).max(self.distance as usize)
    }

    /// Whether the path came back to the node below that many edges, or to one close above it.
    fn is_close(&self, depth: usize) -> bool
        ensures { IsTrue result ↔ IsClose self.now.back depth }
    {
        match self.back {
            Some(node) => node <= depth && depth - node < CLOSE,
            None => false,
        }
    }

    /// The path goes on below one edge more, and has that many then. This is the space above the last one.
    pub fn descend(&mut self, edges: usize, space: S)
        ensures distances { (self.new.distance ≡ self.old.distance)
            × (self.new.adaptive ≡ self.old.adaptive) }
        ensures sparse { self.new.sparse ≡ self.old.sparse }
        ensures longest { self.new.longest ≡ max self.old.longest edges }
        ensures copies { self.new.copies.items ≡ self.old.copies.items }
        ensures current { self.new.current ≡ Some space }
        ensures trail { (m : Instance) (known : Option (List ℤ))
            (es : List frontier.Edge) (e : frontier.Edge)
            → length (es ++ e ∷ []) ≤ edges
            → IsAt m known es (S.spaced space)
            → IsNear (spacing self.old.distance (length es)) self.old.copies.items (length es)
            → IsTrail S.spaced m known es self.old
            → IsTrail S.spaced m known (es ++ e ∷ []) self.new }
    {
        self.longest = self.longest.max(edges);
        self.current = Some(space);
    }

    /// A space that is done with.
    pub fn release(&mut self, space: S)
        ensures distances { (self.new.distance ≡ self.old.distance)
            × (self.new.adaptive ≡ self.old.adaptive) }
        ensures sparse { self.new.sparse ≡ self.old.sparse }
        ensures longest { self.new.longest ≡ self.old.longest }
        ensures copies { self.new.copies.items ≡ self.old.copies.items }
        ensures current { self.new.current ≡ self.old.current }
        ensures spare { (self.new.spare.items ≡ self.old.spare.items)
            ⊎ (self.new.spare.items ≡ self.old.spare.items ++ space ∷ []) }
        ensures room { vec_len self.old.spare < vec_capacity self.old.spare
            → self.new.spare.items ≡ self.old.spare.items ++ space ∷ [] }
        ensures trail { (m : Instance) (known : Option (List ℤ)) (es : List frontier.Edge)
            → IsTrail S.spaced m known es self.old
            → IsTrail S.spaced m known es self.new }
    {
        let _ = self.spare.push(space);
    }
}

/// The node half of the way from a node down to the one below the edges.
fn half_way(edges: &Edges, from: usize) -> usize
    requires { from ≤ length edges.now }
    ensures { result ≡ half_down from (length edges.now) }
{
    from + (edges.len() - from) / 2
}

/// How many edges are above the last one.
fn count_above(edges: &Edges) -> usize
    ensures { result ≡ length edges.now - 1 }
{
    edges.len().saturating_sub(1)
}

/// The space at hand is done with.
fn drop_current<S: SearchSpace>(current: &mut Option<S>, spare: &mut Vec<S>)
    ensures { current.new ≡ None }
{
    if let Some(space) = current.take() {
        let _ = spare.push(space);
    }
}

/// Drops the copies below a depth.
fn drop_below<S: SearchSpace>(copies: &mut Vec<Kept<S>>, spare: &mut Vec<S>, depth: usize)
    ensures left { AreLeftDownTo depth copies.old.items copies.new.items }
    ensures above { (m : Instance) (known : Option (List ℤ)) (es : List frontier.Edge)
        → AreKept S.spaced m known es 0 copies.old.items
        → AllByRecursion (λ (k : Kept S). k.depth ≤ depth) copies.new.items }
{
    'copies: while is_below(copies, depth) {
        if let Some(kept) = copies.pop() {
            let _ = spare.push(kept.space);
        }
    }
}

/// The place of the copy that is missed least: no other has neighbours that stand nearer to each other.
fn least_missed<S>(copies: &[Kept<S>]) -> usize
    requires { 3 ≤ length copies.now }
    ensures { IsLeastMissed copies.now result }
{
    let mut least = 1;
    'places: for place in 2..copies.len() - 1 {
        if gap_at(copies, place) < gap_at(copies, least) {
            least = place;
        }
    }
    least
}

/// How far apart the neighbours of the copy at a place stand.
fn gap_at<S>(copies: &[Kept<S>], place: usize) -> usize
    requires { (1 ≤ place) × (place + 1 < length copies.now) }
    ensures { result ≡ gap_at copies.now place }
{
    copies[place + 1]
        .depth
        .saturating_sub(copies[place - 1].depth)
}

/// Whether the last copy is below a depth.
fn is_below<S: SearchSpace>(copies: &[Kept<S>], depth: usize) -> bool
    ensures below { IsTrue result
        → IsSomeAnd (last_of copies.now) (λ kept. depth < kept.depth) }
    ensures above { result ≡ false → IfSome (last_of copies.now) (λ kept. kept.depth ≤ depth) }
{
    match copies.last() {
        Some(kept) => kept.depth > depth,
        None => false,
    }
}

/// Another space that is the same, in place of one that is done with, if there is one.
fn copied<S: SearchSpace>(spare: &mut Vec<S>, space: &S) -> Result<S, AllocError>
    ensures { IfOk result (λ s. S.spaced s ≡ S.spaced space.now) }
{
    match spare.pop() {
        Some(mut other) => {
            other.copy_from(space)?;
            Ok(other)
        }
        None => space.copy(),
    }
}

/// A copy of a space, kept below that many edges.
fn copy_of<S: SearchSpace>(
    spare: &mut Vec<S>,
    depth: usize,
    space: &S,
) -> Result<Kept<S>, AllocError>
    ensures depth { IfOk result (λ k. k.depth ≡ depth) }
    ensures space { IfOk result (λ k. S.spaced k.space ≡ S.spaced space.now) }
{
    let space = copied(spare, space)?;
    Ok(Kept { depth, space })
}

/// The space of a node brought down to another by the decisions between, as far as propagation takes it there.
fn brought_to<S: SearchSpace, L: Ledger>(
    edges: &Edges,
    kept: Kept<S>,
    depth: usize,
    steps: &mut Steps<L>,
) -> Result<S, AllocError>
    requires edges { AreEdges edges.now }
    requires below { (kept.depth ≤ depth) × (depth ≤ length edges.now) }
    ensures space { IfOk result (λ s. (m : Instance) (known : Option (List ℤ))
        → IsKept S.spaced m known edges.now kept
        → IsAt m known (take depth edges.now) (S.spaced s)) }
    ensures count { steps.new ≤ steps.old + (depth - kept.depth) }
    ensures exact { OnOk result (steps.new ≡ steps.old + (depth - kept.depth)) }
{
    let mut space = kept.space;
    commit_all(&mut space, edges, kept.depth, depth, steps)?;
    space.status()?;
    Ok(space)
}

/// The space of the node above the last edge brought down that edge.
fn came_down<S: SearchSpace, L: Ledger>(
    space: S,
    edges: &Edges,
    steps: &mut Steps<L>,
) -> Result<S, AllocError>
    requires edges { AreEdges edges.now }
    ensures space { IfOk result (λ s. (m : Instance) (known : Option (List ℤ))
        → IsAt m known (take (length edges.now - 1) edges.now) (S.spaced space)
        → IsAt m known edges.now (S.spaced s)) }
    ensures count { steps.new ≤ steps.old + (length edges.now - (length edges.now - 1)) }
    ensures exact { OnOk result
        (steps.new ≡ steps.old + (length edges.now - (length edges.now - 1))) }
{
    let mut space = space;
    commit_all(&mut space, edges, count_above(edges), edges.len(), steps)?;
    Ok(space)
}

/// Takes the decisions of the edges from one place up to another, one after the other.
fn commit_all<S: SearchSpace, L: Ledger>(
    space: &mut S,
    edges: &Edges,
    from: usize,
    to: usize,
    steps: &mut Steps<L>,
) -> Result<(), AllocError>
    requires edges { AreEdges edges.now }
    requires places { (from ≤ to) × (to ≤ length edges.now) }
    ensures count { steps.new ≤ steps.old + (to - from) }
    ensures exact { OnOk result (steps.new ≡ steps.old + (to - from)) }
    ensures model { (S.spaced space.new).model ≡ (S.spaced space.old).model }
    ensures covers { OnOk result ((known : Option (List ℤ)) (ds : List Decision)
        → Covers known ds (S.spaced space.old)
        → Covers known (ds ++ decisions_of (slice_range edges.now from to)) (S.spaced space.new)) }
{
    'places: for place in from..to {
        let edge = edges.edge(place);
        steps.tick();
        space.commit(&edge.choice, edge.taken)?;
    }
    Ok(())
}
