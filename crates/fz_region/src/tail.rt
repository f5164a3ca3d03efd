//! The end of a list of edges, where the open alternatives are.
ghost use Rattle.std.specs.Prelude.{◌≡◌, ◌+◌, ◌^◌, ◌≤◌, ◌↔◌, is_some, length, map, IsTrue, IfOk, IfSome};
ghost use Rattle.std.specs.Bool.{OnTrue, OnFalse};
ghost use Rattle.std.specs.List.{list_any};
ghost use Rattle.fz_tree.specs.Frontier.{edge_has_rest, next_edges, settled_edge, cut_part, cut_rest};
ghost use Rattle.fz_region.specs.Pieces.{AreSettledTo};

use crate::edge::Edge;
use crate::places::{deepest, topmost};
use std::alloc::{AllocError, Global};

/// How many of the first edges are settled, where that many are.
pub fn settled_from(tail: &[Edge], from: usize) -> usize
    requires { AreSettledTo from tail.now }
    ensures { AreSettledTo result tail.now }
{
    for i in from..tail.len() {
        if tail[i].has_rest() {
            return i;
        }
    }
    tail.len()
}

/// Takes the next alternative at the deepest edge that has an open one, and drops the edges below it, where there is one.
pub fn take_next_in(tail: &mut Vec<Edge>) -> bool
    ensures moved { OnTrue result (tail.new.items ≡ next_edges tail.old.items) }
    ensures some { result ≡ list_any edge_has_rest tail.old.items }
    ensures none { OnFalse result (tail.new.items ≡ tail.old.items) }
{
    let Some(i) = deepest(tail) else {
        return false;
    };
    tail[i].take_next();
    tail.truncate(i + 1);
    true
}

/// What a cut takes, where some edge has an open alternative after the taken one.
///
/// # Errors
/// `AllocError` where there is no memory.
pub fn cut_part_of(alloc: Global, tail: &[Edge]) -> Result<Option<Vec<Edge>>, AllocError>
    ensures part { IfOk result (λ o. IfSome o (λ v. v.items ≡ cut_part tail.now)) }
    ensures some { IfOk result (λ o. is_some o ≡ list_any edge_has_rest tail.now) }
{
    let Some(i) = topmost(tail) else {
        return Ok(None);
    };
    let below = tail[i].cut()?;
    let mut part = copies_of(alloc, &tail[..i], 1)?;
    part.push(below)?;
    Ok(Some(part))
}

/// Leaves out what a cut takes.
pub fn drop_cut_in(tail: &mut Vec<Edge>)
    ensures { tail.new.items ≡ cut_rest tail.old.items }
{
    if let Some(i) = topmost(tail) {
        tail[i].drop_cut();
    }
}

/// The same edges once more, with room for some more.
///
/// # Errors
/// `AllocError` where there is no memory.
pub fn copies_of(alloc: Global, edges: &[Edge], room: usize) -> Result<Vec<Edge>, AllocError>
    requires { length edges.now + room ≤ 2 ^ 63 }
    ensures { IfOk result (λ v. v.items ≡ edges.now) }
{
    let mut copies = Vec::with_capacity(alloc, edges.len() + room)?;
    for edge in edges {
        copies.push(edge.copy()?)?;
    }
    Ok(copies)
}

/// The same edges, with nothing open on any of them.
///
/// # Errors
/// `AllocError` where there is no memory.
pub fn settled_of(alloc: Global, edges: &[Edge]) -> Result<Vec<Edge>, AllocError>
    ensures { IfOk result (λ v. v.items ≡ map settled_edge edges.now) }
{
    let mut settled = Vec::with_capacity(alloc, edges.len())?;
    for edge in edges {
        settled.push(edge.settled()?)?;
    }
    Ok(settled)
}

/// Whether the two are the same.
pub fn same_edges(these: &[Edge], those: &[Edge]) -> bool
    ensures { IsTrue result ↔ (these.now ≡ those.now) }
{
    if these.len() != those.len() {
        return false;
    }
    for (i, this) in these.iter().enumerate() {
        if !this.same(&those[i]) {
            return false;
        }
    }
    true
}
