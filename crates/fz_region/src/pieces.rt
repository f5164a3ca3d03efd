//! Pieces of a list of edges, as long as each other.
ghost use Rattle.std.specs.Prelude.{◌≡◌, ◌<◌, ◌≤◌, ◌+◌, ◌*◌, ◌/◌, ◌%◌, ◌++◌, ◌↔◌, IsTrue, List, length, map, slice_index_or, IfOk, OnOk, OnErr};
ghost use Rattle.std.specs.List.{flat_map};
ghost use Rattle.std.specs.Vec.{vec_len, vec_capacity};
ghost use Rattle.std.specs.Arc.{arc_slice_items};
ghost use Rattle.fz_tree.specs.Frontier as frontier;
ghost use Rattle.fz_region.specs.Pieces.{joined, AreWhole, ArePieces};
ghost use Rattle.fz_region.specs.declared.pieces.TheConstants.{PIECE};

use crate::edge::Edge;
use crate::tail::{copies_of, same_edges};
use std::alloc::{AllocError, Global};
use std::sync::ArcSlice;

/// How many edges a piece has.
pub const PIECE: usize = 256;

/// The most pieces of a list, so that its edges can be counted.
pub const PIECES_MOST: usize = 1 << 40;

/// The edge at a place.
pub fn edge_at(pieces: &[ArcSlice<Edge>], place: usize) -> &Edge
    requires whole { AreWhole arc_slice_items pieces.now }
    requires within { place < length pieces.now * PIECE }
    ensures { (tail : List frontier.Edge)
        → result.now ≡ slice_index_or (joined arc_slice_items pieces.now tail) place result.now }
{
    let piece = &pieces[place / PIECE];
    let edges = piece.as_slice();
    &edges[place % PIECE]
}

/// Makes pieces of the first edges of a tail, of as many as are settled.
///
/// # Errors
/// `AllocError` where there is no memory; the list is as before.
pub fn share(
    pieces: &mut Vec<ArcSlice<Edge>>,
    tail: &mut Vec<Edge>,
    settled: usize,
) -> Result<(), AllocError>
    requires { ArePieces arc_slice_items pieces.old.items tail.old.items settled }
    ensures joined { joined arc_slice_items pieces.new.items tail.new.items
        ≡ joined arc_slice_items pieces.old.items tail.old.items }
    ensures kept { OnOk result
        (ArePieces arc_slice_items pieces.new.items tail.new.items (settled % PIECE)) }
    ensures err { OnErr result
        ((pieces.new.items ≡ pieces.old.items) × (tail.new.items ≡ tail.old.items)) }
{
    let count = settled / PIECE;
    if pieces.len() + count > PIECES_MOST {
        return Err(AllocError);
    }
    let mut more = pieces_of(*tail.allocator(), &tail[..count * PIECE])?;
    pieces.reserve(count)?;
    let below = tail.split_off(count * PIECE)?;
    add(pieces, &mut more);
    *tail = below;
    Ok(())
}

/// Adds pieces, for which there is room.
fn add(pieces: &mut Vec<ArcSlice<Edge>>, more: &mut Vec<ArcSlice<Edge>>)
    requires { vec_len pieces.old + vec_len more.old ≤ vec_capacity pieces.old }
    ensures { pieces.new.items ≡ pieces.old.items ++ more.old.items }
{
    let _ = pieces.append(more);
}

/// Edges in pieces, of which they fill each.
fn pieces_of(alloc: Global, edges: &[Edge]) -> Result<Vec<ArcSlice<Edge>>, AllocError>
    requires { length edges.now % PIECE ≡ 0 }
    ensures all { IfOk result (λ v. flat_map arc_slice_items v.items ≡ edges.now) }
    ensures whole { IfOk result (λ v. AreWhole arc_slice_items v.items) }
    ensures count { IfOk result (λ v. vec_len v ≡ length edges.now / PIECE) }
{
    let count = edges.len() / PIECE;
    let mut pieces = Vec::with_capacity(alloc, count)?;
    for i in 0..count {
        let copies = copies_of(alloc, &edges[i * PIECE..(i + 1) * PIECE], 0)?;
        pieces.push(ArcSlice::from_vec(copies)?)?;
    }
    Ok(pieces)
}

/// Whether as many pieces are the same, place by place.
pub fn same_pieces(these: &[ArcSlice<Edge>], those: &[ArcSlice<Edge>]) -> bool
    requires { length these.now ≡ length those.now }
    ensures { IsTrue result ↔ (map arc_slice_items these.now ≡ map arc_slice_items those.now) }
{
    for i in 0..these.len() {
        let this = &these[i];
        let that = &those[i];
        if !same_edges(this.as_slice(), that.as_slice()) {
            return false;
        }
    }
    true
}
