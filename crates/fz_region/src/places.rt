//! Where a path has open alternatives.
ghost use Rattle.std.specs.Prelude.{◌≡◌, MatchOption, false};
ghost use Rattle.std.specs.List.{list_any};
ghost use Rattle.fz_tree.specs.Frontier.{edge_has_rest};
ghost use Rattle.fz_region.specs.Places.{IsTopmost, IsDeepest};

use crate::edge::Edge;

/// The place of the topmost edge that has an open alternative after the taken one.
pub fn topmost(edges: &[Edge]) -> Option<usize>
    ensures { MatchOption result (list_any edge_has_rest edges.now ≡ false) (IsTopmost edges.now) }
{
    for (i, edge) in edges.iter().enumerate() {
        if edge.has_rest() {
            return Some(i);
        }
    }
    None
}

/// The place of the deepest edge that has an open alternative after the taken one.
pub fn deepest(edges: &[Edge]) -> Option<usize>
    ensures { MatchOption result (list_any edge_has_rest edges.now ≡ false) (IsDeepest edges.now) }
{
    for i in (0..edges.len()).rev() {
        if edges[i].has_rest() {
            return Some(i);
        }
    }
    None
}
