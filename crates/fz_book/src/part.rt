//! Open parts.
ghost use Rattle.std.specs.Prelude.{◌≡◌, MatchOption, IfSome, true};
ghost use Rattle.std.specs.List.{list_all};
ghost use Rattle.fz_tree.specs.Book.{IsAt, PrefersClaimed, is_claimed};
ghost use Rattle.fz_book.specs.Places.{IsNowhere, HasNoClaimed, IsClaimedAt, IsUnclaimedAt};

use fz_region::Frontier;
use std::marker::Model;

/// An open frontier, and whether somebody has claimed it.
#[derive(Drop)]
pub struct OpenPart {
    pub frontier: Frontier,
    pub claimed: bool,
}

impl Model for OpenPart {
    ghost use Rattle.fz_tree.specs.Book.{Part};

    ghost Value = { Part };

    ghost view = { λ p. record { frontier = p.frontier; claimed = p.claimed } };
}

/// The place of the first part that nobody has claimed.
pub fn unclaimed_place(parts: &[OpenPart]) -> Option<usize>
    ensures { MatchOption result (list_all is_claimed parts.now ≡ true) (IsUnclaimedAt parts.now) }
{
    for (i, part) in parts.iter().enumerate() {
        if !part.claimed {
            return Some(i);
        }
    }
    None
}

/// The place of a part that is this frontier. It looks among the claimed ones first, since what workers hold is claimed.
pub fn place_of(parts: &[OpenPart], frontier: &Frontier) -> Option<usize>
    ensures place { MatchOption result (IsNowhere parts.now frontier.now)
        (IsAt parts.now frontier.now) }
    ensures prefers { IfSome result (PrefersClaimed parts.now frontier.now) }
{
    if let Some(i) = claimed_place(parts, frontier) {
        return Some(i);
    }
    let Some(i) = any_place(parts, frontier) else {
        return None;
    };
    Some(i)
}

fn claimed_place(parts: &[OpenPart], frontier: &Frontier) -> Option<usize>
    ensures { MatchOption result (HasNoClaimed parts.now frontier.now)
        (IsClaimedAt parts.now frontier.now) }
{
    for (i, part) in parts.iter().enumerate() {
        if part.claimed && part.frontier.same(frontier) {
            return Some(i);
        }
    }
    None
}

fn any_place(parts: &[OpenPart], frontier: &Frontier) -> Option<usize>
    ensures { MatchOption result (IsNowhere parts.now frontier.now) (IsAt parts.now frontier.now) }
{
    for (i, part) in parts.iter().enumerate() {
        if part.frontier.same(frontier) {
            return Some(i);
        }
    }
    None
}
