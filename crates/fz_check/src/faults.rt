//! The first of faults.
ghost use Rattle.std.specs.Prelude.{◌≡◌, ◌++◌, List, ℕ, Some, [], MatchResult, slice_get};
ghost use Rattle.fz_language.specs.Rules as rules;
ghost use Rattle.fz_language.specs.Rules.{Counts, at_places, over, all_counted, additions};
ghost use Rattle.fz_language.specs.declared.fault.RuleFault.TheVariants.{OverLimit};
ghost use Rattle.fz_syntax.specs.Trees.{item_of};
ghost use Rattle.fz_syntax.specs.Rooms.{IsRoom};
ghost use Rattle.fz_check.specs.Checked.{IsFirstOf, IsFirstFault};

use fz_language::fault::RuleFault;
use fz_resolve::Fault;
use fz_syntax::{Item, Room};

/// The first of two places that there is.
pub(crate) fn first_place(first: Option<u32>, second: Option<u32>) -> Option<u32>
    ensures { (xs ys : List ℕ) → first ≡ slice_get xs 0 → second ≡ slice_get ys 0
        → result ≡ slice_get (xs ++ ys) 0 }
{
    match first {
        Some(at) => Some(at),
        None => second,
    }
}

/// The first of two faults that there is.
pub(crate) fn or_else(first: Option<Fault>, second: Option<Fault>) -> Option<Fault>
    ensures { (xs ys : List rules.Fault) → IsFirstOf xs first → IsFirstOf ys second
        → IsFirstOf (xs ++ ys) result }
{
    match first {
        Some(fault) => Some(fault),
        None => second,
    }
}

/// The first of faults, or else one that comes after them.
pub(crate) fn or_this(first: Option<Fault>, second: Fault) -> Fault
    ensures { (xs ys : List rules.Fault) → IsFirstOf xs first → IsFirstFault ys second
        → IsFirstFault (xs ++ ys) result }
{
    match first {
        Some(fault) => fault,
        None => second,
    }
}

/// The room after an item, or the first rule that it breaks: that of `fault`, and the limits last.
pub(crate) fn room_behind(fault: Option<Fault>, room: Room, item: &Item<'_>) -> Result<Room, Fault>
    ensures { (faults : List rules.Fault) (n : Counts) → IsFirstOf faults fault → IsRoom room n
        → MatchResult result
        (λ left. (faults ≡ []) × (over n (additions (item_of item.now)) ≡ [])
        × IsRoom left (all_counted n (additions (item_of item.now))))
        (IsFirstFault (faults ++ at_places OverLimit (over n (additions (item_of item.now))))) }
{
    match fault {
        Some(fault) => Err(fault),
        None => room_left(room, item),
    }
}

/// The room after an item that breaks no other rule, or the limit that it goes over.
fn room_left(room: Room, item: &Item<'_>) -> Result<Room, Fault>
    ensures { (n : Counts) → IsRoom room n → MatchResult result
        (λ left. (over n (additions (item_of item.now)) ≡ [])
        × IsRoom left (all_counted n (additions (item_of item.now))))
        (IsFirstFault (at_places OverLimit (over n (additions (item_of item.now))))) }
{
    match room.behind(item) {
        Ok(left) => Ok(left),
        Err(at) => Err(Fault {
            rule: RuleFault::OverLimit,
            at,
        }),
    }
}
