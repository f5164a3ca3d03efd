//! Which variable is picked.
ghost use Rattle.std.specs.Prelude.{◌≡◌, ◌≤◌, MatchOption, length, true};
ghost use Rattle.fz_branch.specs.Values.{is_open};
ghost use Rattle.fz_branch.specs.Picks.{AreClosed, IsPassed, IsDone, IsFirstOpen, IsPicked, rank, domain_at};

use crate::value::is_open;
use fz_dom::Dom;
use fz_spec::search::Pick;

/// The place in a part of the variable that is picked, where no variable before `closed`, and none at a place before `start`, has more
/// than one value left.
pub fn picked(
    pick: Pick,
    variables: &[u32],
    doms: &[Dom],
    closed: usize,
    start: usize,
) -> Option<usize>
    requires closed { AreClosed closed doms.now }
    requires start { start ≤ length variables.now }
    requires passed { IsPassed start doms.now variables.now }
    ensures { MatchOption result (IsDone doms.now variables.now)
        (IsPicked pick doms.now variables.now) }
{
    let Some(first) = first_open(variables, doms, closed, start) else {
        return None;
    };
    if pick == Pick::InputOrder {
        return Some(first);
    }
    Some(least_ranked(pick, variables, doms, first))
}

/// The place of the first variable that has more than one value left.
fn first_open(variables: &[u32], doms: &[Dom], closed: usize, start: usize) -> Option<usize>
    requires closed { AreClosed closed doms.now }
    requires start { start ≤ length variables.now }
    requires passed { IsPassed start doms.now variables.now }
    ensures { MatchOption result (IsDone doms.now variables.now)
        (IsFirstOpen doms.now variables.now) }
{
    for place in start..variables.len() {
        let variable = variables[place];
        if variable as usize >= closed && is_open_at(variable, doms) {
            return Some(place);
        }
    }
    None
}

/// The place of the variable of the least rank, from the first one that has more than one value left.
fn least_ranked(pick: Pick, variables: &[u32], doms: &[Dom], first: usize) -> usize
    requires { IsFirstOpen doms.now variables.now first }
    ensures { IsPicked pick doms.now variables.now result }
{
    let mut best = first;
    let mut least = rank_at(pick, variables[first], doms);
    for place in first + 1..variables.len() {
        if is_open_at(variables[place], doms) {
            let rank = rank_at(pick, variables[place], doms);
            if rank < least {
                best = place;
                least = rank;
            }
        }
    }
    best
}

/// Whether a variable has more than one value left.
fn is_open_at(variable: u32, doms: &[Dom]) -> bool
    ensures { result ≡ is_open (domain_at doms.now variable) }
{
    match doms.get(variable as usize) {
        Some(dom) => is_open(dom),
        None => false,
    }
}

/// The rank of a variable that has more than one value left.
fn rank_at(pick: Pick, variable: u32, doms: &[Dom]) -> i64
    requires { is_open (domain_at doms.now variable) ≡ true }
    ensures { result ≡ rank pick (domain_at doms.now variable) }
{
    let dom = &doms[variable as usize];
    match pick {
        Pick::InputOrder => 0,
        Pick::FirstFail => dom.size() as i64,
        Pick::AntiFirstFail => -(dom.size() as i64),
        Pick::Smallest => i64::from(dom.min()),
        Pick::Largest => -i64::from(dom.max()),
    }
}
