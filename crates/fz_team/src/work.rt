//! The loop of a worker.
ghost use Rattle.std.specs.Prelude.{length};
ghost use Rattle.fz_team.specs.Members.{IsMember};

use crate::crew::Crew;
use crate::event::{Next, first, gain, learn, report, start, step};
use crate::member::Member;
use crate::rest::Rest;
use fz_collect::Subject;
use fz_io::gate::Gate;
use fz_search_space::SearchSpace;
use std::alloc::AllocError;
use std::sync::Wait;
use std::sync::atomic::Ordering;

/// Acts until workers are to stop.
pub fn work<R: Wait, S: SearchSpace, G: Gate, T: Subject>(
    rt: &R,
    crew: &Crew<S, G, T>,
    mut member: Member<S>,
) -> Member<S>
    requires { IsMember T.model crew.now.bound.now (length crew.now.paths.now) member }
    ensures { IsMember T.model crew.now.bound.now (length crew.now.paths.now) result }
{
    let mut rest = Rest::new();
    let mut next = first(rt, crew, member.worker, member.heard);
    for _ in rt.forever() {
        if crew.stop.load(Ordering::SeqCst) || crew.outbox.is_stopped() {
            break;
        }
        match turn(rt, crew, &mut member, next, &mut rest) {
            Ok(after) => next = after,
            Err(_) => {
                member.short = true;
                crew.stop.store(true, Ordering::SeqCst);
            }
        }
    }
    member
}

/// One turn: a report, a step, a start, a claim or a theft; or a rest, while much waits to be printed.
fn turn<R: Wait, S: SearchSpace, G: Gate, T: Subject>(
    rt: &R,
    crew: &Crew<S, G, T>,
    member: &mut Member<S>,
    next: Next,
    rest: &mut Rest,
) -> Result<Next, AllocError>
    requires { IsMember T.model crew.now.bound.now (length crew.now.paths.now) member.old }
    ensures { IsMember T.model crew.now.bound.now (length crew.now.paths.now) member.new }
{
    if crew.outbox.is_full() {
        rest.wait(rt);
        return Ok(next);
    }
    match next {
        Next::Report => report(rt, crew, member),
        Next::Step => {
            learn(rt, crew, member)?;
            step(rt, crew, member)
        }
        Next::Gain => {
            if member.hand.is_some() {
                return start(rt, crew, member);
            }
            if gain(rt, crew, member)? {
                rest.reset();
            } else {
                rest.wait(rt);
            }
            Ok(Next::Gain)
        }
    }
}
