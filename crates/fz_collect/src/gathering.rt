//! Taking in what several workers tell.
ghost use Rattle.std.specs.Prelude.{◌≡◌, IsTrue};
ghost use Rattle.fz_collect.specs.NewsOf.{IsNewsOf};

use crate::collect::{Collect, News};
use crate::outbox::{Outbox, Told};
use crate::subject::Subject;
use std::alloc::Global;
use std::sync::Wait;

/// Has a collector take in what workers tell, until they have ended and all is taken in, or it has enough. Then the workers are to
/// stop.
pub fn gather<R: Wait, K, T: Subject, C: Collect<K>>(
    rt: &R,
    alloc: Global,
    outbox: &Outbox<T>,
    collector: &mut C,
    lent: &mut K,
)
    requires works { C.works collector.old lent.old }
    requires subject { (C.model collector.old ≡ T.model) × (C.mode collector.old ≡ T.mode) }
    ensures { C.grew collector.old lent.old collector.new lent.new }
{
    if !collector.has_enough() {
        outbox.open();
        take_turns(rt, alloc, outbox, collector, lent);
    }
    outbox.stop();
}

/// Takes in what is told, turn by turn.
fn take_turns<R: Wait, K, T: Subject, C: Collect<K>>(
    rt: &R,
    alloc: Global,
    outbox: &Outbox<T>,
    collector: &mut C,
    lent: &mut K,
)
    requires works { C.works collector.old lent.old }
    requires more { C.enough collector.old → ⊥ }
    requires subject { (C.model collector.old ≡ T.model) × (C.mode collector.old ≡ T.mode) }
    ensures { C.grew collector.old lent.old collector.new lent.new }
{
    'turns: for _ in rt.forever() {
        if !turn(rt, alloc, outbox, collector, lent) {
            return;
        }
    }
    unreachable!()
}

/// Takes in what is told, and rests where that is nothing. Workers are asked for what they found where that is due, and after each
/// rest. It says whether more may come.
fn turn<R: Wait, K, T: Subject, C: Collect<K>>(
    rt: &R,
    alloc: Global,
    outbox: &Outbox<T>,
    collector: &mut C,
    lent: &mut K,
) -> bool
    requires works { C.works collector.old lent.old }
    requires more { C.enough collector.old → ⊥ }
    requires subject { (C.model collector.old ≡ T.model) × (C.mode collector.old ≡ T.mode) }
    ensures grew { C.grew collector.old lent.old collector.new lent.new }
    ensures works { IsTrue result → C.works collector.new lent.new }
    ensures more { IsTrue result → C.enough collector.new → ⊥ }
{
    let has_ended = outbox.has_ended();
    let told = outbox.take(rt, alloc);
    let is_idle = told.is_empty();
    if collector.is_due(lent) {
        outbox.ask();
    }
    take_all(alloc, collector, lent, told) && rest(rt, outbox, is_idle, has_ended)
}

/// Rests where nothing was told. It says whether more may come.
fn rest<R: Wait, T: Subject>(rt: &R, outbox: &Outbox<T>, is_idle: bool, has_ended: bool) -> bool {
    if !is_idle {
        return true;
    }
    if has_ended {
        return false;
    }
    outbox.rest(rt);
    outbox.ask();
    true
}

/// Has the collector take in what was told, and look up after it. It says whether it takes in more.
fn take_all<K, T: Subject, C: Collect<K>>(
    alloc: Global,
    collector: &mut C,
    lent: &mut K,
    told: Vec<Told<T>>,
) -> bool
    requires works { C.works collector.old lent.old }
    requires more { C.enough collector.old → ⊥ }
    requires subject { (C.model collector.old ≡ T.model) × (C.mode collector.old ≡ T.mode) }
    ensures grew { C.grew collector.old lent.old collector.new lent.new }
    ensures works { IsTrue result → C.works collector.new lent.new }
    ensures more { IsTrue result → C.enough collector.new → ⊥ }
{
    'each: for one in told {
        collector.take_in(alloc, lent, news_of(one));
        if collector.has_enough() {
            return false;
        }
    }
    collector.look_up(lent);
    !collector.has_enough()
}

/// What is told, alone.
fn news_of<T: Subject>(told: Told<T>) -> News
    ensures { IsNewsOf T.model T.mode result }
{
    match told {
        Told::Taken(account) => News::Taken(account.into_account()),
        Told::Better(solution) => News::Better(solution.into_assignment()),
    }
}
