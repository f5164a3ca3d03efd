//! Terms whose numbers lie close together: those that no fixed place has are a window, and all other places keep to it.
ghost use Rattle.std.specs.Prelude.{◌≡◌, ◌≢◌, ◌≤ℤ◌, ◌+ℤ◌, ℤ, pos, true, false, List, length, IfOk, IsNone, IfSome};
ghost use Rattle.std.specs.List.{AllByRecursion};
ghost use Rattle.fz_bits.specs.Windows.{IsBit};
ghost use Rattle.fz_sets.specs.Sets.{IsInSet, LEAST, GREATEST};
ghost use Rattle.fz_spec.specs.Constraints.{term_value};
ghost use Rattle.fz_strength.specs.Differences.{AreApart};
ghost use Rattle.fz_strength.specs.Domains.{term_set, Within, IsTermOf};
ghost use Rattle.fz_strength.specs.Events.{IsFixedIn};
ghost use Rattle.fz_prop.specs.declared.answer.Answer.TheVariants as answers;
ghost use Rattle.fz_prop.specs.Answers.{IsAnswerOf, IsCorrectOf};
ghost use Rattle.fz_prop.specs.Stores.{Shrinks};
ghost use Rattle.fz_alldiff.specs.Differing.{IsDifferent, AreNeverDifferent};
ghost use Rattle.fz_alldiff.specs.Freeing.{AreBetween, IsSpan, AreFree, AreFixedButOne, AreOpen, IsKept, IsLast, IsTaken};

use crate::span::Span;
use fz_bits::Window;
use fz_prop::terms::{keep_window, value_of};
use fz_prop::{Answer, Change, Store};
use fz_spec::term::Term;
use std::alloc::AllocError;

/// The numbers that no fixed place has, and how many places aren't fixed.
#[derive(Clone, Copy)]
struct Free {
    numbers: Window,
    unfixed: usize,
}

/// What became of a place that is to keep to free numbers.
#[derive(Clone, Copy)]
pub enum Kept {
    /// It didn't get fixed.
    Rest,
    /// It got fixed.
    Fixed,
    /// It has no free number.
    Wiped,
}

/// Narrows a store so that terms are all different whose numbers lie within a span, until no place gets fixed anew.
pub fn keep_close(store: &mut Store, terms: &[Term], span: Span) -> Result<Answer, AllocError>
    requires terms { AllByRecursion (IsTermOf (length store.old.doms)) terms.now }
    requires between { AreBetween terms.now store.old.doms span.low span.high }
    requires span { IsSpan span.low span.high }
    ensures shrinks { Shrinks store.old store.new }
    ensures correct { IsCorrectOf (IsDifferent terms.now) store.old.doms store.new.doms }
    ensures answer { IfOk result
        (λ r. IsAnswerOf r (IsDifferent terms.now) (AreApart terms.now)
        store.old.doms store.new.doms) }
{
    'rounds: loop {
        match keep_once(store, terms, span)? {
            Answer::NoFix => {}
            Answer::Fix => return Ok(Answer::Fix),
            Answer::Subsumed => return Ok(Answer::Subsumed),
            Answer::Failed => return Ok(Answer::Failed),
        }
    }
}

/// Keeps all places that aren't fixed to the numbers of none that is. It answers NoFix where a place got fixed.
fn keep_once(store: &mut Store, terms: &[Term], span: Span) -> Result<Answer, AllocError>
    requires terms { AllByRecursion (IsTermOf (length store.old.doms)) terms.now }
    requires between { AreBetween terms.now store.old.doms span.low span.high }
    requires span { IsSpan span.low span.high }
    ensures shrinks { Shrinks store.old store.new }
    ensures correct { IsCorrectOf (IsDifferent terms.now) store.old.doms store.new.doms }
    ensures answer { IfOk result
        (λ r. IsAnswerOf r (IsDifferent terms.now) (AreApart terms.now)
        store.old.doms store.new.doms) }
{
    let Some(free) = free_of(store, terms, span) else {
        return Ok(Answer::Failed);
    };
    if free.unfixed == 0 {
        return Ok(Answer::Subsumed);
    }
    let answer = keep_free(store, terms, free.numbers)?;
    let _ = store.doms();
    match answer {
        Answer::Failed => Ok(Answer::Failed),
        _ if free.unfixed == 1 => Ok(Answer::Subsumed),
        answer => Ok(answer),
    }
}

/// Of 64 numbers from the span's low one on those that no fixed place has; `None` where two places have one number.
fn free_of(store: &Store, terms: &[Term], span: Span) -> Option<Free>
    requires terms { AllByRecursion (IsTermOf (length store.now.doms)) terms.now }
    requires between { AreBetween terms.now store.now.doms span.low span.high }
    requires span { IsSpan span.low span.high }
    ensures none { IsNone result → AreNeverDifferent terms.now store.now.doms }
    ensures base { IfSome result (λ f. f.numbers.base ≡ span.low) }
    ensures free { IfSome result (λ f. AreFree terms.now store.now.doms
        (λ n. IsBit span.low f.numbers.bits n)) }
    ensures unfixed { IfSome result (λ f. AreOpen terms.now store.now.doms f.unfixed) }
{
    let mut numbers = Window::all(span.low);
    let mut unfixed = 0;
    for term in terms {
        match value_of(store, *term) {
            Some(value) => numbers = taken(numbers, value)?,
            None => unfixed += 1,
        }
    }
    Some(Free { numbers, unfixed })
}

/// Free numbers without one of 64; `None` where it isn't one of them.
fn taken(free: Window, value: i32) -> Option<Window>
    requires low { free.base ≤ℤ value }
    requires high { value ≤ℤ (free.base +ℤ pos 63) }
    ensures base { IfSome result (λ w. w.base ≡ free.base) }
    ensures taken { IfSome result (λ w. IsTaken value (λ n. IsBit free.base free.bits n)
        (λ n. IsBit free.base w.bits n)) }
    ensures missing { IsNone result → IsBit free.base free.bits value → ⊥ }
{
    if !free.has(value) {
        return None;
    }
    Some(free.without(value))
}

/// Keeps all places that aren't fixed to free numbers.
fn keep_free(store: &mut Store, terms: &[Term], free: Window) -> Result<Answer, AllocError>
    requires terms { AllByRecursion (IsTermOf (length store.old.doms)) terms.now }
    requires floor { LEAST ≤ℤ free.base }
    requires ceiling { (free.base +ℤ pos 63) ≤ℤ GREATEST }
    requires free { AreFree terms.now store.old.doms (λ n. IsBit free.base free.bits n) }
    ensures shrinks { Shrinks store.old store.new }
    ensures correct { IsCorrectOf (IsDifferent terms.now) store.old.doms store.new.doms }
    ensures answer { IfOk result
        (λ r. IsAnswerOf r (IsDifferent terms.now) (AreApart terms.now)
        store.old.doms store.new.doms) }
    ensures last { IfOk result (λ r. (r ≡ answers.Failed → ⊥)
        → AreFixedButOne terms.now store.old.doms → AreApart terms.now store.new.doms) }
{
    let _ = store.doms();
    let mut left = free;
    let mut has_fixed = false;
    for term in terms {
        match keep_one(store, *term, &mut left)? {
            Kept::Wiped => return Ok(Answer::Failed),
            Kept::Fixed => has_fixed = true,
            Kept::Rest => {}
        }
        let _ = store.doms();
    }
    if has_fixed {
        Ok(Answer::NoFix)
    } else {
        Ok(Answer::Fix)
    }
}

/// Keeps a term that isn't fixed to free numbers, and takes its number from these where it gets fixed.
fn keep_one(store: &mut Store, term: Term, free: &mut Window) -> Result<Kept, AllocError>
    requires term { IsTermOf (length store.old.doms) term }
    requires floor { LEAST ≤ℤ free.old.base }
    requires ceiling { (free.old.base +ℤ pos 63) ≤ℤ GREATEST }
    ensures shrinks { Shrinks store.old store.new }
    ensures base { free.new.base ≡ free.old.base }
    ensures within { (a : List ℤ) → Within store.old.doms a
        → ((IsFixedIn store.old.doms term → ⊥)
        → IsBit free.old.base free.old.bits (term_value a term))
        → Within store.new.doms a }
    ensures kept { IfOk result (λ r. IsKept r term (λ n. IsBit free.old.base free.old.bits n)
        (λ n. IsBit free.old.base free.new.bits n) store.old store.new) }
{
    if value_of(store, term).is_some() {
        return Ok(Kept::Rest);
    }
    match keep_window(store, term, *free)? {
        Change::Wiped => Ok(Kept::Wiped),
        Change::Same => Ok(Kept::Rest),
        Change::Changed => Ok(take_last(store, term, free)),
    }
}

/// Takes the number of a term from free ones, if it is fixed.
fn take_last(store: &Store, term: Term, free: &mut Window) -> Kept
    requires term { IsTermOf (length store.now.doms) term }
    requires free { (n : ℤ) → IsInSet (term_set store.now.doms term) n
        → IsBit free.old.base free.old.bits n }
    ensures base { free.new.base ≡ free.old.base }
    ensures last { IsLast result term store.now.doms (λ n. IsBit free.old.base free.old.bits n)
        (λ n. IsBit free.old.base free.new.bits n) }
{
    let Some(value) = value_of(store, term) else {
        return Kept::Rest;
    };
    *free = free.without(value);
    Kept::Fixed
}
