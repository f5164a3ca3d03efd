//! What is left of literals, and making them false.
ghost use Rattle.std.specs.Prelude.{◌≡◌, ◌↔◌, ◌<◌, length, IfOk, IsTrue, OnErr};
ghost use Rattle.fz_strength.specs.Clauses.{true_number, false_number};
ghost use Rattle.fz_prop.specs.Answers.{IsAnswerOf, IsCorrectOf};
ghost use Rattle.fz_strength.specs.Domains.{IsTermOf};
ghost use Rattle.fz_prop.specs.Stores.{Shrinks, IsStore, IsTermChange};
ghost use Rattle.fz_prop.specs.Told.{AreUntrueBelow, AreUntrueBehind, AreEndsUntrue};
ghost use Rattle.fz_bool.specs.Looks.{AreTermsOf, IsStateOf, IsLeft, IsTruthAmong};
ghost use Rattle.fz_bool.specs.Clausal.{AreMadeFalse, AreFalseIn};

use fz_prop::terms::{keep_only, value_of};
use fz_prop::{Answer, Change, Kept, Store, count_of};
use fz_strength::literal::Literal;
use std::alloc::AllocError;

/// Whether something is true.
#[derive(Clone, Copy, Debug, PartialEq, Eq)]
pub enum State {
    True,
    False,
    Open,
}

/// What is left of literals of which one is to be true.
#[derive(Clone, Copy, Debug, PartialEq, Eq)]
pub enum Left {
    /// One is true.
    Held,
    /// None may still get true.
    Nothing,
    /// This one alone may still get true.
    Last(Literal),
    /// Two are open.
    More,
}

/// Whether a literal is true.
pub fn state_of(store: &Store, literal: Literal) -> State
    requires { IsTermOf (length store.now.doms) literal.term }
    ensures { IsStateOf result store.now.doms literal }
{
    match value_of(store, literal.term) {
        Some(value) if value == literal.true_number() => State::True,
        Some(_) => State::False,
        None => State::Open,
    }
}

/// Whether there are so many literals that it serves to keep of which ones none may still get true.
pub fn is_long(literals: &[Literal]) -> bool
    ensures { IsTrue result ↔ (8 < length literals.now) }
{
    literals.len() > 8
}

/// What is left of literals of which one is to be true, where of that many at each end none may still get true; more of these are
/// found first.
pub fn left_between(store: &Store, literals: &[Literal], kept: &mut Kept) -> Left
    requires terms { AreTermsOf store.now.doms literals.now }
    requires told { AreEndsUntrue literals.now kept.old.front kept.old.back store.now.doms }
    ensures left { IsLeft result store.now.doms literals.now }
    ensures told { AreEndsUntrue literals.now kept.new.front kept.new.back store.now.doms }
{
    if !is_long(literals) {
        return left_of(store, literals);
    }
    let front = front_from(store, literals, kept.front);
    let back = back_from(store, literals, kept.back);
    kept.front = front;
    kept.back = back;
    left_at(store, literals, front as usize, back as usize)
}

/// Of how many literals at the front none may still get true, where it is none of that many.
fn front_from(store: &Store, literals: &[Literal], front: u32) -> u32
    requires terms { AreTermsOf store.now.doms literals.now }
    requires told { AreUntrueBelow store.now.doms literals.now front }
    ensures { AreUntrueBelow store.now.doms literals.now result }
{
    let count = count_of(literals);
    for place in front..count {
        match state_of(store, literals[place as usize]) {
            State::False => {}
            State::True | State::Open => return place,
        }
    }
    front.max(count)
}

/// Of how many literals at the back none may still get true, where it is none of that many.
fn back_from(store: &Store, literals: &[Literal], back: u32) -> u32
    requires terms { AreTermsOf store.now.doms literals.now }
    requires told { AreUntrueBehind store.now.doms literals.now back }
    ensures { AreUntrueBehind store.now.doms literals.now result }
{
    let count = count_of(literals);
    for passed in back..count {
        match state_of(store, literals[literals.len() - 1 - passed as usize]) {
            State::False => {}
            State::True | State::Open => return passed,
        }
    }
    back.max(count)
}

/// What is left of literals of which one is to be true, where of that many at each end none may still get true.
fn left_at(store: &Store, literals: &[Literal], front: usize, back: usize) -> Left
    requires terms { AreTermsOf store.now.doms literals.now }
    requires told { AreEndsUntrue literals.now front back store.now.doms }
    ensures { IsLeft result store.now.doms literals.now }
{
    let count = literals.len();
    if front >= count || back >= count - front {
        return Left::Nothing;
    }
    let last = count - 1 - back;
    match (
        state_of(store, literals[front]),
        state_of(store, literals[last]),
    ) {
        (State::True, _) => Left::Held,
        (_, State::True) => Left::Held,
        (State::Open, State::Open) => {
            if front == last {
                Left::Last(literals[front])
            } else {
                Left::More
            }
        }
        _ => left_of(store, literals),
    }
}

/// What is left of literals of which one is to be true, as far as the first true one or the second open one.
fn left_of(store: &Store, literals: &[Literal]) -> Left
    requires { AreTermsOf store.now.doms literals.now }
    ensures { IsLeft result store.now.doms literals.now }
{
    let mut last = None;
    for literal in literals {
        match (state_of(store, *literal), last) {
            (State::True, _) => return Left::Held,
            (State::False, _) => {}
            (State::Open, None) => last = Some(*literal),
            (State::Open, Some(_)) => return Left::More,
        }
    }
    match last {
        Some(literal) => Left::Last(literal),
        None => Left::Nothing,
    }
}

/// Whether one of the literals is true.
pub fn truth_among(store: &Store, literals: &[Literal]) -> State
    requires { AreTermsOf store.now.doms literals.now }
    ensures { IsTruthAmong result store.now.doms literals.now }
{
    let mut state = State::False;
    for literal in literals {
        match state_of(store, *literal) {
            State::True => return State::True,
            State::False => {}
            State::Open => state = State::Open,
        }
    }
    state
}

/// Narrows a store so that all literals are false.
pub fn keep_false(store: &mut Store, literals: &[Literal]) -> Result<Answer, AllocError>
    requires { AreTermsOf store.old.doms literals.now }
    ensures shrinks { Shrinks store.old store.new }
    ensures correct { IsCorrectOf (AreMadeFalse literals.now) store.old.doms store.new.doms }
    ensures answer { IfOk result (λ r. IsAnswerOf r (AreMadeFalse literals.now)
        (AreFalseIn literals.now) store.old.doms store.new.doms) }
    ensures store { IsStore store.new }
{
    let _ = store.doms();
    for literal in literals {
        match make_false(store, *literal)? {
            Change::Wiped => return Ok(Answer::Failed),
            Change::Same | Change::Changed => {}
        }
    }
    Ok(Answer::Subsumed)
}

/// Narrows a store so that a literal is true.
pub fn make_true(store: &mut Store, literal: Literal) -> Result<Change, AllocError>
    requires { IsTermOf (length store.old.doms) literal.term }
    ensures shrinks { Shrinks store.old store.new }
    ensures err { OnErr result (store.new ≡ store.old) }
    ensures change { IfOk result (λ r. IsTermChange r literal.term
        (λ x. x ≡ true_number literal) store.old store.new) }
{
    keep_only(store, literal.term, literal.true_number())
}

/// Narrows a store so that a literal is false.
pub fn make_false(store: &mut Store, literal: Literal) -> Result<Change, AllocError>
    requires { IsTermOf (length store.old.doms) literal.term }
    ensures shrinks { Shrinks store.old store.new }
    ensures err { OnErr result (store.new ≡ store.old) }
    ensures change { IfOk result (λ r. IsTermChange r literal.term
        (λ x. x ≡ false_number literal) store.old store.new) }
    ensures store { IsStore store.new }
{
    let change = keep_only(store, literal.term, literal.false_number());
    let _ = store.doms();
    change
}
