//! Numbers that are found for a term.
ghost use Rattle.std.specs.Prelude.{◌≡◌, ◌⊎◌, ◌↔◌, ℕ, ℤ, List, [], length, IfOk, OnOk, OnErr};
ghost use Rattle.fz_bits.specs.Windows.{IsBit};
ghost use Rattle.fz_sets.specs.Sets.{IsInSet, IsWithinLimits};
ghost use Rattle.fz_spec.specs.declared.term.Term.{Term};
ghost use Rattle.fz_spec.specs.declared.term.Term.TheVariants.{Var};
ghost use Rattle.fz_strength.specs.Domains.{term_set, IsTermOf};
ghost use Rattle.fz_prop.specs.Matching.{HasRoom};
ghost use Rattle.fz_prop.specs.Stores.{IsTermChange, Shrinks};
ghost use Rattle.fz_partners.specs.Found.{AreInside, AreOf, Has, HasPlace, IsOneOf};

use fz_bits::Window;
use fz_column::spans::Spans;
use fz_dom::Dom;
use fz_prop::terms::{keep_in, window_of};
use fz_prop::{Change, Store};
use fz_spec::term::Term;
use std::alloc::{AllocError, Global};

/// Numbers that are found for a term: a window of them where what is left of the term is at most 64 wide, else ranges.
#[derive(Drop)]
pub struct Numbers {
    window: Option<Window>,
    spans: Spans,
}

impl Numbers {
    /// None of a term.
    pub fn none(alloc: Global, store: &Store, term: Term) -> Numbers
        requires { IsTermOf (length store.now.doms) term }
        ensures none { (x : ℤ) → Has result x → ⊥ }
        ensures of { AreOf store.now.doms term result }
    {
        let _ = store.doms();
        Numbers {
            window: room_of(store, term),
            spans: Spans::new(alloc),
        }
    }

    /// Adds a number.
    ///
    /// # Errors
    /// `AllocError` where there is no memory for a range.
    #[inline(always)]
    pub fn add(&mut self, number: i32) -> Result<(), AllocError>
        requires { HasPlace self.old.window number }
        ensures has { OnOk result ((x : ℤ) → Has self.new x ↔ (Has self.old x ⊎ (x ≡ number))) }
        ensures of { OnOk result ((ds : List (List (ℤ × ℤ))) (t : Term)
            → AreOf ds t self.old → AreOf ds t self.new) }
    {
        match self.window {
            Some(window) => {
                self.window = Some(window.with(number));
                Ok(())
            }
            None => self.spans.add(number),
        }
    }
}

/// A window without a number that has a place for all that is left of a term, if it is at most 64 wide.
fn room_of(store: &Store, term: Term) -> Option<Window>
    requires { IsTermOf (length store.now.doms) term }
    ensures none { (x : ℤ) → IsOneOf result [] x → ⊥ }
    ensures inside { AreInside term result [] }
    ensures places { (x : ℤ) → IsInSet (term_set store.now.doms term) x → HasPlace result x }
{
    let _ = store.doms();
    match term {
        Term::Var(_) => match window_of(store, term) {
            Some(window) => Some(Window::none(window.base)),
            None => None,
        },
        Term::Num(number) => Some(Window::none(number)),
    }
}

/// Keeps the numbers of a term that are found, and says whether there are some.
pub fn keep(
    alloc: Global,
    store: &mut Store,
    term: Term,
    numbers: &Numbers,
) -> Result<Change, AllocError>
    requires term { IsTermOf (length store.old.doms) term }
    requires inside { AreInside term numbers.now.window numbers.now.spans }
    ensures shrinks { Shrinks store.old store.new }
    ensures err { OnErr result (store.new ≡ store.old) }
    ensures change { IfOk result (λ r. IsTermChange r term (Has numbers.now) store.old store.new) }
{
    match numbers.window {
        Some(window) => keep_near(store, term, window),
        None => keep_far(alloc, store, term, &numbers.spans),
    }
}

/// Keeps the numbers of a term that are those of a window.
fn keep_near(store: &mut Store, term: Term, window: Window) -> Result<Change, AllocError>
    requires term { IsTermOf (length store.old.doms) term }
    requires room { (v : ℕ) → term ≡ Var v → HasRoom window.base }
    ensures shrinks { Shrinks store.old store.new }
    ensures err { OnErr result (store.new ≡ store.old) }
    ensures change { IfOk result
        (λ r. IsTermChange r term (λ x. IsBit window.base window.bits x) store.old store.new) }
{
    match term {
        Term::Var(variable) => store.keep_window(variable, window),
        Term::Num(number) if window.has(number) => Ok(Change::Same),
        Term::Num(_) => Ok(Change::Wiped),
    }
}

/// Keeps the numbers of a term that are in ranges.
fn keep_far(
    alloc: Global,
    store: &mut Store,
    term: Term,
    spans: &Spans,
) -> Result<Change, AllocError>
    requires term { IsTermOf (length store.old.doms) term }
    requires limits { (x : ℤ) → IsInSet spans.now x → IsWithinLimits x }
    ensures shrinks { Shrinks store.old store.new }
    ensures err { OnErr result (store.new ≡ store.old) }
    ensures change { IfOk result
        (λ r. IsTermChange r term (λ x. IsInSet spans.now x) store.old store.new) }
{
    if spans.are_left(store, term) {
        return Ok(Change::Same);
    }
    let set = Dom::from_ranges(alloc, spans.as_slice())?;
    keep_in(store, term, &set)
}
