//! What the spaces of a model share.
ghost use Rattle.std.specs.Prelude.{◌≡◌, ◌⊎◌, true, false, ◌<◌, ◌≤◌, ◌+◌, ◌^◌, List, ◌∷◌, [], ◌++◌, length, map, IfOk, IfSome, OnOk, pos, slice_get, slice_index_or, ℕ, ℤ, Some};
ghost use Rattle.std.specs.List.{AllByRecursion};
ghost use Rattle.std.specs.Arc.{arc_value};
ghost use Rattle.fz_model.specs.Groups.{constraint_at};
ghost use Rattle.fz_model.specs.Kept.{IsModel};
ghost use Rattle.fz_spec.specs.declared.term.Term.TheVariants.{Var};
ghost use Rattle.fz_strength.specs.declared.event.Event.TheVariants.{Any, Fixed};
ghost use Rattle.fz_strength.specs.Events.{AreBelow, wait_for, waits_for};
ghost use Rattle.fz_strength.specs.Sayings as said;
ghost use Rattle.fz_strength.specs.Sayings.{said_terms, waits_of, cost_of};
ghost use Rattle.fz_strength.specs.VariableElements.{StandsAt};
ghost use Rattle.fz_prop.specs.Told.{nothing};
ghost use Rattle.fz_strength.specs.Domains.{IsTermOf};
ghost use Rattle.fz_prop.specs.Stores.{FitsTerm, IsListed, Stored};
ghost use Rattle.fz_says.specs.Fits.{FitsSum, IsFit};
ghost use Rattle.fz_says.specs.Said.{said_by, waits_in};
ghost use Rattle.fz_propagators.specs.Forms.{said_of};
ghost use Rattle.fz_agenda.specs.Agendas.{IsSettled};
ghost use Rattle.fz_agenda.specs.Wakes.{waiting_at, watch, IsIndexedAt, IsListedAt, IsWatch, HaveSize, Extends};
ghost use Rattle.fz_engine.specs.Networks.{AreSaidOf, IsFull, IsListing, IsNetwork, IsSaidPlain, sayings_of};
ghost use Rattle.fz_engine.specs.Stronger as stronger;

use crate::stronger::{More, said_once_more};
use fz_agenda::{Agenda, Wakes, Watch};
use fz_model::{ConstraintAt, Variable};
use fz_plain::plain_of;
use fz_prop::{Cost, Event, Kept};
use fz_propagators::AnyPropagator;
use fz_says::{Saying, Wait};
use fz_spec::shape::Relation;
use fz_spec::term::Term;
use std::alloc::{AllocError, Global};
use std::marker::Model;
use std::sync::Arc;

/// A model, propagators of what its constraints say, and who waits for which change. It never changes.
#[derive(Drop)]
pub struct Network {
    model: Arc<fz_model::Model>,
    propagators: Vec<AnyPropagator>,
    /// For each propagator the cell in which it keeps something between runs; beyond all cells where it keeps nothing.
    slots: Vec<u32>,
    wakes: Wakes,
}

impl Model for Network {
    ghost use Rattle.std.specs.Arc.{arc_value};
    ghost use Rattle.fz_engine.specs.Networks.{Networked, IsNetwork, sayings_of};

    ghost Value = { Networked };

    ghost view = { λ n. record {
      model = arc_value n.model;
      sayings = sayings_of n.propagators.items;
      wakes = n.wakes;
    } };

    ghost invariant = { λ n. IsNetwork (record {
      model = arc_value n.model;
      sayings = sayings_of n.propagators.items;
      wakes = n.wakes;
    }) };
}

impl Network {
    /// The network of a model.
    ///
    /// # Errors
    /// `AllocError` where there is no memory.
    pub fn new(alloc: Global, model: Arc<fz_model::Model>) -> Result<Network, AllocError>
        ensures { IfOk result (λ n. n.model ≡ arc_value model) }
    {
        let Posted { propagators, wakes } = post_all(alloc, &model)?;
        let slots = slots_of(alloc, &propagators)?;
        Ok(Network {
            model,
            propagators,
            slots,
            wakes,
        })
    }

    /// The model.
    pub fn model(&self) -> &fz_model::Model
        ensures model { result.now ≡ self.now.model }
        ensures kept { IsModel self.now.model }
        ensures network { IsNetwork self.now }
    {
        let model = &self.model;
        let _ = model.variables();
        model
    }

    /// The propagator at a place.
    pub fn propagator(&self, place: u32) -> &AnyPropagator
        requires { place < length self.now.sayings }
        ensures { slice_get self.now.sayings place ≡ Some (said_of result.now) }
    {
        &self.propagators[place as usize]
    }

    /// The cell in which the propagator at a place keeps something between runs, beyond all cells where it keeps nothing. It is a
    /// hint: the cell itself names its owner.
    pub fn slot(&self, place: u32) -> u32 {
        match self.slots.get(place as usize) {
            Some(slot) => *slot,
            None => u32::MAX,
        }
    }

    /// Cells in which nothing is kept, one for each propagator that has a use for it.
    ///
    /// # Errors
    /// `AllocError` where there is no memory.
    pub fn cells(&self, alloc: Global) -> Result<Vec<Kept>, AllocError>
        ensures { IfOk result (λ cells. (k : ℕ) → slice_index_or cells.items k nothing ≡ nothing) }
    {
        let count = self.slots.iter().filter(|slot| **slot != u32::MAX).count();
        Vec::from_elem(alloc, Kept::none(), count)
    }

    /// Who waits for which change.
    pub fn wakes(&self) -> &Wakes
        ensures wakes { result.now ≡ self.now.wakes }
        ensures network { IsNetwork self.now }
    {
        &self.wakes
    }

    /// An agenda on which each propagator is queued.
    ///
    /// # Errors
    /// `AllocError` where there is no memory.
    pub fn agenda(&self, alloc: Global) -> Result<Agenda, AllocError>
        ensures settled { IfOk result
            (λ a. (s : Stored) → IsSettled self.now.sayings a.states s) }
        ensures full { IfOk result (λ a. IsFull (map cost_of self.now.sayings) a) }
    {
        full_agenda(alloc, self.wakes.costs())
    }
}

/// A cell for each propagator that has a use for it.
fn slots_of(alloc: Global, propagators: &[AnyPropagator]) -> Result<Vec<u32>, AllocError> {
    let mut slots = Vec::with_capacity(alloc, propagators.len())?;
    let mut next = 0u32;
    for propagator in propagators {
        if propagator.keeps() {
            slots.push(next)?;
            next = next.wrapping_add(1);
        } else {
            slots.push(u32::MAX)?;
        }
    }
    Ok(slots)
}

/// Propagators, and who of them waits for which change.
#[derive(Drop)]
struct Posted {
    propagators: Vec<AnyPropagator>,
    wakes: Wakes,
}

/// Propagators of what each constraint of a model says.
fn post_all(alloc: Global, model: &fz_model::Model) -> Result<Posted, AllocError>
    ensures said { IfOk result (λ p. AreSaidOf model.now.variables model.now.constraints
        (sayings_of p.propagators.items)) }
    ensures listing { IfOk result (λ p. IsListing (sayings_of p.propagators.items) p.wakes
        (length model.now.variables)) }
    ensures kept { IsModel model.now }
{
    let constraints = model.constraints();
    let mut posted = Posted {
        propagators: Vec::with_capacity(alloc, constraints.len())?,
        wakes: Wakes::new(alloc, model.variables().len())?,
    };
    for number in 0..constraints.len() {
        let constraint = constraints.at(number);
        let saying = saying_of(constraint);
        // It runs first.
        post_plain(alloc, &mut posted, &saying, model.variables())?;
        let whole = constraint.is_whole();
        post_said(alloc, &mut posted, &saying, whole, model.variables())?;
    }
    Ok(posted)
}

/// What a constraint of a model says.
fn saying_of<'m>(constraint: ConstraintAt<'m>) -> Saying<'m>
    ensures { said_by result ≡ said.saying_of (constraint_at constraint.entry) }
{
    match constraint {
        ConstraintAt::Written(constraint) => Saying::of(constraint),
        ConstraintAt::Element(term, set) => Saying::Member(term, set),
    }
}

/// Adds a propagator of what is said.
fn post(alloc: Global, posted: &mut Posted, saying: &Saying) -> Result<(), AllocError>
    requires fits { AllByRecursion FitsTerm (said_terms (said_by saying.now)) }
    requires sum { FitsSum (said_by saying.now) }
    requires inside { AreBelow (waits_of (said_by saying.now)) (length posted.old.wakes.any) }
    requires few { length posted.old.propagators.items < 2 ^ 32 }
    requires listing { IsListing (sayings_of posted.old.propagators.items) posted.old.wakes
        (length posted.old.wakes.any) }
    ensures said { OnOk result (sayings_of posted.new.propagators.items
        ≡ sayings_of posted.old.propagators.items ++ said_by saying.now ∷ []) }
    ensures listing { OnOk result (IsListing (sayings_of posted.new.propagators.items)
        posted.new.wakes (length posted.old.wakes.any)) }
{
    let place = posted.wakes.costs().len() as u32;
    posted.wakes.add_cost(saying.cost())?;
    list_said(alloc, &mut posted.wakes, saying, place)?;
    let propagator = AnyPropagator::of(alloc, saying)?;
    posted.propagators.push(propagator)?;
    Ok(())
}

/// The same, of what fits a model.
fn post_fit(
    alloc: Global,
    posted: &mut Posted,
    saying: &Saying,
    variables: &[Variable],
) -> Result<(), AllocError>
    requires fit { IsFit variables.now (said_by saying.now) }
    requires size { length posted.old.wakes.any ≡ length variables.now }
    requires few { length posted.old.propagators.items < 2 ^ 32 }
    requires listing { IsListing (sayings_of posted.old.propagators.items) posted.old.wakes
        (length posted.old.wakes.any) }
    ensures said { OnOk result (sayings_of posted.new.propagators.items
        ≡ sayings_of posted.old.propagators.items ++ said_by saying.now ∷ []) }
    ensures listing { OnOk result (IsListing (sayings_of posted.new.propagators.items)
        posted.new.wakes (length posted.old.wakes.any)) }
{
    let _ = variables;
    post(alloc, posted, saying)
}

/// Adds a propagator of what is said, and those of what is said once more.
fn post_said(
    alloc: Global,
    posted: &mut Posted,
    saying: &Saying,
    whole: bool,
    variables: &[Variable],
) -> Result<(), AllocError>
    requires fit { IsFit variables.now (said_by saying.now) }
    requires size { length posted.old.wakes.any ≡ length variables.now }
    requires few { length posted.old.propagators.items + 2 < 2 ^ 32 }
    requires listing { IsListing (sayings_of posted.old.propagators.items) posted.old.wakes
        (length posted.old.wakes.any) }
    ensures said { OnOk result (sayings_of posted.new.propagators.items
        ≡ sayings_of posted.old.propagators.items ++ said_by saying.now
        ∷ stronger.said_once_more variables.now whole (said_by saying.now)) }
    ensures listing { OnOk result (IsListing (sayings_of posted.new.propagators.items)
        posted.new.wakes (length posted.old.wakes.any)) }
{
    post_fit(alloc, posted, saying, variables)?;
    let more = said_once_more(saying, whole, variables);
    post_more(alloc, posted, more, variables)
}

/// Adds propagators of what is said once more.
fn post_more(
    alloc: Global,
    posted: &mut Posted,
    more: More,
    variables: &[Variable],
) -> Result<(), AllocError>
    requires fit { AllByRecursion (IsFit variables.now) (stronger.more_by more) }
    requires size { length posted.old.wakes.any ≡ length variables.now }
    requires few { length posted.old.propagators.items + 1 < 2 ^ 32 }
    requires listing { IsListing (sayings_of posted.old.propagators.items) posted.old.wakes
        (length posted.old.wakes.any) }
    ensures said { OnOk result (sayings_of posted.new.propagators.items
        ≡ sayings_of posted.old.propagators.items ++ stronger.more_by more.entry) }
    ensures listing { OnOk result (IsListing (sayings_of posted.new.propagators.items)
        posted.new.wakes (length posted.old.wakes.any)) }
{
    match more {
        More::Nothing => Ok(()),
        More::One(saying) => post_fit(alloc, posted, &saying, variables),
        More::Two(first, second) => {
            post_fit(alloc, posted, &first, variables)?;
            post_fit(alloc, posted, &second, variables)
        }
        More::Total(terms, number) => {
            let ones = Vec::from_elem(alloc, 1, terms.len())?;
            let total = Saying::Sum(Relation::Equal, &ones, terms, Term::Num(number));
            post_fit(alloc, posted, &total, variables)
        }
    }
}

/// Adds a propagator of the plainer form of what is said, if there is one.
fn post_plain(
    alloc: Global,
    posted: &mut Posted,
    saying: &Saying,
    variables: &[Variable],
) -> Result<(), AllocError>
    requires fit { IsFit variables.now (said_by saying.now) }
    requires size { length posted.old.wakes.any ≡ length variables.now }
    requires few { length posted.old.propagators.items < 2 ^ 32 }
    requires listing { IsListing (sayings_of posted.old.propagators.items) posted.old.wakes
        (length posted.old.wakes.any) }
    ensures said { OnOk result (IsSaidPlain (said_by saying.now)
        (sayings_of posted.old.propagators.items) (sayings_of posted.new.propagators.items)) }
    ensures listing { OnOk result (IsListing (sayings_of posted.new.propagators.items)
        posted.new.wakes (length posted.old.wakes.any)) }
{
    match plain_of(alloc, saying)? {
        Some(plain) => post_fit(alloc, posted, &plain.saying(), variables),
        None => Ok(()),
    }
}

/// Lists a propagator of what is said at all changes that may break its line.
fn list_said(
    alloc: Global,
    wakes: &mut Wakes,
    saying: &Saying,
    place: u32,
) -> Result<(), AllocError>
    requires size { HaveSize wakes.old (length wakes.old.any) }
    requires inside { AreBelow (waits_of (said_by saying.now)) (length wakes.old.any) }
    ensures size { HaveSize wakes.new (length wakes.old.any) }
    ensures extends { Extends wakes.old wakes.new }
    ensures indexed { OnOk result (IsIndexedAt wakes.new place (said_by saying.now)) }
    ensures costs { wakes.new.costs ≡ wakes.old.costs }
{
    match saying {
        Saying::SelectTerm(terms, index, value) => {
            list_term(wakes, Event::Any, *index, place)?;
            list_term(wakes, Event::Any, *value, place)?;
            watch_terms(wakes, terms.as_slice(), *index, place)
        }
        Saying::CompareIf(Relation::Equal, term, Term::Num(number), truth)
        | Saying::CompareIf(Relation::NotEqual, term, Term::Num(number), truth) => {
            list_number(wakes, *term, *number, *truth, place)
        }
        _ => {
            let waits = saying.waits(alloc)?;
            list(wakes, &waits, place)
        }
    }
}

/// Lists a propagator of what a Boolean says, whether a term is a number: at changes of the Boolean, where the term gets fixed, and at
/// all its changes once the number is gone.
fn list_number(
    wakes: &mut Wakes,
    term: Term,
    number: i32,
    truth: Term,
    place: u32,
) -> Result<(), AllocError>
    requires size { HaveSize wakes.old (length wakes.old.any) }
    requires term { IsTermOf (length wakes.old.any) term }
    requires truth { IsTermOf (length wakes.old.any) truth }
    ensures size { HaveSize wakes.new (length wakes.old.any) }
    ensures extends { Extends wakes.old wakes.new }
    ensures steady { OnOk result
        (IsListedAt wakes.new place (wait_for Fixed term ++ wait_for Any truth)) }
    ensures watched { OnOk result ((v : ℕ) → term ≡ Var v
        → IsWatch wakes.new v (watch place term number false)) }
    ensures costs { wakes.new.costs ≡ wakes.old.costs }
{
    list_term(wakes, Event::Fixed, term, place)?;
    list_term(wakes, Event::Any, truth, place)?;
    watch_number(wakes, term, number, place)
}

/// A propagator looks at a term once a number is gone.
fn watch_number(wakes: &mut Wakes, term: Term, number: i32, place: u32) -> Result<(), AllocError>
    requires size { HaveSize wakes.old (length wakes.old.any) }
    requires term { IsTermOf (length wakes.old.any) term }
    ensures size { HaveSize wakes.new (length wakes.old.any) }
    ensures extends { Extends wakes.old wakes.new }
    ensures watched { OnOk result ((v : ℕ) → term ≡ Var v
        → IsWatch wakes.new v (watch place term number false)) }
    ensures costs { wakes.new.costs ≡ wakes.old.costs }
{
    let Term::Var(variable) = term else {
        return Ok(());
    };
    wakes.watch(
        variable,
        Watch {
            place,
            term,
            number,
            while_left: false,
        },
    )
}

/// Lists a propagator at changes of a term.
fn list_term(wakes: &mut Wakes, event: Event, term: Term, place: u32) -> Result<(), AllocError>
    requires size { HaveSize wakes.old (length wakes.old.any) }
    requires inside { IsTermOf (length wakes.old.any) term }
    ensures size { HaveSize wakes.new (length wakes.old.any) }
    ensures extends { Extends wakes.old wakes.new }
    ensures listed { OnOk result (IsListedAt wakes.new place (wait_for event term)) }
    ensures costs { wakes.new.costs ≡ wakes.old.costs }
{
    match term {
        Term::Var(variable) => wakes.list(variable, event, place),
        Term::Num(_) => Ok(()),
    }
}

/// A propagator looks at each term of a list while its place, from 1, is left of an index.
fn watch_terms(wakes: &mut Wakes, terms: &[Term], index: Term, place: u32) -> Result<(), AllocError>
    requires size { HaveSize wakes.old (length wakes.old.any) }
    requires index { IsTermOf (length wakes.old.any) index }
    requires terms { AllByRecursion (IsTermOf (length wakes.old.any)) terms.now }
    ensures size { HaveSize wakes.new (length wakes.old.any) }
    ensures extends { Extends wakes.old wakes.new }
    ensures watched { OnOk result ((v : ℕ) (n : ℤ) → StandsAt n terms.now (Var v)
        → IsWatch wakes.new v (watch place index n true)
        ⊎ IsListed (waiting_at wakes.new Any v) place) }
    ensures costs { wakes.new.costs ≡ wakes.old.costs }
{
    for (i, term) in terms.iter().enumerate() {
        watch_term(wakes, *term, index, i, place)?;
    }
    Ok(())
}

/// A propagator looks at a term while the number after `before` is left of an index; at a number beyond all indices it always does.
fn watch_term(
    wakes: &mut Wakes,
    term: Term,
    index: Term,
    before: usize,
    place: u32,
) -> Result<(), AllocError>
    requires size { HaveSize wakes.old (length wakes.old.any) }
    requires index { IsTermOf (length wakes.old.any) index }
    requires term { IsTermOf (length wakes.old.any) term }
    ensures size { HaveSize wakes.new (length wakes.old.any) }
    ensures extends { Extends wakes.old wakes.new }
    ensures watched { OnOk result ((v : ℕ) → term ≡ Var v
        → IsWatch wakes.new v (watch place index (pos (before + 1)) true)
        ⊎ IsListed (waiting_at wakes.new Any v) place) }
    ensures costs { wakes.new.costs ≡ wakes.old.costs }
{
    let Term::Var(variable) = term else {
        return Ok(());
    };
    match number_after(before) {
        Some(number) => {
            let term = index;
            wakes.watch(
                variable,
                Watch {
                    place,
                    term,
                    number,
                    while_left: true,
                },
            )
        }
        None => wakes.list(variable, Event::Any, place),
    }
}

/// The number after another, where it is an `i32`.
fn number_after(before: usize) -> Option<i32>
    ensures { IfSome result (λ n. n ≡ pos (before + 1)) }
{
    i32::try_from(before).ok()?.checked_add(1)
}

/// Lists a propagator at each change that it waits for.
fn list(wakes: &mut Wakes, waits: &[Wait], place: u32) -> Result<(), AllocError>
    requires size { HaveSize wakes.old (length wakes.old.any) }
    requires inside { AreBelow (waits_in waits.now) (length wakes.old.any) }
    ensures size { HaveSize wakes.new (length wakes.old.any) }
    ensures extends { Extends wakes.old wakes.new }
    ensures listed { OnOk result (IsListedAt wakes.new place (waits_in waits.now)) }
    ensures costs { wakes.new.costs ≡ wakes.old.costs }
{
    for wait in waits {
        wakes.list(wait.variable, wait.event, place)?;
    }
    Ok(())
}

/// An agenda on which propagators of these costs are queued.
fn full_agenda(alloc: Global, costs: &[Cost]) -> Result<Agenda, AllocError>
    requires few { length costs.now ≤ 2 ^ 32 }
    ensures settled { IfOk result (λ a. (sayings : List said.Saying) (s : Stored)
        → costs.now ≡ map cost_of sayings → IsSettled sayings a.states s) }
    ensures full { IfOk result (λ a. IsFull costs.now a) }
{
    let mut agenda = Agenda::new(alloc, costs.len())?;
    for (place, cost) in costs.iter().enumerate() {
        agenda.wake(place as u32, *cost)?;
    }
    Ok(agenda)
}
