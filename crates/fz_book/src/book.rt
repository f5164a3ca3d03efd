//! Books.
ghost use Rattle.std.specs.Prelude.{drop, ◌≡◌, ◌≤◌, ◌+◌, ◌-◌, ◌<◌, ◌↔◌, ◌⊎◌, ◌≢◌, ◌++◌, ◌∷◌, [], true, false, length, option_copied, option_map, map, IsTrue, not, IsSomeAnd, IfOk, IfErr, IfSome, IfNone, OnOk, OnErr};
ghost use Rattle.std.specs.List.{list_all, slice_get, AllByRecursion};
ghost use Rattle.std.specs.Arc.{arc_value};
ghost use Rattle.std.specs.Vec.{vec_len, vec_capacity};
ghost use Rattle.fz_spec.specs.Instance.{Satisfies};
ghost use Rattle.fz_tree.specs.Better.{IsModeOf, Betters};
ghost use Rattle.fz_tree.specs.Account.{AccountLaw};
ghost use Rattle.fz_tree.specs.Book.{BookLaw, Claims, Takes, IsAt, IsOpen, PrefersClaimed, opening, incumbent, is_claimed, claimed_part, parts_after};
ghost use Rattle.fz_book.specs.Outcomes.{IsOwn, IsTaken, IsStranger, IsForeign, LacksMemory, GivesBack};
ghost use Rattle.fz_book.specs.Offering.{IsImprovement, Offers};
ghost use Rattle.fz_book.specs.Needs.{found_needed, given_needed, witness_if};

use crate::offered::Offered;
use crate::part::{OpenPart, place_of, unclaimed_place};
use crate::record::Record;
use crate::taken::Taken;
use fz_account::account::{Account, Parts};
use fz_model::Assignment;
use fz_region::Frontier;
use fz_tree::mode::Mode;
use fz_truth::{better, holds};
use std::alloc::{AllocError, AllocFailed, Global};
use std::marker::Model;
use std::sync::Arc;

/// A book of a model. Contracts see beside it how many of those recorded it has let go of, and how many more assignments and parts it
/// has room for.
#[derive(Drop)]
pub struct Book {
    model: Arc<fz_model::Model>,
    mode: Mode,
    recorded: Record,
    parts: Vec<OpenPart>,
}

impl Model for Book {
    ghost use Rattle.fz_book.specs.Room.{Roomy};

    ghost Value = { Roomy };

    ghost use Rattle.fz_book.specs.Inside.{book_of, roomy_of};
    ghost use Rattle.fz_tree.specs.Book as book;

    ghost view = { roomy_of };

    ghost invariant = { λ b. book.BookLaw (book_of b) };
}

impl Book {
    /// The book of a model in which nothing is recorded and the whole tree is open and unclaimed.
    ///
    /// # Errors
    /// `AllocFailed` with the model, where there is no memory.
    pub fn begin(
        alloc: Global,
        model: Arc<fz_model::Model>,
        mode: Mode,
    ) -> Result<Book, AllocFailed<Arc<fz_model::Model>>>
        requires { IsModeOf (arc_value model).goal mode }
        ensures ok { IfOk result (λ b. b.book ≡ opening (arc_value model) mode) }
        ensures whole { IfOk result (λ b. b.gone ≡ 0) }
        ensures err { IfErr result (λ refused. refused.value ≡ model) }
    {
        let mut parts = Vec::new(alloc);
        let root = OpenPart {
            frontier: Frontier::root(alloc),
            claimed: false,
        };
        match parts.push(root) {
            Ok(()) => Ok(Book {
                model,
                mode,
                recorded: Record::new(alloc),
                parts,
            }),
            Err(_) => Err(AllocFailed { value: model }),
        }
    }

    /// The model that it is of.
    pub fn model(&self) -> &fz_model::Model
        ensures model { result.now ≡ self.now.book.model }
        ensures law { BookLaw self.now.book }
    {
        &self.model
    }

    /// What is searched for.
    pub fn mode(&self) -> Mode
        ensures mode { result ≡ self.now.book.mode }
        ensures law { BookLaw self.now.book }
    {
        self.mode
    }

    /// What is recorded, in order, but for the first that it has let go of: in a search for all satisfying assignments what was found,
    /// else each that was better than those before it.
    pub fn recorded(&self) -> &[Assignment]
        ensures recorded { result.now ≡ drop self.now.gone self.now.book.recorded }
        ensures whole { self.now.gone ≡ 0 → result.now ≡ self.now.book.recorded }
        ensures law { BookLaw self.now.book }
    {
        self.recorded.kept()
    }

    /// What is recorded from this place on, which it has not let go of.
    pub fn recorded_from(&self, place: usize) -> &[Assignment]
        requires kept { self.now.gone ≤ place }
        requires within { place ≤ length self.now.book.recorded }
        ensures recorded { result.now ≡ drop place self.now.book.recorded }
        ensures law { BookLaw self.now.book }
    {
        self.recorded.from(place)
    }

    /// How many are recorded, those that it has let go of among them.
    pub fn recorded_count(&self) -> usize
        ensures count { result ≡ length self.now.book.recorded }
        ensures law { BookLaw self.now.book }
    {
        self.recorded.len()
    }

    /// How many of the first it has let go of.
    pub fn gone_count(&self) -> usize
        ensures gone { result ≡ self.now.gone }
        ensures last { self.now.gone ≤ length self.now.book.recorded - 1 }
    {
        self.recorded.gone()
    }

    /// Lets go of all that is recorded but the last. From now on only contracts see them.
    pub fn keep_last(&mut self)
        ensures book { self.new.book ≡ self.old.book }
        ensures gone { self.new.gone ≤ length self.old.book.recorded - 1 }
    {
        self.recorded.keep_last();
    }

    /// The best that is recorded. A search for all satisfying assignments has none.
    pub fn incumbent(&self) -> Option<&Assignment>
        ensures incumbent { option_copied result ≡ incumbent self.now.book }
        ensures law { BookLaw self.now.book }
    {
        match self.mode {
            Mode::All | Mode::Rows => None,
            Mode::Best => self.recorded.last(),
        }
    }

    /// How many frontiers are open.
    pub fn open_count(&self) -> u64
        ensures { result ≡ length self.now.book.parts }
    {
        self.parts.len() as u64
    }

    /// The first open frontier.
    pub fn first_open(&self) -> Option<&Frontier>
        ensures { option_copied result
            ≡ option_map (λ p. p.frontier) (slice_get self.now.book.parts 0) }
    {
        match self.parts.first() {
            Some(part) => Some(&part.frontier),
            None => None,
        }
    }

    /// Whether no frontier is open.
    pub fn is_closed(&self) -> bool
        ensures closed { IsTrue result ↔ (self.now.book.parts ≡ []) }
        ensures law { BookLaw self.now.book }
    {
        self.parts.is_empty()
    }

    /// Whether some frontier is open that nobody has claimed.
    pub fn has_unclaimed(&self) -> bool
        ensures { result ≡ not (list_all is_claimed self.now.book.parts) }
    {
        unclaimed_place(&self.parts).is_some()
    }

    /// Claims the first open frontier that nobody has claimed, and hands out a copy. `None` exactly where there is none; the book
    /// is then as before.
    ///
    /// # Errors
    /// `AllocError` where there is no memory; the book is as before.
    pub fn claim(&mut self) -> Result<Option<Frontier>, AllocError>
        ensures some { IfOk result (λ o. IfSome o (λ f. Claims self.old.book f self.new.book)) }
        ensures none { IfOk result
            (λ o. IfNone o (list_all is_claimed self.old.book.parts ≡ true)) }
        ensures same { IfOk result (λ o. IfNone o (self.new ≡ self.old)) }
        ensures err { OnErr result (self.new ≡ self.old) }
        ensures gone { self.new.gone ≡ self.old.gone }
    {
        let Some(i) = unclaimed_place(&self.parts) else {
            return Ok(None);
        };
        let frontier = self.parts[i].frontier.copy()?;
        let claimed = self.parts[i].frontier.copy()?;
        self.parts[i] = OpenPart {
            frontier: claimed,
            claimed: true,
        };
        Ok(Some(frontier))
    }

    /// Makes room for at least that many more assignments that are found, and frontiers that were given.
    ///
    /// # Errors
    /// `AllocError` where there is no memory; the book is as before, but for its room.
    pub fn make_room(&mut self, found: u64, given: u32) -> Result<(), AllocError>
        ensures found { OnOk result (found ≤ self.new.found_room) }
        ensures given { OnOk result (given ≤ self.new.given_room) }
        ensures book { self.new.book ≡ self.old.book }
        ensures gone { self.new.gone ≡ self.old.gone }
    {
        self.recorded.reserve(found as usize)?;
        self.parts.reserve(given as usize)?;
        Ok(())
    }

    /// Takes an account of an open frontier: in its place come the parts that it gave and what it left, all claimed, and what it
    /// found is recorded, or its witness where that is better than the incumbent. Where it isn't taken it is handed back, and the
    /// book is as before, but for its room.
    pub fn take(&mut self, account: Account) -> Taken
        ensures taken { IsTaken result → Takes self.old.book account self.new.book }
        ensures same { (IsTaken result → ⊥) → self.new.book ≡ self.old.book }
        ensures foreign { IsForeign result ↔ (IsOwn self.old.book account → ⊥) }
        ensures stranger { IsStranger result ↔
            (IsOwn self.old.book account × (IsOpen self.old.book account.before → ⊥)) }
        ensures room { LacksMemory result → (self.old.found_room < found_needed account)
            ⊎ (self.old.given_room < given_needed account) }
        ensures back { GivesBack result account }
        ensures gone { self.new.gone ≡ self.old.gone }
    {
        if !self.is_own(&account) {
            return Taken::Foreign(account);
        }
        self.take_own(account)
    }

    /// Whether an account is of its model and mode.
    pub fn is_own(&self, account: &Account) -> bool
        ensures own { IsTrue result ↔ IsOwn self.now.book account.now }
        ensures law { BookLaw self.now.book }
    {
        self.mode == account.mode() && self.model.same(account.model())
    }

    /// Takes an account of its model and mode, as `take` does, but with no look at the model.
    pub fn take_own(&mut self, account: Account) -> Taken
        requires own { IsOwn self.old.book account }
        ensures taken { IsTaken result → Takes self.old.book account self.new.book }
        ensures same { (IsTaken result → ⊥) → self.new.book ≡ self.old.book }
        ensures own { IsForeign result → ⊥ }
        ensures stranger { IsStranger result ↔ (IsOpen self.old.book account.before → ⊥) }
        ensures room { LacksMemory result → (self.old.found_room < found_needed account)
            ⊎ (self.old.given_room < given_needed account) }
        ensures back { GivesBack result account }
        ensures gone { self.new.gone ≡ self.old.gone }
    {
        let Some(place) = place_of(&self.parts, account.before()) else {
            return Taken::Stranger(account);
        };
        self.take_at(place, account)
    }

    /// Takes an account of its model and mode and of one of its open frontiers, for which it has room: as `take` does, but with no look at
    /// the model, and it takes no memory.
    pub fn take_open(&mut self, account: Account)
        requires model { self.old.book.model ≡ account.model }
        requires mode { self.old.book.mode ≡ account.mode }
        requires open { IsOpen self.old.book account.before }
        requires found { found_needed account ≤ self.old.found_room }
        requires given { given_needed account ≤ self.old.given_room }
        ensures taken { Takes self.old.book account self.new.book }
        ensures gone { self.new.gone ≡ self.old.gone }
    {
        match self.take_own(account) {
            Taken::Taken => {}
            Taken::Stranger(_) | Taken::Foreign(_) | Taken::NoMemory(_) => unreachable!(),
        }
    }

    /// Takes an account of the part at a place.
    fn take_at(&mut self, place: usize, account: Account) -> Taken
        requires model { self.old.book.model ≡ account.model }
        requires mode { self.old.book.mode ≡ account.mode }
        requires place { IsAt self.old.book.parts account.before place }
        requires prefers { PrefersClaimed self.old.book.parts account.before place }
        ensures outcome { IsTaken result ⊎ LacksMemory result }
        ensures taken { IsTaken result → Takes self.old.book account self.new.book }
        ensures same { LacksMemory result → self.new.book ≡ self.old.book }
        ensures room { LacksMemory result → (self.old.found_room < found_needed account)
            ⊎ (self.old.given_room < given_needed account) }
        ensures back { GivesBack result account }
        ensures gone { self.new.gone ≡ self.old.gone }
    {
        let adds_witness = self.is_bettered_by(&account);
        if room_for(&mut self.recorded, &mut self.parts, &account).is_err() {
            return Taken::NoMemory(account);
        }
        settle(
            &mut self.recorded,
            &mut self.parts,
            place,
            account,
            adds_witness,
        );
        Taken::Taken
    }

    /// Records an assignment that is better than the incumbent, in a search for the best one: `NotBetter` exactly where it doesn't
    /// satisfy, all are sought, or it isn't better; it is then handed back, and the book is as before.
    ///
    /// # Errors
    /// `AllocFailed` with the assignment where there is no memory; the book is as before, but for its room.
    pub fn offer(&mut self, assignment: Assignment) -> Result<Offered, AllocFailed<Assignment>>
        ensures ok { IfOk result (λ o. Offers o self.old.book assignment self.new.book) }
        ensures err { OnErr result (self.new.book ≡ self.old.book) }
        ensures back { IfErr result (λ refused. refused.value ≡ assignment) }
        ensures gone { self.new.gone ≡ self.old.gone }
    {
        if self.mode != Mode::Best || !holds(&self.model, &assignment) {
            return Ok(Offered::NotBetter(assignment));
        }
        self.offer_found(assignment)
    }

    /// Records an assignment that satisfies, as `offer` does, but with no look at the constraints.
    ///
    /// # Errors
    /// `AllocFailed` with the assignment where there is no memory; the book is as before, but for its room.
    pub fn offer_found(
        &mut self,
        assignment: Assignment,
    ) -> Result<Offered, AllocFailed<Assignment>>
        requires satisfies { Satisfies self.old.book.model assignment }
        ensures ok { IfOk result (λ o. Offers o self.old.book assignment self.new.book) }
        ensures err { OnErr result (self.new.book ≡ self.old.book) }
        ensures back { IfErr result (λ refused. refused.value ≡ assignment) }
        ensures gone { self.new.gone ≡ self.old.gone }
    {
        if !self.is_improved_by(&assignment) {
            return Ok(Offered::NotBetter(assignment));
        }
        self.recorded.push(assignment)?;
        Ok(Offered::Better)
    }

    /// Whether an assignment that satisfies is to be recorded.
    fn is_improved_by(&self, assignment: &Assignment) -> bool
        requires { Satisfies self.now.book.model assignment.now }
        ensures { IsTrue result ↔ IsImprovement self.now.book assignment.now }
    {
        self.mode == Mode::Best && self.is_topped_by(assignment)
    }

    /// Whether an assignment betters the incumbent.
    fn is_topped_by(&self, assignment: &Assignment) -> bool
        ensures { IsTrue result
            ↔ Betters self.now.book.model assignment.now (incumbent self.now.book) }
    {
        match self.incumbent() {
            Some(incumbent) => better(&self.model, assignment, incumbent),
            None => true,
        }
    }

    /// Whether the account has a witness that is better than the incumbent.
    fn is_bettered_by(&self, account: &Account) -> bool
        ensures better { IsTrue result ↔ IsSomeAnd account.now.witness
            (λ w. Betters self.now.book.model w (incumbent self.now.book)) }
        ensures law { AccountLaw account.now }
    {
        match (account.witness(), self.incumbent()) {
            (None, _) => false,
            (Some(_), None) => true,
            (Some(witness), Some(incumbent)) => better(&self.model, witness, incumbent),
        }
    }
}

/// Makes room for what an account found, knows and gave.
fn room_for(
    recorded: &mut Record,
    parts: &mut Vec<OpenPart>,
    account: &Account,
) -> Result<(), AllocError>
    ensures record_room { OnOk result (found_needed account.now ≤ recorded.new.room) }
    ensures part_room { OnOk result
        (vec_len parts.new + given_needed account.now ≤ vec_capacity parts.new) }
    ensures recorded { recorded.new.items ≡ recorded.old.items }
    ensures gone { recorded.new.gone ≡ recorded.old.gone }
    ensures parts { parts.new.items ≡ parts.old.items }
    ensures err { OnErr result
        ((recorded.old.room < found_needed account.now)
        ⊎ (vec_capacity parts.old - vec_len parts.old < given_needed account.now)) }
{
    let found = account.found().len() + usize::from(account.witness().is_some());
    recorded.reserve(found)?;
    parts.reserve(account.given().len())?;
    Ok(())
}

/// Puts what an account found, gave and left in the place of a part. There is room, so it takes no memory.
fn settle(
    recorded: &mut Record,
    parts: &mut Vec<OpenPart>,
    place: usize,
    account: Account,
    adds_witness: bool,
)
    requires place { place < vec_len parts.old }
    requires record_room { found_needed account ≤ recorded.old.room }
    requires part_room { vec_len parts.old + given_needed account ≤ vec_capacity parts.old }
    ensures recorded { recorded.new.items ≡
        recorded.old.items ++ (account.found ++ witness_if adds_witness account.witness) }
    ensures gone { recorded.new.gone ≡ recorded.old.gone }
    ensures parts { parts.new.items ≡ parts_after parts.old.items place account }
{
    let Parts {
        mut found,
        witness,
        given,
        after,
    } = account.into_parts();
    recorded.append(&mut found);
    if adds_witness && let Some(witness) = witness {
        let _ = recorded.push(witness);
    }
    parts.remove(place);
    give(parts, given);
    if after.has_rest() {
        let _ = parts.push(OpenPart {
            frontier: after,
            claimed: true,
        });
    }
}

/// Adds claimed parts. There is room, so it takes no memory.
fn give(parts: &mut Vec<OpenPart>, given: Vec<Frontier>)
    requires { vec_len parts.old + vec_len given ≤ vec_capacity parts.old }
    ensures parts { parts.new.items ≡ parts.old.items ++ map claimed_part given.items }
    ensures len { vec_len parts.new ≡ vec_len parts.old + vec_len given }
    ensures capacity { vec_capacity parts.old ≤ vec_capacity parts.new }
{
    for frontier in given {
        let _ = parts.push(OpenPart {
            frontier,
            claimed: true,
        });
    }
}
