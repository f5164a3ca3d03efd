//! Accounts.
ghost use Rattle.std.specs.Prelude.{◌≡◌, ◌≢◌, ◌↔◌, IsTrue, true, false, is_some, [], None, option_copied, IfOk, IfErr, IfSome, IfNone, OnOk, OnErr, OnSome};
ghost use Rattle.std.specs.Bool.{OnTrue, OnFalse};
ghost use Rattle.std.specs.List.{AllByRecursion};
ghost use Rattle.std.specs.Arc.{arc_value};
ghost use Rattle.fz_spec.specs.Instance.{Satisfies};
ghost use Rattle.fz_tree.specs.declared.mode.Mode.TheVariants.{All, Best};
ghost use Rattle.fz_tree.specs.Frontier.{can_cut, has_rest, closed, branched, moved, part_of, node_below};
ghost use Rattle.fz_tree.specs.Proper.{IsReachable, Fits, IsHopeless, IsOnly};
ghost use Rattle.fz_tree.specs.Better.{IsModeOf, Betters};
ghost use Rattle.fz_tree.specs.Rows.{IsAbout};
ghost use Rattle.fz_account.specs.Parts.{AreParts};
ghost use Rattle.fz_account.specs.Learning.{IsNews, Learns};
ghost use Rattle.fz_tree.specs.Account.{AccountLaw, SuitsMode, begun, with_after, with_found, with_given, rest_begun};

use fz_model::Assignment;
use fz_region::{Choice, Frontier};
use fz_tree::mode::Mode;
use fz_truth::{better, holds};
use std::alloc::{AllocError, AllocFailed, Global};
use std::marker::Model;
use std::mem;
use std::sync::Arc;

/// An account of a frontier.
#[derive(Drop)]
pub struct Account {
    model: Arc<fz_model::Model>,
    mode: Mode,
    before: Frontier,
    found: Vec<Assignment>,
    witness: Option<Assignment>,
    given: Vec<Frontier>,
    after: Frontier,
}

impl Model for Account {
    ghost use Rattle.fz_tree.specs.Account as account;

    ghost Value = { account.Account };

    ghost use Rattle.fz_account.specs.Inside.{account_of};

    ghost view = { account_of };

    ghost invariant = { λ a. account.AccountLaw (account_of a) };
}

/// What became of an assignment that was to be learned.
#[derive(Clone, Copy, Debug, PartialEq, Eq)]
pub enum Learned {
    Learned,
    Ignored,
}

/// What an account holds.
#[derive(Drop)]
pub struct Parts {
    pub found: Vec<Assignment>,
    pub witness: Option<Assignment>,
    pub given: Vec<Frontier>,
    pub after: Frontier,
}

/// A part that was cut off, and the account that names it as given.
#[derive(Drop)]
pub struct Cut {
    pub task: Frontier,
    pub account: Account,
}

/// What an account was to be begun with.
#[derive(Drop)]
pub struct Unbegun {
    pub model: Arc<fz_model::Model>,
    pub frontier: Frontier,
    pub witness: Option<Assignment>,
}

impl Account {
    /// An account of a frontier of which all is left, and of the best assignment that is known, if one is.
    ///
    /// # Errors
    /// `Unbegun` with what was passed, where there is no memory for the copy of the frontier.
    pub fn begin(
        model: Arc<fz_model::Model>,
        mode: Mode,
        frontier: Frontier,
        witness: Option<Assignment>,
    ) -> Result<Account, Unbegun>
        requires mode { IsModeOf (arc_value model).goal mode }
        requires witness { IfSome witness (Satisfies (arc_value model)) }
        requires suits { SuitsMode mode [] witness }
        ensures ok { IfOk result (λ c. c ≡ begun (arc_value model) mode frontier witness) }
        ensures err { IfErr result (λ u. u ≡
            record { model = model; frontier = frontier; witness = witness }) }
    {
        match frontier.copy() {
            Ok(before) => Ok(Account {
                found: Vec::new(before.allocator()),
                given: Vec::new(before.allocator()),
                model,
                mode,
                before,
                witness,
                after: frontier,
            }),
            Err(_) => Err(Unbegun {
                model,
                frontier,
                witness,
            }),
        }
    }

    /// The model whose assignments it accounts for.
    pub fn model(&self) -> &fz_model::Model
        ensures model { result.now ≡ self.now.model }
        ensures law { AccountLaw self.now }
    {
        &self.model
    }

    /// What is searched for.
    pub fn mode(&self) -> Mode
        ensures mode { result ≡ self.now.mode }
        ensures law { AccountLaw self.now }
    {
        self.mode
    }

    /// The frontier that it is an account of.
    pub fn before(&self) -> &Frontier
        ensures before { result.now ≡ self.now.before }
        ensures law { AccountLaw self.now }
    {
        &self.before
    }

    /// The satisfying assignments that were found, in the order in which they were. In a search for the best one they are none.
    pub fn found(&self) -> &[Assignment]
        ensures found { result.now ≡ self.now.found }
        ensures law { AccountLaw self.now }
    {
        &self.found
    }

    /// The best satisfying assignment that is known.
    pub fn witness(&self) -> Option<&Assignment>
        ensures witness { option_copied result ≡ self.now.witness }
        ensures law { AccountLaw self.now }
    {
        self.witness.as_ref()
    }

    /// The parts that were given away, in the order in which they were.
    pub fn given(&self) -> &[Frontier]
        ensures given { result.now ≡ self.now.given }
        ensures law { AccountLaw self.now }
    {
        &self.given
    }

    /// What is left.
    pub fn after(&self) -> &Frontier
        ensures after { result.now ≡ self.now.after }
        ensures law { AccountLaw self.now }
    {
        &self.after
    }

    /// Divides the place below, which is open, among the alternatives of a choice, and takes the first. Each is met by a declared
    /// assignment there, and each satisfying assignment there that betters the witness meets one of them. Where rows are sought it is
    /// a choice about a variable of the output.
    ///
    /// # Errors
    /// `AllocError` where there is no memory; the account is as before.
    pub fn branch(&mut self, choice: Choice) -> Result<(), AllocError>
        requires current { self.old.after.current_open ≡ true }
        requires reachable { AllByRecursion
            (IsReachable self.old.model.variables self.old.after.edges) choice }
        requires fits { Fits self.old.model self.old.after.edges self.old.witness choice }
        requires about { IsAbout self.old.mode self.old.model choice }
        ensures ok { OnOk result (self.new ≡ with_after self.old (branched self.old.after choice)) }
        ensures err { OnErr result (self.new ≡ self.old) }
    {
        let last = choice.len() - 1;
        self.after.push(choice, 0, last)?;
        Ok(())
    }

    /// Closes the place below, which is open and where no satisfying assignment betters the witness.
    pub fn fail(&mut self)
        requires current { self.old.after.current_open ≡ true }
        requires hopeless { IsHopeless self.old.model self.old.after.edges self.old.witness }
        ensures { self.new ≡ with_after self.old (closed self.old.after) }
    {
        self.after.close();
    }

    /// Records an assignment, the one satisfying assignment at the place below, or one of the only row there, and closes that place,
    /// which is open.
    ///
    /// # Errors
    /// `AllocFailed` with the assignment where there is no memory; the account is as before.
    pub fn add_found(&mut self, assignment: Assignment) -> Result<(), AllocFailed<Assignment>>
        requires mode { self.old.mode ≢ Best }
        requires current { self.old.after.current_open ≡ true }
        requires only { IsOnly self.old.mode self.old.model self.old.after.edges self.old.witness
            assignment }
        ensures ok { OnOk result (self.new ≡ with_found self.old assignment) }
        ensures err { OnErr result (self.new ≡ self.old) }
        ensures back { IfErr result (λ refused. refused.value ≡ assignment) }
    {
        self.found.push(assignment)?;
        self.after.close();
        Ok(())
    }

    /// Moves to the deepest open alternative, where the place below is done. It says whether there was one; where there was none,
    /// the account is as before.
    pub fn advance(&mut self) -> bool
        requires { self.old.after.current_open ≡ false }
        ensures moved { OnTrue result (self.new ≡ with_after self.old (moved self.old.after)) }
        ensures some { result ≡ has_rest self.old.after }
        ensures none { OnFalse result (self.new ≡ self.old) }
    {
        if !self.after.advance() {
            return false;
        }
        true
    }

    /// Cuts a part off what is left, lists it as given, and hands it out. `None` exactly where no edge has open alternatives after
    /// the taken one; the account is then as before.
    ///
    /// # Errors
    /// `AllocError` where there is no memory; the account is as before.
    pub fn give(&mut self) -> Result<Option<Frontier>, AllocError>
        ensures part { IfOk result (λ o. IfSome o (λ f. f ≡ part_of self.old.after)) }
        ensures given { IfOk result (λ o. OnSome o (self.new ≡ with_given self.old)) }
        ensures some { IfOk result (λ o. is_some o ≡ can_cut self.old.after) }
        ensures none { IfOk result (λ o. IfNone o (self.new ≡ self.old)) }
        ensures err { OnErr result (self.new ≡ self.old) }
    {
        let Some(part) = self.after.part()? else {
            return Ok(None);
        };
        self.given.push(part.copy()?)?;
        self.after.drop_part();
        Ok(Some(part))
    }

    /// Takes note of an assignment as the witness, in a search for the best one: `Ignored` exactly where it doesn't satisfy, none is
    /// better than another, or it isn't better than the witness; the account is then as before.
    ///
    /// # Errors
    /// `AllocError` where there is no memory; the account is as before.
    pub fn learn(&mut self, assignment: &Assignment) -> Result<Learned, AllocError>
        ensures ok { IfOk result (λ l. Learns l self.old assignment.now self.new) }
        ensures err { OnErr result (self.new ≡ self.old) }
    {
        if self.mode != Mode::Best || !holds(&self.model, assignment) {
            return Ok(Learned::Ignored);
        }
        self.learn_found(assignment)
    }

    /// Takes note of an assignment that satisfies, as `learn` does, but with no look at the constraints.
    ///
    /// # Errors
    /// `AllocError` where there is no memory; the account is as before.
    pub fn learn_found(&mut self, assignment: &Assignment) -> Result<Learned, AllocError>
        requires satisfies { Satisfies self.old.model assignment.now }
        ensures ok { IfOk result (λ l. Learns l self.old assignment.now self.new) }
        ensures err { OnErr result (self.new ≡ self.old) }
    {
        if !self.is_news(assignment) {
            return Ok(Learned::Ignored);
        }
        let witness = assignment.copy()?;
        self.witness = Some(witness);
        Ok(Learned::Learned)
    }

    /// Whether an assignment that satisfies is to be the witness.
    fn is_news(&self, assignment: &Assignment) -> bool
        requires { Satisfies self.now.model assignment.now }
        ensures { IsTrue result ↔ IsNews self.now assignment.now }
    {
        self.mode == Mode::Best && self.is_bettered_by(assignment)
    }

    /// Whether an assignment betters the witness.
    fn is_bettered_by(&self, assignment: &Assignment) -> bool
        ensures { IsTrue result ↔ Betters self.now.model assignment.now self.now.witness }
    {
        match &self.witness {
            Some(witness) => better(&self.model, assignment, witness),
            None => true,
        }
    }

    /// Hands out the account as it stands. Here an account of what is left stays.
    ///
    /// # Errors
    /// `AllocError` where there is no memory; the account is as before.
    pub fn hand_out(&mut self) -> Result<Account, AllocError>
        ensures stood { IfOk result (λ c. c ≡ self.old) }
        ensures anew { OnOk result (self.new ≡ rest_begun self.old) }
        ensures err { OnErr result (self.new ≡ self.old) }
    {
        let rest = self.rest()?;
        Ok(mem::replace(self, rest))
    }

    /// Cuts a part off what is left, and hands out the part and the account as it then stands. Here an account of what is left
    /// stays. `None` exactly where no edge has open alternatives after the taken one; the account is then as before.
    ///
    /// # Errors
    /// `AllocError` where there is no memory; the account is as before.
    pub fn cut(&mut self) -> Result<Option<Cut>, AllocError>
        ensures task { IfOk result (λ o. IfSome o (λ cut. cut.task ≡ part_of self.old.after)) }
        ensures stood { IfOk result (λ o. IfSome o (λ cut. cut.account ≡ with_given self.old)) }
        ensures anew { IfOk result (λ o. OnSome o (self.new ≡ rest_begun (with_given self.old))) }
        ensures some { IfOk result (λ o. is_some o ≡ can_cut self.old.after) }
        ensures none { IfOk result (λ o. IfNone o (self.new ≡ self.old)) }
        ensures err { OnErr result (self.new ≡ self.old) }
    {
        if !self.after.can_cut() {
            return Ok(None);
        }
        let rest = self.rest_of_cut()?;
        match self.give()? {
            Some(task) => Ok(Some(Cut {
                task,
                account: mem::replace(self, rest),
            })),
            None => Ok(None),
        }
    }

    /// Another account that is the same.
    ///
    /// # Errors
    /// `AllocError` where there is no memory.
    pub fn copy(&self) -> Result<Account, AllocError>
        ensures { IfOk result (λ c. c ≡ self.now) }
    {
        let model = self.model.clone()?;
        let found = found_copies(*self.found.allocator(), &self.found)?;
        let witness = copy_of(&self.witness)?;
        let given = given_copies(*self.given.allocator(), &self.given)?;
        Ok(Account {
            model,
            mode: self.mode,
            before: self.before.copy()?,
            found,
            witness,
            given,
            after: self.after.copy()?,
        })
    }

    /// An account of the node below the taken alternatives, of which all satisfying assignments are sought.
    ///
    /// # Errors
    /// `AllocError` where there is no memory.
    pub fn at_node(&self) -> Result<Account, AllocError>
        requires { self.now.mode ≢ Best }
        ensures { IfOk result (λ c. c ≡ begun self.now.model All (node_below self.now.after) None) }
    {
        let model = self.model.clone()?;
        match Account::begin(model, Mode::All, self.after.node()?, None) {
            Ok(account) => Ok(account),
            Err(_) => Err(AllocError),
        }
    }

    /// What it found, what it knows, what it gave and what is left. It takes no memory.
    pub fn into_parts(self) -> Parts
        ensures parts { AreParts self result }
        ensures law { AccountLaw self }
    {
        Parts {
            found: self.found,
            witness: self.witness,
            given: self.given,
            after: self.after,
        }
    }

    /// An account of what would be left if a part were cut off.
    fn rest_of_cut(&self) -> Result<Account, AllocError>
        requires { can_cut self.now.after ≡ true }
        ensures { IfOk result (λ c. c ≡ rest_begun (with_given self.now)) }
    {
        let mut after = self.after.copy()?;
        after.drop_part();
        self.begun_anew(after)
    }

    /// An account of what is left.
    fn rest(&self) -> Result<Account, AllocError>
        ensures { IfOk result (λ c. c ≡ rest_begun self.now) }
    {
        self.begun_anew(self.after.copy()?)
    }

    /// An account of a frontier, begun with what is known here.
    fn begun_anew(&self, frontier: Frontier) -> Result<Account, AllocError>
        ensures { IfOk result
            (λ c. c ≡ begun self.now.model self.now.mode frontier self.now.witness) }
    {
        let model = self.model.clone()?;
        let witness = copy_of(&self.witness)?;
        match Account::begin(model, self.mode, frontier, witness) {
            Ok(account) => Ok(account),
            Err(_) => Err(AllocError),
        }
    }
}

fn copy_of(witness: &Option<Assignment>) -> Result<Option<Assignment>, AllocError>
    ensures { IfOk result (λ o. o ≡ witness.now) }
{
    match witness {
        Some(assignment) => Ok(Some(assignment.copy()?)),
        None => Ok(None),
    }
}

fn found_copies(alloc: Global, found: &[Assignment]) -> Result<Vec<Assignment>, AllocError>
    ensures { IfOk result (λ v. v.items ≡ found.now) }
{
    let mut copies = Vec::with_capacity(alloc, found.len())?;
    for assignment in found {
        copies.push(assignment.copy()?)?;
    }
    Ok(copies)
}

fn given_copies(alloc: Global, given: &[Frontier]) -> Result<Vec<Frontier>, AllocError>
    ensures { IfOk result (λ v. v.items ≡ given.now) }
{
    let mut copies = Vec::with_capacity(alloc, given.len())?;
    for frontier in given {
        copies.push(frontier.copy()?)?;
    }
    Ok(copies)
}
