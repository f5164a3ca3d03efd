//! Paths, books and solutions of one subject: what stands behind a lock keeps the fact that it is of the same model.
ghost use Rattle.std.specs.Prelude.{◌≡◌, ◌≤◌, ◌↔◌, ◌<◌, ◌^◌, ◌⊎◌, false, nat_abs, option_and_then, IfNone, IfOk, IfSome, MatchOption, OnErr, OnOk, OnSome};
ghost use Rattle.fz_spec.specs.Instance as instance;
ghost use Rattle.fz_tree.specs.Book.{BookLaw, Claims, IsOpen, Takes};
ghost use Rattle.fz_book.specs.Needs.{found_needed, given_needed};
ghost use Rattle.fz_book.specs.Offering.{Offers};
ghost use Rattle.fz_book.specs.Outcomes.{IsForeign, IsStranger, IsTaken, LacksMemory};
ghost use Rattle.fz_collect.specs.Subjects.{IsBookOf};
ghost use Rattle.fz_path.specs.Paths.{bare, can_cut_held, held_behind, with_held};
ghost use Rattle.fz_path.specs.Cuts.{held_behind_cut};
ghost use Rattle.fz_path.specs.Starts.{GivesBack, IsStarted};
ghost use Rattle.fz_team.specs.Members.{IsTaskOf};
ghost use Rattle.fz_team.specs.OwnCuts.{IsOwnCutOf};

use crate::score::score_of;
use fz_book::{Book, Offered, Taken};
use fz_collect::{OwnAccount, Solution, Subject};
use fz_model::{Assignment, Model};
use fz_path::{Path, Start, Step, Task};
use fz_region::Frontier;
use fz_search_space::SearchSpace;
use std::alloc::AllocError;
use std::marker::PhantomData;

/// A path of the subject's model and mode.
#[derive(Drop)]
pub struct OwnPath<S: SearchSpace, T: Subject> {
    path: Path<S>,
    subject: PhantomData<T>,
}

impl<S: SearchSpace, T: Subject> std::marker::Model for OwnPath<S, T> {
    ghost use Rattle.std.specs.Prelude.{◌≡◌};
    ghost use Rattle.fz_path.specs.Paths.{Walked};

    ghost Value = { Walked };

    ghost view = { λ p. p.path };

    ghost invariant = { λ p. (p.path.model ≡ T.model) × (p.path.mode ≡ T.mode) };
}

/// A solution of the subject, and its score.
#[derive(Drop)]
pub struct Scored<T: Subject> {
    pub solution: Solution<T>,
    pub score: u64,
    pub ghost is: { score ≡ nat_abs (instance.score T.model solution) },
    pub ghost small: { score < 2 ^ 32 },
}

/// A part that was cut off, and the account that names it as given.
#[derive(Drop)]
pub struct OwnCut<S: SearchSpace, T: Subject> {
    pub task: Task<S>,
    pub account: OwnAccount<T>,
}

impl<S: SearchSpace, T: Subject> OwnPath<S, T> {
    /// A path of the subject's model and mode.
    pub fn new(path: Path<S>) -> OwnPath<S, T>
        requires { (path.model ≡ T.model) × (path.mode ≡ T.mode) }
        ensures { result ≡ path }
    {
        OwnPath {
            path,
            subject: PhantomData,
        }
    }

    /// The path.
    pub fn path(&self) -> &Path<S>
        ensures path { result.now ≡ self.now }
        ensures own { (self.now.model ≡ T.model) × (self.now.mode ≡ T.mode) }
    {
        &self.path
    }

    /// Looks at one node, as `step` of a path does.
    ///
    /// # Errors
    /// `AllocError` where there is no memory; then it may have moved to that node.
    pub fn step(&mut self) -> Result<Step, AllocError>
        ensures { bare self.new ≡ with_held (bare self.old) self.new.held }
    {
        self.path.step()
    }

    /// What it knows, with its score.
    ///
    /// # Errors
    /// `AllocError` where there is no memory.
    pub fn known(&self) -> Result<Option<Scored<T>>, AllocError> {
        match self.path.known() {
            Some(known) => Ok(Some(with_score(self.path.model(), known)?)),
            None => Ok(None),
        }
    }

    /// Takes in a solution, as `learn` of a path does.
    ///
    /// # Errors
    /// `AllocError` where there is no memory; the path is as before.
    pub fn learn(&mut self, best: &Solution<T>) -> Result<(), AllocError>
        ensures { OnErr result (self.new ≡ self.old) }
    {
        self.path.learn_found(best.assignment())?;
        Ok(())
    }

    /// Takes up a task with which no space of another model comes.
    pub fn start(&mut self, task: Task<S>) -> Start<Task<S>>
        requires { IsTaskOf T.model task }
        ensures same { (IsStarted result → ⊥) → self.new ≡ self.old }
        ensures back { GivesBack result task }
    {
        self.path.start_own(task)
    }

    /// Hands out the account of what was done, as `report` of a path does.
    ///
    /// # Errors
    /// `AllocError` where there is no memory; the path is as before.
    pub fn report(&mut self) -> Result<Option<OwnAccount<T>>, AllocError>
        ensures account { IfOk result (λ o. o ≡ self.old.held) }
        ensures rest { OnOk result (bare self.new
            ≡ with_held (bare self.old) (option_and_then held_behind self.old.held)) }
        ensures err { OnErr result (self.new ≡ self.old) }
    {
        let _ = self.path.model();
        match self.path.report()? {
            Some(account) => Ok(Some(OwnAccount::new(account))),
            None => Ok(None),
        }
    }

    /// Cuts a part off what it holds, as `cut` of a path does.
    ///
    /// # Errors
    /// `AllocError` where there is no memory; the path is as before.
    pub fn cut(&mut self) -> Result<Option<OwnCut<S, T>>, AllocError>
        ensures cut { IfOk result (λ o. MatchOption o (can_cut_held self.old.held ≡ false)
            (λ cut. IsOwnCutOf cut self.old)) }
        ensures rest { IfOk result (λ o. OnSome o (bare self.new ≡ with_held
            (bare self.old) (option_and_then held_behind_cut self.old.held))) }
        ensures none { IfOk result (λ o. IfNone o (self.new ≡ self.old)) }
        ensures err { OnErr result (self.new ≡ self.old) }
    {
        let _ = self.path.model();
        match self.path.cut()? {
            Some(cut) => Ok(Some(OwnCut {
                task: cut.task,
                account: OwnAccount::new(cut.account),
            })),
            None => Ok(None),
        }
    }
}

/// A book of the subject's model and mode.
#[derive(Drop)]
pub struct OwnBook<T: Subject> {
    book: Book,
    subject: PhantomData<T>,
}

impl<T: Subject> std::marker::Model for OwnBook<T> {
    ghost use Rattle.fz_book.specs.Room.{Roomy};
    ghost use Rattle.fz_collect.specs.Subjects.{IsBookOf};

    ghost Value = { Roomy };

    ghost view = { λ b. b.book };

    ghost invariant = { λ b. IsBookOf T.model T.mode b.book.book };
}

impl<T: Subject> OwnBook<T> {
    /// A book of the subject's model and mode.
    pub fn new(book: Book) -> OwnBook<T>
        requires { IsBookOf T.model T.mode book.book }
        ensures { result ≡ book }
    {
        OwnBook {
            book,
            subject: PhantomData,
        }
    }

    /// The book.
    pub fn book(&self) -> &Book
        ensures book { result.now ≡ self.now }
        ensures own { IsBookOf T.model T.mode self.now.book }
    {
        &self.book
    }

    /// The book alone.
    pub fn into_book(self) -> Book
        ensures book { result ≡ self }
        ensures own { IsBookOf T.model T.mode self.book }
        ensures law { BookLaw self.book }
    {
        let _ = self.book.model();
        self.book
    }

    /// Makes room for at least that many more assignments that are found, and frontiers that were given.
    ///
    /// # Errors
    /// `AllocError` where there is no memory; the book is as before, but for its room.
    pub fn make_room(&mut self, found: u64, given: u32) -> Result<(), AllocError>
        ensures found { OnOk result (found ≤ self.new.found_room) }
        ensures given { OnOk result (given ≤ self.new.given_room) }
        ensures book { self.new.book ≡ self.old.book }
    {
        self.book.make_room(found, given)
    }

    /// Takes an account, as `take_own` of a book does.
    pub fn take(&mut self, account: OwnAccount<T>) -> Taken
        ensures taken { IsTaken result → Takes self.old.book account self.new.book }
        ensures same { (IsTaken result → ⊥) → self.new.book ≡ self.old.book }
        ensures own { IsForeign result → ⊥ }
        ensures stranger { IsStranger result ↔ (IsOpen self.old.book account.before → ⊥) }
        ensures room { LacksMemory result → (self.old.found_room < found_needed account)
            ⊎ (self.old.given_room < given_needed account) }
    {
        self.book.take_own(account.into_account())
    }

    /// Records a solution that is better than the incumbent, as `offer_found` of a book does.
    ///
    /// # Errors
    /// `AllocError` where there is no memory; the book is as before, but for its room.
    pub fn offer(&mut self, solution: Solution<T>) -> Result<Offered, AllocError>
        ensures ok { IfOk result (λ o. Offers o self.old.book solution self.new.book) }
        ensures err { OnErr result (self.new.book ≡ self.old.book) }
    {
        match self.book.offer_found(solution.into_assignment()) {
            Ok(offered) => Ok(offered),
            Err(_) => Err(AllocError),
        }
    }

    /// Claims the first open frontier that nobody has claimed, and hands out a copy, if there is one.
    ///
    /// # Errors
    /// `AllocError` where there is no memory; the book is as before.
    pub fn claim(&mut self) -> Result<Option<Frontier>, AllocError>
        ensures some { IfOk result (λ o. IfSome o (λ f. Claims self.old.book f self.new.book)) }
        ensures none { IfOk result (λ o. IfNone o (self.new ≡ self.old)) }
        ensures err { OnErr result (self.new ≡ self.old) }
    {
        self.book.claim()
    }

    /// The best that is recorded, with its score. A search for all satisfying assignments has none.
    ///
    /// # Errors
    /// `AllocError` where there is no memory.
    pub fn incumbent(&self) -> Result<Option<Scored<T>>, AllocError> {
        match self.book.incumbent() {
            Some(best) => Ok(Some(with_score(self.book.model(), best)?)),
            None => Ok(None),
        }
    }

    /// Lets go of all that is recorded but the last.
    pub fn keep_last(&mut self)
        ensures { self.new.book ≡ self.old.book }
    {
        self.book.keep_last();
    }
}

/// A copy of an assignment that satisfies, with its score.
fn with_score<T: Subject>(model: &Model, assignment: &Assignment) -> Result<Scored<T>, AllocError>
    requires model { model.now ≡ T.model }
    requires satisfies { instance.Satisfies T.model assignment.now }
{
    let score = score_of(model, assignment);
    Ok(Scored {
        solution: Solution::new(assignment.copy()?),
        score,
    })
}
