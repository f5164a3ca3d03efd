//! What several workers search, as a type, so that what they tell each other keeps the fact that it is of the same model.
ghost use Rattle.std.specs.Prelude.{◌≡◌, IfOk};
ghost use Rattle.fz_spec.specs.Instance.{Instance, Satisfies};
ghost use Rattle.fz_tree.specs.declared.mode.Mode.{Mode};
ghost use Rattle.fz_tree.specs.declared.mode.Mode.TheVariants as modes;
ghost use Rattle.fz_tree.specs.Account.{AccountLaw};
ghost use Rattle.fz_collect.specs.Subjects.{IsAbout, empty_model};

use fz_account::Account;
use fz_model::Assignment;
use std::alloc::AllocError;
use std::marker::{Brand, Model, PhantomData};

/// The model that is searched, and what is sought. Only contracts see them; who begins a search picks them.
pub trait Subject {
    ghost model: { Instance };

    ghost mode: { Mode };
}

impl Subject for Brand {
    ghost model = { empty_model };

    ghost mode = { modes.All };
}

/// An account of the subject's model and mode.
#[derive(Drop)]
pub struct OwnAccount<T: Subject> {
    account: Account,
    subject: PhantomData<T>,
}

impl<T: Subject> Model for OwnAccount<T> {
    ghost use Rattle.fz_tree.specs.Account as accounts;
    ghost use Rattle.fz_collect.specs.Subjects.{IsAbout};

    ghost Value = { accounts.Account };

    ghost view = { λ a. a.account };

    ghost invariant = { λ a. IsAbout T.model T.mode a.account };
}

impl<T: Subject> OwnAccount<T> {
    /// An account of the subject's model and mode.
    pub fn new(account: Account) -> OwnAccount<T>
        requires { IsAbout T.model T.mode account }
        ensures { result ≡ account }
    {
        OwnAccount {
            account,
            subject: PhantomData,
        }
    }

    /// The account.
    pub fn account(&self) -> &Account
        ensures account { result.now ≡ self.now }
        ensures about { IsAbout T.model T.mode self.now }
    {
        &self.account
    }

    /// Another that is the same.
    ///
    /// # Errors
    /// `AllocError` where there is no memory.
    pub fn copy(&self) -> Result<OwnAccount<T>, AllocError>
        ensures { IfOk result (λ c. c ≡ self.now) }
    {
        Ok(OwnAccount::new(self.account.copy()?))
    }

    /// The account alone.
    pub fn into_account(self) -> Account
        ensures account { result ≡ self }
        ensures about { IsAbout T.model T.mode self }
        ensures law { AccountLaw self }
    {
        let _ = self.account.model();
        self.account
    }
}

/// An assignment that satisfies the subject's model.
#[derive(Drop)]
pub struct Solution<T: Subject> {
    assignment: Assignment,
    subject: PhantomData<T>,
}

impl<T: Subject> Model for Solution<T> {
    ghost use Rattle.std.specs.Prelude.{ℤ, List};
    ghost use Rattle.fz_spec.specs.Instance.{Satisfies};

    ghost Value = { List ℤ };

    ghost view = { λ s. s.assignment };

    ghost invariant = { λ s. Satisfies T.model s.assignment };
}

impl<T: Subject> Solution<T> {
    /// An assignment that satisfies the subject's model.
    pub fn new(assignment: Assignment) -> Solution<T>
        requires { Satisfies T.model assignment }
        ensures { result ≡ assignment }
    {
        Solution {
            assignment,
            subject: PhantomData,
        }
    }

    /// The assignment.
    pub fn assignment(&self) -> &Assignment
        ensures assignment { result.now ≡ self.now }
        ensures satisfies { Satisfies T.model self.now }
    {
        &self.assignment
    }

    /// Another that is the same.
    ///
    /// # Errors
    /// `AllocError` where there is no memory.
    pub fn copy(&self) -> Result<Solution<T>, AllocError>
        ensures { IfOk result (λ s. s ≡ self.now) }
    {
        Ok(Solution::new(self.assignment.copy()?))
    }

    /// The assignment alone.
    pub fn into_assignment(self) -> Assignment
        ensures assignment { result ≡ self }
        ensures satisfies { Satisfies T.model self }
    {
        self.assignment
    }
}
