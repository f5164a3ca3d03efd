//! Arrays that are declared. All that name one share its list.
ghost use Rattle.std.specs.Prelude.{◌≡◌, ◌++◌, ◌∷◌, [], IfOk, OnOk, map, option_map};
ghost use Rattle.fz_language.specs.Entries as entries;
ghost use Rattle.fz_language.specs.Search.{variables_of_terms};
ghost use Rattle.fz_model.specs.Arguments.{argument_of};

use fz_model::{Argument, Kind, Listed, Term};
use fz_spec::asked::Element;
use std::alloc::{AllocError, Global};
use std::marker::Model;
use std::sync::Arc;

/// An array of numbers.
#[derive(Drop)]
pub struct NumberList {
    kind: Kind,
    numbers: Arc<Vec<i32>>,
    /// The same, where variables serve too.
    terms: Arc<Vec<Term>>,
}

impl Model for NumberList {
    ghost use Rattle.std.specs.Prelude.{◌≡◌, ℤ, map};
    ghost use Rattle.fz_spec.specs.declared.term.Term.TheVariants.{Num};
    ghost use Rattle.fz_resolve.specs.Arrays.{Array};

    ghost Value = { Array ℤ };

    ghost view = { λ l. record { kind = l.kind; items = l.numbers.value.items } };

    ghost invariant = { λ l. l.terms.value.items ≡ map Num l.numbers.value.items };
}

impl NumberList {
    /// The array of these numbers.
    ///
    /// # Errors
    /// `AllocError` where there is no memory for its lists.
    pub fn new(alloc: Global, kind: Kind, numbers: Vec<i32>) -> Result<NumberList, AllocError>
        ensures { IfOk result (λ l. l ≡ record { kind = kind; items = numbers.items }) }
    {
        let terms = Arc::new(alloc, number_terms(alloc, &numbers)?)?;
        let numbers = Arc::new(alloc, numbers)?;
        Ok(NumberList {
            kind,
            numbers,
            terms,
        })
    }

    /// The list that it is, if it is what is asked: of terms where variables serve too.
    ///
    /// # Errors
    /// `AllocError` where the list is shared too often.
    pub fn list(&self, asked: Element) -> Result<Option<Argument>, AllocError>
        ensures { IfOk result (λ found. option_map argument_of found
            ≡ entries.entry_list asked (entries.Numbers self.now.kind self.now.items)) }
    {
        if self.kind != asked.kind {
            return Ok(None);
        }
        Ok(Some(if asked.may_vary {
            Argument::Terms(Listed::shared(self.terms.clone()?))
        } else {
            Argument::Numbers(Listed::shared(self.numbers.clone()?))
        }))
    }
}

/// An array of variables and numbers.
#[derive(Drop)]
pub struct TermList {
    kind: Kind,
    terms: Arc<Vec<Term>>,
    /// The variables among them.
    variables: Arc<Vec<u32>>,
}

impl Model for TermList {
    ghost use Rattle.std.specs.Prelude.{◌≡◌};
    ghost use Rattle.fz_spec.specs.declared.term.Term.{Term};
    ghost use Rattle.fz_language.specs.Search.{variables_of_terms};
    ghost use Rattle.fz_resolve.specs.Arrays.{Array};

    ghost Value = { Array Term };

    ghost view = { λ l. record { kind = l.kind; items = l.terms.value.items } };

    ghost invariant = { λ l. l.variables.value.items ≡ variables_of_terms l.terms.value.items };
}

impl TermList {
    /// The array of these terms.
    ///
    /// # Errors
    /// `AllocError` where there is no memory for its lists.
    pub fn new(alloc: Global, kind: Kind, terms: Vec<Term>) -> Result<TermList, AllocError>
        ensures { IfOk result (λ l. l ≡ record { kind = kind; items = terms.items }) }
    {
        let variables = Arc::new(alloc, variables_of(alloc, &terms)?)?;
        let terms = Arc::new(alloc, terms)?;
        Ok(TermList {
            kind,
            terms,
            variables,
        })
    }

    /// The kind of its elements.
    pub fn kind(&self) -> Kind
        ensures { result ≡ self.now.kind }
    {
        self.kind
    }

    /// Its elements.
    pub fn terms(&self) -> &[Term]
        ensures { result.now ≡ self.now.items }
    {
        &self.terms
    }

    /// Its elements, as a list that is shared.
    ///
    /// # Errors
    /// `AllocError` where the list is shared too often.
    pub fn shared(&self) -> Result<Listed<Term>, AllocError>
        ensures { IfOk result (λ l. l ≡ self.now.items) }
    {
        Ok(Listed::shared(self.terms.clone()?))
    }

    /// The list that it is, if it is what is asked.
    ///
    /// # Errors
    /// `AllocError` where the list is shared too often.
    pub fn list(&self, asked: Element) -> Result<Option<Argument>, AllocError>
        ensures { IfOk result (λ found. option_map argument_of found
            ≡ entries.entry_list asked (entries.Terms self.now.kind self.now.items)) }
    {
        if self.kind != asked.kind || !asked.may_vary {
            return Ok(None);
        }
        Ok(Some(Argument::Terms(self.shared()?)))
    }

    /// The variables among its elements.
    ///
    /// # Errors
    /// `AllocError` where the list is shared too often.
    pub fn variables(&self) -> Result<Listed<u32>, AllocError>
        ensures { IfOk result (λ l. l ≡ variables_of_terms self.now.items) }
    {
        Ok(Listed::shared(self.variables.clone()?))
    }
}

/// Numbers as terms.
fn number_terms(alloc: Global, numbers: &[i32]) -> Result<Vec<Term>, AllocError>
    ensures { IfOk result (λ terms. terms.items ≡ map Term.Num numbers.now) }
{
    let mut terms = Vec::with_capacity(alloc, numbers.len())?;
    for number in numbers {
        terms.push(Term::Num(*number))?;
    }
    Ok(terms)
}

/// The variables among terms.
fn variables_of(alloc: Global, terms: &[Term]) -> Result<Vec<u32>, AllocError>
    ensures { IfOk result (λ variables. variables.items ≡ variables_of_terms terms.now) }
{
    let mut variables = Vec::with_capacity(alloc, terms.len())?;
    for term in terms {
        push_term(&mut variables, *term)?;
    }
    Ok(variables)
}

/// Adds a variable; a number is passed over.
fn push_term(variables: &mut Vec<u32>, term: Term) -> Result<(), AllocError>
    ensures { OnOk result (variables.new.items ≡ variables.old.items
        ++ variables_of_terms (term ∷ [])) }
{
    if let Term::Var(variable) = term {
        variables.push(variable)?;
    }
    Ok(())
}
