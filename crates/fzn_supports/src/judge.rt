//! Whether what a space leaves is what the assignments say.
use crate::numbers::Declared;
use crate::rows::Rest;
use fz_dom::Dom;
use fz_model::{Assignment, Model};
use fz_search_space::{SearchSpace, Status};
use fz_space::Space;
use fz_truth::holds;
use std::alloc::{AllocError, Global};

/// What is to be left of a store: the assignments that satisfy its model, and of its numbers what a rest says.
#[derive(Drop)]
pub struct Due<'a> {
    declared: [&'a Declared; 3],
    solutions: Vec<&'a Assignment>,
    rest: Rest,
}

/// What a space at rest says, and whether that is what is due.
#[derive(Clone, Copy)]
pub struct Judgement {
    pub status: Status,
    pub agrees: bool,
}

impl<'a> Due<'a> {
    /// What is due of the model of a store, where these are all assignments that may satisfy it.
    pub fn new(
        alloc: Global,
        model: &Model,
        declared: [&'a Declared; 3],
        assignments: &'a [Assignment],
        rest: Rest,
    ) -> Result<Due<'a>, AllocError> {
        Ok(Due {
            declared,
            solutions: solutions(alloc, model, assignments)?,
            rest,
        })
    }

    /// How many assignments satisfy.
    pub fn solutions(&self) -> usize {
        self.solutions.len()
    }

    /// What a space of the store says at rest.
    pub fn judge(&self, space: &mut Space) -> Result<Judgement, AllocError> {
        let status = space.status()?;
        let agrees = self.agrees(status, space.store().doms());
        Ok(Judgement { status, agrees })
    }

    /// Whether a status and what is left are what is due.
    fn agrees(&self, status: Status, doms: &[Dom]) -> bool {
        let solutions = &self.solutions;
        match status {
            Status::Failed => solutions.is_empty(),
            Status::Solved => solutions.len() == 1 && are_fixed(doms) && are_left(doms, solutions),
            Status::Branch => {
                !are_fixed(doms)
                    && are_left(doms, solutions)
                    && are_due(doms, self.declared, solutions, self.rest)
            }
        }
    }
}

/// Those of some assignments that satisfy a model.
fn solutions<'a>(
    alloc: Global,
    model: &Model,
    assignments: &'a [Assignment],
) -> Result<Vec<&'a Assignment>, AllocError> {
    let mut solutions = Vec::new(alloc);
    for assignment in assignments {
        if holds(model, assignment) {
            solutions.push(assignment)?;
        }
    }
    Ok(solutions)
}

/// One number is left of each variable.
fn are_fixed(doms: &[Dom]) -> bool {
    doms.iter().all(|dom| dom.is_fixed())
}

/// Each of some assignments is left.
fn are_left(doms: &[Dom], assignments: &[&Assignment]) -> bool {
    assignments
        .iter()
        .all(|assignment| is_left(doms, assignment.values()))
}

/// Each of some numbers is left of its variable.
fn is_left(doms: &[Dom], values: &[i32]) -> bool {
    doms.len() == values.len()
        && doms
            .iter()
            .zip(values)
            .all(|(dom, value)| dom.contains(*value))
}

/// What is left of each variable was declared, and where nothing else is to be left some solution has it.
fn are_due(doms: &[Dom], declared: [&Declared; 3], solutions: &[&Assignment], rest: Rest) -> bool {
    for (place, dom) in doms.iter().enumerate() {
        let Some(declared) = declared.get(place) else {
            return false;
        };
        if !is_within(dom, &declared.numbers) {
            return false;
        }
        if rest == Rest::Exact && !are_used(dom, place, &declared.numbers, solutions) {
            return false;
        }
    }
    rest != Rest::Ends || !are_in_a_row(declared) || are_ends_used(doms, solutions)
}

/// The numbers of each variable follow each other.
fn are_in_a_row(declared: [&Declared; 3]) -> bool {
    declared.iter().all(|one| is_in_a_row(&one.numbers))
}

/// Some rising numbers follow each other.
fn is_in_a_row(numbers: &[i32]) -> bool {
    match numbers {
        [first, .., last] => last.abs_diff(*first) as usize == numbers.len() - 1,
        _ => true,
    }
}

/// The least and the greatest number that is left of each variable are its numbers in some assignments.
fn are_ends_used(doms: &[Dom], assignments: &[&Assignment]) -> bool {
    for (place, dom) in doms.iter().enumerate() {
        if dom.is_empty()
            || !is_used(place, dom.min(), assignments)
            || !is_used(place, dom.max(), assignments)
        {
            return false;
        }
    }
    true
}

/// All that is left of a variable is among some numbers, which are distinct.
fn is_within(dom: &Dom, numbers: &[i32]) -> bool {
    let left = numbers
        .iter()
        .filter(|number| dom.contains(**number))
        .count();
    dom.size() == left as u64
}

/// Those of some numbers that are left of the variable at a place are its numbers in some assignments.
fn are_used(dom: &Dom, place: usize, numbers: &[i32], assignments: &[&Assignment]) -> bool {
    numbers.iter().all(|number| !dom.contains(*number) || is_used(place, *number, assignments))
}

/// Some assignment has a number at a place.
fn is_used(place: usize, number: i32, assignments: &[&Assignment]) -> bool {
    assignments.iter().any(|assignment| assignment.values().get(place).copied() == Some(number))
}
