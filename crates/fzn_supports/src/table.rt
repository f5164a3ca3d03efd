//! All stores of three variables, and what becomes of them under a constraint.
use crate::judge::{Due, Judgement};
use crate::numbers::{Declared, Numbers};
use crate::rows::Rest;
use crate::widest::{Widest, model_of_text, space_of};
use fz_model::Assignment;
use std::alloc::{AllocError, Global};

/// All declarations of the variables x, y and z, and all assignments of their numbers.
#[derive(Drop)]
pub struct Table {
    x: Vec<Declared>,
    y: Vec<Declared>,
    z: Vec<Declared>,
    assignments: Vec<Assignment>,
}

/// A constraint, and what is to be left under it.
#[derive(Clone, Copy)]
pub struct Row<'a> {
    pub constraint: &'a str,
    pub rest: Rest,
}

/// How many stores were looked at, and how many of these have no solution.
#[derive(Clone, Copy)]
struct Count {
    stores: u32,
    unsolvable: u32,
}

impl Table {
    pub fn new(alloc: Global, numbers: [Numbers; 3]) -> Result<Table, AllocError> {
        let [x, y, z] = numbers;
        Ok(Table {
            x: x.declarations(alloc, "x")?,
            y: y.declarations(alloc, "y")?,
            z: z.declarations(alloc, "z")?,
            assignments: assignments(alloc, numbers)?,
        })
    }

    /// Looks at all stores under a constraint, and prints a line for them; or one for the first that isn't as it must be. Each is
    /// looked at twice: as its own model declares it, and as it is narrowed from all numbers.
    pub fn compare(&self, rt: &HostRuntime, row: Row<'_>) -> Result<(), AllocError> {
        let Some(widest) = self.widest(rt, row)? else {
            return Ok(());
        };
        let mut count = Count {
            stores: 0,
            unsolvable: 0,
        };
        for x in &self.x {
            for y in &self.y {
                for z in &self.z {
                    if !self.look(rt, row, [x, y, z], &widest, &mut count)? {
                        return Ok(());
                    }
                }
            }
        }
        count.print(rt, row);
        Ok(())
    }

    /// The space of all numbers; `None` where its text is refused, which is printed. The last declaration of each has them all.
    fn widest(&self, rt: &HostRuntime, row: Row<'_>) -> Result<Option<Widest<'_>>, AllocError> {
        let (Some(x), Some(y), Some(z)) = (self.x.last(), self.y.last(), self.z.last()) else {
            return Ok(None);
        };
        let text = row.text(rt.alloc(), [x, y, z])?;
        match model_of_text(rt.alloc(), &text)? {
            Some(model) => Ok(Some(Widest::new(rt.alloc(), model, [x, y, z])?)),
            None => {
                row.print_refused(rt, &text);
                Ok(None)
            }
        }
    }

    /// Looks at one store twice; false where it isn't as it must be, which is printed.
    fn look<'a>(
        &'a self,
        rt: &HostRuntime,
        row: Row<'_>,
        declared: [&'a Declared; 3],
        widest: &Widest<'_>,
        count: &mut Count,
    ) -> Result<bool, AllocError> {
        let alloc = rt.alloc();
        let text = row.text(alloc, declared)?;
        let Some(model) = model_of_text(alloc, &text)? else {
            row.print_refused(rt, &text);
            return Ok(false);
        };
        let due = Due::new(alloc, &model, declared, &self.assignments, row.rest)?;
        let first = due.judge(&mut space_of(alloc, model)?)?;
        let second = due.judge(&mut widest.narrowed(alloc, declared)?)?;
        count.add(due.solutions());
        if first.agrees && second.agrees {
            return Ok(true);
        }
        row.print_wrong(rt, [first, second], due.solutions(), &text);
        Ok(false)
    }
}

impl Row<'_> {
    /// The model of a store.
    fn text(self, alloc: Global, declared: [&Declared; 3]) -> Result<String, AllocError> {
        let [x, y, z] = declared;
        let (x, y, z, constraint) = (&x.text, &y.text, &z.text, self.constraint);
        format!(in alloc; "{x} {y} {z} constraint {constraint}; solve satisfy;")
    }

    fn print_refused(self, rt: &HostRuntime, text: &str) {
        let _ = println!(rt; "{}: refused: {text}", self.constraint);
    }

    /// Says how a store was judged both times.
    fn print_wrong(
        self,
        rt: &HostRuntime,
        judgements: [Judgement; 2],
        solutions: usize,
        text: &str,
    ) {
        let [first, second] = judgements;
        let _ = println!(rt;
            "{}: declared {:?} ({}), narrowed {:?} ({}), with {solutions} solutions: {text}",
            self.constraint, first.status, first.agrees, second.status, second.agrees
        );
    }
}

impl Count {
    /// Counts a store of that many solutions.
    fn add(&mut self, solutions: usize) {
        self.stores = self.stores.saturating_add(1);
        if solutions == 0 {
            self.unsolvable = self.unsolvable.saturating_add(1);
        }
    }

    fn print(self, rt: &HostRuntime, row: Row<'_>) {
        let more = match row.rest {
            Rest::Exact => " and nothing else",
            Rest::Ends => ", and no other ends where numbers follow each other",
            Rest::Sound => "",
        };
        let _ = println!(rt;
            "{}: {} stores, {} without a solution, each keeps what satisfies{more}",
            row.constraint, self.stores, self.unsolvable
        );
    }
}

/// All assignments of three variables of these numbers, and others.
fn assignments(alloc: Global, numbers: [Numbers; 3]) -> Result<Vec<Assignment>, AllocError> {
    let [x, y, z] = numbers;
    let mut all = Vec::new(alloc);
    for i in 0..x.places() {
        for j in 0..y.places() {
            for k in 0..z.places() {
                let values = [x.at(i), y.at(j), z.at(k)];
                all.push(Assignment::new(alloc, &values)?)?;
            }
        }
    }
    Ok(all)
}
