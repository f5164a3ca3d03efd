//! Spaces of all numbers, and what becomes of them as numbers are taken away.
use crate::numbers::Declared;
use fz_model::Model;
use fz_reader::model_of;
use fz_region::{Choice, Comparison, Decision};
use fz_search_space::SearchSpace;
use fz_space::Space;
use std::alloc::{AllocError, Global};
use std::sync::Arc;

/// The space of three variables that are declared with all numbers, at rest.
#[derive(Drop)]
pub struct Widest<'a> {
    x: &'a Declared,
    y: &'a Declared,
    z: &'a Declared,
    space: Space,
}

impl<'a> Widest<'a> {
    pub fn new(
        alloc: Global,
        model: Arc<Model>,
        declared: [&'a Declared; 3],
    ) -> Result<Widest<'a>, AllocError> {
        let mut space = space_of(alloc, model)?;
        let _ = space.status()?;
        let [x, y, z] = declared;
        Ok(Widest { x, y, z, space })
    }

    /// A copy that comes to rest each time that a variable has lost the numbers that a store lacks: what propagators keep between
    /// runs is used.
    pub fn narrowed(&self, alloc: Global, store: [&Declared; 3]) -> Result<Space, AllocError> {
        let [x, y, z] = store;
        let mut space = self.space.copy()?;
        narrow(alloc, &mut space, 0, self.x, x)?;
        narrow(alloc, &mut space, 1, self.y, y)?;
        narrow(alloc, &mut space, 2, self.z, z)?;
        Ok(space)
    }
}

/// Takes away from a variable those of all its numbers that a store lacks, and comes to rest.
fn narrow(
    alloc: Global,
    space: &mut Space,
    variable: u32,
    all: &Declared,
    store: &Declared,
) -> Result<(), AllocError> {
    for number in &all.numbers {
        if !store.numbers.contains(number) {
            take_away(alloc, space, variable, *number)?;
        }
    }
    let _ = space.status()?;
    Ok(())
}

/// Takes a number away from a variable.
fn take_away(
    alloc: Global,
    space: &mut Space,
    variable: u32,
    value: i32,
) -> Result<(), AllocError> {
    let decision = Decision {
        variable,
        comparison: Comparison::NotEqual,
        value,
    };
    space.commit(&Choice::two(alloc, decision), 0)
}

/// The model of a text, to be shared; `None` where the text is refused.
pub fn model_of_text(alloc: Global, text: &str) -> Result<Option<Arc<Model>>, AllocError> {
    match model_of(alloc, text.as_bytes())? {
        Ok(model) => Ok(Some(shared(alloc, model)?)),
        Err(_) => Ok(None),
    }
}

/// A model that may be shared.
fn shared(alloc: Global, model: Model) -> Result<Arc<Model>, AllocError> {
    match Arc::new(alloc, model) {
        Ok(model) => Ok(model),
        Err(_) => Err(AllocError),
    }
}

/// The space of a model.
pub fn space_of(alloc: Global, model: Arc<Model>) -> Result<Space, AllocError> {
    Ok(<Space as SearchSpace>::root(alloc, model)?)
}
