//! Programs.
use crate::annotation::Annotation;
use crate::expression::Basic;
use crate::item::Item;

/// What the solve item asks for, with the place of its word.
#[derive(Drop)]
pub enum Method<'a> {
    Satisfy { at: u32 },
    Minimize { at: u32, objective: Basic<'a> },
    Maximize { at: u32, objective: Basic<'a> },
}

/// `solve :: annotation .. method;`
#[derive(Drop)]
pub struct SolveItem<'a> {
    pub annotations: Vec<Annotation<'a>>,
    pub method: Method<'a>,
}

/// The items of a text, in its order, the last of them the solve item.
#[derive(Drop)]
pub struct Program<'a> {
    pub items: Vec<Item<'a>>,
    pub solve: SolveItem<'a>,
}
