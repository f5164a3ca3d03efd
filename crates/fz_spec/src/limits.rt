//! The limits of a text and of its model: fzn's own, and the definitions and the code of every crate cite them here.

/// The most bytes of a text.
pub const TEXT_LIMIT: usize = 67_108_864;

/// The most variables of a model.
pub const VARIABLE_LIMIT: usize = 1_000_000;

/// The most constraints of a model, those that declarations add among them.
pub const CONSTRAINT_LIMIT: usize = 1_000_000;

/// The most elements that stand in the list literals and set literals of a text.
pub const ELEMENT_LIMIT: usize = 1_000_000;
