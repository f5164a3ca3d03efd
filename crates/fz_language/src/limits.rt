//! A limit of the grammar; those of a text and of its model stand in fz_spec.

/// The most levels of brackets that may be open inside an annotation, each `(` and each `[` one of them (fzn's own).
pub const LEVEL_LIMIT: u32 = 64;
