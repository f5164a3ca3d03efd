//! Names of files.
ghost use Rattle.std.specs.Prelude.{◌≡◌, IfOk, string_bytes};

use std::alloc::{AllocError, Global};
use std::marker::Model;

/// The name of a file, which contracts see as its bytes.
#[derive(Drop)]
pub struct Name {
    inner: String,
}

impl Model for Name {
    ghost use Rattle.std.specs.Prelude.{ℕ, List, string_bytes};

    ghost Value = { List ℕ };

    ghost view = { λ n. string_bytes n.inner };
}

impl Name {
    /// The name that a text is.
    ///
    /// # Errors
    /// `AllocError` where there is no memory.
    pub fn new(alloc: Global, text: &str) -> Result<Name, AllocError>
        ensures { IfOk result (λ n. n ≡ text.now) }
    {
        let inner = String::from_str(alloc, text)?;
        Ok(Name { inner })
    }

    /// The name as a string slice.
    pub fn as_str(&self) -> &str
        ensures { result.now ≡ self.now }
    {
        self.inner.as_str()
    }
}
