//! Names.
ghost use Rattle.std.specs.Prelude.{◌≡◌, ◌↔◌, IfOk, IsTrue, string_bytes};

use crate::part::Part;
use std::alloc::AllocError;
use std::marker::Model;

/// A text, which contracts see as its bytes.
#[derive(Drop)]
pub struct Text {
    inner: String,
}

impl Model for Text {
    ghost use Rattle.std.specs.Prelude.{ℕ, List, string_bytes};

    ghost Value = { List ℕ };

    ghost view = { λ t. string_bytes t.inner };
}

impl Text {
    /// The text of a string. It takes no memory.
    pub fn new(inner: String) -> Text
        ensures { result ≡ string_bytes inner }
    {
        Text { inner }
    }

    /// The text as a string slice.
    pub fn as_str(&self) -> &str
        ensures { result.now ≡ self.now }
    {
        self.inner.as_str()
    }
}

impl Part for Text {
    fn copy(&self) -> Result<Text, AllocError> {
        let inner = String::from_str(*self.inner.allocator(), self.inner.as_str())?;
        Ok(Text { inner })
    }

    fn same(&self, other: &Text) -> bool {
        self.inner.as_str() == other.inner.as_str()
    }
}
