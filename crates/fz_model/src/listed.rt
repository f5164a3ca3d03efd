//! Lists that arguments share.
ghost use Rattle.std.specs.Prelude.{◌≡◌, IfOk};
ghost use Rattle.fz_model.specs.Lists.{items_of};

use std::alloc::AllocError;
use std::marker::Model;
use std::sync::Arc;

/// The list of a constraint, of a part of the search or of an output item: one of its own, or that of a named array, which all share
/// that name it.
#[derive(Drop)]
pub struct Listed<T> {
    owner: Owner<T>,
}

/// Who has a list.
#[derive(Drop)]
pub enum Owner<T> {
    One(Vec<T>),
    Many(Arc<Vec<T>>),
}

impl<T> Model for Listed<T> {
    ghost use Rattle.std.specs.Prelude.{List};
    ghost use Rattle.fz_model.specs.Lists.{items_of};

    ghost Value = { List T };

    ghost view = { λ l. items_of l.owner };
}

impl<T> Listed<T> {
    /// A list of its own. It takes no memory.
    pub fn own(items: Vec<T>) -> Listed<T>
        ensures { result ≡ items.items }
    {
        Listed {
            owner: Owner::One(items),
        }
    }

    /// The list of a named array. It takes no memory.
    pub fn shared(items: Arc<Vec<T>>) -> Listed<T>
        ensures { result ≡ items.value.items }
    {
        Listed {
            owner: Owner::Many(items),
        }
    }

    /// Its items, in order.
    pub fn as_slice(&self) -> &[T]
        ensures { result.now ≡ self.now }
    {
        match &self.owner {
            Owner::One(items) => items,
            Owner::Many(items) => items,
        }
    }
}

impl<T: Copy> Listed<T> {
    /// Another list of the same items. One that is shared is shared once more.
    pub fn copy(&self) -> Result<Listed<T>, AllocError>
        ensures { IfOk result (λ l. l ≡ self.now) }
    {
        match &self.owner {
            Owner::One(items) => Ok(Listed::own(Vec::from_slice(*items.allocator(), items)?)),
            Owner::Many(items) => Ok(Listed::shared(items.clone()?)),
        }
    }
}
