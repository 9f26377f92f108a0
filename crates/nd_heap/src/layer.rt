//! `Layer`: one layer of a table, which it has alone or shares with its versions.

ghost use Rattle.std.specs.Prelude.{◌≡◌, ◌⊎◌, IfOk};
ghost use Rattle.nd_heap.specs.Sharing.{held_in};

use std::alloc::AllocError;
use std::rc::Rc;

/// How many entries the newer layers of a table have at most behind a statement, at a replay and in a copy: more are put among the old
/// ones, which copies all.
pub(crate) const MOST_NEWER: usize = 512;

/// How many entries the newer layers of a table have at most that is copied once for each cell, by how many its old one has: to copy
/// these for some cells then costs about what it costs to put them among the old ones.
pub(crate) fn most_copied(old: usize) -> usize {
    (old / 32).clamp(32, 256)
}

/// One layer of a table: its own, which takes no memory while empty, or one that versions share.
#[derive(Drop)]
pub(crate) enum Layer<T> {
    Own(T),
    Shared(Rc<T>),
}

impl<T> Layer<T> {
    /// What the layer holds.
    pub(crate) fn as_ref(&self) -> &T
        ensures { result.now ≡ held_in self.now }
    {
        match self {
            Layer::Own(own) => own,
            Layer::Shared(shared) => shared.as_ref(),
        }
    }

    /// A copy of the layer: one that versions share is not copied.
    pub(crate) fn try_clone(&self) -> Result<Layer<T>, AllocError>
    where
        T: Clone,
        ensures { IfOk result (λ l. (held_in l ≡ held_in self.now)
            ⊎ T.is_clone (held_in self.now) (held_in l)) }
    {
        match self {
            Layer::Own(own) => Ok(Layer::Own(own.clone()?)),
            Layer::Shared(shared) => Ok(Layer::Shared(shared.clone()?)),
        }
    }

    /// Whether no version shares the layer.
    pub(crate) fn is_own(&self) -> bool {
        match self {
            Layer::Own(_) => true,
            Layer::Shared(shared) => Rc::strong_count(shared) == 1,
        }
    }
}
