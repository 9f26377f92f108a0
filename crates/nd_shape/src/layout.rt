//! `Layout`: the lengths and strides of a new view.
ghost use Rattle.std.specs.Prelude.{◌≡◌, ◌++◌, [], ◌∷◌, OnOk, IfOk};

use smallvec::SmallVec;
use std::alloc::{AllocError, Global};

/// The length and the stride in bytes of each axis.
#[derive(Drop)]
pub(crate) struct Layout {
    pub(crate) lengths: SmallVec<u64, 32>,
    pub(crate) strides: SmallVec<i128, 32>,
}

impl Layout {
    /// Returns the layout without axes.
    pub(crate) fn new(alloc: Global) -> Layout
        ensures lengths { result.lengths.items ≡ [] }
        ensures strides { result.strides.items ≡ [] }
    {
        Layout {
            lengths: SmallVec::new(alloc),
            strides: SmallVec::new(alloc),
        }
    }

    /// Adds an axis behind the others.
    pub(crate) fn push(&mut self, length: u64, stride: i128) -> Result<(), AllocError>
        ensures lengths { OnOk result (self.new.lengths.items ≡ self.old.lengths.items
            ++ length ∷ []) }
        ensures strides { OnOk result (self.new.strides.items ≡ self.old.strides.items
            ++ stride ∷ []) }
    {
        self.lengths.push(length)?;
        self.strides.push(stride)?;
        Ok(())
    }
}
