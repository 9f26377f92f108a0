//! `ElemType`: the dtype of an array's elements.
ghost use Rattle.std.specs.Prelude.{◌≡◌, ◌<◌, ◌≤◌, IfOk, IsTrue, ◌↔◌};
ghost use Rattle.nd_model.specs.Arrays.View.{Structure, item_size};
ghost use Rattle.nd_types.specs.Types.{type_of};

use crate::elem::Elem;
use crate::structure::RecType;
use std::alloc::{AllocError, Global};
use std::rc::Rc;

/// The dtype of an array's elements: one number, or a structure, which all clones share.
#[derive(Drop)]
pub enum ElemType {
    One(Elem),
    Rec(Rc<RecType>),
}

impl ElemType {
    /// Returns the dtype of elements that are this structure. An error means want of memory.
    pub fn of_structure(alloc: Global, structure: RecType) -> Result<ElemType, AllocError>
        ensures { IfOk result (λ t. type_of t ≡ Structure structure.0 structure.1) }
    {
        Ok(ElemType::Rec(Rc::new(alloc, structure)?))
    }

    /// Returns the itemsize in bytes, pad bytes among it.
    pub fn size(&self) -> u64
        ensures value { result ≡ item_size (type_of self.now) }
        ensures range { (0 < result) × (result ≤ 65536) }
    {
        match self {
            ElemType::One(elem) => elem.size(),
            ElemType::Rec(structure) => u64::from(structure.size()),
        }
    }

    /// Returns whether both are the same dtype.
    pub fn is_same(&self, other: &ElemType) -> bool
        ensures { IsTrue result ↔ (type_of self.now ≡ type_of other.now) }
    {
        match (self, other) {
            (ElemType::One(this), ElemType::One(that)) => this == that,
            (ElemType::Rec(this), ElemType::Rec(that)) => this.is_same(that),
            _ => false,
        }
    }

    /// Returns an equal dtype. The fields of a structure are shared, not copied.
    pub fn try_clone(&self) -> Result<ElemType, AllocError>
        ensures { IfOk result (λ t. type_of t ≡ type_of self.now) }
    {
        match self {
            ElemType::One(elem) => Ok(ElemType::One(*elem)),
            ElemType::Rec(structure) => Ok(ElemType::Rec(structure.clone()?)),
        }
    }
}
