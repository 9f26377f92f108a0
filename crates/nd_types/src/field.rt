//! `Field`: a named number inside a structured dtype.
ghost use Rattle.std.specs.Prelude.{◌≡◌, IsTrue, ◌↔◌};
ghost use Rattle.nd_types.specs.Fields.{field_of};

use crate::elem::Elem;

/// A field of a structure: its name, the offset in bytes inside the structure, and its dtype.
#[derive(Drop)]
pub struct Field {
    pub name: String,
    pub at: u32,
    pub elem: Elem,
}

impl Field {
    // Whether both have the same name, offset and dtype.
    pub(crate) fn is_same(&self, other: &Field) -> bool
        ensures { IsTrue result ↔ (field_of self.now ≡ field_of other.now) }
    {
        self.at == other.at && self.elem == other.elem && self.name.as_str() == other.name.as_str()
    }
}
