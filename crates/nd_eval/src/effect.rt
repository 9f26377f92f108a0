//! `Effect`: what a statement will do once all of it is evaluated. At most one effect, carried out
//! last: so a refused statement changes nothing.

use crate::choosing::Selection;
use nd_session::session::{Array, Base, Value};
use nd_syntax::trees::BinaryOp;
use nd_types::Kind;

/// What a statement will do, once it is evaluated.
///
/// ```text
/// print(x)      Print          x[1:] = 0     Store
/// y = x + 1     Bind           x[mask] = 0   Scatter
/// del y         Unbind         x += 1        Update
/// np.save(..)   Save           x[mask] += 1  UpdateChosen
/// ```
#[derive(Drop)]
pub(crate) enum Effect {
    Nothing,
    Print(String),
    /// A file is saved under a name.
    Save(String, Vec<u8>),
    Bind(String, Value),
    Unbind(String),
    /// A value is assigned to the elements of an array.
    Store(Array, Value),
    /// A value is assigned to the elements of a block that an advanced index selects.
    Scatter(Base, Selection, Value),
    /// An operator in place, of this kind, is applied to an array and a value.
    Update(Kind, BinaryOp, Array, Value),
    /// An operator of this kind is applied to a copy of the elements that an advanced index selects
    /// in a block. The results are assigned.
    UpdateChosen(Kind, BinaryOp, Base, Selection, Array, Value),
}
