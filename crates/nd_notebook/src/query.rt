//! `BoundValue`: the answers to queries for names and values.

ghost use Rattle.std.specs.Prelude.{◌≡◌, IfOk, map, string_bytes};
ghost use Rattle.nd_memory.specs.Want.{out_of_memory};
ghost use Rattle.nd_notebook.specs.Queries.{bound_of, shown_of};
ghost use Rattle.nd_notebook.specs.declared.query.QueryFault.TheVariants as faults;

use nd_session::session::{NameOrder, OutOfMemory, Value, Version};
use nd_types::{Kind, Num};
use nd_view::View;
use std::alloc::{AllocError, Global};

/// Why a query is refused.
#[derive(Clone, Copy, PartialEq, Eq)]
pub enum QueryFault {
    /// No cell has the position; with the number of cells.
    NoCell(usize, usize),
    /// The name is not bound after the cell.
    NoName,
    /// The cell saved no file under the name.
    NoSave,
    /// Want of memory.
    Memory(OutOfMemory),
}

/// The elements of an array or a row: a view, and the bytes of its block. They are shown in C
/// order, in their own dtype, with Booleans 0 or 1 and pad bytes 0.
#[derive(Clone, Copy)]
pub struct ShownElements<'a> {
    pub view: &'a View,
    pub block: &'a [u8],
}

/// A value as it is shown.
#[derive(Clone, Copy)]
pub enum Shown<'a> {
    Int(i128),
    Bool(bool),
    Scalar(Kind, i128),
    Array(ShownElements<'a>),
    Row(ShownElements<'a>),
}

/// A value that is bound after a cell, in a snapshot of its own. No byte of a block is copied.
#[derive(Drop)]
pub struct BoundValue {
    pub(crate) version: Version,
    pub(crate) value: Value,
}

impl BoundValue {
    /// Returns the value as it is shown. It takes no memory.
    pub fn shown(&self) -> Shown<'_>
        ensures { shown_of result ≡ bound_of self.now }
    {
        match &self.value {
            Value::Number(Num::Int(n)) => Shown::Int(*n),
            Value::Number(Num::Bool(b)) => Shown::Bool(*b),
            Value::Number(Num::Scalar(kind, n)) => Shown::Scalar(*kind, *n),
            Value::Array(array) => Shown::Array(ShownElements {
                view: &array.view,
                block: self.version.bytes(array.base),
            }),
            Value::Row(row) => Shown::Row(ShownElements {
                view: &row.view,
                block: self.version.bytes(row.base),
            }),
        }
    }
}

impl From<OutOfMemory> for QueryFault {
    ghost from_gives = { λ _ e. e ≡ faults.Memory out_of_memory };

    fn from(memory: OutOfMemory) -> QueryFault {
        QueryFault::Memory(memory)
    }
}

impl From<AllocError> for QueryFault {
    ghost from_gives = { λ _ e. e ≡ faults.Memory out_of_memory };

    fn from(refused: AllocError) -> QueryFault {
        QueryFault::Memory(refused.into())
    }
}

/// Returns the names of an order.
pub fn names_of(alloc: Global, order: &NameOrder) -> Result<Vec<String>, OutOfMemory>
    ensures { IfOk result (λ v. map string_bytes v.items ≡ order.now) }
{
    let mut names = Vec::new(alloc);
    for place in 0..order.len() {
        names.push(String::from_str(alloc, order.name_at(place))?)?;
    }
    Ok(names)
}
