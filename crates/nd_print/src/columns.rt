//! `Column`: a number that each element of an array has, and the width in which it is printed.
ghost use Rattle.std.specs.Prelude.{◌≡◌, map, drop, IfOk};
ghost use Rattle.nd_model.specs.Arrays.Content.{number_at};
ghost use Rattle.nd_types.specs.Fields.{fields_of};
ghost use Rattle.nd_types.specs.Kinds.{kind_of};
ghost use Rattle.nd_types.specs.Types.{type_of};
ghost use Rattle.nd_print.specs.Columns as spec;

use crate::scalars::text_len;
use nd_element::number_in;
use nd_types::{Elem, ElemType, Field, Kind};
use nd_view::View;
use std::alloc::{AllocError, Global};

/// A number of each element: its byte offset inside the element, and its printed width.
#[derive(Clone, Copy)]
pub(crate) struct Column {
    pub(crate) at: u32,
    pub(crate) elem: Elem,
    pub(crate) width: u8,
}

// The least width of a kind's numbers: `False` sets that of Booleans in an array.
fn least_width(kind: Kind, is_padded: bool) -> u8
    ensures { result ≡ spec.least_width is_padded (kind_of kind) }
{
    match kind {
        Kind::Bool if is_padded => 5,
        _ => 0,
    }
}

impl Column {
    // The column of numbers at a byte offset, before any is seen.
    fn new(at: u32, elem: Elem, is_padded: bool) -> Column
        ensures { result ≡ spec.least_column is_padded at elem }
    {
        Column {
            at,
            elem,
            width: least_width(elem.kind(), is_padded),
        }
    }

    /// Returns the number of an element. A byte past the end reads as 0.
    pub(crate) fn number(&self, element: &[u8]) -> i128
        ensures { result ≡ number_at self.now.elem element.now self.now.at }
    {
        number_in(element, u64::from(self.at), self.elem)
    }

    // The column, widened for the number of an element.
    fn widen_to(&self, element: &[u8]) -> Column
        ensures { result ≡ spec.wider_column element.now self.now }
    {
        let elem = self.elem;
        let len = text_len(elem.kind(), self.number(element));
        Column {
            at: self.at,
            elem,
            width: self.width.max(len),
        }
    }
}

/// Returns the bytes from a byte offset on, none past the end.
pub(crate) fn bytes_from(bytes: &[u8], place: u64) -> &[u8]
    ensures { result.now ≡ drop place bytes.now }
{
    bytes.get(place as usize..).unwrap_or(&[])
}

// The columns of fields.
fn columns_of_fields(
    alloc: Global,
    fields: &[Field],
    is_padded: bool,
) -> Result<Vec<Column>, AllocError>
    ensures { IfOk result (λ v. v.items ≡ spec.least_columns is_padded (fields_of fields.now)) }
{
    let mut columns = Vec::with_capacity(alloc, fields.len())?;
    for field in fields {
        columns.push(Column::new(field.at, field.elem, is_padded))?;
    }
    Ok(columns)
}

/// Returns the columns of a dtype, as narrow as they may be.
pub(crate) fn columns_of(
    alloc: Global,
    element: &ElemType,
    is_padded: bool,
) -> Result<Vec<Column>, AllocError>
    ensures { IfOk result (λ v. v.items
        ≡ spec.least_columns is_padded (spec.fields_in (type_of element.now))) }
{
    match element {
        ElemType::One(elem) => {
            let mut columns = Vec::with_capacity(alloc, 1)?;
            columns.push(Column::new(0, *elem, is_padded))?;
            Ok(columns)
        }
        ElemType::Rec(structure) => columns_of_fields(alloc, structure.fields(), is_padded),
    }
}

/// Returns whether the elements are structures.
pub(crate) fn is_structure(element: &ElemType) -> bool
    ensures { result ≡ spec.is_structure (type_of element.now) }
{
    matches!(element, ElemType::Rec(_))
}

// Widens the columns to the numbers of one element.
fn widen_columns(columns: &mut [Column], element: &[u8])
    ensures { columns.new ≡ map (spec.wider_column element.now) columns.old }
{
    for index in 0..columns.len() {
        columns[index] = columns[index].widen_to(element);
    }
}

/// Widens the columns to the numbers of all elements.
pub(crate) fn widen_all(columns: &mut [Column], view: &View, bytes: &[u8])
    ensures { columns.new ≡ spec.wider_columns bytes.now view.now.places columns.old }
{
    let mut runs = view.runs();
    while let Some(run) = runs.next() {
        for number in 0..run.count() {
            widen_columns(columns, bytes_from(bytes, run.place(number)));
        }
    }
}
