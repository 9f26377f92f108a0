//! `Layout`: the widths of an array's printed elements, and their text.
ghost use Rattle.std.specs.Prelude.{◌≡◌, ◌<◌, ◌++◌, length, string_bytes, true, IfOk, OnOk};
ghost use Rattle.nd_print.specs.Columns as spec;
ghost use Rattle.nd_print.specs.Texts as texts;

use crate::columns::{Column, columns_of, is_structure, widen_all};
use crate::scalars::push_aligned;
use nd_view::View;
use std::alloc::{AllocError, Global};

/// How elements are printed: their columns, and whether they are structures, which have
/// parentheses.
#[derive(Drop)]
pub(crate) struct Layout {
    pub(crate) columns: Vec<Column>,
    pub(crate) is_structure: bool,
}

impl Layout {
    /// Returns how the elements of a view are printed, their columns as narrow as they may be.
    pub(crate) fn new(alloc: Global, view: &View) -> Result<Layout, AllocError>
        ensures columns { IfOk result (λ layout. layout.columns.items ≡ spec.least_columns
            (spec.has_axes view.now.shape) (spec.fields_in view.now.element)) }
        ensures structure { IfOk result (λ layout. layout.is_structure
            ≡ spec.is_structure view.now.element) }
    {
        Ok(Layout {
            columns: columns_of(alloc, view.elem(), !view.shape().is_empty())?,
            is_structure: is_structure(view.elem()),
        })
    }

    /// Widens the columns to the numbers of all elements.
    pub(crate) fn widen(&mut self, view: &View, bytes: &[u8])
        ensures columns { self.new.columns.items
            ≡ spec.wider_columns bytes.now view.now.places self.old.columns.items }
        ensures structure { self.new.is_structure ≡ self.old.is_structure }
    {
        widen_all(&mut self.columns, view, bytes);
    }
}

// Appends the number of a column.
fn push_column(line: &mut String, column: &Column, element: &[u8]) -> Result<(), AllocError>
    ensures { OnOk result (string_bytes line.new ≡ string_bytes line.old ++ texts.column_text
        element.now column.now) }
{
    let elem = column.elem;
    let number = column.number(element);
    push_aligned(line, usize::from(column.width), elem.kind(), number)
}

// Appends the numbers of an element, with commas between them.
fn push_columns(line: &mut String, columns: &[Column], element: &[u8]) -> Result<(), AllocError>
    ensures { OnOk result (string_bytes line.new ≡ string_bytes line.old ++ texts.columns_text
        columns.now element.now) }
{
    for (index, column) in columns.iter().enumerate() {
        if index > 0 {
            line.push_str(", ")?;
        }
        push_column(line, column, element)?;
    }
    Ok(())
}

// Appends a structure in parentheses.
fn push_structure(line: &mut String, columns: &[Column], element: &[u8]) -> Result<(), AllocError>
    ensures { OnOk result (string_bytes line.new ≡ string_bytes line.old ++ texts.element_text
        true columns.now element.now) }
{
    line.push_str("(")?;
    push_columns(line, columns, element)?;
    line.push_str(if columns.len() == 1 { ",)" } else { ")" })
}

/// Appends an element.
pub(crate) fn push_element(
    line: &mut String,
    layout: &Layout,
    element: &[u8],
) -> Result<(), AllocError>
    ensures { OnOk result (string_bytes line.new ≡ string_bytes line.old ++ texts.element_text
        layout.now.is_structure layout.now.columns.items element.now) }
{
    if layout.is_structure {
        push_structure(line, &layout.columns, element)
    } else {
        push_columns(line, &layout.columns, element)
    }
}
