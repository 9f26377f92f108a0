//! `push_elements`: the text that `print` gives for an array.
ghost use Rattle.std.specs.Prelude.{◌≡◌, ◌+◌, ◌^◌, ◌<◌, ◌≤◌, [], ◌++◌, map, length, take, drop, replicate, slice_index_or, string_bytes, string_len, OnOk, IfOk};
ghost use Rattle.std.specs.List.{All, concat};
ghost use Rattle.nd_model.specs.Arrays.Content.{content_at};
ghost use Rattle.nd_model.specs.Arrays.Runs.{last_length};
ghost use Rattle.nd_model.specs.Text.StructureText.{elements_text};
ghost use Rattle.nd_model.specs.Text.Text as model;
ghost use Rattle.nd_model.specs.Arrays.Tuple.{elements_of};
ghost use Rattle.nd_print.specs.Fits.{Ends};
ghost use Rattle.nd_print.specs.Texts.{text_at, row_text};

use crate::columns::bytes_from;
use crate::elements::{Layout, push_element};
use crate::lengths::has_room;
use crate::scalars::push_times;
use nd_view::{Run, Runs, View};
use std::alloc::{AllocError, Global};

/// Whether a text was appended to a line of limited length.
#[derive(Clone, Copy)]
pub enum Fit {
    /// It was appended.
    Whole,
    /// The line would be longer than its limit.
    TooLong,
}

/// Appends the text of a view's elements to a line of at most `limit` bytes. As NumPy prints them,
/// numbers are aligned to the widest:
///
/// ```text
/// [[ 0  1]
///  [10 11]]
/// ```
///
/// A byte past the end of the block reads as 0. Where there is no room, nothing is built or
/// appended.
pub fn push_elements(
    alloc: Global,
    line: &mut String,
    limit: usize,
    view: &View,
    bytes: &[u8],
) -> Result<Fit, AllocError>
    requires { string_len line.old ≤ limit }
    ensures { IfOk result (Ends limit (elements_text view.now.element view.now.shape
        (map (content_at view.now.element bytes.now) view.now.places))
        (string_bytes line.old) (string_bytes line.new)) }
{
    let room = limit - line.len();
    if view.count() == 0 {
        return push_text(line, room, "[]");
    }
    let shape = view.shape();
    let mut layout = Layout::new(alloc, view)?;
    if !has_room(&layout, shape, room) {
        return Ok(Fit::TooLong);
    }
    layout.widen(view, bytes);
    if !has_room(&layout, shape, room) {
        return Ok(Fit::TooLong);
    }
    push_array(line, view, &layout, bytes)?;
    Ok(Fit::Whole)
}

// Appends a text if there is room for it.
fn push_text(line: &mut String, room: usize, text: &str) -> Result<Fit, AllocError>
    ensures { IfOk result (Ends (string_len line.old + room) text.now
        (string_bytes line.old) (string_bytes line.new)) }
{
    if text.len() > room {
        return Ok(Fit::TooLong);
    }
    line.push_str(text)?;
    Ok(Fit::Whole)
}

// Appends the elements of a view that is not empty.
fn push_array(
    line: &mut String,
    view: &View,
    layout: &Layout,
    bytes: &[u8],
) -> Result<(), AllocError>
    requires some { 0 < length view.now.places }
    requires whole { elements_of view.now.shape ≡ length view.now.places }
    ensures { OnOk result (string_bytes line.new
        ≡ string_bytes line.old ++ model.bracketed 0 view.now.shape (map (text_at
        layout.now.is_structure layout.now.columns.items bytes.now) view.now.places)) }
{
    if view.shape().is_empty() {
        return push_element(line, layout, bytes_from(bytes, view.offset()));
    }
    let mut rows = view.rows();
    push_nested(line, 0, view.shape(), &mut rows, layout, bytes)
}

// Appends the elements of a run in brackets.
fn push_row(line: &mut String, run: &Run, layout: &Layout, bytes: &[u8]) -> Result<(), AllocError>
    ensures { OnOk result (string_bytes line.new ≡ string_bytes line.old ++ row_text
        (text_at layout.now.is_structure layout.now.columns.items bytes.now) run.now) }
{
    line.push('[')?;
    for number in 0..run.count() {
        if number > 0 {
            line.push(' ')?;
        }
        push_element(line, layout, bytes_from(bytes, run.place(number)))?;
    }
    line.push(']')
}

// Appends the elements of the next row in brackets.
fn push_next(
    line: &mut String,
    rows: &mut Runs<'_>,
    layout: &Layout,
    bytes: &[u8],
) -> Result<(), AllocError>
    requires { 0 < length rows.old }
    ensures text { OnOk result (string_bytes line.new ≡ string_bytes line.old ++ row_text
        (text_at layout.now.is_structure layout.now.columns.items bytes.now)
        (slice_index_or rows.old 0 [])) }
    ensures rest { rows.new ≡ drop 1 rows.old }
{
    match rows.next() {
        Some(row) => push_row(line, &row, layout, bytes),
        None => Ok(()),
    }
}

// Appends the brackets of the remaining axes, inside `depth` open ones, with the elements of the
// next rows.
fn push_nested(
    line: &mut String,
    depth: usize,
    shape: &[u64],
    rows: &mut Runs<'_>,
    layout: &Layout,
    bytes: &[u8],
) -> Result<(), AllocError>
    requires axes { 0 < length shape.now }
    requires deep { depth + length shape.now < 2 ^ 64 }
    requires some { 0 < elements_of shape.now }
    requires rows { All (λ row. length row ≡ last_length shape.now) rows.old }
    requires whole { elements_of shape.now ≤ length (concat rows.old) }
    ensures text { OnOk result (string_bytes line.new
        ≡ string_bytes line.old ++ model.bracketed depth shape.now (map (text_at
        layout.now.is_structure layout.now.columns.items bytes.now)
        (take (elements_of shape.now) (concat rows.old)))) }
    ensures rest { OnOk result (concat rows.new
        ≡ drop (elements_of shape.now) (concat rows.old)) }
    ensures rows { OnOk result (All (λ row. length row ≡ last_length shape.now) rows.new) }
{
    if shape.len() == 1 {
        return push_next(line, rows, layout, bytes);
    }
    let below = &shape[1..];
    line.push('[')?;
    push_nested(line, depth + 1, below, rows, layout, bytes)?;
    for _ in 1..shape[0] {
        push_break(line, below.len(), depth + 1)?;
        push_nested(line, depth + 1, below, rows, layout, bytes)?;
    }
    line.push(']')?;
    Ok(())
}

// Appends the line breaks and blanks between two parts of an axis.
fn push_break(line: &mut String, lines: usize, blanks: usize) -> Result<(), AllocError>
    ensures { OnOk result (string_bytes line.new
        ≡ string_bytes line.old ++ (replicate lines 10 ++ replicate blanks 32)) }
{
    push_times(line, '\n', lines)?;
    push_times(line, ' ', blanks)
}
