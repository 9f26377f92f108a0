//! `has_room`: the length of an array's text, from the widths of its columns.
ghost use Rattle.std.specs.Prelude.{◌≡◌, ◌+◌, ◌*◌, ◌^◌, ◌<◌, ◌≤◌, length, IsTrue, ◌↔◌, MatchOption};
ghost use Rattle.nd_model.specs.Arrays.Tuple.{elements_of};
ghost use Rattle.nd_print.specs.Lengths as lengths;

use crate::columns::Column;
use crate::elements::Layout;

// The length of an element's numbers, with commas between them.
fn columns_len(columns: &[Column]) -> u128
    ensures value { result ≡ lengths.columns_len columns.now }
    ensures limit { result ≤ 257 * length columns.now }
{
    let mut len = 0;
    for (index, column) in columns.iter().enumerate() {
        len += u128::from(column.width);
        if index > 0 {
            len += 2;
        }
    }
    len
}

// The length of an element.
fn element_len(layout: &Layout) -> u128
    ensures { result ≡ lengths.element_len layout.now.is_structure layout.now.columns.items }
{
    let len = columns_len(&layout.columns);
    if !layout.is_structure {
        len
    } else if layout.columns.len() == 1 {
        len + 3
    } else {
        len + 2
    }
}

// The length of what stands between two parts of an axis.
fn gap_len(depth: usize, below: &[u64]) -> u128
    ensures { (result ≡ lengths.gap_len depth below.now) × (result < 2 ^ 66) }
{
    if below.is_empty() {
        1
    } else {
        below.len() as u128 + depth as u128 + 1
    }
}

// The length of an array whose elements have length `each`, if there is room for it.
fn nested_len(depth: usize, shape: &[u64], each: u128, room: usize) -> Option<u128>
    requires deep { depth + length shape.now < 2 ^ 64 }
    requires some { 0 < elements_of shape.now }
    requires limit { elements_of shape.now ≤ 2 ^ 24 }
    ensures { MatchOption result (room < lengths.nested_len depth each shape.now)
        (λ len. (len ≡ lengths.nested_len depth each shape.now) × (len ≤ room)) }
{
    if shape.is_empty() {
        return (each <= room as u128).then_some(each);
    }
    let below = &shape[1..];
    let part = nested_len(depth + 1, below, each, room)?;
    let len = u128::from(shape[0] - 1) * (part + gap_len(depth, below)) + part + 2;
    (len <= room as u128).then_some(len)
}

/// Returns whether there is room for the text of an array of this shape.
pub(crate) fn has_room(layout: &Layout, shape: &[u64], room: usize) -> bool
    requires some { 0 < elements_of shape.now }
    requires limit { elements_of shape.now ≤ 2 ^ 24 }
    ensures { IsTrue result ↔ (lengths.nested_len 0
        (lengths.element_len layout.now.is_structure layout.now.columns.items) shape.now ≤ room) }
{
    nested_len(0, shape, element_len(layout), room).is_some()
}
