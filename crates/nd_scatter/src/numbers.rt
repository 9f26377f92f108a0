//! `append_numbers`: gathers the numbers at selected byte offsets into a filling block. Each byte
//! of the block is written once.
ghost use Rattle.std.specs.Prelude.{◌≡◌, ◌≢◌, ◌+◌, ◌*◌, ◌^◌, ◌≤◌, ◌++◌, length, slice_index, IsTrue};
ghost use Rattle.std.specs.List.{flat_map};
ghost use Rattle.nd_model.specs.Arrays.Element.{Boolean, size_of};
ghost use Rattle.nd_model.specs.Arrays.View.{One};
ghost use Rattle.nd_types.specs.Kinds.{kind_of};
ghost use Rattle.nd_view.specs.SideBySide.{side_by_side};
ghost use Rattle.nd_element.specs.Elements.{canonical_at};

use nd_block::{Filling, value_at};
use nd_element::number_in;
use nd_types::{Elem, Kind};

// Appends the number at a byte offset where some of its bytes lie past the end and read as 0.
#[inline(never)]
fn append_past(filling: Filling, elem: Elem, bytes: &[u8], place: u64) -> Filling
    requires { size_of elem.kind ≤ filling.1 }
    ensures written { result.0 ≡ filling.0 ++ canonical_at (One elem) bytes.now place }
    ensures room { result.1 + size_of elem.kind ≡ filling.1 }
{
    let mut out = filling;
    out.push_number(elem, number_in(bytes, place, elem));
    out
}

// Appends the number at a byte offset, read and written as one word. A byte past the end reads as
// 0.
#[inline(always)]
fn append_number(filling: Filling, elem: Elem, word: Kind, bytes: &[u8], place: u64) -> Filling
    requires kinds { (elem.kind ≢ Boolean) × (kind_of word ≢ Boolean) }
    requires size { size_of (kind_of word) ≡ size_of elem.kind }
    requires room { size_of elem.kind ≤ filling.1 }
    ensures written { result.0 ≡ filling.0 ++ canonical_at (One elem) bytes.now place }
    ensures room { result.1 + size_of elem.kind ≡ filling.1 }
{
    let (size, len) = (word.size(), bytes.len() as u64);
    if size <= len && place <= len - size {
        let (mut out, same) = (filling, Elem::little(word));
        out.push_number(same, value_at(bytes, place as usize, same));
        return out;
    }
    append_past(filling, elem, bytes, place)
}

// Appends the numbers at these byte offsets, each as one word.
#[inline(always)]
fn append_each(filling: Filling, elem: Elem, word: Kind, bytes: &[u8], places: &[u64]) -> Filling
    requires kinds { (elem.kind ≢ Boolean) × (kind_of word ≢ Boolean) }
    requires size { size_of (kind_of word) ≡ size_of elem.kind }
    requires room { length places.now * size_of elem.kind ≤ filling.1 }
    ensures written { result.0 ≡ filling.0
        ++ flat_map (canonical_at (One elem) bytes.now) places.now }
    ensures room { result.1 + length places.now * size_of elem.kind ≡ filling.1 }
{
    let mut out = filling;
    for place in places {
        out = append_number(out, elem, word, bytes, *place);
    }
    out
}

// Appends the values of the numbers at these byte offsets. A byte past the end reads as 0.
fn append_values(filling: Filling, elem: Elem, bytes: &[u8], places: &[u64]) -> Filling
    requires { length places.now * size_of elem.kind ≤ filling.1 }
    ensures written { result.0 ≡ filling.0
        ++ flat_map (canonical_at (One elem) bytes.now) places.now }
    ensures room { result.1 + length places.now * size_of elem.kind ≡ filling.1 }
{
    let mut out = filling;
    for place in places {
        out.push_number(elem, number_in(bytes, *place, elem));
    }
    out
}

// Whether elements of `size` bytes at these byte offsets are contiguous, and end within the first
// `len` bytes.
fn are_side_by_side(places: &[u64], size: u64, len: usize) -> bool
    requires few { length places.now ≤ 2 ^ 24 }
    requires size { size ≤ 8 }
    ensures some { IsTrue result → 1 ≤ length places.now }
    ensures places { IsTrue result → places.now
        ≡ side_by_side size (slice_index places.now 0) (length places.now) }
    ensures inside { IsTrue result → slice_index places.now 0 + length places.now * size ≤ len }
{
    let (all, len) = (places.len() as u64 * size, len as u64);
    if places.is_empty() || all > len || places[0] > len - all {
        return false;
    }
    let last = places.len() - 1;
    if places[last] != places[0] + last as u64 * size {
        return false;
    }
    let mut all = true;
    for (index, place) in places.iter().enumerate() {
        all &= *place == places[0] + index as u64 * size;
    }
    all
}

// Appends contiguous numbers by one copy of their bytes.
fn append_row(filling: Filling, elem: Elem, bytes: &[u8], places: &[u64]) -> Filling
    requires kind { elem.kind ≢ Boolean }
    requires places { places.now
        ≡ side_by_side (size_of elem.kind) (slice_index places.now 0) (length places.now) }
    requires some { 1 ≤ length places.now }
    requires inside { slice_index places.now 0 + length places.now * size_of elem.kind
        ≤ length bytes.now }
    requires room { length places.now * size_of elem.kind ≤ filling.1 }
    ensures written { result.0 ≡ filling.0
        ++ flat_map (canonical_at (One elem) bytes.now) places.now }
    ensures room { result.1 + length places.now * size_of elem.kind ≡ filling.1 }
{
    // proof: the number of bytes is bounded, by the clause of len().
    let _len = bytes.len();
    let start = places[0] as usize;
    let end = start + places.len() * elem.size() as usize;
    let mut out = filling;
    out.push(&bytes[start..end]);
    out
}

// Appends numbers by one copy where they are contiguous, and else each as one word.
#[inline(always)]
fn append_words(filling: Filling, elem: Elem, word: Kind, bytes: &[u8], places: &[u64]) -> Filling
    requires kinds { (elem.kind ≢ Boolean) × (kind_of word ≢ Boolean) }
    requires size { size_of (kind_of word) ≡ size_of elem.kind }
    requires few { length places.now ≤ 2 ^ 24 }
    requires room { length places.now * size_of elem.kind ≤ filling.1 }
    ensures written { result.0 ≡ filling.0
        ++ flat_map (canonical_at (One elem) bytes.now) places.now }
    ensures room { result.1 + length places.now * size_of elem.kind ≡ filling.1 }
{
    if are_side_by_side(places, elem.size(), bytes.len()) {
        append_row(filling, elem, bytes, places)
    } else {
        append_each(filling, elem, word, bytes, places)
    }
}

/// Appends the numbers at these byte offsets, by a loop specialised for the itemsize. A Boolean
/// becomes 0 or 1.
pub(crate) fn append_numbers(filling: Filling, elem: Elem, bytes: &[u8], places: &[u64]) -> Filling
    requires few { length places.now ≤ 2 ^ 24 }
    requires room { length places.now * size_of elem.kind ≤ filling.1 }
    ensures written { result.0 ≡ filling.0
        ++ flat_map (canonical_at (One elem) bytes.now) places.now }
    ensures room { result.1 + length places.now * size_of elem.kind ≡ filling.1 }
{
    match elem.kind() {
        Kind::Bool => append_values(filling, elem, bytes, places),
        Kind::I8 | Kind::U8 => append_words(filling, elem, Kind::U8, bytes, places),
        Kind::I16 | Kind::U16 => append_words(filling, elem, Kind::U16, bytes, places),
        Kind::I32 | Kind::U32 => append_words(filling, elem, Kind::U32, bytes, places),
        Kind::I64 | Kind::U64 => append_words(filling, elem, Kind::U64, bytes, places),
    }
}
