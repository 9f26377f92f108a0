//! `append_trues` and `assign_trues`: gather and scatter by a mask, in loops without a branch on
//! the mask.
ghost use Rattle.std.specs.Prelude.{◌≡◌, ◌≢◌, ℕ, ◌+◌, ◌*◌, ◌^◌, ◌<◌, ◌≤◌, ◌++◌, pos, ◌+ℤ◌, ◌*ℤ◌, ◌≤ℤ◌, if◌then◌else◌, length, take, IfSome, IsTrue};
ghost use Rattle.std.specs.List.{flat_map};
ghost use Rattle.nd_model.specs.Arrays.Element.{Boolean, bytes_at, size_of, with_bytes};
ghost use Rattle.nd_model.specs.Arrays.View.{One};
ghost use Rattle.nd_types.specs.Kinds.{kind_of};
ghost use Rattle.nd_element.specs.Elements.{canonical_at};
ghost use Rattle.nd_places.specs.Forms.{trues_on};
ghost use Rattle.nd_places.specs.Near.{IsRow, is_true, place_on_line};
ghost use Rattle.nd_scatter.specs.OnLine.{AreOnLine};
ghost use Rattle.nd_scatter.specs.Ready.{AreValues};
ghost use Rattle.nd_scatter.specs.Scattered.{scattered};

use crate::kernel::{copy_bytes, hold_bytes};
use nd_block::{Filling, store_at, value_at};
use nd_element::keeps_bytes;
use nd_places::{PlaceList, StridedLine, Trues, near_place};
use nd_types::{Elem, Kind};

// The bytes of a mask that are looked at at a time.
const MANY: usize = 512;

// The bytes of a buffer that holds the numbers for one chunk of a mask: 8 bytes for each.
const MANY_BYTES: usize = 4096;

// Whether an element of `size` bytes at byte offset `way` ends within the first `len` bytes.
fn ends_inside(way: i64, size: u64, len: usize) -> bool
    requires { size ≤ 8 }
    ensures above { IsTrue result → pos 0 ≤ℤ way }
    ensures inside { IsTrue result → (way +ℤ pos size) ≤ℤ pos len }
{
    way >= 0 && way as u64 + size <= len as u64
}

// Whether the `count` elements of a line, of `size` bytes each, all lie within the first `len`
// bytes.
fn lie_inside(line: StridedLine, count: usize, size: u64, len: usize) -> bool
    requires few { count ≤ 2 ^ 24 }
    requires size { size ≤ 8 }
    ensures ways { IsTrue result → (k : ℕ) → k < count
        → pos 0 ≤ℤ (line.start +ℤ (pos k *ℤ line.step)) }
    ensures ends { IsTrue result → AreOnLine line size count len }
{
    if count == 0 {
        return true;
    }
    let last = line.start + (count as i64 - 1) * line.step;
    ends_inside(line.start, size, len) && ends_inside(last, size, len)
}

/// Returns the line and the mask of a list that is kept as these. `None` where the numbers are
/// Booleans, or some element of the line exceeds `len` bytes.
pub(crate) fn inner_trues(elem: Elem, places: &PlaceList, len: usize) -> Option<&Trues>
    ensures kind { IfSome result (λ t. elem.kind ≢ Boolean) }
    ensures places { IfSome result (λ t. places.now ≡ trues_on t.now.line 0 t.now.mask) }
    ensures inside { IfSome result (λ t. AreOnLine t.now.line (size_of elem.kind)
        (length t.now.mask) len) }
{
    let trues = places.trues()?;
    let is_inside = lie_inside(trues.line, trues.mask.len(), elem.size(), len);
    if is_inside && keeps_bytes(elem) {
        Some(trues)
    } else {
        None
    }
}

// The byte offset of an element of a line. `is_row` tells that the line is contiguous, which is
// faster.
#[inline(always)]
fn place_at(line: StridedLine, size: usize, is_row: bool, number: u64) -> u64
    requires number { number ≤ 2 ^ 32 }
    requires size { size ≤ 8 }
    requires row { IsTrue is_row → IsRow line.start line.step size }
    ensures { result ≡ place_on_line line.start line.step number }
{
    if is_row {
        line.start as u64 + number * size as u64
    } else {
        near_place(line.start + number as i64 * line.step)
    }
}

// The itemsize where the byte of a mask is true, and else 0.
#[inline(always)]
fn step_of(byte: u8, size: usize) -> usize
    ensures { result ≡ (if is_true byte then size else 0) }
{
    if byte == 0 { 0 } else { size }
}

// Packs the selected elements to the front of `out`, without a branch: an unselected one is
// overwritten by the next. Returns the bytes used.
#[inline(always)]
fn keep_trues(
    out: &mut [u8],
    elem: Elem,
    size: usize,
    bytes: &[u8],
    line: StridedLine,
    is_row: bool,
    first: u64,
    mask: &[u8],
) -> usize
    requires kind { elem.kind ≢ Boolean }
    requires size { size ≡ size_of elem.kind }
    requires row { IsTrue is_row → IsRow line.start line.step size }
    requires inside { AreOnLine line size (first + length mask.now) (length bytes.now) }
    requires range { first + length mask.now ≤ 2 ^ 24 }
    requires room { length mask.now * size ≤ length out.old }
    ensures len { length out.new ≡ length out.old }
    ensures few { result ≤ length out.new }
    ensures bytes { take result out.new
        ≡ flat_map (canonical_at (One elem) bytes.now) (trues_on line first mask.now) }
{
    let (_len, _bytes_len) = (out.len(), bytes.len());
    let mut kept = 0;
    for (index, byte) in mask.iter().enumerate() {
        let place = place_at(line, size, is_row, first + index as u64) as usize;
        copy_bytes(out, kept, bytes, place, size);
        kept += step_of(*byte, size);
    }
    kept
}

// Packs the selected elements by a loop specialised for a contiguous line.
#[inline(always)]
fn keep_on_line(
    out: &mut [u8],
    elem: Elem,
    size: usize,
    bytes: &[u8],
    line: StridedLine,
    first: u64,
    mask: &[u8],
) -> usize
    requires kind { elem.kind ≢ Boolean }
    requires size { size ≡ size_of elem.kind }
    requires inside { AreOnLine line size (first + length mask.now) (length bytes.now) }
    requires range { first + length mask.now ≤ 2 ^ 24 }
    requires room { length mask.now * size ≤ length out.old }
    ensures len { length out.new ≡ length out.old }
    ensures few { result ≤ length out.new }
    ensures bytes { take result out.new
        ≡ flat_map (canonical_at (One elem) bytes.now) (trues_on line first mask.now) }
{
    if line.is_contiguous(size as u64) {
        keep_trues(out, elem, size, bytes, line, true, first, mask)
    } else {
        keep_trues(out, elem, size, bytes, line, false, first, mask)
    }
}

// Appends the selected elements, a chunk of the mask at a time.
#[inline(always)]
fn append_each(
    filling: Filling,
    elem: Elem,
    size: usize,
    bytes: &[u8],
    line: StridedLine,
    mask: &[u8],
) -> Filling
    requires kind { elem.kind ≢ Boolean }
    requires size { size ≡ size_of elem.kind }
    requires inside { AreOnLine line size (length mask.now) (length bytes.now) }
    requires range { length mask.now ≤ 2 ^ 24 }
    requires room { length (trues_on line 0 mask.now) * size_of elem.kind ≤ filling.1 }
    ensures written { result.0 ≡ filling.0
        ++ flat_map (canonical_at (One elem) bytes.now) (trues_on line 0 mask.now) }
    ensures room { result.1 + length (trues_on line 0 mask.now) * size_of elem.kind ≡ filling.1 }
{
    let mut out = filling;
    let mut some = [0; MANY_BYTES];
    let mut done = 0;
    while done < mask.len() {
        let end = done + MANY.min(mask.len() - done);
        let part = &mask[done..end];
        let kept = keep_on_line(&mut some, elem, size, bytes, line, done as u64, part);
        out.push(&some[..kept]);
        done = end;
    }
    out
}

// Appends the selected elements of a line, by a loop specialised for the itemsize.
fn append_by_size(
    filling: Filling,
    elem: Elem,
    bytes: &[u8],
    line: StridedLine,
    mask: &[u8],
) -> Filling
    requires kind { elem.kind ≢ Boolean }
    requires inside { AreOnLine line (size_of elem.kind) (length mask.now) (length bytes.now) }
    requires range { length mask.now ≤ 2 ^ 24 }
    requires room { length (trues_on line 0 mask.now) * size_of elem.kind ≤ filling.1 }
    ensures written { result.0 ≡ filling.0
        ++ flat_map (canonical_at (One elem) bytes.now) (trues_on line 0 mask.now) }
    ensures room { result.1 + length (trues_on line 0 mask.now) * size_of elem.kind ≡ filling.1 }
{
    match elem.kind() {
        Kind::Bool | Kind::I8 | Kind::U8 => append_each(filling, elem, 1, bytes, line, mask),
        Kind::I16 | Kind::U16 => append_each(filling, elem, 2, bytes, line, mask),
        Kind::I32 | Kind::U32 => append_each(filling, elem, 4, bytes, line, mask),
        Kind::I64 | Kind::U64 => append_each(filling, elem, 8, bytes, line, mask),
    }
}

/// Appends the elements of a line that its mask selects.
pub(crate) fn append_trues(filling: Filling, elem: Elem, bytes: &[u8], trues: &Trues) -> Filling
    requires kind { elem.kind ≢ Boolean }
    requires inside { AreOnLine trues.now.line (size_of elem.kind) (length trues.now.mask)
        (length bytes.now) }
    requires room { length (trues_on trues.now.line 0 trues.now.mask) * size_of elem.kind
        ≤ filling.1 }
    ensures written { result.0 ≡ filling.0 ++ flat_map (canonical_at (One elem) bytes.now)
        (trues_on trues.now.line 0 trues.now.mask) }
    ensures room { result.1 + length (trues_on trues.now.line 0 trues.now.mask)
        * size_of elem.kind ≡ filling.1 }
{
    append_by_size(filling, elem, bytes, trues.line, trues.mask.as_slice())
}

// The new number where the byte of a mask is true, and else the old one.
#[inline(always)]
fn choose_number(byte: u8, old: i128, new: i128) -> i128
    ensures { result ≡ (if is_true byte then new else old) }
{
    if byte == 0 { old } else { new }
}

// Writes a value to byte offset `to` where the byte of a mask is true, and else writes the old
// bytes again. Either is read as one word.
#[inline(always)]
fn write_chosen(out: &mut [u8], to: usize, values: &[u8], from: usize, word: Kind, byte: u8)
    requires word { kind_of word ≢ Boolean }
    requires out { to + size_of (kind_of word) ≤ length out.old }
    requires held { from + size_of (kind_of word) ≤ length values.now }
    ensures len { length out.new ≡ length out.old }
    ensures bytes { out.new ≡ (if is_true byte
        then with_bytes out.old to (bytes_at values.now from (size_of (kind_of word)))
        else out.old) }
{
    let (_len, _from_len) = (out.len(), values.len());
    hold_bytes(out);
    let same = Elem::little(word);
    let (old, new) = (value_at(out, to, same), value_at(values, from, same));
    store_at(out, to, same, choose_number(byte, old, new));
}

// Writes the values, `step` bytes apart, to the selected elements of a line, each as one word.
// Behind the last value the last one is read again.
#[inline(always)]
fn write_each(
    out: &mut [u8],
    elem: Elem,
    size: usize,
    word: Kind,
    line: StridedLine,
    is_row: bool,
    mask: &[u8],
    values: &[u8],
    step: usize,
)
    requires size { size ≡ size_of elem.kind }
    requires word { (kind_of word ≢ Boolean) × (size_of (kind_of word) ≡ size) }
    requires row { IsTrue is_row → IsRow line.start line.step size }
    requires step { step ≤ size }
    requires inside { AreOnLine line size (length mask.now) (length out.old) }
    requires range { length mask.now ≤ 2 ^ 24 }
    requires held { AreValues size 0 step (length (trues_on line 0 mask.now))
        (length values.now) }
    ensures { out.new ≡ scattered (One elem) values.now step 0 (trues_on line 0 mask.now) out.old }
{
    // proof: the number of bytes is bounded, by the clause of len().
    let _len = out.len();
    if values.len() < size {
        return;
    }
    let last = values.len() - size;
    let mut used = 0;
    for (index, byte) in mask.iter().enumerate() {
        let place = place_at(line, size, is_row, index as u64) as usize;
        write_chosen(out, place, values, last.min(used * step), word, *byte);
        used += step_of(*byte, 1);
    }
}

// Writes the values by a loop specialised for a contiguous line, and for one value that all
// elements get.
#[inline(always)]
fn write_line(
    out: &mut [u8],
    elem: Elem,
    size: usize,
    word: Kind,
    line: StridedLine,
    mask: &[u8],
    values: &[u8],
    step: usize,
)
    requires size { size ≡ size_of elem.kind }
    requires word { (kind_of word ≢ Boolean) × (size_of (kind_of word) ≡ size) }
    requires step { step ≤ size }
    requires inside { AreOnLine line size (length mask.now) (length out.old) }
    requires range { length mask.now ≤ 2 ^ 24 }
    requires held { AreValues size 0 step (length (trues_on line 0 mask.now))
        (length values.now) }
    ensures { out.new ≡ scattered (One elem) values.now step 0 (trues_on line 0 mask.now) out.old }
{
    if !line.is_contiguous(size as u64) {
        write_each(out, elem, size, word, line, false, mask, values, step);
    } else if step == 0 {
        write_each(out, elem, size, word, line, true, mask, values, 0);
    } else {
        write_each(out, elem, size, word, line, true, mask, values, step);
    }
}

// Writes the values to the selected elements of a line, by a loop specialised for the itemsize.
// `step` is at most the itemsize.
fn write_by_size(
    out: &mut [u8],
    elem: Elem,
    line: StridedLine,
    mask: &[u8],
    values: &[u8],
    step: usize,
)
    requires step { step ≤ size_of elem.kind }
    requires inside { AreOnLine line (size_of elem.kind) (length mask.now) (length out.old) }
    requires range { length mask.now ≤ 2 ^ 24 }
    requires held { AreValues (size_of elem.kind) 0 step (length (trues_on line 0 mask.now))
        (length values.now) }
    ensures { out.new ≡ scattered (One elem) values.now step 0 (trues_on line 0 mask.now) out.old }
{
    match elem.kind() {
        Kind::Bool | Kind::I8 | Kind::U8 => {
            write_line(out, elem, 1, Kind::U8, line, mask, values, step);
        }
        Kind::I16 | Kind::U16 => write_line(out, elem, 2, Kind::U16, line, mask, values, step),
        Kind::I32 | Kind::U32 => write_line(out, elem, 4, Kind::U32, line, mask, values, step),
        Kind::I64 | Kind::U64 => write_line(out, elem, 8, Kind::U64, line, mask, values, step),
    }
}

/// Writes the values to the elements of a line that its mask selects. The values lie `step` bytes
/// apart, at most the itemsize.
pub(crate) fn assign_trues(out: &mut [u8], elem: Elem, trues: &Trues, values: &[u8], step: usize)
    requires step { step ≤ size_of elem.kind }
    requires inside { AreOnLine trues.now.line (size_of elem.kind) (length trues.now.mask)
        (length out.old) }
    requires held { AreValues (size_of elem.kind) 0 step
        (length (trues_on trues.now.line 0 trues.now.mask)) (length values.now) }
    ensures { out.new ≡ scattered (One elem) values.now step 0
        (trues_on trues.now.line 0 trues.now.mask) out.old }
{
    write_by_size(out, elem, trues.line, trues.mask.as_slice(), values, step);
}
