//! The inner loops over two operands, `Side`s: `apply_each` writes over bytes that are there,
//! `append_each` into a block that fills.
ghost use Rattle.std.specs.Prelude.{◌≡◌, ◌+◌, ◌*◌, ◌≤◌, ◌++◌, length, false};
ghost use Rattle.nd_model.specs.Arrays.Content.{number_at};
ghost use Rattle.nd_model.specs.Arrays.Element.{Int32, Int64, bytes_at, number_in, size_of, width_of};
ghost use Rattle.nd_model.specs.Making.Elementwise.{little};
ghost use Rattle.nd_types.specs.Kinds.{kind_of};
ghost use Rattle.nd_ufunc.specs.Loops.Results.{result_bytes};
ghost use Rattle.nd_ufunc.specs.Loops.Sides.{HasNumbers, number_on, numbers_on};

use crate::loops::operation::Operation;
use nd_block::{Filling, store_at, value_at};
use nd_types::{Elem, Kind};

/// The numbers of one operand: a scalar for all, or contiguous little-endian numbers of one kind.
#[derive(Clone, Copy)]
pub enum Side<'b> {
    Same(i128),
    Each(&'b [u8], Kind),
}

// The 32 bits at this byte offset, little-endian. They are copied together, so that they are one
// load.
#[inline(always)]
fn bits32(bytes: &[u8], place: usize) -> u32
    requires { place + 4 ≤ length bytes.now }
    ensures { result ≡ number_in (width_of Int32) false (bytes_at bytes.now place 4) }
{
    let mut run = [0; 4];
    run.copy_from_slice(&bytes[place..place + 4]);
    u32::from_le_bytes(run)
}

// The 64 bits at this byte offset, little-endian.
#[inline(always)]
fn bits64(bytes: &[u8], place: usize) -> u64
    requires { place + 8 ≤ length bytes.now }
    ensures { result ≡ number_in (width_of Int64) false (bytes_at bytes.now place 8) }
{
    let mut run = [0; 8];
    run.copy_from_slice(&bytes[place..place + 8]);
    u64::from_le_bytes(run)
}

// The number of a kind at this byte offset.
#[inline(always)]
fn number_in_place(bytes: &[u8], place: usize, kind: Kind) -> i128
    requires { place + size_of (kind_of kind) ≤ length bytes.now }
    ensures { result ≡ number_at (little (kind_of kind)) bytes.now place }
{
    match kind {
        Kind::I32 => i128::from(bits32(bytes, place).cast_signed()),
        Kind::U32 => i128::from(bits32(bytes, place)),
        Kind::I64 => i128::from(bits64(bytes, place).cast_signed()),
        Kind::U64 => i128::from(bits64(bytes, place)),
        _ => value_at(bytes, place, Elem::little(kind)),
    }
}

// The operand's number of this index. Comparisons read byte by byte, which compiles to vector code.
#[inline(always)]
fn number_of<O: Operation>(side: Side<'_>, index: usize) -> i128
    requires { HasNumbers side (index + 1) }
    ensures { result ≡ number_on side.entry index }
{
    match side {
        Side::Same(number) => number,
        Side::Each(bytes, kind) => {
            // proof: the number of bytes is bounded, by the clause of len().
            let _len = bytes.len();
            let place = index * kind.size() as usize;
            if O::IS_COMPARISON {
                value_at(bytes, place, Elem::little(kind))
            } else {
                number_in_place(bytes, place, kind)
            }
        }
    }
}

// What is worked out once for a right operand that is a scalar: the reciprocal of a divisor. No
// result depends on it.
#[inline(always)]
fn hint_of<O: Operation>(right: Side<'_>) -> u64 {
    match right {
        Side::Same(number) => O::hint(number),
        Side::Each(_, _) => 0,
    }
}

// The result for the operands' numbers of this index.
#[inline(always)]
fn result_at<O: Operation>(
    to: Kind,
    left: Side<'_>,
    right: Side<'_>,
    index: usize,
    hint: u64,
) -> i128
    requires left { HasNumbers left (index + 1) }
    requires right { HasNumbers right (index + 1) }
    ensures { result ≡ O.gives (kind_of to) (number_on left.entry index)
        (number_on right.entry index) }
{
    let (x, y) = (number_of::<O>(left, index), number_of::<O>(right, index));
    O::apply(to, x, y, hint)
}

/// Writes the results for the first `count` pairs, one after another.
#[inline(always)]
pub(crate) fn apply_each<O: Operation>(
    out: &mut [u8],
    to: Kind,
    left: Side<'_>,
    right: Side<'_>,
    count: usize,
)
    requires out { length out.old ≡ count * size_of (kind_of to) }
    requires left { HasNumbers left count }
    requires right { HasNumbers right count }
    ensures { out.new ≡ result_bytes (little (kind_of to)) (O.gives (kind_of to))
        (numbers_on left.entry count) (numbers_on right.entry count) }
{
    let size = to.size() as usize;
    let hint = hint_of::<O>(right);
    for index in 0..count {
        let number = result_at::<O>(to, left, right, index, hint);
        store_at(out, index * size, Elem::little(to), number);
    }
}

/// Writes the results for operands of any kinds: the loop is compiled once and not specialised.
#[inline(never)]
pub(crate) fn apply_any<O: Operation>(
    out: &mut [u8],
    to: Kind,
    left: Side<'_>,
    right: Side<'_>,
    count: usize,
)
    requires out { length out.old ≡ count * size_of (kind_of to) }
    requires left { HasNumbers left count }
    requires right { HasNumbers right count }
    ensures { out.new ≡ result_bytes (little (kind_of to)) (O.gives (kind_of to))
        (numbers_on left.entry count) (numbers_on right.entry count) }
{
    apply_each::<O>(out, to, left, right, count);
}

/// Appends the results for the first `count` pairs. Each is written where it stays.
#[inline(always)]
pub(crate) fn append_each<O: Operation>(
    filling: Filling,
    to: Kind,
    left: Side<'_>,
    right: Side<'_>,
    count: usize,
) -> Filling
    requires room { count * size_of (kind_of to) ≤ filling.1 }
    requires left { HasNumbers left count }
    requires right { HasNumbers right count }
    ensures written { result.0 ≡ filling.0 ++ result_bytes (little (kind_of to))
        (O.gives (kind_of to)) (numbers_on left.entry count) (numbers_on right.entry count) }
    ensures room { result.1 + count * size_of (kind_of to) ≡ filling.1 }
{
    let mut out = filling;
    let hint = hint_of::<O>(right);
    for index in 0..count {
        let number = result_at::<O>(to, left, right, index, hint);
        out.push_number(Elem::little(to), number);
    }
    out
}

/// Appends the results for operands of any kinds: the loop is compiled once and not specialised.
#[inline(never)]
pub(crate) fn append_any<O: Operation>(
    filling: Filling,
    to: Kind,
    left: Side<'_>,
    right: Side<'_>,
    count: usize,
) -> Filling
    requires room { count * size_of (kind_of to) ≤ filling.1 }
    requires left { HasNumbers left count }
    requires right { HasNumbers right count }
    ensures written { result.0 ≡ filling.0 ++ result_bytes (little (kind_of to))
        (O.gives (kind_of to)) (numbers_on left.entry count) (numbers_on right.entry count) }
    ensures room { result.1 + count * size_of (kind_of to) ≡ filling.1 }
{
    append_each::<O>(filling, to, left, right, count)
}
