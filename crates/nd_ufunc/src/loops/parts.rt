//! `append_parts`: works out 16 bytes of results in a local buffer before it appends them, so that
//! comparisons are vectorised.
ghost use Rattle.std.specs.Prelude.{◌≡◌, ℕ, ◌+◌, ◌*◌, ◌≤◌, ◌++◌, length, drop};
ghost use Rattle.nd_model.specs.Arrays.Element.{size_of};
ghost use Rattle.nd_model.specs.Making.Elementwise.{little};
ghost use Rattle.nd_types.specs.Kinds.{kind_of};
ghost use Rattle.nd_ufunc.specs.Loops.Results.{result_bytes};
ghost use Rattle.nd_ufunc.specs.Loops.Sides.{HasNumbers, number_on, numbers_on};

use crate::loops::kernel::{Side, append_any, apply_each};
use crate::loops::operation::Operation;
use nd_block::Filling;
use nd_types::Kind;

// The bytes of the results of a part.
const PART: usize = 16;

// The bytes from this index on.
#[inline(always)]
fn bytes_behind(bytes: &[u8], index: usize) -> &[u8]
    requires { index ≤ length bytes.now }
    ensures { result.now ≡ drop index bytes.now }
{
    &bytes[index..]
}

/// Returns the numbers of an operand from this index on.
#[inline(always)]
pub(crate) fn side_behind<'b>(side: Side<'b>, index: usize) -> Side<'b>
    requires { HasNumbers side index }
    ensures numbers { (j : ℕ) → number_on result j ≡ number_on side.entry (index + j) }
    ensures enough { (n : ℕ) → HasNumbers side.entry (index + n) → HasNumbers result n }
{
    match side {
        Side::Same(number) => Side::Same(number),
        Side::Each(bytes, kind) => Side::Each(
            bytes_behind(bytes, index * kind.size() as usize),
            kind,
        ),
    }
}

// Appends the results for at most one part of the numbers.
#[inline(always)]
fn append_part<O: Operation>(
    filling: Filling,
    to: Kind,
    left: Side<'_>,
    right: Side<'_>,
    count: usize,
) -> Filling
    requires part { count * size_of (kind_of to) ≤ 16 }
    requires room { count * size_of (kind_of to) ≤ filling.1 }
    requires left { HasNumbers left count }
    requires right { HasNumbers right count }
    ensures written { result.0 ≡ filling.0 ++ result_bytes (little (kind_of to))
        (O.gives (kind_of to)) (numbers_on left.entry count) (numbers_on right.entry count) }
    ensures room { result.1 + count * size_of (kind_of to) ≡ filling.1 }
{
    let end = count * to.size() as usize;
    let mut part = [0; PART];
    apply_each::<O>(&mut part[..end], to, left, right, count);
    let mut out = filling;
    out.push(&part[..end]);
    out
}

/// Appends the results for the first `count` pairs, part by part.
#[inline(always)]
pub(crate) fn append_parts<O: Operation>(
    filling: Filling,
    to: Kind,
    left: Side<'_>,
    right: Side<'_>,
    count: usize,
) -> Filling
    requires room { count * size_of (kind_of to) ≤ filling.1 }
    requires left { HasNumbers left count }
    requires right { HasNumbers right count }
    ensures written { result.0 ≡ filling.0 ++ result_bytes (little (kind_of to))
        (O.gives (kind_of to)) (numbers_on left.entry count) (numbers_on right.entry count) }
    ensures room { result.1 + count * size_of (kind_of to) ≡ filling.1 }
{
    let some = PART / to.size() as usize;
    let mut out = filling;
    let mut done = 0;
    while count - done >= some {
        let (xs, ys) = (side_behind(left, done), side_behind(right, done));
        out = append_part::<O>(out, to, xs, ys, some);
        done += some;
    }
    let (xs, ys) = (side_behind(left, done), side_behind(right, done));
    append_any::<O>(out, to, xs, ys, count - done)
}
