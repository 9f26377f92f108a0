//! `append_sides`: chooses the loop that appends a function's results to a filling block. All loops
//! have one contract, so the choice is a matter of speed alone.
ghost use Rattle.std.specs.Prelude.{◌≡◌, ◌+◌, ◌*◌, ◌≤◌, ◌++◌};
ghost use Rattle.nd_model.specs.Arrays.Element.{size_of};
ghost use Rattle.nd_model.specs.Making.Elementwise.{little};
ghost use Rattle.nd_types.specs.Kinds.{kind_of};
ghost use Rattle.nd_ufunc.specs.Loops.Results.{result_bytes};
ghost use Rattle.nd_ufunc.specs.Loops.Sides.{HasNumbers, IsOf, numbers_on};

use crate::loops::kernel::{Side, append_any, append_each};
use crate::loops::operation::Operation;
use crate::loops::pairs::{is_kind, is_of, narrow};
use crate::loops::parts::append_parts;
use nd_block::Filling;
use nd_convert::conversion::known;
use nd_convert::conversion::known::KnownKind;
use nd_types::{Kind, fits};

// A loop that appends the results of a function.
trait Loop<O: Operation> {
    // Appends the results for the first `count` pairs of numbers.
    fn append(filling: Filling, to: Kind, left: Side<'_>, right: Side<'_>, count: usize) -> Filling
        requires room { count * size_of (kind_of to) ≤ filling.1 }
        requires left { HasNumbers left count }
        requires right { HasNumbers right count }
        ensures written { result.0 ≡ filling.0 ++ result_bytes (little (kind_of to))
            (O.gives (kind_of to)) (numbers_on left.entry count) (numbers_on right.entry count) }
        ensures room { result.1 + count * size_of (kind_of to) ≡ filling.1 };
}

// Works out and appends one result at a time.
struct OneByOne;

impl<O: Operation> Loop<O> for OneByOne {
    #[inline(always)]
    fn append(
        filling: Filling,
        to: Kind,
        left: Side<'_>,
        right: Side<'_>,
        count: usize,
    ) -> Filling {
        append_each::<O>(filling, to, left, right, count)
    }
}

// Works out 16 bytes of results in a local buffer, so that comparisons are vectorised.
struct ByParts;

impl<O: Operation> Loop<O> for ByParts {
    #[inline(always)]
    fn append(
        filling: Filling,
        to: Kind,
        left: Side<'_>,
        right: Side<'_>,
        count: usize,
    ) -> Filling {
        append_parts::<O>(filling, to, left, right, count)
    }
}

// Appends the results by a loop specialised for three kinds, where a lone number fits its kind.
fn append_known<O: Operation, W: Loop<O>, T: KnownKind, L: KnownKind, R: KnownKind>(
    filling: Filling,
    left: Side<'_>,
    right: Side<'_>,
    count: usize,
) -> Filling
    requires left_kind { IsOf left L.KIND }
    requires right_kind { IsOf right R.KIND }
    requires room { count * size_of (kind_of T.KIND) ≤ filling.1 }
    requires left { HasNumbers left count }
    requires right { HasNumbers right count }
    ensures written { result.0 ≡ filling.0 ++ result_bytes (little (kind_of T.KIND))
        (O.gives (kind_of T.KIND)) (numbers_on left.entry count) (numbers_on right.entry count) }
    ensures room { result.1 + count * size_of (kind_of T.KIND) ≡ filling.1 }
{
    match (left, right) {
        (Side::Each(xs, _), Side::Each(ys, _)) => {
            let (xs, ys) = (Side::Each(xs, L::KIND), Side::Each(ys, R::KIND));
            W::append(filling, T::KIND, xs, ys, count)
        }
        (Side::Each(xs, _), Side::Same(y)) if fits(L::KIND, y) => {
            let (xs, y) = (Side::Each(xs, L::KIND), Side::Same(narrow(L::KIND, y)));
            W::append(filling, T::KIND, xs, y, count)
        }
        (Side::Same(x), Side::Each(ys, _)) if fits(R::KIND, x) => {
            let (x, ys) = (Side::Same(narrow(R::KIND, x)), Side::Each(ys, R::KIND));
            W::append(filling, T::KIND, x, ys, count)
        }
        _ => append_any::<O>(filling, T::KIND, left, right, count),
    }
}

// Appends by the specialised loop where the kinds match, and by the general one otherwise.
#[inline(always)]
fn append_at<O: Operation, W: Loop<O>, T: KnownKind, L: KnownKind, R: KnownKind>(
    filling: Filling,
    to: Kind,
    left: Side<'_>,
    right: Side<'_>,
    count: usize,
) -> Filling
    requires room { count * size_of (kind_of to) ≤ filling.1 }
    requires left { HasNumbers left count }
    requires right { HasNumbers right count }
    ensures written { result.0 ≡ filling.0 ++ result_bytes (little (kind_of to))
        (O.gives (kind_of to)) (numbers_on left.entry count) (numbers_on right.entry count) }
    ensures room { result.1 + count * size_of (kind_of to) ≡ filling.1 }
{
    if is_kind(to, T::KIND) && is_of(left, L::KIND) && is_of(right, R::KIND) {
        append_known::<O, W, T, L, R>(filling, left, right, count)
    } else {
        append_any::<O>(filling, to, left, right, count)
    }
}

// Appends by the loop specialised for operands of kind `K`.
#[inline(never)]
fn append_kind<O: Operation, K: KnownKind>(
    filling: Filling,
    to: Kind,
    left: Side<'_>,
    right: Side<'_>,
    count: usize,
) -> Filling
    requires room { count * size_of (kind_of to) ≤ filling.1 }
    requires left { HasNumbers left count }
    requires right { HasNumbers right count }
    ensures written { result.0 ≡ filling.0 ++ result_bytes (little (kind_of to))
        (O.gives (kind_of to)) (numbers_on left.entry count) (numbers_on right.entry count) }
    ensures room { result.1 + count * size_of (kind_of to) ≡ filling.1 }
{
    if O::IS_COMPARISON {
        append_at::<O, ByParts, known::Booleans, K, K>(filling, to, left, right, count)
    } else {
        append_at::<O, OneByOne, K, K, K>(filling, to, left, right, count)
    }
}

// Whether one operand is `uint64` and the other `int64`, which no kind holds together.
fn are_mixed(left: Side<'_>, right: Side<'_>) -> bool {
    match (left, right) {
        (Side::Each(_, Kind::U64), Side::Each(_, Kind::I64)) => true,
        (Side::Each(_, Kind::I64), Side::Each(_, Kind::U64)) => true,
        _ => false,
    }
}

// Appends comparisons of `uint64` with `int64`, by a loop specialised for that pair.
#[inline(never)]
fn append_mixed<O: Operation>(
    filling: Filling,
    to: Kind,
    left: Side<'_>,
    right: Side<'_>,
    count: usize,
) -> Filling
    requires room { count * size_of (kind_of to) ≤ filling.1 }
    requires left { HasNumbers left count }
    requires right { HasNumbers right count }
    ensures written { result.0 ≡ filling.0 ++ result_bytes (little (kind_of to))
        (O.gives (kind_of to)) (numbers_on left.entry count) (numbers_on right.entry count) }
    ensures room { result.1 + count * size_of (kind_of to) ≡ filling.1 }
{
    if is_of(left, Kind::U64) {
        append_at::<O, ByParts, known::Booleans, known::UInt64s, known::Int64s>(
            filling, to, left, right, count,
        )
    } else {
        append_at::<O, ByParts, known::Booleans, known::Int64s, known::UInt64s>(
            filling, to, left, right, count,
        )
    }
}

/// Appends the results for the first `count` pairs, by a loop specialised for `kind` where both
/// operands have it.
pub(crate) fn append_sides<O: Operation>(
    filling: Filling,
    kind: Kind,
    to: Kind,
    left: Side<'_>,
    right: Side<'_>,
    count: usize,
) -> Filling
    requires room { count * size_of (kind_of to) ≤ filling.1 }
    requires left { HasNumbers left count }
    requires right { HasNumbers right count }
    ensures written { result.0 ≡ filling.0 ++ result_bytes (little (kind_of to))
        (O.gives (kind_of to)) (numbers_on left.entry count) (numbers_on right.entry count) }
    ensures room { result.1 + count * size_of (kind_of to) ≡ filling.1 }
{
    if O::IS_COMPARISON && are_mixed(left, right) {
        return append_mixed::<O>(filling, to, left, right, count);
    }
    match kind {
        Kind::Bool => append_kind::<O, known::Booleans>(filling, to, left, right, count),
        Kind::I8 => append_kind::<O, known::Int8s>(filling, to, left, right, count),
        Kind::I16 => append_kind::<O, known::Int16s>(filling, to, left, right, count),
        Kind::I32 => append_kind::<O, known::Int32s>(filling, to, left, right, count),
        Kind::I64 => append_kind::<O, known::Int64s>(filling, to, left, right, count),
        Kind::U8 => append_kind::<O, known::UInt8s>(filling, to, left, right, count),
        Kind::U16 => append_kind::<O, known::UInt16s>(filling, to, left, right, count),
        Kind::U32 => append_kind::<O, known::UInt32s>(filling, to, left, right, count),
        Kind::U64 => append_kind::<O, known::UInt64s>(filling, to, left, right, count),
    }
}
