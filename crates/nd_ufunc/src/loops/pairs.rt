//! `apply_sides`: chooses the loop that writes a function's results over bytes that are there. All
//! loops have one contract, so the choice is a matter of speed alone.
ghost use Rattle.std.specs.Prelude.{◌≡◌, ◌*◌, length, IsTrue};
ghost use Rattle.nd_model.specs.Arrays.Element.{IsValue, size_of};
ghost use Rattle.nd_model.specs.Making.Elementwise.{little};
ghost use Rattle.nd_types.specs.Kinds.{kind_of};
ghost use Rattle.nd_ufunc.specs.Loops.Results.{result_bytes};
ghost use Rattle.nd_ufunc.specs.Loops.Sides.{HasNumbers, IsOf, numbers_on};

use crate::loops::kernel::{Side, apply_any, apply_each};
use crate::loops::operation::Operation;
use nd_convert::conversion::known;
use nd_convert::conversion::known::KnownKind;
use nd_types::{Kind, fits, wrap};

/// Returns whether both kinds are equal.
#[inline(always)]
pub(crate) fn is_kind(kind: Kind, other: Kind) -> bool
    ensures { IsTrue result → kind ≡ other }
{
    kind == other
}

/// Returns whether the contiguous numbers of an operand are of this kind; a scalar fits any.
#[inline(always)]
pub(crate) fn is_of(side: Side<'_>, kind: Kind) -> bool
    ensures { IsTrue result → IsOf side.entry kind }
{
    match side {
        Side::Same(_) => true,
        Side::Each(_, own) => is_kind(own, kind),
    }
}

/// Returns the number itself, as one that the compiler knows to fit the kind's bits.
#[inline(always)]
pub(crate) fn narrow(kind: Kind, number: i128) -> i128
    requires { IsValue (kind_of kind) number }
    ensures { result ≡ number }
{
    wrap(kind, number)
}

// Writes the results by a loop specialised for a kind, where a lone number fits it.
fn apply_known<O: Operation, K: KnownKind>(
    out: &mut [u8],
    left: Side<'_>,
    right: Side<'_>,
    count: usize,
)
    requires left_kind { IsOf left K.KIND }
    requires right_kind { IsOf right K.KIND }
    requires out { length out.old ≡ count * size_of (kind_of K.KIND) }
    requires left { HasNumbers left count }
    requires right { HasNumbers right count }
    ensures { out.new ≡ result_bytes (little (kind_of K.KIND)) (O.gives (kind_of K.KIND))
        (numbers_on left.entry count) (numbers_on right.entry count) }
{
    match (left, right) {
        (Side::Each(xs, _), Side::Each(ys, _)) => {
            let (xs, ys) = (Side::Each(xs, K::KIND), Side::Each(ys, K::KIND));
            apply_each::<O>(out, K::KIND, xs, ys, count);
        }
        (Side::Each(xs, _), Side::Same(y)) if fits(K::KIND, y) => {
            let (xs, y) = (Side::Each(xs, K::KIND), Side::Same(narrow(K::KIND, y)));
            apply_each::<O>(out, K::KIND, xs, y, count);
        }
        (Side::Same(x), Side::Each(ys, _)) if fits(K::KIND, x) => {
            let (x, ys) = (Side::Same(narrow(K::KIND, x)), Side::Each(ys, K::KIND));
            apply_each::<O>(out, K::KIND, x, ys, count);
        }
        _ => apply_any::<O>(out, K::KIND, left, right, count),
    }
}

// Writes by the specialised loop where all three kinds are `K`, and by the general one otherwise.
#[inline(never)]
fn apply_kind<O: Operation, K: KnownKind>(
    out: &mut [u8],
    to: Kind,
    left: Side<'_>,
    right: Side<'_>,
    count: usize,
)
    requires out { length out.old ≡ count * size_of (kind_of to) }
    requires left { HasNumbers left count }
    requires right { HasNumbers right count }
    ensures { out.new ≡ result_bytes (little (kind_of to)) (O.gives (kind_of to))
        (numbers_on left.entry count) (numbers_on right.entry count) }
{
    if is_kind(to, K::KIND) && is_of(left, K::KIND) && is_of(right, K::KIND) {
        apply_known::<O, K>(out, left, right, count);
    } else {
        apply_any::<O>(out, to, left, right, count);
    }
}

/// Writes the results for the first `count` pairs, one after another, by a loop specialised for
/// `kind` where both operands have it.
///
/// `apply_sides::<Less>` of the numbers 1, 5 and the scalar 3 writes the bytes 1, 0.
pub fn apply_sides<O: Operation>(
    kind: Kind,
    out: &mut [u8],
    to: Kind,
    left: Side<'_>,
    right: Side<'_>,
    count: usize,
)
    requires out { length out.old ≡ count * size_of (kind_of to) }
    requires left { HasNumbers left count }
    requires right { HasNumbers right count }
    ensures { out.new ≡ result_bytes (little (kind_of to)) (O.gives (kind_of to))
        (numbers_on left.entry count) (numbers_on right.entry count) }
{
    match kind {
        Kind::Bool => apply_kind::<O, known::Booleans>(out, to, left, right, count),
        Kind::I8 => apply_kind::<O, known::Int8s>(out, to, left, right, count),
        Kind::I16 => apply_kind::<O, known::Int16s>(out, to, left, right, count),
        Kind::I32 => apply_kind::<O, known::Int32s>(out, to, left, right, count),
        Kind::I64 => apply_kind::<O, known::Int64s>(out, to, left, right, count),
        Kind::U8 => apply_kind::<O, known::UInt8s>(out, to, left, right, count),
        Kind::U16 => apply_kind::<O, known::UInt16s>(out, to, left, right, count),
        Kind::U32 => apply_kind::<O, known::UInt32s>(out, to, left, right, count),
        Kind::U64 => apply_kind::<O, known::UInt64s>(out, to, left, right, count),
    }
}
