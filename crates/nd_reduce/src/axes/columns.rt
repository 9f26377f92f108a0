//! `extend_columns`: the loop over a row of numbers, each of which the fold of its column takes.
ghost use Rattle.std.specs.Prelude.{◌≡◌, ℕ, ◌+◌, ◌*◌, ◌^◌, ◌<◌, ◌≤◌, List, ℤ, length};
ghost use Rattle.std.specs.List.{All};
ghost use Rattle.nd_model.specs.Arrays.Element.{IsValue, size_of, wrap};
ghost use Rattle.nd_model.specs.Making.Reductions.{fold_kind, folded};
ghost use Rattle.nd_types.specs.Kinds.{kind_of};
ghost use Rattle.nd_ufunc.specs.Loops.Sides.{HasNumbers, numbers_on};
ghost use Rattle.nd_reduce.specs.Folds.Lanes.{fold_bytes};
ghost use Rattle.nd_reduce.specs.Axes.Tables.{AreFolds, HasBest, best_size, more_columns};

use crate::folds::{RowFold, is_kind, number_in, number_of};
use nd_block::store_at;
use nd_types::{Elem, Kind};
use nd_ufunc::loops::Side;

// The state after `taken` numbers whose result so far is `fold`.
#[inline(always)]
fn fold_after<F: RowFold>(taken: usize, kind: Kind, fold: i128, bests: &[u8], index: usize) -> F
    requires { (index + 1) * best_size F.Best.kept (kind_of kind) ≤ length bests.now }
    ensures { (zs : List ℤ) → length zs ≡ taken → All (λ z. IsValue (kind_of kind) z) zs
        → (0 < taken → fold ≡ wrap (fold_kind F.reduction (kind_of kind)) (folded F.reduction zs))
        → (0 < taken → HasBest F.Best.kept (kind_of kind) bests.now index zs)
        → F.has_taken result zs }
{
    if taken > 0 {
        F::resume(kind, taken, fold, bests, index)
    } else {
        F::begin()
    }
}

// Writes the results of `count` columns, each with one number more.
#[inline(always)]
fn extend_each<F: RowFold>(
    out: &mut [u8],
    to: Kind,
    taken: usize,
    folds: &[u8],
    bests: &[u8],
    kind: Kind,
    side: Side<'_>,
    count: usize,
)
    requires to { kind_of to ≡ fold_kind F.reduction (kind_of kind) }
    requires few { taken + 1 < 2 ^ 64 }
    requires out { length out.old ≡ count * size_of (kind_of to) }
    requires folds { length folds.now ≡ count * size_of (kind_of to) }
    requires bests { length bests.now ≡ count * best_size F.Best.kept (kind_of kind) }
    requires side { HasNumbers side count }
    ensures { (columns : List (List ℤ)) → length columns ≡ count
        → AreFolds F.reduction F.Best.kept (kind_of kind) (kind_of to) taken folds.now bests.now
        columns
        → out.new ≡ fold_bytes F.reduction (kind_of to)
        (more_columns columns (numbers_on side.entry count)) }
{
    let size = to.size() as usize;
    for index in 0..count {
        let before = fold_after::<F>(taken, kind, number_in(folds, to, index), bests, index);
        let fold = before.step(number_of(side, index));
        store_at(out, index * size, Elem::little(to), fold.result(kind));
    }
}

// Extends columns of numbers of any kind: the loop is compiled once and not specialised.
#[inline(never)]
fn extend_any<F: RowFold>(
    out: &mut [u8],
    to: Kind,
    taken: usize,
    folds: &[u8],
    bests: &[u8],
    kind: Kind,
    side: Side<'_>,
    count: usize,
)
    requires to { kind_of to ≡ fold_kind F.reduction (kind_of kind) }
    requires few { taken + 1 < 2 ^ 64 }
    requires out { length out.old ≡ count * size_of (kind_of to) }
    requires folds { length folds.now ≡ count * size_of (kind_of to) }
    requires bests { length bests.now ≡ count * best_size F.Best.kept (kind_of kind) }
    requires side { HasNumbers side count }
    ensures { (columns : List (List ℤ)) → length columns ≡ count
        → AreFolds F.reduction F.Best.kept (kind_of kind) (kind_of to) taken folds.now bests.now
        columns
        → out.new ≡ fold_bytes F.reduction (kind_of to)
        (more_columns columns (numbers_on side.entry count)) }
{
    extend_each::<F>(out, to, taken, folds, bests, kind, side, count);
}

// Extends columns by a loop specialised for `known` where that is the numbers' kind, and for the
// first number of each column.
#[inline(always)]
fn extend_known<F: RowFold>(
    known: Kind,
    out: &mut [u8],
    to: Kind,
    taken: usize,
    folds: &[u8],
    bests: &[u8],
    kind: Kind,
    side: Side<'_>,
    count: usize,
)
    requires to { kind_of to ≡ fold_kind F.reduction (kind_of kind) }
    requires few { taken + 1 < 2 ^ 64 }
    requires out { length out.old ≡ count * size_of (kind_of to) }
    requires folds { length folds.now ≡ count * size_of (kind_of to) }
    requires bests { length bests.now ≡ count * best_size F.Best.kept (kind_of kind) }
    requires side { HasNumbers side count }
    ensures { (columns : List (List ℤ)) → length columns ≡ count
        → AreFolds F.reduction F.Best.kept (kind_of kind) (kind_of to) taken folds.now bests.now
        columns
        → out.new ≡ fold_bytes F.reduction (kind_of to)
        (more_columns columns (numbers_on side.entry count)) }
{
    let known_to = F::folds_kind(known);
    match side {
        Side::Each(bytes, own)
            if is_kind(own, known) && is_kind(kind, known) && is_kind(to, known_to) => {
            let side = Side::Each(bytes, known);
            if taken > 0 {
                extend_each::<F>(out, known_to, taken, folds, bests, known, side, count);
            } else {
                extend_each::<F>(out, known_to, 0, folds, bests, known, side, count);
            }
        }
        _ => extend_any::<F>(out, to, taken, folds, bests, kind, side, count),
    }
}

/// Writes the results of `count` columns, of `taken` numbers so far, each with one number of the
/// operand more. `bests` is what is stored beside the results. The loop is specialised for the kind.
#[inline(never)]
pub(crate) fn extend_columns<F: RowFold>(
    out: &mut [u8],
    to: Kind,
    taken: usize,
    folds: &[u8],
    bests: &[u8],
    kind: Kind,
    side: Side<'_>,
    count: usize,
)
    requires to { kind_of to ≡ fold_kind F.reduction (kind_of kind) }
    requires few { taken + 1 < 2 ^ 64 }
    requires out { length out.old ≡ count * size_of (kind_of to) }
    requires folds { length folds.now ≡ count * size_of (kind_of to) }
    requires bests { length bests.now ≡ count * best_size F.Best.kept (kind_of kind) }
    requires side { HasNumbers side count }
    ensures { (columns : List (List ℤ)) → length columns ≡ count
        → AreFolds F.reduction F.Best.kept (kind_of kind) (kind_of to) taken folds.now bests.now
        columns
        → out.new ≡ fold_bytes F.reduction (kind_of to)
        (more_columns columns (numbers_on side.entry count)) }
{
    match kind {
        Kind::Bool => extend_known::<F>(
            Kind::Bool,
            out,
            to,
            taken,
            folds,
            bests,
            kind,
            side,
            count,
        ),
        Kind::I8 => extend_known::<F>(Kind::I8, out, to, taken, folds, bests, kind, side, count),
        Kind::I16 => extend_known::<F>(Kind::I16, out, to, taken, folds, bests, kind, side, count),
        Kind::I32 => extend_known::<F>(Kind::I32, out, to, taken, folds, bests, kind, side, count),
        Kind::I64 => extend_known::<F>(Kind::I64, out, to, taken, folds, bests, kind, side, count),
        Kind::U8 => extend_known::<F>(Kind::U8, out, to, taken, folds, bests, kind, side, count),
        Kind::U16 => extend_known::<F>(Kind::U16, out, to, taken, folds, bests, kind, side, count),
        Kind::U32 => extend_known::<F>(Kind::U32, out, to, taken, folds, bests, kind, side, count),
        Kind::U64 => extend_known::<F>(Kind::U64, out, to, taken, folds, bests, kind, side, count),
    }
}
