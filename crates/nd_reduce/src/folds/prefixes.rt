//! `accumulate_lanes`: accumulations, such as `np.cumsum`, of lanes of consecutive numbers.
ghost use Rattle.std.specs.Prelude.{◌≡◌, ℕ, ◌+◌, ◌*◌, ◌^◌, ◌<◌, ◌≤◌, List, ℤ, [], ◌++◌, length, take, drop};
ghost use Rattle.std.specs.List.{flat_map};
ghost use Rattle.nd_model.specs.Arrays.Element.{size_of};
ghost use Rattle.nd_model.specs.Making.Reductions.{fold_kind};
ghost use Rattle.nd_types.specs.Kinds.{kind_of};
ghost use Rattle.nd_ufunc.specs.Loops.Sides.{HasNumbers, numbers_on};
ghost use Rattle.nd_reduce.specs.Folds.Lanes.{lanes_in, number_bytes, prefix_bytes, prefix_folds};

use crate::folds::fold::FoldStep;
use crate::folds::taking::{is_kind, number_of};
use nd_block::{Filling, store_at};
use nd_types::{Elem, Kind};
use nd_ufunc::loops::{CHUNK, Elements, Side, chunk_of};

// Takes the first `count` numbers of an operand, and writes the result so far behind each.
#[inline(always)]
fn accumulate_each<F: FoldStep>(
    fold: F,
    out: &mut [u8],
    to: Kind,
    kind: Kind,
    side: Side<'_>,
    count: usize,
) -> F
    requires to { kind_of to ≡ fold_kind F.reduction (kind_of kind) }
    requires out { length out.old ≡ count * size_of (kind_of to) }
    requires side { HasNumbers side count }
    ensures taken { (zs : List ℤ) → F.has_taken fold zs
        → F.has_taken result (zs ++ numbers_on side.entry count) }
    ensures bytes { (zs : List ℤ) → length zs + count < 2 ^ 64 → F.has_taken fold zs
        → out.new ≡ number_bytes (kind_of to) (prefix_folds F.reduction zs
        (numbers_on side.entry count)) }
{
    let size = to.size() as usize;
    let mut all = fold;
    for index in 0..count {
        all = all.step(number_of(side, index));
        store_at(out, index * size, Elem::little(to), all.result(kind));
    }
    all
}

// Accumulates numbers of any kind: the loop is compiled once and not specialised.
#[inline(never)]
fn accumulate_any<F: FoldStep>(
    fold: F,
    out: &mut [u8],
    to: Kind,
    kind: Kind,
    side: Side<'_>,
    count: usize,
) -> F
    requires to { kind_of to ≡ fold_kind F.reduction (kind_of kind) }
    requires out { length out.old ≡ count * size_of (kind_of to) }
    requires side { HasNumbers side count }
    ensures taken { (zs : List ℤ) → F.has_taken fold zs
        → F.has_taken result (zs ++ numbers_on side.entry count) }
    ensures bytes { (zs : List ℤ) → length zs + count < 2 ^ 64 → F.has_taken fold zs
        → out.new ≡ number_bytes (kind_of to) (prefix_folds F.reduction zs
        (numbers_on side.entry count)) }
{
    accumulate_each::<F>(fold, out, to, kind, side, count)
}

// Accumulates by a loop specialised for `known` where that is the kind of the numbers.
#[inline(always)]
fn accumulate_known<F: FoldStep>(
    known: Kind,
    fold: F,
    out: &mut [u8],
    to: Kind,
    kind: Kind,
    side: Side<'_>,
    count: usize,
) -> F
    requires to { kind_of to ≡ fold_kind F.reduction (kind_of kind) }
    requires out { length out.old ≡ count * size_of (kind_of to) }
    requires side { HasNumbers side count }
    ensures taken { (zs : List ℤ) → F.has_taken fold zs
        → F.has_taken result (zs ++ numbers_on side.entry count) }
    ensures bytes { (zs : List ℤ) → length zs + count < 2 ^ 64 → F.has_taken fold zs
        → out.new ≡ number_bytes (kind_of to) (prefix_folds F.reduction zs
        (numbers_on side.entry count)) }
{
    let known_to = F::folds_kind(known);
    match side {
        Side::Each(bytes, own)
            if is_kind(own, known) && is_kind(kind, known) && is_kind(to, known_to) => {
            let side = Side::Each(bytes, known);
            accumulate_each::<F>(fold, out, known_to, known, side, count)
        }
        _ => accumulate_any::<F>(fold, out, to, kind, side, count),
    }
}

// Accumulates by a loop specialised for the kind of the numbers.
#[inline(never)]
fn accumulate_side<F: FoldStep>(
    fold: F,
    out: &mut [u8],
    to: Kind,
    kind: Kind,
    side: Side<'_>,
    count: usize,
) -> F
    requires to { kind_of to ≡ fold_kind F.reduction (kind_of kind) }
    requires out { length out.old ≡ count * size_of (kind_of to) }
    requires side { HasNumbers side count }
    ensures taken { (zs : List ℤ) → F.has_taken fold zs
        → F.has_taken result (zs ++ numbers_on side.entry count) }
    ensures bytes { (zs : List ℤ) → length zs + count < 2 ^ 64 → F.has_taken fold zs
        → out.new ≡ number_bytes (kind_of to) (prefix_folds F.reduction zs
        (numbers_on side.entry count)) }
{
    match kind {
        Kind::Bool => accumulate_known::<F>(Kind::Bool, fold, out, to, kind, side, count),
        Kind::I8 => accumulate_known::<F>(Kind::I8, fold, out, to, kind, side, count),
        Kind::I16 => accumulate_known::<F>(Kind::I16, fold, out, to, kind, side, count),
        Kind::I32 => accumulate_known::<F>(Kind::I32, fold, out, to, kind, side, count),
        Kind::I64 => accumulate_known::<F>(Kind::I64, fold, out, to, kind, side, count),
        Kind::U8 => accumulate_known::<F>(Kind::U8, fold, out, to, kind, side, count),
        Kind::U16 => accumulate_known::<F>(Kind::U16, fold, out, to, kind, side, count),
        Kind::U32 => accumulate_known::<F>(Kind::U32, fold, out, to, kind, side, count),
        Kind::U64 => accumulate_known::<F>(Kind::U64, fold, out, to, kind, side, count),
    }
}

// Appends the accumulation of the next `count` numbers, which are one lane.
fn accumulate_lane<F: FoldStep>(
    out: &mut Filling,
    to: Kind,
    kind: Kind,
    numbers: &mut Elements<'_>,
    buffer: &mut [u8],
    folds: &mut [u8],
    chunk: usize,
    count: usize,
)
    requires to { kind_of to ≡ fold_kind F.reduction (kind_of kind) }
    requires enough { count ≤ length numbers.old.numbers }
    requires few { count < 2 ^ 64 }
    requires some { 0 < chunk }
    requires buffer { chunk * size_of numbers.old.kind ≤ length buffer.old }
    requires folds { chunk * size_of (kind_of to) ≤ length folds.old }
    requires room { count * size_of (kind_of to) ≤ out.old.1 }
    ensures left { numbers.new.numbers ≡ drop count numbers.old.numbers }
    ensures size { numbers.new.kind ≡ numbers.old.kind }
    ensures room { out.new.1 + count * size_of (kind_of to) ≡ out.old.1 }
    ensures written { out.new.0 ≡ out.old.0 ++ prefix_bytes F.reduction (kind_of to)
        (take count numbers.old.numbers) }
{
    let size = to.size() as usize;
    let mut fold = F::begin();
    let mut done = 0;
    while done < count {
        let some = chunk.min(count - done);
        let end = some * size;
        let side = numbers.take(buffer, some);
        fold = accumulate_side::<F>(fold, &mut folds[..end], to, kind, side, some);
        out.push(&folds[..end]);
        done += some;
    }
}

/// Appends the accumulations of `lanes` lanes of `count` consecutive numbers each. `kind` is that
/// of the numbers, `to` that of the results.
///
/// The numbers `1 2 3 4 5 6` in 2 lanes of 3 have the cumulative sums `1 3 6 4 9 15`.
pub fn accumulate_lanes<F: FoldStep>(
    out: &mut Filling,
    to: Kind,
    kind: Kind,
    numbers: &mut Elements<'_>,
    lanes: usize,
    count: usize,
)
    requires to { kind_of to ≡ fold_kind F.reduction (kind_of kind) }
    requires enough { length numbers.old.numbers ≡ lanes * count }
    requires few { count < 2 ^ 64 }
    requires room { lanes * count * size_of (kind_of to) ≡ out.old.1 }
    ensures left { out.new.1 ≡ 0 }
    ensures written { out.new.0 ≡ out.old.0 ++ flat_map (prefix_bytes F.reduction (kind_of to))
        (lanes_in count lanes numbers.old.numbers) }
{
    let chunk = chunk_of(to.size() as usize, numbers.size(), 1);
    let mut buffer = [0; CHUNK];
    let mut folds = [0; CHUNK];
    let mut rest = lanes;
    while rest > 0 {
        accumulate_lane::<F>(
            out,
            to,
            kind,
            numbers,
            &mut buffer,
            &mut folds,
            chunk,
            count,
        );
        rest -= 1;
    }
}
