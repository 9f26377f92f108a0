//! `fold_lanes`: reduces lanes of `count` consecutive numbers, one result for each lane.
ghost use Rattle.std.specs.Prelude.{◌≡◌, ℕ, ◌+◌, ◌*◌, ◌^◌, ◌<◌, ◌≤◌, List, ℤ, [], ◌∷◌, ◌++◌, length, take, drop};
ghost use Rattle.nd_model.specs.Arrays.Element.{size_of, wrap, bytes_of};
ghost use Rattle.nd_model.specs.Making.Elementwise.{little};
ghost use Rattle.nd_model.specs.Making.Reductions.{fold_kind, folded};
ghost use Rattle.nd_types.specs.Kinds.{kind_of};
ghost use Rattle.nd_ufunc.specs.Loops.Sides.{HasNumbers, numbers_on};
ghost use Rattle.nd_ufunc.specs.declared.loops.kernel.Side.TheVariants.{Same};
ghost use Rattle.nd_reduce.specs.Folds.Lanes.{fold_bytes, lanes_in};

use crate::folds::fold::FoldStep;
use crate::folds::run_fold::RunFold;
use nd_block::{Filling, store_at};
use nd_types::{Elem, Kind};
use nd_ufunc::loops::{CHUNK, Elements, Side, chunk_of};

// The chunks of numbers that are taken at a time.
const CHUNKS: usize = 2;

// The largest itemsize of a result.
const MOST_SIZE: usize = 8;

// Takes one number `count` times.
#[inline(always)]
fn fold_same<F: FoldStep>(fold: F, number: i128, count: usize) -> F
    ensures { (zs : List ℤ) → F.has_taken fold zs
        → F.has_taken result (zs ++ numbers_on (Same number) count) }
{
    let mut all = fold;
    for _index in 0..count {
        all = all.step(number);
    }
    all
}

// Takes the first `count` numbers of an operand.
#[inline(always)]
fn fold_side<F: RunFold>(fold: F, side: Side<'_>, count: usize) -> F
    requires { HasNumbers side count }
    ensures { (zs : List ℤ) → F.has_taken fold zs
        → F.has_taken result (zs ++ numbers_on side.entry count) }
{
    match side {
        Side::Same(number) => fold_same::<F>(fold, number, count),
        Side::Each(bytes, kind) => fold.take(kind, bytes, count),
    }
}

// Leaves out the next `count` numbers.
fn skip(numbers: &mut Elements<'_>, buffer: &mut [u8], chunk: usize, count: usize)
    requires enough { count ≤ length numbers.old.numbers }
    requires some { 0 < chunk }
    requires buffer { chunk * size_of numbers.old.kind ≤ length buffer.old }
    ensures left { numbers.new.numbers ≡ drop count numbers.old.numbers }
    ensures size { numbers.new.kind ≡ numbers.old.kind }
{
    let mut done = 0;
    while done < count {
        let passed = chunk.min(count - done);
        numbers.take(buffer, passed);
        done += passed;
    }
}

// The result for the next `count` numbers, which are of the kind `kind`, and how many of them were
// not read, since they do not change it.
fn fold_lane<F: RunFold>(
    kind: Kind,
    numbers: &mut Elements<'_>,
    buffer: &mut [u8],
    chunk: usize,
    count: usize,
) -> (i128, usize)
    requires enough { count ≤ length numbers.old.numbers }
    requires few { count < 2 ^ 64 }
    requires some { 0 < chunk }
    requires buffer { chunk * size_of numbers.old.kind ≤ length buffer.old }
    ensures number { result.0 ≡ wrap (fold_kind F.reduction (kind_of kind))
        (folded F.reduction (take count numbers.old.numbers)) }
    ensures unread { result.1 ≤ length numbers.new.numbers }
    ensures left { drop result.1 numbers.new.numbers ≡ drop count numbers.old.numbers }
    ensures size { numbers.new.kind ≡ numbers.old.kind }
{
    let mut fold = F::begin();
    let mut done = 0;
    while done < count && !fold.is_settled() {
        let some = chunk.min(count - done);
        let side = numbers.take(buffer, some);
        fold = fold_side::<F>(fold, side, some);
        done += some;
    }
    (fold.result(kind), count - done)
}

/// Appends the results for `lanes` lanes of `count` consecutive numbers each. `kind` is that of the
/// numbers, `to` that of the results.
///
/// The numbers `1 2 3 4 5 6` in 2 lanes of 3 have the sums `6 15`.
pub fn fold_lanes<F: RunFold>(
    out: &mut Filling,
    to: Kind,
    kind: Kind,
    numbers: &mut Elements<'_>,
    lanes: usize,
    count: usize,
)
    requires to { kind_of to ≡ fold_kind F.reduction (kind_of kind) }
    requires enough { length numbers.old.numbers ≡ lanes * count }
    requires few { count < 2 ^ 64 }
    requires room { lanes * size_of (kind_of to) ≡ out.old.1 }
    ensures left { out.new.1 ≡ 0 }
    ensures written { out.new.0 ≡ out.old.0 ++ fold_bytes F.reduction (kind_of to)
        (lanes_in count lanes numbers.old.numbers) }
{
    let size = to.size() as usize;
    let chunk = CHUNKS * chunk_of(numbers.size(), 1, 1);
    let mut buffer = [0; CHUNKS * CHUNK];
    let mut bytes = [0; MOST_SIZE];
    let mut rest = lanes;
    let mut unread = 0;
    while rest > 0 {
        skip(numbers, &mut buffer, chunk, unread);
        let (number, left) = fold_lane::<F>(kind, numbers, &mut buffer, chunk, count);
        unread = left;
        store_at(&mut bytes, 0, Elem::little(to), number);
        out.push(&bytes[..size]);
        rest -= 1;
    }
}

/// Returns the result for a single number of the kind `kind`.
pub fn fold_number<F: FoldStep>(kind: Kind, number: i128) -> i128
    ensures { result ≡ wrap (fold_kind F.reduction (kind_of kind))
        (folded F.reduction (number ∷ [])) }
{
    F::begin().step(number).result(kind)
}
