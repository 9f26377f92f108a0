//! `table_folds`: reductions along another axis than the last one. Numbers are taken in the view's
//! order, row by row, each by the fold of its column.
ghost use Rattle.std.specs.Prelude.{◌≡◌, ℕ, ◌+◌, ◌*◌, ◌^◌, ◌<◌, ◌≤◌, Some, List, ℤ, [], ◌++◌, length, take, drop, replicate, if◌then◌else◌, IfOk};
ghost use Rattle.std.specs.List.{All};
ghost use Rattle.nd_model.specs.Grammar.Calls as calls;
ghost use Rattle.nd_model.specs.Arrays.Element.{IsValue, size_of};
ghost use Rattle.nd_model.specs.Making.Reductions.{fold_kind};
ghost use Rattle.nd_types.specs.Kinds.{kind_of};
ghost use Rattle.nd_element.specs.Elements.{AreHeld, numbers_at};
ghost use Rattle.nd_ufunc.specs.Loops.Sides.{HasNumbers, numbers_on};
ghost use Rattle.nd_reduce.specs.Folds.Lanes.{fold_bytes};
ghost use Rattle.nd_reduce.specs.Axes.Tables.{AreFolds, HasBests, best_size, more_columns, row_columns, rows_kept, table_columns};

use crate::axes::columns::extend_columns;
use crate::folds::fold::{Max, Min};
use crate::folds::{Bests, RowFold};
use nd_block::{Filling, RawBlock};
use nd_types::{Elem, Kind};
use nd_ufunc::loops::{CHUNK, Elements, Side, chunk_of};
use nd_view::View;
use std::alloc::{AllocError, Global};

// Takes one number of the operand more into the result of each column, and into what is stored
// beside it. `found` is room for the new ones of either.
fn extend_part<F: RowFold>(
    part: &mut [u8],
    bests: &mut [u8],
    found: &mut [u8],
    to: Kind,
    taken: usize,
    kind: Kind,
    side: Side<'_>,
    count: usize,
)
    requires to { kind_of to ≡ fold_kind F.reduction (kind_of kind) }
    requires few { taken + 1 < 2 ^ 64 }
    requires part { length part.old ≡ count * size_of (kind_of to) }
    requires bests { length bests.old ≡ count * best_size F.Best.kept (kind_of kind) }
    requires found { count * size_of (kind_of to) ≤ length found.old }
    requires found_bests { count * best_size F.Best.kept (kind_of kind) ≤ length found.old }
    requires side { HasNumbers side count }
    ensures folds { (columns : List (List ℤ)) → length columns ≡ count
        → AreFolds F.reduction F.Best.kept (kind_of kind) (kind_of to) taken part.old bests.old
        columns
        → part.new ≡ fold_bytes F.reduction (kind_of to)
        (more_columns columns (numbers_on side.entry count)) }
    ensures bests { (columns : List (List ℤ)) → length columns ≡ count
        → AreFolds F.reduction F.Best.kept (kind_of kind) (kind_of to) taken part.old bests.old
        columns
        → HasBests F.Best.kept (kind_of kind) bests.new
        (more_columns columns (numbers_on side.entry count)) }
{
    let end = count * to.size() as usize;
    extend_columns::<F>(&mut found[..end], to, taken, part, bests, kind, side, count);
    part.copy_from_slice(&found[..end]);
    F::Best::extend(bests, found, taken, kind, side, count);
}

impl Bests for Min {
    ghost kept = { Some calls.Min };

    #[inline(always)]
    fn size(kind: Kind) -> usize {
        kind.size() as usize
    }

    fn extend(
        bests: &mut [u8],
        found: &mut [u8],
        taken: usize,
        kind: Kind,
        side: Side<'_>,
        count: usize,
    ) {
        extend_part::<Min>(bests, &mut [], found, kind, taken, kind, side, count);
    }
}

impl Bests for Max {
    ghost kept = { Some calls.Max };

    #[inline(always)]
    fn size(kind: Kind) -> usize {
        kind.size() as usize
    }

    fn extend(
        bests: &mut [u8],
        found: &mut [u8],
        taken: usize,
        kind: Kind,
        side: Side<'_>,
        count: usize,
    ) {
        extend_part::<Max>(bests, &mut [], found, kind, taken, kind, side, count);
    }
}

// Takes the next row of numbers.
fn extend_row<F: RowFold>(
    folds: &mut [u8],
    bests: &mut [u8],
    found: &mut [u8],
    to: Kind,
    taken: usize,
    kind: Kind,
    numbers: &mut Elements<'_>,
    buffer: &mut [u8],
    width: usize,
)
    requires to { kind_of to ≡ fold_kind F.reduction (kind_of kind) }
    requires few { taken + 1 < 2 ^ 64 }
    requires folds { length folds.old ≡ width * size_of (kind_of to) }
    requires bests { length bests.old ≡ width * best_size F.Best.kept (kind_of kind) }
    requires found { length found.old ≡ 8192 }
    requires buffer { length buffer.old ≡ 8192 }
    requires kind { numbers.old.kind ≡ kind_of kind }
    requires enough { width ≤ length numbers.old.numbers }
    ensures left { numbers.new.numbers ≡ drop width numbers.old.numbers }
    ensures kind { numbers.new.kind ≡ numbers.old.kind }
    ensures folds { (columns : List (List ℤ)) → length columns ≡ width
        → AreFolds F.reduction F.Best.kept (kind_of kind) (kind_of to) taken folds.old bests.old
        columns
        → folds.new ≡ fold_bytes F.reduction (kind_of to)
        (more_columns columns (take width numbers.old.numbers)) }
    ensures bests { (columns : List (List ℤ)) → length columns ≡ width
        → AreFolds F.reduction F.Best.kept (kind_of kind) (kind_of to) taken folds.old bests.old
        columns
        → HasBests F.Best.kept (kind_of kind) bests.new
        (more_columns columns (take width numbers.old.numbers)) }
{
    let size = to.size() as usize;
    let best_size = F::Best::size(kind);
    let chunk = chunk_of(size, numbers.size(), best_size.max(1));
    let mut done = 0;
    while done < width {
        let some = chunk.min(width - done);
        let end = done + some;
        let side = numbers.take(buffer, some);
        let part = &mut folds[done * size..end * size];
        let best_part = &mut bests[done * best_size..end * best_size];
        extend_part::<F>(part, best_part, found, to, taken, kind, side, some);
        done = end;
    }
}

// Appends bytes, if they are wanted.
fn append_if(out: &mut Filling, wanted: bool, bytes: &[u8])
    requires { (if wanted then length bytes.now else 0) ≤ out.old.1 }
    ensures written { out.new.0 ≡ out.old.0 ++ (if wanted then bytes.now else []) }
    ensures left { out.new.1 + (if wanted then length bytes.now else 0) ≡ out.old.1 }
{
    if wanted {
        out.push(bytes);
    }
}

// Appends the results for the columns of `rows` rows: behind each row with `each`, else behind the
// last one.
fn fold_rows<F: RowFold>(
    out: &mut Filling,
    each: bool,
    folds: &mut [u8],
    bests: &mut [u8],
    found: &mut [u8],
    to: Kind,
    kind: Kind,
    numbers: &mut Elements<'_>,
    buffer: &mut [u8],
    rows: usize,
    width: usize,
)
    requires to { kind_of to ≡ fold_kind F.reduction (kind_of kind) }
    requires some { 0 < rows }
    requires folds { length folds.old ≡ width * size_of (kind_of to) }
    requires bests { length bests.old ≡ width * best_size F.Best.kept (kind_of kind) }
    requires found { length found.old ≡ 8192 }
    requires buffer { length buffer.old ≡ 8192 }
    requires kind { numbers.old.kind ≡ kind_of kind }
    requires values { All (λ z. IsValue (kind_of kind) z) numbers.old.numbers }
    requires enough { rows * width ≤ length numbers.old.numbers }
    requires room { rows_kept each rows * (width * size_of (kind_of to)) ≤ out.old.1 }
    ensures left { numbers.new.numbers ≡ drop (rows * width) numbers.old.numbers }
    ensures kind { numbers.new.kind ≡ numbers.old.kind }
    ensures room { out.new.1 + rows_kept each rows * (width * size_of (kind_of to)) ≡ out.old.1 }
    ensures written { out.new.0 ≡ out.old.0 ++ fold_bytes F.reduction (kind_of to)
        (row_columns each width rows (replicate width []) numbers.old.numbers) }
{
    let mut taken = 0;
    while taken < rows {
        extend_row::<F>(folds, bests, found, to, taken, kind, numbers, buffer, width);
        append_if(out, each, folds);
        taken += 1;
    }
    append_if(out, !each, folds);
}

// Appends the results for `tables` tables of numbers, each of `rows` rows.
fn fold_tables<F: RowFold>(
    out: &mut Filling,
    each: bool,
    folds: &mut [u8],
    bests: &mut [u8],
    to: Kind,
    kind: Kind,
    numbers: &mut Elements<'_>,
    tables: usize,
    rows: usize,
    width: usize,
)
    requires to { kind_of to ≡ fold_kind F.reduction (kind_of kind) }
    requires some { 0 < rows }
    requires folds { length folds.old ≡ width * size_of (kind_of to) }
    requires bests { length bests.old ≡ width * best_size F.Best.kept (kind_of kind) }
    requires kind { numbers.old.kind ≡ kind_of kind }
    requires values { All (λ z. IsValue (kind_of kind) z) numbers.old.numbers }
    requires enough { length numbers.old.numbers ≡ tables * (rows * width) }
    requires room { tables * (rows_kept each rows * (width * size_of (kind_of to))) ≡ out.old.1 }
    ensures left { out.new.1 ≡ 0 }
    ensures written { out.new.0 ≡ out.old.0 ++ fold_bytes F.reduction (kind_of to)
        (table_columns each width rows tables numbers.old.numbers) }
{
    let mut found = [0; CHUNK];
    let mut buffer = [0; CHUNK];
    let mut rest = tables;
    while rest > 0 {
        fold_rows::<F>(
            out,
            each,
            folds,
            bests,
            &mut found,
            to,
            kind,
            numbers,
            &mut buffer,
            rows,
            width,
        );
        rest -= 1;
    }
}

/// Returns the block of the `count` results for the columns of `tables` tables, which the elements
/// of a view are in C order. With `each` there are results behind each row, else behind the last.
pub(crate) fn table_folds<F: RowFold>(
    alloc: Global,
    each: bool,
    to: Kind,
    view: &View,
    elem: Elem,
    bytes: &[u8],
    tables: usize,
    rows: usize,
    width: usize,
    count: usize,
) -> Result<RawBlock, AllocError>
    requires to { kind_of to ≡ fold_kind F.reduction elem.kind }
    requires held { AreHeld elem bytes.now view.now.places }
    requires some { 0 < rows }
    requires enough { length view.now.places ≡ tables * (rows * width) }
    requires count { count ≡ tables * (rows_kept each rows * width) }
    requires few { (count ≤ 2 ^ 24) × (width ≤ 2 ^ 24) }
    ensures { IfOk result (λ b. b ≡ fold_bytes F.reduction (kind_of to)
        (table_columns each width rows tables (numbers_at elem bytes.now view.now.places))) }
{
    // proof: the number of bytes is bounded, by the clause of len().
    let _len = bytes.len();
    let size = to.size() as usize;
    let kind = elem.kind();
    let mut out = Filling::with_room(alloc, count * size)?;
    let mut kept = RawBlock::zeros(alloc, width * (size + F::Best::size(kind)))?;
    let (folds, bests) = kept.as_mut_slice().split_at_mut(width * size);
    let mut numbers = Elements::new(view, bytes, elem, kind);
    fold_tables::<F>(
        &mut out,
        each,
        folds,
        bests,
        to,
        kind,
        &mut numbers,
        tables,
        rows,
        width,
    );
    Ok(out.finish())
}
