//! `copy_crossed`: copies the numbers of grids to others column by column, so that a transposed array
//! is walked as it lies in memory.
ghost use Rattle.std.specs.Prelude.{◌≡◌, ◌<◌, pos, length};
ghost use Rattle.nd_model.specs.Arrays.Element.{size_of};
ghost use Rattle.nd_model.specs.Arrays.Runs.{run_places, AreWithin};
ghost use Rattle.nd_model.specs.Arrays.View.{One};
ghost use Rattle.nd_element.specs.Elements.{AreHeld};
ghost use Rattle.nd_assign.specs.Copies.{with_copies};
ghost use Rattle.nd_assign.specs.Grids.{AreColumnsApart, AreCrossed, grid_places, stack_places};

use crate::grid::{Crossed, Grid};
use crate::kernel::copy_each;
use nd_convert::conversion::known::{
    Booleans, Int8s, Int16s, Int32s, Int64s, KnownKind, UInt8s, UInt16s, UInt32s, UInt64s,
};
use nd_element::is_elem;
use nd_types::{Elem, Kind};

// Copies `count` numbers, converted, by a loop specialised for contiguous numbers where both are.
#[inline(always)]
fn copy_column(
    out: &mut [u8],
    to: Elem,
    start: u64,
    step: u64,
    bytes: &[u8],
    from: Elem,
    from_start: u64,
    from_step: u64,
    count: usize,
)
    requires out { AreWithin start (pos step) (size_of to.kind) count (length out.old) }
    requires held { AreWithin from_start (pos from_step) (size_of from.kind) count
        (length bytes.now) }
    ensures len { length out.new ≡ length out.old }
    ensures bytes { out.new ≡ with_copies (One to) (One from) bytes.now
        (run_places start (pos step) count) (run_places from_start (pos from_step) count) out.old }
{
    let (size, from_size) = (to.size(), from.size());
    if step == size && from_step == from_size {
        let (step, from_step) = (i128::from(size), i128::from(from_size));
        copy_each(
            out, to, start, step, bytes, from, from_start, from_step, count,
        );
    } else {
        let (step, from_step) = (i128::from(step), i128::from(from_step));
        copy_each(
            out, to, start, step, bytes, from, from_start, from_step, count,
        );
    }
}

// Copies the numbers of a grid to another one, converted, column by column.
#[inline(always)]
fn copy_columns(out: &mut [u8], to: Elem, target: Grid, bytes: &[u8], from: Elem, source: Grid)
    requires rows { source.rows ≡ target.rows }
    requires columns { source.columns ≡ target.columns }
    requires some { 0 < target.rows }
    requires apart { AreColumnsApart (size_of to.kind) target }
    requires out { AreHeld to out.old (grid_places target) }
    requires held { AreHeld from bytes.now (grid_places source) }
    ensures len { length out.new ≡ length out.old }
    ensures bytes { out.new ≡ with_copies (One to) (One from) bytes.now (grid_places target)
        (grid_places source) out.old }
{
    // proof: the numbers of bytes are bounded, by the clause of len().
    let (_len, _from_len) = (out.len(), bytes.len());
    for column in 0..target.columns {
        let start = target.start + column * target.along;
        let from_start = source.start + column * source.along;
        copy_column(
            out,
            to,
            start,
            target.across,
            bytes,
            from,
            from_start,
            source.across,
            target.rows as usize,
        );
    }
}

// Copies the numbers of a grid to another one, converted, a band of rows at a time.
#[inline(always)]
fn copy_bands(
    out: &mut [u8],
    to: Elem,
    target: Grid,
    bytes: &[u8],
    from: Elem,
    source: Grid,
    band: u64,
)
    requires rows { source.rows ≡ target.rows }
    requires columns { source.columns ≡ target.columns }
    requires wide { 0 < target.columns }
    requires band { 0 < band }
    requires apart { AreColumnsApart (size_of to.kind) target }
    requires out { AreHeld to out.old (grid_places target) }
    requires held { AreHeld from bytes.now (grid_places source) }
    ensures len { length out.new ≡ length out.old }
    ensures bytes { out.new ≡ with_copies (One to) (One from) bytes.now (grid_places target)
        (grid_places source) out.old }
{
    // proof: the numbers of bytes are bounded, by the clause of len().
    let (_len, _from_len) = (out.len(), bytes.len());
    let mut row = 0;
    while row < target.rows {
        let some = band.min(target.rows - row);
        let (part, from_part) = (target.part(row, some), source.part(row, some));
        copy_columns(out, to, part, bytes, from, from_part);
        row += some;
    }
}

// Copies the numbers of grids to others, converted, one grid after another.
#[inline(always)]
fn copy_grids(out: &mut [u8], to: Elem, bytes: &[u8], from: Elem, grids: Crossed)
    requires crossed { AreCrossed (size_of to.kind) grids }
    requires out { AreHeld to out.old (stack_places grids.target grids.target.count) }
    requires held { AreHeld from bytes.now (stack_places grids.source grids.source.count) }
    ensures len { length out.new ≡ length out.old }
    ensures bytes { out.new ≡ with_copies (One to) (One from) bytes.now
        (stack_places grids.target grids.target.count)
        (stack_places grids.source grids.source.count) out.old }
{
    let Crossed {
        target,
        source,
        band,
    } = grids;
    // proof: the numbers of bytes are bounded, by the clause of len().
    let (_len, _from_len) = (out.len(), bytes.len());
    for at in 0..target.count {
        let grid = target.first.shift(at * target.jump);
        let from_grid = source.first.shift(at * source.jump);
        copy_bands(out, to, grid, bytes, from, from_grid, band);
    }
}

// Copies between any dtypes: the loop is compiled once and not specialised.
#[inline(never)]
fn copy_any(out: &mut [u8], to: Elem, bytes: &[u8], from: Elem, grids: Crossed)
    requires crossed { AreCrossed (size_of to.kind) grids }
    requires out { AreHeld to out.old (stack_places grids.target grids.target.count) }
    requires held { AreHeld from bytes.now (stack_places grids.source grids.source.count) }
    ensures len { length out.new ≡ length out.old }
    ensures bytes { out.new ≡ with_copies (One to) (One from) bytes.now
        (stack_places grids.target grids.target.count)
        (stack_places grids.source grids.source.count) out.old }
{
    copy_grids(out, to, bytes, from, grids);
}

// Copies by a loop specialised for little-endian numbers of one kind where both dtypes are these,
// and by the general one otherwise.
#[inline(never)]
fn copy_kind<K: KnownKind>(out: &mut [u8], to: Elem, bytes: &[u8], from: Elem, grids: Crossed)
    requires crossed { AreCrossed (size_of to.kind) grids }
    requires out { AreHeld to out.old (stack_places grids.target grids.target.count) }
    requires held { AreHeld from bytes.now (stack_places grids.source grids.source.count) }
    ensures len { length out.new ≡ length out.old }
    ensures bytes { out.new ≡ with_copies (One to) (One from) bytes.now
        (stack_places grids.target grids.target.count)
        (stack_places grids.source grids.source.count) out.old }
{
    let known = Elem::little(K::KIND);
    if is_elem(to, known) && is_elem(from, known) {
        copy_grids(out, known, bytes, known, grids);
    } else {
        copy_any(out, to, bytes, from, grids);
    }
}

/// Copies the numbers of grids to others, converted, in C order. Some rows at a
/// time are copied column by column, which leaves the bytes that C order leaves.
pub(crate) fn copy_crossed(out: &mut [u8], to: Elem, bytes: &[u8], from: Elem, grids: Crossed)
    requires crossed { AreCrossed (size_of to.kind) grids }
    requires out { AreHeld to out.old (stack_places grids.target grids.target.count) }
    requires held { AreHeld from bytes.now (stack_places grids.source grids.source.count) }
    ensures len { length out.new ≡ length out.old }
    ensures bytes { out.new ≡ with_copies (One to) (One from) bytes.now
        (stack_places grids.target grids.target.count)
        (stack_places grids.source grids.source.count) out.old }
{
    match to.kind() {
        Kind::Bool => copy_kind::<Booleans>(out, to, bytes, from, grids),
        Kind::I8 => copy_kind::<Int8s>(out, to, bytes, from, grids),
        Kind::I16 => copy_kind::<Int16s>(out, to, bytes, from, grids),
        Kind::I32 => copy_kind::<Int32s>(out, to, bytes, from, grids),
        Kind::I64 => copy_kind::<Int64s>(out, to, bytes, from, grids),
        Kind::U8 => copy_kind::<UInt8s>(out, to, bytes, from, grids),
        Kind::U16 => copy_kind::<UInt16s>(out, to, bytes, from, grids),
        Kind::U32 => copy_kind::<UInt32s>(out, to, bytes, from, grids),
        Kind::U64 => copy_kind::<UInt64s>(out, to, bytes, from, grids),
    }
}
