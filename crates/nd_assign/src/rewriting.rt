//! `overwriting_dtypes` and `convert_to_block`: a block whose bytes are all overwritten by numbers,
//! made without a look at the old ones.
ghost use Rattle.std.specs.Prelude.{◌≡◌, ◌^◌, ◌≤◌, length, replicate, slice_index, IfOk, IfSome, IsTrue};
ghost use Rattle.nd_model.specs.Arrays.View.{One};
ghost use Rattle.nd_element.specs.Elements.{AreHeld};
ghost use Rattle.nd_convert.specs.Conversion.Converted.{converted_bytes};
ghost use Rattle.nd_assign.specs.Overwritten.{Covers};

use crate::gapless::end_of;
use crate::grid::crossed_grids;
use crate::whole_run::whole_run;
use nd_block::{Filling, RawBlock};
use nd_convert::conversion::{convert, convert_numbers};
use nd_element::{is_elem, keeps_bytes};
use nd_types::{Elem, ElemType};
use nd_view::{Run, View};
use std::alloc::{AllocError, Global};

// The most bytes of a chunk of equal numbers.
const CHUNK: usize = 512;

/// The dtypes of numbers that are converted.
#[derive(Clone, Copy)]
pub(crate) struct Dtypes {
    to: Elem,
    from: Elem,
}

// Whether a view is a column that is broadcast along rows: more runs than one, of which the first
// lies at one byte offset.
fn is_column_broadcast(view: &View) -> bool {
    match view.runs().next() {
        Some(run) => run.step() == 0 && run.count() as usize != view.count(),
        None => false,
    }
}

/// Returns the dtypes of target and source where numbers overwrite every byte of a block of `len`
/// bytes in C order. `None` otherwise, and where a loop that writes to the block reads the source
/// quicker: column by column, or a column that is broadcast.
pub(crate) fn overwriting_dtypes(target: &View, source: &View, len: usize) -> Option<Dtypes>
    ensures target { IfSome result (λ dtypes. Covers dtypes.to len target.now) }
    ensures source { IfSome result (λ dtypes. source.now.element ≡ One dtypes.from) }
{
    let (ElemType::One(to), ElemType::One(from)) = (target.elem(), source.elem()) else {
        return None;
    };
    let size = to.size();
    let run = target.contiguous_run(size)?;
    if run.start() != 0 || target.count() * size as usize != len {
        return None;
    }
    if crossed_grids(target, source, size).is_some() || is_column_broadcast(source) {
        return None;
    }
    Some(Dtypes {
        to: *to,
        from: *from,
    })
}

// Whether all elements of a run lie at one byte offset.
fn is_repeated(run: &Run) -> bool
    ensures { IsTrue result
        → run.now ≡ replicate (length run.now) (slice_index run.now 0) }
{
    run.step() == 0
}

// The block of numbers that lie at one byte offset, converted. A chunk of them is converted once,
// and appended until the block is full.
fn repeat_number(
    alloc: Global,
    to: Elem,
    bytes: &[u8],
    from: Elem,
    run: &Run,
) -> Result<RawBlock, AllocError>
    requires equal { run.now ≡ replicate (length run.now) (slice_index run.now 0) }
    requires few { length run.now ≤ 2 ^ 24 }
    ensures { IfOk result (λ b. b ≡ converted_bytes to from bytes.now run.now) }
{
    let size = to.size() as usize;
    let count = run.count() as usize;
    let some = count.min(CHUNK / size);
    let mut chunk = [0; CHUNK];
    let end = some * size;
    let part = run.part(0, some as u64);
    convert(&mut chunk[..end], to, bytes, from, &part);
    let mut out = Filling::with_room(alloc, count * size)?;
    let mut left = count;
    while left > 0 {
        let next = some.min(left);
        out.push(&chunk[..next * size]);
        left -= next;
    }
    Ok(out.finish())
}

// The bytes of contiguous numbers, where these are the bytes of the numbers as converted. `None`
// where they differ, or are not contiguous.
fn kept_bytes<'b>(to: Elem, bytes: &'b [u8], from: Elem, run: &Run) -> Option<&'b [u8]>
    requires held { AreHeld from bytes.now run.now }
    ensures { IfSome result (λ part. part.now ≡ converted_bytes to from bytes.now run.now) }
{
    if !is_elem(to, from) || !keeps_bytes(to) {
        return None;
    }
    if !run.is_contiguous(to.size()) {
        return None;
    }
    Some(&bytes[run.start() as usize..end_of(run, to, bytes)])
}

/// Returns the block of the numbers of a view in C order, converted and contiguous. A number that
/// repeats is converted once, and contiguous numbers of one dtype are copied at once.
pub(crate) fn convert_to_block(
    alloc: Global,
    dtypes: Dtypes,
    bytes: &[u8],
    source: &View,
) -> Result<RawBlock, AllocError>
    requires from_type { source.now.element ≡ One dtypes.from }
    requires held { AreHeld dtypes.from bytes.now source.now.places }
    ensures { IfOk result (λ b. b ≡ converted_bytes dtypes.to dtypes.from bytes.now
        source.now.places) }
{
    let Dtypes { to, from } = dtypes;
    // proof: the number of elements is bounded, by the clause of count().
    let _count = source.count();
    let Some(run) = whole_run(source) else {
        return convert_numbers(alloc, source, from, bytes, to);
    };
    if is_repeated(&run) {
        return repeat_number(alloc, to, bytes, from, &run);
    }
    if let Some(part) = kept_bytes(to, bytes, from, &run) {
        return RawBlock::from_slice(alloc, part);
    }
    convert_numbers(alloc, source, from, bytes, to)
}
