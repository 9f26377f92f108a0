//! `prepare_own`: copies within one block, where source and target may overlap. All values are
//! those before the write.
ghost use Rattle.std.specs.Prelude.{◌≡◌, ℕ, ◌+◌, ◌≤◌, ◌++◌, ⊤, length, take, drop, true, None, IfOk, MatchOption};
ghost use Rattle.std.specs.List.{All};
ghost use Rattle.nd_model.specs.Making.Conversion.{converts};
ghost use Rattle.nd_assign.specs.HeldFields.{HoldsFields};
ghost use Rattle.nd_model.specs.Arrays.View.{item_size};
ghost use Rattle.nd_types.specs.Types.{type_of};
ghost use Rattle.nd_assign.specs.Copies.{with_copies};
ghost use Rattle.nd_assign.specs.Prepared.{written_by};
ghost use Rattle.nd_assign.specs.Ways.{AreIn, IsWay, bytes_read, own_copy};

use crate::assignment::{Assignment, Way};
use crate::moved::{extent_of, moved_view};
use crate::views::copy_views;
use nd_block::RawBlock;
use nd_element::{is_elem, keeps_bytes};
use nd_types::ElemType;
use nd_view::View;
use std::alloc::{AllocError, Global};

// proof: the fields of a structure lie within its itemsize, by the clause of fields().
fn hold_fields(elem: &ElemType)
    ensures { HoldsFields (type_of elem.now) }
{
    if let ElemType::Rec(structure) = elem {
        let _fields = structure.fields();
    }
}

/// Copies from below byte offset `middle` to above it, where the target is counted from there.
pub(crate) fn copy_up(bytes: &mut [u8], middle: usize, target: &View, source: &View)
    requires types { converts source.now.element target.now.element ≡ true }
    requires counts { length source.now.places ≡ length target.now.places }
    requires middle { middle ≤ length bytes.old }
    requires out { All (λ p. p + (middle + item_size target.now.element) ≤ length bytes.old)
        target.now.places }
    requires held { All (λ p. p + item_size source.now.element ≤ middle) source.now.places }
    ensures len { length bytes.new ≡ length bytes.old }
    ensures bytes { bytes.new ≡ take middle bytes.old ++ with_copies target.now.element
        source.now.element (take middle bytes.old) target.now.places source.now.places
        (drop middle bytes.old) }
{
    let (head, tail) = bytes.split_at_mut(middle);
    copy_views(tail, target, head, source);
}

/// Copies from above byte offset `middle`, where the source is counted from there, to below it.
pub(crate) fn copy_down(bytes: &mut [u8], middle: usize, target: &View, source: &View)
    requires types { converts source.now.element target.now.element ≡ true }
    requires counts { length source.now.places ≡ length target.now.places }
    requires middle { middle ≤ length bytes.old }
    requires out { All (λ p. p + item_size target.now.element ≤ middle) target.now.places }
    requires held { All (λ p. p + (middle + item_size source.now.element) ≤ length bytes.old)
        source.now.places }
    ensures len { length bytes.new ≡ length bytes.old }
    ensures bytes { bytes.new ≡ with_copies target.now.element source.now.element
        (drop middle bytes.old) target.now.places source.now.places (take middle bytes.old)
        ++ drop middle bytes.old }
{
    let (head, tail) = bytes.split_at_mut(middle);
    copy_views(head, target, tail, source);
}

// The way to elements above a byte offset from elements below it.
fn prepare_up<'v>(
    alloc: Global,
    target: &'v View,
    source: View,
    middle: usize,
    len: usize,
) -> Result<Assignment<'v>, AllocError>
    requires types { converts source.element target.now.element ≡ true }
    requires counts { length source.places ≡ length target.now.places }
    requires out { AreIn len target.now }
    requires middle { middle ≤ len }
    requires behind { All (λ p. middle ≤ p) target.now.places }
    requires before { AreIn middle source }
    ensures { IfOk result (λ a. a ≡ own_copy target.now source len) }
{
    hold_fields(source.elem());
    let moved = moved_view(alloc, target, middle as u64)?;
    let way = Way::Up(middle, moved);
    Ok(Assignment::new(target, source, way, len))
}

// The way to elements below a byte offset from elements above it.
fn prepare_down<'v>(
    alloc: Global,
    target: &'v View,
    source: View,
    middle: usize,
    len: usize,
) -> Result<Assignment<'v>, AllocError>
    requires types { converts source.element target.now.element ≡ true }
    requires counts { length source.places ≡ length target.now.places }
    requires held { AreIn len source }
    requires middle { middle ≤ len }
    requires before { AreIn middle target.now }
    requires behind { All (λ p. middle ≤ p) source.places }
    ensures { IfOk result (λ a. a ≡ own_copy target.now source len) }
{
    hold_fields(target.elem());
    let moved = moved_view(alloc, &source, middle as u64)?;
    let way = Way::Down(middle, moved);
    Ok(Assignment::new(target, source, way, len))
}

// The way by a copy of the bytes that the source lies in.
fn prepare_copied<'v>(
    alloc: Global,
    target: &'v View,
    block: &[u8],
    source: &View,
) -> Result<Assignment<'v>, AllocError>
    requires types { converts source.now.element target.now.element ≡ true }
    requires counts { length source.now.places ≡ length target.now.places }
    requires out { AreIn (length block.now) target.now }
    requires held { AreIn (length block.now) source.now }
    ensures len { IfOk result (λ a. a.len ≡ length block.now) }
    ensures written { IfOk result (λ a. written_by a block.now ≡ with_copies target.now.element
        source.now.element block.now target.now.places source.now.places block.now) }
{
    hold_fields(source.elem());
    let len = block.len() as u64;
    let extent = extent_of(source);
    let last = extent.last.min(len);
    let end = len.min(last + source.elem().size());
    let first = extent.first.min(end);
    let read = RawBlock::from_slice(alloc, &block[first as usize..end as usize])?;
    let moved = moved_view(alloc, source, first)?;
    let way = Way::Copied(read);
    Ok(Assignment::new(target, moved, way, block.len()))
}

// The way that moves contiguous numbers at once to a contiguous target of the same dtype, if both
// are.
fn moved_way<'v>(target: &View, source: &View) -> Option<Way<'v>>
    ensures { MatchOption result ⊤ (λ way. (bytes_read way ≡ None)
        × ((len : ℕ) → AreIn len source.now → IsWay target.now source.now len way)) }
{
    let (ElemType::One(to), ElemType::One(from)) = (target.elem(), source.elem()) else {
        return None;
    };
    if !is_elem(*to, *from) {
        return None;
    }
    if !keeps_bytes(*to) {
        return None;
    }
    let run = target.contiguous_run(to.size())?;
    let from_run = source.contiguous_run(to.size())?;
    Some(Way::Moved(*to, run, from_run))
}

/// Prepares to copy the elements of a view to a target in the same block, converted, in C order.
///
/// Contiguous numbers of one dtype are moved at once. Views whose extents do not overlap are copied
/// in one pass, and others by way of a copy, for which memory may be wanting.
pub(crate) fn prepare_own<'v>(
    alloc: Global,
    target: &'v View,
    block: &[u8],
    source: View,
) -> Result<Assignment<'v>, AllocError>
    requires types { converts source.element target.now.element ≡ true }
    requires counts { length source.places ≡ length target.now.places }
    requires out { AreIn (length block.now) target.now }
    requires held { AreIn (length block.now) source }
    ensures len { IfOk result (λ a. a.len ≡ length block.now) }
    ensures written { IfOk result (λ a. written_by a block.now ≡ with_copies target.now.element
        source.element block.now target.now.places source.places block.now) }
{
    if let Some(way) = moved_way(target, &source) {
        return Ok(Assignment::new(target, source, way, block.len()));
    }
    let len = block.len() as u64;
    let (from, to) = (extent_of(&source), extent_of(target));
    if from.ends_before(source.elem().size(), to.first) {
        let middle = to.first.min(len);
        return prepare_up(alloc, target, source, middle as usize, block.len());
    }
    if to.ends_before(target.elem().size(), from.first) {
        let middle = from.first.min(len);
        return prepare_down(alloc, target, source, middle as usize, block.len());
    }
    prepare_copied(alloc, target, block, &source)
}
