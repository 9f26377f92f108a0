//! `prepare`: the part of an assignment that takes memory, done before anything is written.
ghost use Rattle.std.specs.Prelude.{◌≡◌, ℕ, List, length, true, IfOk};
ghost use Rattle.nd_model.specs.Making.Assigning.{fits_into};
ghost use Rattle.nd_model.specs.Making.Conversion.{converts};
ghost use Rattle.nd_model.specs.Making.Creation.{is_number_type};
ghost use Rattle.nd_model.specs.Cells.Sound.{LiesIn};
ghost use Rattle.nd_assign.specs.Assigned.{with_elements, with_number};
ghost use Rattle.nd_assign.specs.Copies.{with_copies};
ghost use Rattle.nd_assign.specs.Prepared.{written_by};
ghost use Rattle.nd_assign.specs.Sources.{IsSource, IsValue, with_source};
ghost use Rattle.nd_assign.specs.Ways.{AreIn};

use crate::assignment::{Assignment, Way};
use crate::source::AssignedValue;
use crate::stretch::stretch;
use crate::within::prepare_own;
use nd_block::store_at;
use nd_types::{ElemType, wrap};
use nd_view::View;
use std::alloc::{AllocError, Global};

// The value, broadcast to the target's shape.
fn stretch_to(alloc: Global, target: &View, value: &View) -> Result<View, AllocError>
    requires types { converts value.now.element target.now.element ≡ true }
    requires shapes { fits_into value.now.shape target.now.shape ≡ true }
    ensures element { IfOk result (λ v. v.element ≡ value.now.element) }
    ensures counts { IfOk result (λ v. length v.places ≡ length target.now.places) }
    ensures held { IfOk result (λ v. (len : ℕ) → AreIn len value.now → AreIn len v) }
    ensures copies { IfOk result (λ v. (bytes old : List ℕ) → with_copies target.now.element
        v.element bytes target.now.places v.places old
        ≡ with_elements target.now value.now bytes old) }
{
    let (_count, _value_count) = (target.count(), value.count());
    stretch(alloc, value, target.shape())
}

// Prepares the assignment of a view of other bytes.
fn prepare_other<'v>(
    alloc: Global,
    target: &'v View,
    len: usize,
    source: &View,
    bytes: &'v [u8],
) -> Result<Assignment<'v>, AllocError>
    requires target { LiesIn len target.now }
    requires source { IsValue target.now (length bytes.now) source.now }
    ensures len { IfOk result (λ a. a.len ≡ len) }
    ensures written { IfOk result (λ a. (old : List ℕ) → length old ≡ len
        → written_by a old ≡ with_elements target.now source.now bytes.now old) }
{
    let value = stretch_to(alloc, target, source)?;
    Ok(Assignment::new(target, value, Way::Lent(bytes), len))
}

// Prepares the assignment of a view of the same block.
fn prepare_within<'v>(
    alloc: Global,
    target: &'v View,
    block: &[u8],
    source: &View,
) -> Result<Assignment<'v>, AllocError>
    requires target { LiesIn (length block.now) target.now }
    requires source { IsValue target.now (length block.now) source.now }
    ensures len { IfOk result (λ a. a.len ≡ length block.now) }
    ensures written { IfOk result (λ a. written_by a block.now
        ≡ with_elements target.now source.now block.now block.now) }
{
    let value = stretch_to(alloc, target, source)?;
    prepare_own(alloc, target, block, value)
}

// Prepares the assignment of a number.
fn prepare_number<'v>(
    alloc: Global,
    target: &'v View,
    len: usize,
    number: i128,
) -> Result<Assignment<'v>, AllocError>
    requires target { LiesIn len target.now }
    requires numbers { is_number_type target.now.element ≡ true }
    ensures len { IfOk result (λ a. a.len ≡ len) }
    ensures written { IfOk result (λ a. (old : List ℕ) → length old ≡ len
        → written_by a old ≡ with_number target.now number old) }
{
    let ElemType::One(elem) = target.elem() else {
        unreachable!();
    };
    let mut bytes = [0; 8];
    store_at(&mut bytes, 0, *elem, wrap(elem.kind(), number));
    let one = View::contiguous(alloc, ElemType::One(*elem), &[])?;
    let value = stretch_to(alloc, target, &one)?;
    Ok(Assignment::new(target, value, Way::Number(bytes), len))
}

/// Prepares an assignment for blocks as long as `block`.
///
/// Where source and target overlap in one block, what is read may be copied now. An error means
/// want of memory, for this copy, for more than eight axes, or for the dtype of a structure.
pub fn prepare<'v>(
    alloc: Global,
    target: &'v View,
    block: &[u8],
    source: AssignedValue<'v>,
) -> Result<Assignment<'v>, AllocError>
    requires target { LiesIn (length block.now) target.now }
    requires source { IsSource target.now (length block.now) source }
    ensures len { IfOk result (λ a. a.len ≡ length block.now) }
    ensures written { IfOk result (λ a. written_by a block.now
        ≡ with_source target.now source.entry block.now) }
{
    match source {
        AssignedValue::Number(number) => prepare_number(alloc, target, block.len(), number),
        AssignedValue::Same(view) => prepare_within(alloc, target, block, view),
        AssignedValue::Other(view, bytes) => prepare_other(alloc, target, block.len(), view, bytes),
    }
}
