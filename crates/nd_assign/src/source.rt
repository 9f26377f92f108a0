//! `AssignedValue` and `assign`: the value of an assignment, and the assignment of it.
ghost use Rattle.std.specs.Prelude.{◌≡◌, length, true, OnOk, OnErr};
ghost use Rattle.nd_model.specs.Making.Assigning.{fits_into};
ghost use Rattle.nd_model.specs.Making.Conversion.{converts};
ghost use Rattle.nd_model.specs.Cells.Sound.{LiesIn};
ghost use Rattle.nd_assign.specs.Assigned.{with_elements};
ghost use Rattle.nd_assign.specs.Sources.{IsSource, with_source};

use crate::preparation::prepare;
use nd_block::RawBlock;
use nd_view::View;
use std::alloc::{AllocError, Global};

/// The value of an assignment (NumPy user guide, "Assigning values to indexed arrays"). Numbers are
/// wrapped to the target's kind, or tested for not being zero for a Boolean. Pad bytes of
/// structures stay.
#[derive(Clone, Copy)]
pub enum AssignedValue<'v> {
    /// One number.
    Number(i128),
    /// The elements of a view of the target's own block, as they are before the write.
    Same(&'v View),
    /// The elements of a view of another block, which has these bytes.
    Other(&'v View, &'v [u8]),
}

/// Assigns to the elements of a target, as `prepare` and `Assignment::write` do. All values are
/// those before the write: `x[1:] = x[:3]` makes `1 1 2 3` of `1 2 3 4`. Where memory is wanting,
/// the block stays as it is.
pub fn assign(
    alloc: Global,
    target: &View,
    block: &mut RawBlock,
    source: AssignedValue<'_>,
) -> Result<(), AllocError>
    requires target { LiesIn (length block.old) target.now }
    requires source { IsSource target.now (length block.old) source }
    ensures done { OnOk result (block.new ≡ with_source target.now source.entry block.old) }
    ensures refused { OnErr result (block.new ≡ block.old) }
{
    let assignment = prepare(alloc, target, block.as_slice(), source)?;
    assignment.write(block);
    Ok(())
}
