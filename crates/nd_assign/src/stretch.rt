//! `stretch`: the view of a value, broadcast to a target's shape, with stride 0 where it repeats.
ghost use Rattle.std.specs.Prelude.{◌≡◌, ◌++◌, length, replicate, pos, true, IfOk};
ghost use Rattle.nd_model.specs.Making.Assigning.{fits_into};
ghost use Rattle.nd_model.specs.Arrays.Strides.{IsInLimits};
ghost use Rattle.nd_model.specs.Arrays.View.{item_size};
ghost use Rattle.nd_assign.specs.Stretched.{narrowed, narrowed_strides, value_places};

use crate::shape::leading_axes;
use nd_view::View;
use smallvec::SmallVec;
use std::alloc::{AllocError, Global};

// The stride of an axis in a broadcast: 0 where the length is 1.
fn narrowed_stride(length: u64, stride: i128) -> i128
    ensures { result ≡ narrowed length stride }
{
    if length == 1 { 0 } else { stride }
}

// The strides of a broadcast: `more` zeros for new axes, then those of the shape, which are 0 where
// its length is 1.
fn stretched_strides(
    alloc: Global,
    shape: &[u64],
    strides: &[i128],
    more: usize,
) -> Result<SmallVec<i128, 8>, AllocError>
    requires { length strides.now ≡ length shape.now }
    ensures { IfOk result (λ v. v.items ≡ replicate more (pos 0) ++ narrowed_strides shape.now
        strides.now) }
{
    let mut all = SmallVec::from_elem(alloc, 0, more)?;
    for (axis, length) in shape.iter().enumerate() {
        all.push(narrowed_stride(*length, strides[axis]))?;
    }
    Ok(all)
}

/// Returns the value, broadcast to a shape, which is known to be possible.
pub(crate) fn stretch(alloc: Global, value: &View, shape: &[u64]) -> Result<View, AllocError>
    requires fits { fits_into value.now.shape shape.now ≡ true }
    requires limits { IsInLimits (item_size value.now.element) shape.now }
    ensures element { IfOk result (λ v. v.element ≡ value.now.element) }
    ensures places { IfOk result (λ v. v.places ≡ value_places value.now shape.now) }
{
    let dropped = leading_axes(value.shape(), shape);
    let own = &value.shape()[dropped..];
    let strides = &value.held_strides()[dropped..];
    let all = stretched_strides(alloc, own, strides, shape.len() - own.len())?;
    View::from_strides(
        alloc,
        value.elem().try_clone()?,
        shape,
        all.as_slice(),
        value.offset(),
        false,
    )
}
