//! `fits`: whether a value's shape may be assigned to a target (NumPy user guide, "Broadcasting").
ghost use Rattle.std.specs.Prelude.{◌≡◌, ◌-◌, ◌≤◌, length, drop};
ghost use Rattle.nd_model.specs.Making.Assigning.{without_ones, value_shape, fits_into};
ghost use Rattle.nd_model.specs.Arrays.Broadcast as model;

use nd_view::View;

// The number of leading axes of length 1 to drop, at most `most`.
fn count_ones(shape: &[u64], most: usize) -> usize
    ensures inside { result ≤ length shape.now }
    ensures rest { drop result shape.now ≡ without_ones most shape.now }
{
    let mut axis = 0;
    while axis < most && axis < shape.len() && shape[axis] == 1 {
        axis += 1;
    }
    axis
}

/// Returns how many leading axes of a value's shape are dropped because it has more than the
/// target.
pub(crate) fn leading_axes(shape: &[u64], target: &[u64]) -> usize
    ensures inside { result ≤ length shape.now }
    ensures rest { drop result shape.now ≡ value_shape shape.now target.now }
{
    count_ones(shape, shape.len().saturating_sub(target.len()))
}

// Whether each length equals that of the other shape, or is 1. Both have as many axes.
fn can_stretch(shape: &[u64], target: &[u64]) -> bool
    requires { length shape.now ≡ length target.now }
    ensures { result ≡ model.can_stretch shape.now target.now }
{
    for (axis, length) in shape.iter().enumerate() {
        if *length != target[axis] && *length != 1 {
            return false;
        }
    }
    true
}

// Whether a shape broadcasts to another one.
fn broadcasts_to(shape: &[u64], target: &[u64]) -> bool
    ensures { result ≡ model.broadcasts_to shape.now target.now }
{
    if shape.len() > target.len() {
        return false;
    }
    can_stretch(shape, &target[target.len() - shape.len()..])
}

/// Returns whether a value of this shape may be assigned to the elements of a view. Leading axes of
/// length 1 are dropped while it has more axes; the rest must broadcast to the view's shape.
///
/// To shape (3,), shapes (), (1,), (3,) and (1, 3) fit, and (2,) does not.
pub fn fits(target: &View, shape: &[u64]) -> bool
    ensures { result ≡ fits_into shape.now target.now.shape }
{
    let target = target.shape();
    broadcasts_to(&shape[leading_axes(shape, target)..], target)
}
