//! `fits_places`: whether a value's shape fits the selection that it is assigned to (NumPy user
//! guide, "Broadcasting").
ghost use Rattle.std.specs.Prelude.{◌≡◌};
ghost use Rattle.nd_model.specs.Making.Assigning.{fits_into};

use nd_index::advanced::ChosenPlaces;
use nd_shape::broadcasts_to;

/// Returns whether a value of this shape may be assigned to selected elements.
///
/// Leading axes of length 1 are dropped while it has more axes than the selection; the rest must
/// broadcast. To a selection of shape (3,), shapes (), (1,), (3,) and (1, 3) fit, (2,) does not.
pub fn fits_places(places: &ChosenPlaces, shape: &[u64]) -> bool
    ensures { result ≡ fits_into shape.now places.now.shape.items }
{
    let target = places.shape.as_slice();
    let mut value = shape;
    while value.len() > target.len() && value[0] == 1 {
        value = &value[1..];
    }
    broadcasts_to(value, target)
}
