//! `is_elem` and `keeps_bytes`: what is known of a dtype before an element is read.
ghost use Rattle.std.specs.Prelude.{◌≡◌, ◌≢◌, ◌↔◌, IsTrue};
ghost use Rattle.nd_model.specs.Arrays.Element.{Boolean};

use nd_types::{Elem, Kind};

/// Returns whether both dtypes are equal.
#[inline(always)]
pub fn is_elem(elem: Elem, other: Elem) -> bool
    ensures { IsTrue result ↔ (elem ≡ other) }
{
    elem == other
}

/// Returns whether the bytes of a number are always those of its value. A Boolean may have other
/// bytes than 0 and 1, which NumPy takes for true.
#[inline]
pub fn keeps_bytes(elem: Elem) -> bool
    ensures { IsTrue result ↔ (elem.kind ≢ Boolean) }
{
    match elem.kind() {
        Kind::Bool => false,
        _ => true,
    }
}
