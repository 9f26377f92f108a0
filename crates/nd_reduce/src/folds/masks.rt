//! `has_true` and `has_false`: whether contiguous Booleans contain a true or a false one. A byte
//! that is not 0 is true.
ghost use Rattle.std.specs.Prelude.{◌≡◌, ◌<◌, ◌≤◌, not, length};
ghost use Rattle.std.specs.List.{list_any};
ghost use Rattle.nd_model.specs.Arrays.Element.{Boolean};
ghost use Rattle.nd_model.specs.Making.Operators.{is_zero};
ghost use Rattle.nd_reduce.specs.Folds.Lanes.{numbers_in};

use crate::folds::native::{greatest_in, least_in};
use nd_types::Kind;

/// Returns whether one of the first `count` Booleans is true.
pub(crate) fn has_true(bytes: &[u8], count: usize) -> bool
    requires some { 0 < count }
    requires inside { count ≤ length bytes.now }
    ensures { result ≡ list_any (λ z. not (is_zero z)) (numbers_in Boolean bytes.now count) }
{
    greatest_in(Kind::U8, bytes, count) > 0
}

/// Returns whether one of the first `count` Booleans is false.
pub(crate) fn has_false(bytes: &[u8], count: usize) -> bool
    requires some { 0 < count }
    requires inside { count ≤ length bytes.now }
    ensures { result ≡ list_any is_zero (numbers_in Boolean bytes.now count) }
{
    least_in(Kind::U8, bytes, count) < 1
}
