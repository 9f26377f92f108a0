//! `left_shift` and `right_shift`: shifts in the width of a kind.
ghost use Rattle.std.specs.Prelude.{◌≡◌, ◌<◌, ℤ, true, unsigned_abs, IfSome};
ghost use Rattle.nd_model.specs.Arrays.Element.{wrap};
ghost use Rattle.nd_model.specs.Grammar.Syntax.{LeftShift, Multiply, RightShift};
ghost use Rattle.nd_model.specs.Making.Operators as operators;
ghost use Rattle.nd_types.specs.Kinds.{kind_of};

use crate::scalar::arithmetic::multiply;
use crate::scalar::integers::{floor_shift, is_negative, power_of_two};
use nd_types::{Kind, wrap};

// Whether a shift by `count` bits is within the width of the kind.
#[inline(always)]
fn leaves_bits(kind: Kind, count: i128) -> bool
    ensures value { result ≡ operators.leaves_bits (kind_of kind) count }
    ensures few { result ≡ true → unsigned_abs count < 64 }
{
    if is_negative(count) {
        return false;
    }
    count.unsigned_abs() < u128::from(8 * kind.size())
}

// The count of a shift that leaves bits, cut to the kind's width, so that the compiler knows that
// the shift can be done in this width.
#[inline(always)]
fn bit_count(kind: Kind, count: i128) -> u32
    requires { operators.leaves_bits (kind_of kind) count ≡ true }
    ensures value { result ≡ unsigned_abs count }
    ensures few { result < 64 }
{
    (count.unsigned_abs() % u128::from(8 * kind.size())) as u32
}

/// Returns the number, shifted up by `count` bits and wrapped to the kind; 0 where no bit is left.
#[inline(always)]
pub(crate) fn left_shift(kind: Kind, number: i128, count: i128) -> i128
    ensures { result ≡ wrap (kind_of kind)
        (operators.exact (kind_of kind) (operators.Operator LeftShift) number count) }
{
    if !leaves_bits(kind, count) {
        return wrap(kind, 0);
    }
    multiply(kind, number, power_of_two(bit_count(kind, count)))
}

/// Returns the number that a shift up by `count` bits multiplies by, and `None` where no bit is left. By 3
/// it is 8.
pub(crate) fn shift_factor(kind: Kind, count: i128) -> Option<i128>
    ensures { IfSome result (λ factor. (x : ℤ) → wrap (kind_of kind)
        (operators.exact (kind_of kind) (operators.Operator Multiply) x factor)
        ≡ wrap (kind_of kind)
        (operators.exact (kind_of kind) (operators.Operator LeftShift) x count)) }
{
    if !leaves_bits(kind, count) {
        return None;
    }
    Some(power_of_two(bit_count(kind, count)))
}

/// Returns the number, shifted down by `count` bits, rounded down and wrapped to the kind; 0 or -1
/// where no bit is left.
#[inline(always)]
pub(crate) fn right_shift(kind: Kind, number: i128, count: i128) -> i128
    ensures { result ≡ wrap (kind_of kind)
        (operators.exact (kind_of kind) (operators.Operator RightShift) number count) }
{
    if leaves_bits(kind, count) {
        return wrap(kind, floor_shift(number, bit_count(kind, count)));
    }
    if is_negative(number) {
        return wrap(kind, -1);
    }
    wrap(kind, 0)
}
