//! `power` and `exact_power`: powers of integers.

ghost use Rattle.std.specs.Prelude.{◌≡◌, ◌^◌, ◌≤◌, FitsSigned, unsigned_abs};
ghost use Rattle.std.specs.Int.{int_pow, int_wrap, w64, w128};
ghost use Rattle.std.specs.Option.{SomeIff};
ghost use Rattle.nd_model.specs.Arrays.Element.{Boolean, wrap};
ghost use Rattle.nd_types.specs.Kinds.{kind_of};

use crate::scalar::integers::{lowest_bits, wrapping_multiply64};
use nd_types::{Kind, wrap};

// The power, for an exponent of more than 32 bits.
fn high_power(base: i128, exponent: u128) -> Option<i128>
    requires { 2 ^ 32 ≤ exponent }
    ensures { SomeIff result (FitsSigned w128 (int_pow base exponent)) (int_pow base exponent) }
{
    if base == 0 {
        return Some(0);
    }
    if base == 1 {
        return Some(1);
    }
    if base != -1 {
        return None;
    }
    if exponent % 2 == 0 {
        return Some(1);
    }
    Some(-1)
}

/// Returns the power, if 128 bits hold it.
///
/// `exact_power(-2, 3)` is `Some(-8)`, and `exact_power(2, 127)` is `None`.
pub fn exact_power(base: i128, exponent: u128) -> Option<i128>
    ensures { SomeIff result (FitsSigned w128 (int_pow base exponent)) (int_pow base exponent) }
{
    if exponent > u128::from(u32::MAX) {
        return high_power(base, exponent);
    }
    base.checked_pow(exponent as u32)
}

// The lowest 64 bits of the power, by repeated squaring.
#[inline(never)]
fn power_by_squares(base: i64, exponent: u128) -> i64
    ensures { int_wrap w64 result ≡ int_wrap w64 (int_pow base exponent) }
{
    let mut power = 1;
    let mut square = base;
    let mut left = exponent;
    while left > 0 {
        if left % 2 == 1 {
            power = wrapping_multiply64(square, power);
        }
        square = wrapping_multiply64(square, square);
        left /= 2;
    }
    power
}

// The lowest 64 bits of the power; kinds have no more. Squares and cubes are straight products, so
// that a loop over many bases is vectorised.
#[inline(always)]
fn wrapping_power(base: i64, exponent: u128) -> i64
    ensures { int_wrap w64 result ≡ int_wrap w64 (int_pow base exponent) }
{
    if exponent == 2 {
        return wrapping_multiply64(base, base);
    }
    if exponent == 3 {
        return wrapping_multiply64(base, wrapping_multiply64(base, base));
    }
    power_by_squares(base, exponent)
}

// The power, wrapped to a Boolean.
fn boolean_power(base: i128, exponent: u128) -> i128
    ensures { result ≡ wrap Boolean (int_pow base exponent) }
{
    match exact_power(base, exponent) {
        Some(number) => wrap(Kind::Bool, number),
        None => 1,
    }
}

/// Returns the power, wrapped to the kind. A negative exponent counts as its absolute value.
///
/// `power(Kind::U8, 7, 3)` is 87.
#[inline(always)]
pub(crate) fn power(kind: Kind, base: i128, exponent: i128) -> i128
    ensures { result ≡ wrap (kind_of kind) (int_pow base (unsigned_abs exponent)) }
{
    let exponent = exponent.unsigned_abs();
    match kind {
        Kind::Bool => boolean_power(base, exponent),
        _ => wrap(
            kind,
            i128::from(wrapping_power(lowest_bits(base), exponent)),
        ),
    }
}
