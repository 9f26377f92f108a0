//! `add`, `subtract` and `multiply`: exact results that are wrapped to a kind.
ghost use Rattle.std.specs.Prelude.{◌≡◌, ◌+ℤ◌, ◌-ℤ◌, ◌*ℤ◌, ℤ, neg_ℤ, FitsSigned};
ghost use Rattle.std.specs.Int.{int_wrap, w128};
ghost use Rattle.std.specs.Option.{SomeIff};
ghost use Rattle.nd_model.specs.Arrays.Element.{wrap};
ghost use Rattle.nd_types.specs.Kinds.{kind_of};

use crate::scalar::integers::{wrapping_add, wrapping_multiply, wrapping_subtract};
use nd_types::{Kind, wrap};

// Wraps an exact result, or, where 128 bits do not hold it, its lowest 128 bits. Only a Boolean
// needs more: then it is true.
#[inline(always)]
fn wrap_exact(kind: Kind, exact: Option<i128>, lowest_bits: i128) -> i128
    ensures { (z : ℤ) → SomeIff exact (FitsSigned w128 z) z
        → int_wrap w128 lowest_bits ≡ int_wrap w128 z → result ≡ wrap (kind_of kind) z }
{
    match exact {
        Some(number) => wrap(kind, number),
        None => match kind {
            Kind::Bool => 1,
            _ => wrap(kind, lowest_bits),
        },
    }
}

/// Returns the sum, wrapped to the kind.
#[inline(always)]
pub(crate) fn add(kind: Kind, left: i128, right: i128) -> i128
    ensures { result ≡ wrap (kind_of kind) (left +ℤ right) }
{
    wrap_exact(kind, left.checked_add(right), wrapping_add(left, right))
}

/// Returns the difference, wrapped to the kind.
#[inline(always)]
pub(crate) fn subtract(kind: Kind, left: i128, right: i128) -> i128
    ensures { result ≡ wrap (kind_of kind) (left -ℤ right) }
{
    wrap_exact(
        kind,
        left.checked_sub(right),
        wrapping_subtract(left, right),
    )
}

/// Returns the product, wrapped to the kind.
#[inline(always)]
pub(crate) fn multiply(kind: Kind, left: i128, right: i128) -> i128
    ensures { result ≡ wrap (kind_of kind) (left *ℤ right) }
{
    wrap_exact(
        kind,
        left.checked_mul(right),
        wrapping_multiply(left, right),
    )
}

/// Returns the number with the other sign, wrapped to the kind.
#[inline(always)]
pub(crate) fn negative(kind: Kind, number: i128) -> i128
    ensures { result ≡ wrap (kind_of kind) (neg_ℤ number) }
{
    wrap_exact(kind, number.checked_neg(), wrapping_subtract(0, number))
}
