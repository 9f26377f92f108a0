//! `divide64`: quotients and remainders of numbers of 64 bits, by a product with the divisor's
//! reciprocal.
ghost use Rattle.std.specs.Prelude.{◌≡◌, ◌*◌, ◌/◌, ◌%◌, ◌^◌, ◌<◌, ◌≤◌};
ghost use Rattle.nd_ufunc.specs.Scalar.Division.{IsReciprocal};

use crate::scalar::division::reciprocal::is_reciprocal;

// The exponent of the greatest power of two below a divisor, 0 for 1.
#[inline(always)]
fn shift64(divisor: u64) -> u32
    ensures { result < 64 }
{
    if divisor > 1 {
        (divisor - 1).ilog2()
    } else {
        0
    }
}

// The highest 64 bits of a product.
#[inline(always)]
fn high64(number: u64, parts: u64) -> u64
    ensures value { result ≡ number * parts / 2 ^ 64 }
    ensures less { result ≤ number }
{
    ((u128::from(number) * u128::from(parts)) >> 64) as u64
}

// The quotient, which is that of 2 to the power of `shift + 1` by the number and the highest bits.
#[inline(always)]
fn quotient64(number: u64, divisor: u64, parts: u64, shift: u32) -> u64
    requires divisor { 0 < divisor }
    requires shift { shift < 64 }
    requires reciprocal { IsReciprocal (2 ^ 64) (2 ^ shift) divisor parts }
    ensures { result ≡ number / divisor }
{
    // proof: `divisor` stands in the clauses alone.
    let _divisor = divisor;
    let high = high64(number, parts);
    // The sum of both is halved before it is formed, since it may have 65 bits.
    (((number - high) >> 1) + high) >> shift
}

/// Returns the quotient and the remainder. Any `reciprocal` will do, that of the divisor is fast.
#[inline(always)]
pub(super) fn divide64(number: u64, divisor: u64, reciprocal: u64) -> (u64, u64)
    requires { 0 < divisor }
    ensures quotient { result.0 ≡ number / divisor }
    ensures remainder { result.1 ≡ number % divisor }
{
    let shift = shift64(divisor);
    if reciprocal > 0 && is_reciprocal(1 << 64, divisor, reciprocal, shift) {
        let quotient = quotient64(number, divisor, reciprocal, shift);
        return (quotient, number - quotient * divisor);
    }
    (number / divisor, number % divisor)
}
