//! `divide32`: quotients and remainders of numbers of 32 bits, by a product with the divisor's
//! reciprocal.
ghost use Rattle.std.specs.Prelude.{◌≡◌, ◌*◌, ◌/◌, ◌%◌, ◌^◌, ◌<◌, ◌≤◌};
ghost use Rattle.nd_ufunc.specs.Scalar.Division.{IsReciprocal};

use crate::scalar::division::reciprocal::is_reciprocal;

// The exponent of the greatest power of two below a divisor, 0 for 1.
#[inline(always)]
fn shift32(divisor: u32) -> u32
    ensures { result < 32 }
{
    if divisor > 1 {
        (divisor - 1).ilog2()
    } else {
        0
    }
}

// The reciprocal in units of 2 to the power of -32, rounded up.
#[inline(always)]
fn parts32(reciprocal: u64) -> u32 {
    ((reciprocal >> 32) as u32).wrapping_add(1)
}

// The highest 32 bits of a product.
#[inline(always)]
fn high32(number: u32, parts: u32) -> u32
    ensures value { result ≡ number * parts / 2 ^ 32 }
    ensures less { result ≤ number }
{
    ((u64::from(number) * u64::from(parts)) >> 32) as u32
}

// The quotient, which is that of 2 to the power of `shift + 1` by the number and the highest bits.
#[inline(always)]
fn quotient32(number: u32, divisor: u32, parts: u32, shift: u32) -> u32
    requires divisor { 0 < divisor }
    requires shift { shift < 32 }
    requires reciprocal { IsReciprocal (2 ^ 32) (2 ^ shift) divisor parts }
    ensures { result ≡ number / divisor }
{
    // proof: `divisor` stands in the clauses alone.
    let _divisor = divisor;
    let high = high32(number, parts);
    // The sum of both is halved before it is formed, since it may have 33 bits.
    (((number - high) >> 1) + high) >> shift
}

/// Returns the quotient and the remainder. Any `reciprocal` will do, that of the divisor in units
/// of 2 to the power of -64 is fast.
#[inline(always)]
pub(super) fn divide32(number: u32, divisor: u32, reciprocal: u64) -> (u32, u32)
    requires { 0 < divisor }
    ensures quotient { result.0 ≡ number / divisor }
    ensures remainder { result.1 ≡ number % divisor }
{
    let (shift, parts) = (shift32(divisor), parts32(reciprocal));
    let (by, more) = (u64::from(divisor), u64::from(parts));
    if reciprocal > 0 && is_reciprocal(1 << 32, by, more, shift) {
        let quotient = quotient32(number, divisor, parts, shift);
        return (quotient, number - quotient * divisor);
    }
    (number / divisor, number % divisor)
}
