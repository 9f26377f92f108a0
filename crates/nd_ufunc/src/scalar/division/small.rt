//! `divide16`: quotients and remainders of numbers of 16 bits, by a product with the divisor's
//! reciprocal.
ghost use Rattle.std.specs.Prelude.{◌≡◌, ◌*◌, ◌/◌, ◌%◌, ◌^◌, ◌<◌, ◌≤◌};
ghost use Rattle.nd_ufunc.specs.Scalar.Division.{IsReciprocal};

use crate::scalar::division::reciprocal::is_reciprocal;

// The exponent of the greatest power of two below a divisor, 0 for 1.
#[inline(always)]
fn shift16(divisor: u16) -> u32
    ensures { result < 16 }
{
    if divisor > 1 {
        (divisor - 1).ilog2()
    } else {
        0
    }
}

// The reciprocal in units of 2 to the power of -16, rounded up.
#[inline(always)]
fn parts16(reciprocal: u64) -> u16 {
    ((reciprocal >> 48) as u16).wrapping_add(1)
}

// The highest 16 bits of a product.
#[inline(always)]
fn high16(number: u16, parts: u16) -> u16
    ensures value { result ≡ number * parts / 2 ^ 16 }
    ensures less { result ≤ number }
{
    ((u32::from(number) * u32::from(parts)) >> 16) as u16
}

// The quotient, which is that of 2 to the power of `shift + 1` by the number and the highest bits.
#[inline(always)]
fn quotient16(number: u16, divisor: u16, parts: u16, shift: u32) -> u16
    requires divisor { 0 < divisor }
    requires shift { shift < 16 }
    requires reciprocal { IsReciprocal (2 ^ 16) (2 ^ shift) divisor parts }
    ensures { result ≡ number / divisor }
{
    // proof: `divisor` stands in the clauses alone.
    let _divisor = divisor;
    let high = high16(number, parts);
    // The sum of both is halved before it is formed, since it may have 17 bits.
    (((number - high) >> 1) + high) >> shift
}

/// Returns the quotient and the remainder. Any `reciprocal` will do, that of the divisor in units
/// of 2 to the power of -64 is fast.
#[inline(always)]
pub(super) fn divide16(number: u16, divisor: u16, reciprocal: u64) -> (u16, u16)
    requires { 0 < divisor }
    ensures quotient { result.0 ≡ number / divisor }
    ensures remainder { result.1 ≡ number % divisor }
{
    let (shift, parts) = (shift16(divisor), parts16(reciprocal));
    let (by, more) = (u64::from(divisor), u64::from(parts));
    if reciprocal > 0 && is_reciprocal(1 << 16, by, more, shift) {
        let quotient = quotient16(number, divisor, parts, shift);
        return (quotient, number - quotient * divisor);
    }
    (number / divisor, number % divisor)
}
