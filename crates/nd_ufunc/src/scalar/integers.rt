//! Integer arithmetic of 128 bits: signs, Euclid's quotients, and results that wrap.

ghost use Rattle.std.specs.Prelude.{◌≡◌, ◌≢◌, ◌+ℤ◌, ◌-ℤ◌, ◌*ℤ◌, ◌^◌, ◌<◌, pos};
ghost use Rattle.std.specs.Int.{NotMinOverMinusOne, int_div_euclid, int_rem_euclid, int_wrap, w64, w128};
ghost use Rattle.nd_model.specs.Making.Operators as operators;

/// Returns whether the number is negative.
#[inline]
pub fn is_negative(number: i128) -> bool
    ensures { result ≡ operators.is_negative number }
{
    number < 0
}

/// Returns whether the number is zero.
#[inline]
pub fn is_zero(number: i128) -> bool
    ensures { result ≡ operators.is_zero number }
{
    number == 0
}

/// Returns Euclid's quotient, whose remainder is not negative. Numbers of 64 bits are divided as
/// such, which is many times faster.
#[inline(always)]
pub(crate) fn euclid_quotient(number: i128, divisor: i128) -> i128
    requires nonzero { divisor ≢ pos 0 }
    requires fits { NotMinOverMinusOne w128 number divisor }
    ensures { result ≡ int_div_euclid number divisor }
{
    if let (Ok(few), Ok(by)) = (i64::try_from(number), i64::try_from(divisor)) {
        if by > 0 || by < -1 {
            return i128::from(few.div_euclid(by));
        }
    }
    number.div_euclid(divisor)
}

/// Returns Euclid's remainder, which is not negative.
#[inline(always)]
pub(crate) fn euclid_remainder(number: i128, divisor: i128) -> i128
    requires nonzero { divisor ≢ pos 0 }
    requires fits { NotMinOverMinusOne w128 number divisor }
    ensures { result ≡ int_rem_euclid number divisor }
{
    if let (Ok(few), Ok(by)) = (i64::try_from(number), i64::try_from(divisor)) {
        if by > 0 || by < -1 {
            return i128::from(few.rem_euclid(by));
        }
    }
    number.rem_euclid(divisor)
}

/// Returns the quotient by 2 to the power of `count`, rounded down.
#[inline(always)]
pub(crate) fn floor_shift(number: i128, count: u32) -> i128
    requires { count < 64 }
    ensures { result ≡ int_div_euclid number (pos (2 ^ count)) }
{
    number >> count
}

/// Returns 2 to the power of `count`.
#[inline(always)]
pub(crate) fn power_of_two(count: u32) -> i128
    requires { count < 64 }
    ensures { result ≡ pos (2 ^ count) }
{
    1 << count
}

/// Returns whether a quotient that is rounded down is less than Euclid's: the divisor is negative
/// and something is left.
///
/// Of 7 and -2 it is: Euclid's quotient is -3, and rounded down it is -4.
#[inline]
pub fn is_below(number: i128, divisor: i128) -> bool
    requires nonzero { divisor ≢ pos 0 }
    requires fits { NotMinOverMinusOne w128 number divisor }
    ensures { result ≡ operators.is_below number divisor }
{
    if is_negative(divisor) {
        return euclid_remainder(number, divisor) != 0;
    }
    false
}

/// Returns the lowest 128 bits of a sum.
#[inline]
pub(crate) fn wrapping_add(left: i128, right: i128) -> i128
    ensures { result ≡ int_wrap w128 (left +ℤ right) }
{
    left.wrapping_add(right)
}

/// Returns the lowest 128 bits of a difference.
#[inline]
pub(crate) fn wrapping_subtract(left: i128, right: i128) -> i128
    ensures { result ≡ int_wrap w128 (left -ℤ right) }
{
    left.wrapping_sub(right)
}

/// Returns the lowest 128 bits of a product.
#[inline]
pub(crate) fn wrapping_multiply(left: i128, right: i128) -> i128
    ensures { result ≡ int_wrap w128 (left *ℤ right) }
{
    left.wrapping_mul(right)
}

/// Returns the lowest 64 bits of a number.
#[inline(always)]
pub(crate) fn lowest_bits(number: i128) -> i64
    ensures { result ≡ int_wrap w64 number }
{
    (number.rem_euclid(1 << 64) as u64).cast_signed()
}

/// Returns the lowest 64 bits of a product.
#[inline(always)]
pub(crate) fn wrapping_multiply64(left: i64, right: i64) -> i64
    ensures { result ≡ int_wrap w64 (left *ℤ right) }
{
    left.wrapping_mul(right)
}
