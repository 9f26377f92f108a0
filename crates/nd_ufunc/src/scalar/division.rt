//! `floor_divide` and `remainder`, sped up by the reciprocal of a divisor of many numbers. No result
//! depends on the reciprocal.
mod long;
mod reciprocal;
mod short;
mod small;

ghost use Rattle.std.specs.Prelude.{◌≡◌, ◌≢◌, ◌<◌, pos, IfSome};
ghost use Rattle.nd_model.specs.Arrays.Element.{wrap};
ghost use Rattle.nd_model.specs.Grammar.Syntax.{FloorDivide, Remainder};
ghost use Rattle.nd_model.specs.Making.Operators as operators;
ghost use Rattle.nd_types.specs.Kinds.{kind_of};
ghost use Rattle.nd_ufunc.specs.Scalar.Division.{magnitude, quotient_like, remainder_like};

use crate::scalar::arithmetic::{add, negative, subtract};
use crate::scalar::division::long::divide64;
pub(crate) use crate::scalar::division::reciprocal::reciprocal_of;
use crate::scalar::division::short::divide32;
use crate::scalar::division::small::divide16;
use crate::scalar::integers::{euclid_quotient, euclid_remainder, is_below, is_zero};
use nd_types::{Kind, wrap};

// The distance of a number from zero, or from -1 where it is negative.
#[inline(always)]
fn magnitude64(number: i64) -> u64
    ensures { result ≡ magnitude number }
{
    let magnitude = if number < 0 { -1 - number } else { number };
    magnitude as u64
}

// The distance of a number from zero, or from -1 where it is negative.
#[inline(always)]
fn magnitude32(number: i32) -> u32
    ensures { result ≡ magnitude number }
{
    let magnitude = if number < 0 { -1 - number } else { number };
    magnitude as u32
}

// The distance of a number from zero, or from -1 where it is negative.
#[inline(always)]
fn magnitude16(number: i16) -> u16
    ensures { result ≡ magnitude number }
{
    let magnitude = if number < 0 { -1 - number } else { number };
    magnitude as u16
}

// The quotient of a number, from that of its magnitude.
#[inline(always)]
fn quotient_of(number: i64, quotient: u64) -> i128
    ensures { result ≡ quotient_like number quotient }
{
    let quotient = i128::from(quotient);
    if number < 0 { -1 - quotient } else { quotient }
}

// The remainder of a number, from that of its magnitude.
#[inline(always)]
fn remainder_of(number: i64, divisor: u64, rest: u64) -> i128
    requires { rest < divisor }
    ensures { result ≡ remainder_like number divisor rest }
{
    if number < 0 {
        i128::from(divisor - 1 - rest)
    } else {
        i128::from(rest)
    }
}

// The quotient and the remainder, rounded down, of a number of 64 bits by a positive divisor.
// `None` where it has more bits.
#[inline(always)]
fn divide_long(number: i128, divisor: u64, reciprocal: u64, unsigned: bool) -> Option<(i128, i128)>
    requires { 0 < divisor }
    ensures quotient { IfSome result (λ r. r.0 ≡ operators.floor_quotient number (pos divisor)) }
    ensures remainder { IfSome result (λ r. r.1
        ≡ operators.floor_remainder number (pos divisor)) }
{
    if let (true, Ok(few)) = (unsigned, u64::try_from(number)) {
        let (quotient, rest) = divide64(few, divisor, reciprocal);
        return Some((i128::from(quotient), i128::from(rest)));
    }
    let few = i64::try_from(number).ok()?;
    let (quotient, rest) = divide64(magnitude64(few), divisor, reciprocal);
    Some((quotient_of(few, quotient), remainder_of(few, divisor, rest)))
}

// The quotient and the remainder, rounded down, of a number of 32 bits by a positive divisor.
// `None` where it has more bits.
#[inline(always)]
fn divide_short(number: i128, divisor: u32, reciprocal: u64, unsigned: bool) -> Option<(i128, i128)>
    requires { 0 < divisor }
    ensures quotient { IfSome result (λ r. r.0 ≡ operators.floor_quotient number (pos divisor)) }
    ensures remainder { IfSome result (λ r. r.1
        ≡ operators.floor_remainder number (pos divisor)) }
{
    if let (true, Ok(few)) = (unsigned, u32::try_from(number)) {
        let (quotient, rest) = divide32(few, divisor, reciprocal);
        return Some((i128::from(quotient), i128::from(rest)));
    }
    let few = i32::try_from(number).ok()?;
    let (quotient, rest) = divide32(magnitude32(few), divisor, reciprocal);
    let (few, by) = (i64::from(few), u64::from(divisor));
    let (quotient, rest) = (u64::from(quotient), u64::from(rest));
    Some((quotient_of(few, quotient), remainder_of(few, by, rest)))
}

// The quotient and the remainder, rounded down, of a number of 16 bits by a positive divisor.
// `None` where it has more bits.
#[inline(always)]
fn divide_small(number: i128, divisor: u16, reciprocal: u64, unsigned: bool) -> Option<(i128, i128)>
    requires { 0 < divisor }
    ensures quotient { IfSome result (λ r. r.0 ≡ operators.floor_quotient number (pos divisor)) }
    ensures remainder { IfSome result (λ r. r.1
        ≡ operators.floor_remainder number (pos divisor)) }
{
    if let (true, Ok(few)) = (unsigned, u16::try_from(number)) {
        let (quotient, rest) = divide16(few, divisor, reciprocal);
        return Some((i128::from(quotient), i128::from(rest)));
    }
    let few = i16::try_from(number).ok()?;
    let (quotient, rest) = divide16(magnitude16(few), divisor, reciprocal);
    let (few, by) = (i64::from(few), u64::from(divisor));
    let (quotient, rest) = (u64::from(quotient), u64::from(rest));
    Some((quotient_of(few, quotient), remainder_of(few, by, rest)))
}

// The quotient and the remainder, rounded down, in the kind's width: kinds of at most 32 bits are
// divided in 16 or 32 bits, which is vectorised. `None` where the number or the divisor has more
// bits, or the divisor is negative.
#[inline(always)]
fn divide_fast(number: i128, divisor: i128, reciprocal: u64, kind: Kind) -> Option<(i128, i128)>
    ensures quotient { IfSome result (λ r. r.0 ≡ operators.floor_quotient number divisor) }
    ensures remainder { IfSome result (λ r. r.1 ≡ operators.floor_remainder number divisor) }
{
    match kind.size() {
        1 | 2 => match u16::try_from(divisor) {
            Ok(by) if by > 0 => divide_small(number, by, reciprocal, kind == Kind::U16),
            _ => None,
        },
        4 => match u32::try_from(divisor) {
            Ok(by) if by > 0 => divide_short(number, by, reciprocal, kind == Kind::U32),
            _ => None,
        },
        _ => match u64::try_from(divisor) {
            Ok(by) if by > 0 => divide_long(number, by, reciprocal, kind == Kind::U64),
            _ => None,
        },
    }
}

// The quotient, rounded down and wrapped to the kind, for numbers of any size.
#[inline(always)]
fn floor_divide_any(kind: Kind, number: i128, divisor: i128) -> i128
    requires { divisor ≢ pos 0 }
    ensures { result ≡ wrap (kind_of kind) (operators.floor_quotient number divisor) }
{
    if divisor == -1 {
        return negative(kind, number);
    }
    let quotient = euclid_quotient(number, divisor);
    if is_below(number, divisor) {
        return subtract(kind, quotient, 1);
    }
    wrap(kind, quotient)
}

// The remainder, which has the sign of the divisor, wrapped to the kind, for numbers of any size.
#[inline(always)]
fn remainder_any(kind: Kind, number: i128, divisor: i128) -> i128
    requires { divisor ≢ pos 0 }
    ensures { result ≡ wrap (kind_of kind) (operators.floor_remainder number divisor) }
{
    if divisor == -1 {
        return wrap(kind, 0);
    }
    let rest = euclid_remainder(number, divisor);
    if is_below(number, divisor) {
        return add(kind, rest, divisor);
    }
    wrap(kind, rest)
}

/// Returns the quotient, rounded down and wrapped to the kind; 0 for the divisor 0. Any
/// `reciprocal` will do, that of the divisor is fast.
///
/// `floor_divide(Kind::I8, -7, 2, reciprocal_of(2))` is -4.
#[inline(always)]
pub(crate) fn floor_divide(kind: Kind, number: i128, divisor: i128, reciprocal: u64) -> i128
    ensures { result ≡ wrap (kind_of kind)
        (operators.exact (kind_of kind) (operators.Operator FloorDivide) number divisor) }
{
    if is_zero(divisor) {
        return wrap(kind, 0);
    }
    match divide_fast(number, divisor, reciprocal, kind) {
        Some((quotient, _)) => wrap(kind, quotient),
        None => floor_divide_any(kind, number, divisor),
    }
}

/// Returns the remainder, which has the sign of the divisor, wrapped to the kind; 0 for the divisor
/// 0. Any `reciprocal` will do, that of the divisor is fast.
///
/// `remainder(Kind::I8, -7, 2, reciprocal_of(2))` is 1.
#[inline(always)]
pub(crate) fn remainder(kind: Kind, number: i128, divisor: i128, reciprocal: u64) -> i128
    ensures { result ≡ wrap (kind_of kind)
        (operators.exact (kind_of kind) (operators.Operator Remainder) number divisor) }
{
    if is_zero(divisor) {
        return wrap(kind, 0);
    }
    match divide_fast(number, divisor, reciprocal, kind) {
        Some((_, rest)) => wrap(kind, rest),
        None => remainder_any(kind, number, divisor),
    }
}
