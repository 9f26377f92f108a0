//! `fill`: writes numbers to contiguous elements, by loops specialised for the kind.

ghost use Rattle.std.specs.Prelude.{◌≡◌, ◌*◌, ◌≤◌, ◌^◌, ◌+ℤ◌, ◌*ℤ◌, pos, length};
ghost use Rattle.std.specs.Int.{int_wrap, w128};
ghost use Rattle.std.specs.List.{flat_map};
ghost use Rattle.nd_model.specs.Arrays.Element.{bytes_of, size_of};
ghost use Rattle.nd_convert.specs.Creation.Numbers.{bytes_below, bytes_of_copies};

use nd_block::store_at;
use nd_types::{Elem, Kind};

/// Writes one number to each of `n` elements.
#[inline(always)]
fn fill_each(bytes: &mut [u8], elem: Elem, number: i128, n: usize)
    requires { (length bytes.old ≡ n * size_of elem.kind) × (n ≤ 2 ^ 24) }
    ensures { bytes.new ≡ bytes_of_copies elem number n }
{
    let size = elem.size() as usize;
    for index in 0..n {
        store_at(bytes, index * size, elem, number);
    }
}

/// Fills with a number of any dtype: the loop is compiled once and not specialised.
#[inline(never)]
fn fill_any(bytes: &mut [u8], elem: Elem, number: i128, n: usize)
    requires { (length bytes.old ≡ n * size_of elem.kind) × (n ≤ 2 ^ 24) }
    ensures { bytes.new ≡ bytes_of_copies elem number n }
{
    fill_each(bytes, elem, number, n);
}

/// Fills by a loop specialised for `known` where it is the dtype, and by the general one otherwise.
#[inline(always)]
fn fill_known(bytes: &mut [u8], known: Elem, elem: Elem, number: i128, n: usize)
    requires { (length bytes.old ≡ n * size_of elem.kind) × (n ≤ 2 ^ 24) }
    ensures { bytes.new ≡ bytes_of_copies elem number n }
{
    if elem == known {
        fill_each(bytes, known, number, n);
    } else {
        fill_any(bytes, elem, number, n);
    }
}

/// Writes one number to each of `n` elements. A number outside the kind is wrapped.
pub(crate) fn fill(bytes: &mut [u8], elem: Elem, number: i128, n: usize)
    requires { (length bytes.old ≡ n * size_of elem.kind) × (n ≤ 2 ^ 24) }
    ensures { bytes.new ≡ bytes_of_copies elem number n }
{
    match elem.size() {
        1 => fill_known(bytes, Elem::little(Kind::U8), elem, number, n),
        2 => fill_known(bytes, Elem::little(Kind::I16), elem, number, n),
        4 => fill_known(bytes, Elem::little(Kind::I32), elem, number, n),
        _ => fill_known(bytes, Elem::little(Kind::I64), elem, number, n),
    }
}

/// Returns the lowest 128 bits of the number one step behind another.
#[inline(always)]
pub(crate) fn next_number(number: i128, step: i128) -> i128
    ensures { result ≡ int_wrap w128 (number +ℤ step) }
{
    number.wrapping_add(step)
}

/// Writes numbers that lie `step` apart, from `start` on, to `n` elements.
#[inline(always)]
fn fill_up_each(bytes: &mut [u8], elem: Elem, start: i128, step: i128, n: usize)
    requires { (length bytes.old ≡ n * size_of elem.kind) × (n ≤ 2 ^ 24) }
    ensures { bytes.new ≡ bytes_below elem (λ k. start +ℤ (pos k *ℤ step)) n }
{
    let size = elem.size() as usize;
    let mut number = start;
    for index in 0..n {
        store_at(bytes, index * size, elem, number);
        number = next_number(number, step);
    }
}

/// Fills with numbers of any dtype: the loop is compiled once and not specialised.
#[inline(never)]
fn fill_up_any(bytes: &mut [u8], elem: Elem, start: i128, step: i128, n: usize)
    requires { (length bytes.old ≡ n * size_of elem.kind) × (n ≤ 2 ^ 24) }
    ensures { bytes.new ≡ bytes_below elem (λ k. start +ℤ (pos k *ℤ step)) n }
{
    fill_up_each(bytes, elem, start, step, n);
}

/// Fills by a loop specialised for `known` where it is the dtype, and by the general one otherwise.
#[inline(always)]
fn fill_up_known(bytes: &mut [u8], known: Elem, elem: Elem, start: i128, step: i128, n: usize)
    requires { (length bytes.old ≡ n * size_of elem.kind) × (n ≤ 2 ^ 24) }
    ensures { bytes.new ≡ bytes_below elem (λ k. start +ℤ (pos k *ℤ step)) n }
{
    if elem == known {
        fill_up_each(bytes, known, start, step, n);
    } else {
        fill_up_any(bytes, elem, start, step, n);
    }
}

/// Writes numbers that lie `step` apart, from `start` on, to `n` elements. A number outside the
/// kind is wrapped.
pub(crate) fn fill_up(bytes: &mut [u8], elem: Elem, start: i128, step: i128, n: usize)
    requires { (length bytes.old ≡ n * size_of elem.kind) × (n ≤ 2 ^ 24) }
    ensures { bytes.new ≡ bytes_below elem (λ k. start +ℤ (pos k *ℤ step)) n }
{
    match elem.size() {
        4 => fill_up_known(bytes, Elem::little(Kind::I32), elem, start, step, n),
        _ => fill_up_known(bytes, Elem::little(Kind::I64), elem, start, step, n),
    }
}

/// Writes numbers to as many elements. A number outside the kind is wrapped.
pub(crate) fn fill_in_turn(bytes: &mut [u8], elem: Elem, numbers: &[i128])
    requires size { length bytes.old ≡ length numbers.now * size_of elem.kind }
    requires count { length numbers.now ≤ 2 ^ 24 }
    ensures { bytes.new ≡ flat_map (bytes_of elem) numbers.now }
{
    let size = elem.size() as usize;
    for (index, number) in numbers.iter().enumerate() {
        store_at(bytes, index * size, elem, *number);
    }
}
