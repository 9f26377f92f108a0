//! `value_at` and `store_at`: numbers as bytes in either byte order, read, written and narrowed.
ghost use Rattle.std.specs.Prelude.{◌≡◌, ◌+◌, ◌<◌, ◌≤◌, ◌++◌, length, OnOk};
ghost use Rattle.nd_model.specs.Arrays.Element.{Int8, Int16, Int32, Int64, width_of, residue, bytes_at, number_in, with_bytes, bytes_in, size_of, value_of, bytes_of, IsValue};

use nd_types::{Elem, Kind};
use std::alloc::AllocError;

#[inline]
fn get16(bytes: &[u8], place: usize, big: bool) -> u16
    requires { place + 2 ≤ length bytes.now }
    ensures { result ≡ number_in (width_of Int16) big (bytes_at bytes.now place 2) }
{
    let run = [bytes[place], bytes[place + 1]];
    if big {
        u16::from_be_bytes(run)
    } else {
        u16::from_le_bytes(run)
    }
}

#[inline]
fn get32(bytes: &[u8], place: usize, big: bool) -> u32
    requires { place + 4 ≤ length bytes.now }
    ensures { result ≡ number_in (width_of Int32) big (bytes_at bytes.now place 4) }
{
    let run = [
        bytes[place],
        bytes[place + 1],
        bytes[place + 2],
        bytes[place + 3],
    ];
    if big {
        u32::from_be_bytes(run)
    } else {
        u32::from_le_bytes(run)
    }
}

#[inline]
fn get64(bytes: &[u8], place: usize, big: bool) -> u64
    requires { place + 8 ≤ length bytes.now }
    ensures { result ≡ number_in (width_of Int64) big (bytes_at bytes.now place 8) }
{
    let run = [
        bytes[place],
        bytes[place + 1],
        bytes[place + 2],
        bytes[place + 3],
        bytes[place + 4],
        bytes[place + 5],
        bytes[place + 6],
        bytes[place + 7],
    ];
    if big {
        u64::from_be_bytes(run)
    } else {
        u64::from_le_bytes(run)
    }
}

#[inline(always)]
pub(crate) fn bytes16(word: u16, big: bool) -> [u8; 2]
    ensures { result ≡ bytes_in (width_of Int16) big word }
{
    if big {
        word.to_be_bytes()
    } else {
        word.to_le_bytes()
    }
}

#[inline(always)]
pub(crate) fn bytes32(word: u32, big: bool) -> [u8; 4]
    ensures { result ≡ bytes_in (width_of Int32) big word }
{
    if big {
        word.to_be_bytes()
    } else {
        word.to_le_bytes()
    }
}

#[inline(always)]
pub(crate) fn bytes64(word: u64, big: bool) -> [u8; 8]
    ensures { result ≡ bytes_in (width_of Int64) big word }
{
    if big {
        word.to_be_bytes()
    } else {
        word.to_le_bytes()
    }
}

// The lowest bits of a number, in two's complement.
#[inline]
pub(crate) fn low8(value: i128) -> u8
    ensures { result ≡ residue (width_of Int8) value }
{
    value.rem_euclid(1 << 8) as u8
}

#[inline]
pub(crate) fn low16(value: i128) -> u16
    ensures { result ≡ residue (width_of Int16) value }
{
    value.rem_euclid(1 << 16) as u16
}

#[inline]
pub(crate) fn low32(value: i128) -> u32
    ensures { result ≡ residue (width_of Int32) value }
{
    value.rem_euclid(1 << 32) as u32
}

#[inline]
pub(crate) fn low64(value: i128) -> u64
    ensures { result ≡ residue (width_of Int64) value }
{
    value.rem_euclid(1 << 64) as u64
}

// Writes a single byte, which is the same in both byte orders.
#[inline(always)]
fn put8(bytes: &mut [u8], place: usize, word: u8, big: bool)
    requires { place < length bytes.old }
    ensures { bytes.new ≡ with_bytes bytes.old place (bytes_in (width_of Int8) big word) }
{
    // proof: `big` stands in the clause alone.
    let _big = big;
    bytes[place] = word;
}

#[inline(always)]
fn put16(bytes: &mut [u8], place: usize, word: u16, big: bool)
    requires { place + 2 ≤ length bytes.old }
    ensures { bytes.new ≡ with_bytes bytes.old place (bytes_in (width_of Int16) big word) }
{
    bytes[place..place + 2].copy_from_slice(&bytes16(word, big));
}

#[inline(always)]
fn put32(bytes: &mut [u8], place: usize, word: u32, big: bool)
    requires { place + 4 ≤ length bytes.old }
    ensures { bytes.new ≡ with_bytes bytes.old place (bytes_in (width_of Int32) big word) }
{
    bytes[place..place + 4].copy_from_slice(&bytes32(word, big));
}

#[inline(always)]
fn put64(bytes: &mut [u8], place: usize, word: u64, big: bool)
    requires { place + 8 ≤ length bytes.old }
    ensures { bytes.new ≡ with_bytes bytes.old place (bytes_in (width_of Int64) big word) }
{
    bytes[place..place + 8].copy_from_slice(&bytes64(word, big));
}

/// Returns the number of the element at a byte offset, which need not be aligned. The bytes `1 2`
/// are 513 as `<i2`, and 258 as `>i2`.
#[inline(always)]
pub fn value_at(bytes: &[u8], place: usize, elem: Elem) -> i128
    requires { place + size_of elem.kind ≤ length bytes.now }
    ensures value { result ≡ value_of elem (bytes_at bytes.now place (size_of elem.kind)) }
    ensures in_range { IsValue elem.kind result }
{
    match elem.kind() {
        Kind::Bool => i128::from(bytes[place] != 0),
        Kind::I8 => i128::from(bytes[place].cast_signed()),
        Kind::I16 => i128::from(get16(bytes, place, elem.big()).cast_signed()),
        Kind::I32 => i128::from(get32(bytes, place, elem.big()).cast_signed()),
        Kind::I64 => i128::from(get64(bytes, place, elem.big()).cast_signed()),
        Kind::U8 => i128::from(bytes[place]),
        Kind::U16 => i128::from(get16(bytes, place, elem.big())),
        Kind::U32 => i128::from(get32(bytes, place, elem.big())),
        Kind::U64 => i128::from(get64(bytes, place, elem.big())),
    }
}

/// Writes a number to the element at a byte offset, which need not be aligned. A number outside the
/// kind is wrapped: 300 as `uint8` is written as 44.
#[inline(always)]
pub fn store_at(bytes: &mut [u8], place: usize, elem: Elem, value: i128)
    requires { place + size_of elem.kind ≤ length bytes.old }
    ensures bytes { bytes.new ≡ with_bytes bytes.old place (bytes_of elem value) }
    ensures len { length bytes.new ≡ length bytes.old }
{
    match elem.kind() {
        Kind::Bool | Kind::I8 | Kind::U8 => put8(bytes, place, low8(value), elem.big()),
        Kind::I16 | Kind::U16 => put16(bytes, place, low16(value), elem.big()),
        Kind::I32 | Kind::U32 => put32(bytes, place, low32(value), elem.big()),
        Kind::I64 | Kind::U64 => put64(bytes, place, low64(value), elem.big()),
    }
}

/// Appends the bytes of an element that has this number: `255 255 255 254` for -2 as `>i4`. A
/// number outside the kind is wrapped.
pub fn push_bytes(bytes: &mut Vec<u8>, elem: Elem, value: i128) -> Result<(), AllocError>
    ensures { OnOk result (bytes.new.items ≡ bytes.old.items ++ bytes_of elem value) }
{
    match elem.kind() {
        Kind::Bool | Kind::I8 | Kind::U8 => bytes.extend_from_slice(&[low8(value)]),
        Kind::I16 | Kind::U16 => bytes.extend_from_slice(&bytes16(low16(value), elem.big())),
        Kind::I32 | Kind::U32 => bytes.extend_from_slice(&bytes32(low32(value), elem.big())),
        Kind::I64 | Kind::U64 => bytes.extend_from_slice(&bytes64(low64(value), elem.big())),
    }
}
