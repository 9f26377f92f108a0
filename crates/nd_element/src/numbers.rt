//! `numbers_of`: reads the numbers of elements, by loops specialised for kind and byte order.
ghost use Rattle.std.specs.Prelude.{◌≡◌, length, IfOk, OnOk};
ghost use Rattle.std.specs.List.{flat_map};
ghost use Rattle.nd_model.specs.Arrays.Element.{bytes_of};
ghost use Rattle.nd_model.specs.Arrays.Tuple.{elements_of};
ghost use Rattle.nd_element.specs.Elements.{AreHeld, Appends, numbers_at};

use nd_block::{push_bytes, value_at};
use nd_types::{Elem, Kind};
use nd_view::{Run, View};
use std::alloc::{AllocError, Global};

// Appends the numbers of a run.
#[inline(always)]
fn push_each(numbers: &mut Vec<i128>, elem: Elem, bytes: &[u8], run: &Run) -> Result<(), AllocError>
    requires { AreHeld elem bytes.now run.now }
    ensures { OnOk result (Appends (numbers_at elem bytes.now run.now) numbers.old numbers.new) }
{
    for number in 0..run.count() {
        numbers.push(value_at(bytes, run.place(number) as usize, elem))?;
    }
    Ok(())
}

// Appends the numbers of any dtype: the loop is compiled once and not specialised.
#[inline(never)]
fn push_any(numbers: &mut Vec<i128>, elem: Elem, bytes: &[u8], run: &Run) -> Result<(), AllocError>
    requires { AreHeld elem bytes.now run.now }
    ensures { OnOk result (Appends (numbers_at elem bytes.now run.now) numbers.old numbers.new) }
{
    push_each(numbers, elem, bytes, run)
}

// Appends by a loop specialised for `known` where it is the dtype, and by the general one
// otherwise.
#[inline(always)]
fn push_known(
    numbers: &mut Vec<i128>,
    known: Elem,
    elem: Elem,
    bytes: &[u8],
    run: &Run,
) -> Result<(), AllocError>
    requires { AreHeld elem bytes.now run.now }
    ensures { OnOk result (Appends (numbers_at elem bytes.now run.now) numbers.old numbers.new) }
{
    if elem == known {
        push_each(numbers, known, bytes, run)
    } else {
        push_any(numbers, elem, bytes, run)
    }
}

// Appends by a loop specialised for the kind and its byte order.
#[inline(always)]
fn push_kind(
    numbers: &mut Vec<i128>,
    kind: Kind,
    elem: Elem,
    bytes: &[u8],
    run: &Run,
) -> Result<(), AllocError>
    requires { AreHeld elem bytes.now run.now }
    ensures { OnOk result (Appends (numbers_at elem bytes.now run.now) numbers.old numbers.new) }
{
    if elem.big() {
        push_known(numbers, Elem::new(kind, true), elem, bytes, run)
    } else {
        push_known(numbers, Elem::little(kind), elem, bytes, run)
    }
}

/// Appends the numbers of the elements of a run, whose bytes must all be there.
pub fn push_numbers(
    numbers: &mut Vec<i128>,
    elem: Elem,
    bytes: &[u8],
    run: &Run,
) -> Result<(), AllocError>
    requires { AreHeld elem bytes.now run.now }
    ensures { OnOk result (Appends (numbers_at elem bytes.now run.now) numbers.old numbers.new) }
{
    match elem.kind() {
        Kind::Bool => push_kind(numbers, Kind::Bool, elem, bytes, run),
        Kind::I8 => push_kind(numbers, Kind::I8, elem, bytes, run),
        Kind::I16 => push_kind(numbers, Kind::I16, elem, bytes, run),
        Kind::I32 => push_kind(numbers, Kind::I32, elem, bytes, run),
        Kind::I64 => push_kind(numbers, Kind::I64, elem, bytes, run),
        Kind::U8 => push_kind(numbers, Kind::U8, elem, bytes, run),
        Kind::U16 => push_kind(numbers, Kind::U16, elem, bytes, run),
        Kind::U32 => push_kind(numbers, Kind::U32, elem, bytes, run),
        Kind::U64 => push_kind(numbers, Kind::U64, elem, bytes, run),
    }
}

/// Returns the numbers of a view's elements in C order: `7 6 5` for the view `x[::-1]` of
/// `[5 6 7]`. All their bytes must be there.
pub fn numbers_of(
    alloc: Global,
    view: &View,
    elem: Elem,
    bytes: &[u8],
) -> Result<Vec<i128>, AllocError>
    requires { AreHeld elem bytes.now view.now.places }
    ensures items { IfOk result (λ v. v.items ≡ numbers_at elem bytes.now view.now.places) }
    ensures whole { IfOk result (λ v. elements_of view.now.shape ≡ length v.items) }
{
    let mut numbers = Vec::with_capacity(alloc, view.count())?;
    let mut runs = view.runs();
    while let Some(run) = runs.next() {
        push_numbers(&mut numbers, elem, bytes, &run)?;
    }
    Ok(numbers)
}

/// Appends the bytes of elements that have these numbers: `1 0 255 255` for 1 and -1 as `<i2`. A
/// number outside the kind is wrapped.
pub fn push_bytes_of(bytes: &mut Vec<u8>, elem: Elem, numbers: &[i128]) -> Result<(), AllocError>
    ensures { OnOk result (Appends (flat_map (bytes_of elem) numbers.now) bytes.old bytes.new) }
{
    for number in numbers {
        push_bytes(bytes, elem, *number)?;
    }
    Ok(())
}
