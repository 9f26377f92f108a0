//! `convert_held`: chooses the loop that converts a run. All loops have one contract, so the choice
//! is a matter of speed alone.
ghost use Rattle.std.specs.Prelude.{◌≡◌, ℤ, ◌*◌, length};
ghost use Rattle.nd_model.specs.Arrays.Element.{size_of, bytes_of, wrap};
ghost use Rattle.nd_element.specs.Elements.{AreHeld};
ghost use Rattle.nd_convert.specs.Conversion.Converted.{converted_bytes};

use crate::conversion::kernel::convert_run;
use crate::conversion::known::{
    Booleans, Int8s, Int16s, Int32s, Int64s, KnownKind, UInt8s, UInt16s, UInt32s, UInt64s,
};
use nd_element::is_elem;
use nd_types::{Elem, Kind};
use nd_view::Run;

// Converts a run between any dtypes: the loop is compiled once and not specialised.
#[inline(never)]
fn convert_any(out: &mut [u8], to: Elem, bytes: &[u8], from: Elem, run: &Run)
    requires out { length out.old ≡ length run.now * size_of to.kind }
    requires held { AreHeld from bytes.now run.now }
    ensures { out.new ≡ converted_bytes to from bytes.now run.now }
{
    convert_run(out, to, bytes, from, run);
}

// Converts by a loop specialised for two known dtypes where they are these, and by the general one
// otherwise.
#[inline(always)]
fn convert_known(
    known_to: Elem,
    known_from: Elem,
    out: &mut [u8],
    to: Elem,
    bytes: &[u8],
    from: Elem,
    run: &Run,
)
    requires out { length out.old ≡ length run.now * size_of to.kind }
    requires held { AreHeld from bytes.now run.now }
    ensures { out.new ≡ converted_bytes to from bytes.now run.now }
{
    if is_elem(to, known_to) && is_elem(from, known_from) {
        convert_run(out, known_to, bytes, known_from, run);
    } else {
        convert_any(out, to, bytes, from, run);
    }
}

// Converts by a loop specialised for two kinds, both little-endian.
#[inline(never)]
fn convert_kinds<T: KnownKind, F: KnownKind>(
    out: &mut [u8],
    to: Elem,
    bytes: &[u8],
    from: Elem,
    run: &Run,
)
    requires out { length out.old ≡ length run.now * size_of to.kind }
    requires held { AreHeld from bytes.now run.now }
    ensures { out.new ≡ converted_bytes to from bytes.now run.now }
{
    let (known_to, known_from) = (Elem::little(T::KIND), Elem::little(F::KIND));
    convert_known(known_to, known_from, out, to, bytes, from, run);
}

// Converts from one kind, by a loop specialised for each kind of results.
fn convert_from<F: KnownKind>(out: &mut [u8], to: Elem, bytes: &[u8], from: Elem, run: &Run)
    requires out { length out.old ≡ length run.now * size_of to.kind }
    requires held { AreHeld from bytes.now run.now }
    ensures { out.new ≡ converted_bytes to from bytes.now run.now }
{
    match to.kind() {
        Kind::Bool => convert_kinds::<Booleans, F>(out, to, bytes, from, run),
        Kind::I8 => convert_kinds::<Int8s, F>(out, to, bytes, from, run),
        Kind::I16 => convert_kinds::<Int16s, F>(out, to, bytes, from, run),
        Kind::I32 => convert_kinds::<Int32s, F>(out, to, bytes, from, run),
        _ => convert_kinds::<Int64s, F>(out, to, bytes, from, run),
    }
}

// Converts to or from big-endian numbers, by a loop specialised for two kinds and each byte order.
#[inline(never)]
fn reorder_kinds<T: KnownKind, F: KnownKind>(
    out: &mut [u8],
    to: Elem,
    bytes: &[u8],
    from: Elem,
    run: &Run,
)
    requires out { length out.old ≡ length run.now * size_of to.kind }
    requires held { AreHeld from bytes.now run.now }
    ensures { out.new ≡ converted_bytes to from bytes.now run.now }
{
    let (known, big) = (Elem::little(F::KIND), Elem::new(F::KIND, true));
    let (to_known, to_big) = (Elem::little(T::KIND), Elem::new(T::KIND, true));
    match (to.big(), from.big()) {
        (false, _) => convert_known(to_known, big, out, to, bytes, from, run),
        (true, false) => convert_known(to_big, known, out, to, bytes, from, run),
        (true, true) => convert_known(to_big, big, out, to, bytes, from, run),
    }
}

// Converts little-endian numbers, by a loop specialised for each kind.
fn convert_kind(out: &mut [u8], to: Elem, bytes: &[u8], from: Elem, run: &Run)
    requires out { length out.old ≡ length run.now * size_of to.kind }
    requires held { AreHeld from bytes.now run.now }
    ensures { out.new ≡ converted_bytes to from bytes.now run.now }
{
    match from.kind() {
        Kind::Bool => convert_from::<Booleans>(out, to, bytes, from, run),
        Kind::I8 => convert_from::<Int8s>(out, to, bytes, from, run),
        Kind::I16 => convert_from::<Int16s>(out, to, bytes, from, run),
        Kind::I32 => convert_from::<Int32s>(out, to, bytes, from, run),
        Kind::I64 => convert_from::<Int64s>(out, to, bytes, from, run),
        Kind::U8 => convert_from::<UInt8s>(out, to, bytes, from, run),
        Kind::U16 => convert_from::<UInt16s>(out, to, bytes, from, run),
        Kind::U32 => convert_from::<UInt32s>(out, to, bytes, from, run),
        Kind::U64 => convert_from::<UInt64s>(out, to, bytes, from, run),
    }
}

// Converts to or from big-endian numbers of one itemsize, by a loop specialised for each kind.
fn reorder_kind(out: &mut [u8], to: Elem, bytes: &[u8], from: Elem, run: &Run)
    requires out { length out.old ≡ length run.now * size_of to.kind }
    requires held { AreHeld from bytes.now run.now }
    ensures { out.new ≡ converted_bytes to from bytes.now run.now }
{
    match from.kind() {
        Kind::I16 => reorder_kinds::<Int16s, Int16s>(out, to, bytes, from, run),
        Kind::I32 => reorder_kinds::<Int32s, Int32s>(out, to, bytes, from, run),
        Kind::I64 => reorder_kinds::<Int64s, Int64s>(out, to, bytes, from, run),
        Kind::U16 => reorder_kinds::<Int16s, UInt16s>(out, to, bytes, from, run),
        Kind::U32 => reorder_kinds::<Int32s, UInt32s>(out, to, bytes, from, run),
        Kind::U64 => reorder_kinds::<Int64s, UInt64s>(out, to, bytes, from, run),
        _ => convert_any(out, to, bytes, from, run),
    }
}

/// Returns the dtype of the signed kind of the same itemsize, which has the same bytes for each
/// number. A Boolean stays.
pub(crate) fn as_signed(elem: Elem) -> Elem
    ensures bytes { (z : ℤ) → bytes_of result (wrap result.kind z)
        ≡ bytes_of elem (wrap elem.kind z) }
    ensures size { size_of result.kind ≡ size_of elem.kind }
{
    match elem.kind() {
        Kind::U8 => Elem::new(Kind::I8, elem.big()),
        Kind::U16 => Elem::new(Kind::I16, elem.big()),
        Kind::U32 => Elem::new(Kind::I32, elem.big()),
        Kind::U64 => Elem::new(Kind::I64, elem.big()),
        _ => elem,
    }
}

// Converts by the specialised loop for these dtypes, if there is one.
fn convert_pair(out: &mut [u8], to: Elem, bytes: &[u8], from: Elem, run: &Run)
    requires out { length out.old ≡ length run.now * size_of to.kind }
    requires held { AreHeld from bytes.now run.now }
    ensures { out.new ≡ converted_bytes to from bytes.now run.now }
{
    if to.big() || from.big() {
        reorder_kind(out, to, bytes, from, run);
    } else {
        convert_kind(out, to, bytes, from, run);
    }
}

/// Writes the numbers of a run, converted and contiguous. All bytes of the run must be there.
pub(crate) fn convert_held(out: &mut [u8], to: Elem, bytes: &[u8], from: Elem, run: &Run)
    requires out { length out.old ≡ length run.now * size_of to.kind }
    requires held { AreHeld from bytes.now run.now }
    ensures { out.new ≡ converted_bytes to from bytes.now run.now }
{
    convert_pair(out, as_signed(to), bytes, from, run);
}
