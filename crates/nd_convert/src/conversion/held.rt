//! `fill_held`: converts the numbers of a view whose bytes are all there, by a loop over its runs
//! that is specialised for two kinds.
ghost use Rattle.std.specs.Prelude.{◌≡◌, ◌+◌, ◌*◌, ◌≤◌, ◌++◌, length, take};
ghost use Rattle.nd_model.specs.Arrays.Element.{size_of};
ghost use Rattle.nd_element.specs.Elements.{AreHeld};
ghost use Rattle.nd_convert.specs.Conversion.Converted.{converted_bytes};

use crate::conversion::kernel::convert_run;
use crate::conversion::known::{
    Booleans, Int8s, Int16s, Int32s, Int64s, KnownKind, UInt8s, UInt16s, UInt32s, UInt64s,
};
use crate::conversion::numbers::{CHUNK, fill_run, fill_view};
use crate::conversion::pairs::as_signed;
use nd_block::Filling;
use nd_element::is_elem;
use nd_types::{Elem, Kind};
use nd_view::{Run, View};

// Returns the number of bytes in the buffer, 0 where they had to be appended to the block so that
// `more` bytes fit.
#[inline(always)]
fn make_room(out: &mut Filling, buffer: &[u8], filled: usize, more: usize) -> usize
    requires filled { filled ≤ length buffer.now }
    requires more { more ≤ length buffer.now }
    requires left { filled ≤ out.old.1 }
    ensures room { result + more ≤ length buffer.now }
    ensures left { out.new.1 + filled ≡ out.old.1 + result }
    ensures written { out.new.0 ++ take result buffer.now ≡ out.old.0 ++ take filled buffer.now }
{
    if more <= buffer.len() - filled {
        return filled;
    }
    out.push(&buffer[..filled]);
    0
}

// Puts the numbers of a run, converted, behind the bytes in the buffer, and returns how many bytes
// are in it then. A full buffer is appended to the block.
#[inline(always)]
fn add_run(
    out: &mut Filling,
    buffer: &mut [u8],
    filled: usize,
    to: Elem,
    bytes: &[u8],
    from: Elem,
    run: &Run,
) -> usize
    requires buffer { length buffer.old ≡ 8192 }
    requires filled { filled ≤ length buffer.old }
    requires held { AreHeld from bytes.now run.now }
    requires room { filled + length run.now * size_of to.kind ≤ out.old.1 }
    ensures buffer { length buffer.new ≡ length buffer.old }
    ensures filled { result ≤ length buffer.new }
    ensures left { out.new.1 + (filled + length run.now * size_of to.kind) ≡ out.old.1 + result }
    ensures written { out.new.0 ++ take result buffer.new ≡ (out.old.0
        ++ take filled buffer.old) ++ converted_bytes to from bytes.now run.now }
{
    let count = run.count();
    if count > CHUNK {
        out.push(&buffer[..filled]);
        fill_run(out, buffer, to, bytes, from, run);
        return 0;
    }
    let more = count as usize * to.size() as usize;
    let start = make_room(out, buffer, filled, more);
    let end = start + more;
    convert_run(&mut buffer[start..end], to, bytes, from, run);
    end
}

// Appends the numbers of a view in C order, converted. Short runs share a buffer.
#[inline(always)]
fn fill_runs(out: &mut Filling, to: Elem, bytes: &[u8], from: Elem, view: &View)
    requires held { AreHeld from bytes.now view.now.places }
    requires room { length view.now.places * size_of to.kind ≡ out.old.1 }
    ensures left { out.new.1 ≡ 0 }
    ensures written { out.new.0 ≡ out.old.0
        ++ converted_bytes to from bytes.now view.now.places }
{
    let mut buffer = [0; 8192];
    let mut filled = 0;
    let mut runs = view.runs();
    while let Some(run) = runs.next() {
        filled = add_run(out, &mut buffer, filled, to, bytes, from, &run);
    }
    out.push(&buffer[..filled]);
}

// Appends by a loop specialised for two kinds, both little-endian.
#[inline(never)]
fn fill_kinds<T: KnownKind, F: KnownKind>(
    out: &mut Filling,
    to: Elem,
    bytes: &[u8],
    from: Elem,
    view: &View,
)
    requires held { AreHeld from bytes.now view.now.places }
    requires room { length view.now.places * size_of to.kind ≡ out.old.1 }
    ensures left { out.new.1 ≡ 0 }
    ensures written { out.new.0 ≡ out.old.0
        ++ converted_bytes to from bytes.now view.now.places }
{
    let (known_to, known_from) = (Elem::little(T::KIND), Elem::little(F::KIND));
    if is_elem(to, known_to) && is_elem(from, known_from) {
        fill_runs(out, known_to, bytes, known_from, view);
    } else {
        fill_view(out, to, bytes, from, view);
    }
}

// Appends numbers of one kind, by a loop specialised for each kind of results.
fn fill_from<F: KnownKind>(out: &mut Filling, to: Elem, bytes: &[u8], from: Elem, view: &View)
    requires held { AreHeld from bytes.now view.now.places }
    requires room { length view.now.places * size_of to.kind ≡ out.old.1 }
    ensures left { out.new.1 ≡ 0 }
    ensures written { out.new.0 ≡ out.old.0
        ++ converted_bytes to from bytes.now view.now.places }
{
    match to.kind() {
        Kind::Bool => fill_kinds::<Booleans, F>(out, to, bytes, from, view),
        Kind::I8 => fill_kinds::<Int8s, F>(out, to, bytes, from, view),
        Kind::I16 => fill_kinds::<Int16s, F>(out, to, bytes, from, view),
        Kind::I32 => fill_kinds::<Int32s, F>(out, to, bytes, from, view),
        _ => fill_kinds::<Int64s, F>(out, to, bytes, from, view),
    }
}

// Appends little-endian numbers by a loop specialised for each kind, and others a run at a time.
fn fill_kind(out: &mut Filling, to: Elem, bytes: &[u8], from: Elem, view: &View)
    requires held { AreHeld from bytes.now view.now.places }
    requires room { length view.now.places * size_of to.kind ≡ out.old.1 }
    ensures left { out.new.1 ≡ 0 }
    ensures written { out.new.0 ≡ out.old.0
        ++ converted_bytes to from bytes.now view.now.places }
{
    if to.big() || from.big() {
        fill_view(out, to, bytes, from, view);
        return;
    }
    match from.kind() {
        Kind::Bool => fill_from::<Booleans>(out, to, bytes, from, view),
        Kind::I8 => fill_from::<Int8s>(out, to, bytes, from, view),
        Kind::I16 => fill_from::<Int16s>(out, to, bytes, from, view),
        Kind::I32 => fill_from::<Int32s>(out, to, bytes, from, view),
        Kind::I64 => fill_from::<Int64s>(out, to, bytes, from, view),
        Kind::U8 => fill_from::<UInt8s>(out, to, bytes, from, view),
        Kind::U16 => fill_from::<UInt16s>(out, to, bytes, from, view),
        Kind::U32 => fill_from::<UInt32s>(out, to, bytes, from, view),
        Kind::U64 => fill_from::<UInt64s>(out, to, bytes, from, view),
    }
}

/// Appends the numbers of a view in C order, converted. All bytes of the view must be there.
pub(crate) fn fill_held(out: &mut Filling, to: Elem, bytes: &[u8], from: Elem, view: &View)
    requires held { AreHeld from bytes.now view.now.places }
    requires room { length view.now.places * size_of to.kind ≡ out.old.1 }
    ensures left { out.new.1 ≡ 0 }
    ensures written { out.new.0 ≡ out.old.0
        ++ converted_bytes to from bytes.now view.now.places }
{
    fill_kind(out, as_signed(to), bytes, from, view);
}
