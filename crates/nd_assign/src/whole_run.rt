//! `copy_whole_run`: copies the numbers of a view that is one run, as a scalar or a contiguous
//! array is, by a loop over the target's runs that is specialised for a kind.
ghost use Rattle.std.specs.Prelude.{◌≡◌, length, IfSome};
ghost use Rattle.nd_model.specs.Arrays.View.{One};
ghost use Rattle.nd_element.specs.Elements.{AreHeld};
ghost use Rattle.nd_assign.specs.Copies.{with_copies};

use crate::kernel::copy_run;
use crate::pairs::copy_numbers;
use nd_convert::conversion::known::{
    Booleans, Int8s, Int16s, Int32s, Int64s, KnownKind, UInt8s, UInt16s, UInt32s, UInt64s,
};
use nd_element::is_elem;
use nd_types::{Elem, Kind};
use nd_view::{Run, View};

// The most elements of a run that is copied in line.
const SHORT: u64 = 64;

/// Returns the elements of a view in C order as one run, or `None` where they are more runs or
/// none.
pub(crate) fn whole_run(view: &View) -> Option<Run>
    ensures { IfSome result (λ run. run ≡ view.now.places) }
{
    let mut runs = view.runs();
    let run = runs.next()?;
    if run.count() as usize != view.count() {
        return None;
    }
    Some(run)
}

// Copies the numbers of a run to another one, converted: in line where they are few, and by the
// loops for many numbers otherwise.
#[inline(always)]
fn copy_in_line(out: &mut [u8], to: Elem, run: &Run, bytes: &[u8], from: Elem, from_run: &Run)
    requires counts { length from_run.now ≡ length run.now }
    requires out { AreHeld to out.old run.now }
    requires held { AreHeld from bytes.now from_run.now }
    ensures len { length out.new ≡ length out.old }
    ensures bytes { out.new ≡ with_copies (One to) (One from) bytes.now run.now from_run.now
        out.old }
{
    if run.count() > SHORT {
        copy_numbers(out, to, run, bytes, from, from_run);
    } else {
        copy_run(out, to, run, bytes, from, from_run);
    }
}

// Copies the numbers of a run to the elements of a view, converted, in C order.
#[inline(always)]
fn copy_to_view(out: &mut [u8], to: Elem, target: &View, bytes: &[u8], from: Elem, source: &Run)
    requires counts { length source.now ≡ length target.now.places }
    requires out { AreHeld to out.old target.now.places }
    requires held { AreHeld from bytes.now source.now }
    ensures len { length out.new ≡ length out.old }
    ensures bytes { out.new ≡ with_copies (One to) (One from) bytes.now target.now.places
        source.now out.old }
{
    // proof: the number of elements is bounded, by the clause of count().
    let _count = source.count();
    let mut at = 0;
    let mut runs = target.runs();
    while let Some(run) = runs.next() {
        let count = run.count();
        let part = source.part(at, count);
        copy_in_line(out, to, &run, bytes, from, &part);
        at += count;
    }
}

// Copies between any dtypes: the loop is compiled once and not specialised.
#[inline(never)]
fn copy_any(out: &mut [u8], to: Elem, target: &View, bytes: &[u8], from: Elem, source: &Run)
    requires counts { length source.now ≡ length target.now.places }
    requires out { AreHeld to out.old target.now.places }
    requires held { AreHeld from bytes.now source.now }
    ensures len { length out.new ≡ length out.old }
    ensures bytes { out.new ≡ with_copies (One to) (One from) bytes.now target.now.places
        source.now out.old }
{
    copy_to_view(out, to, target, bytes, from, source);
}

// Copies by a loop specialised for little-endian numbers of one kind where both dtypes are these,
// and by the general one otherwise.
#[inline(never)]
fn copy_kind<K: KnownKind>(
    out: &mut [u8],
    to: Elem,
    target: &View,
    bytes: &[u8],
    from: Elem,
    source: &Run,
)
    requires counts { length source.now ≡ length target.now.places }
    requires out { AreHeld to out.old target.now.places }
    requires held { AreHeld from bytes.now source.now }
    ensures len { length out.new ≡ length out.old }
    ensures bytes { out.new ≡ with_copies (One to) (One from) bytes.now target.now.places
        source.now out.old }
{
    let known = Elem::little(K::KIND);
    if is_elem(to, known) && is_elem(from, known) {
        copy_to_view(out, known, target, bytes, known, source);
    } else {
        copy_any(out, to, target, bytes, from, source);
    }
}

/// Copies the numbers of a run to the elements of a view, converted, in C order.
pub(crate) fn copy_whole_run(
    out: &mut [u8],
    to: Elem,
    target: &View,
    bytes: &[u8],
    from: Elem,
    source: &Run,
)
    requires counts { length source.now ≡ length target.now.places }
    requires out { AreHeld to out.old target.now.places }
    requires held { AreHeld from bytes.now source.now }
    ensures len { length out.new ≡ length out.old }
    ensures bytes { out.new ≡ with_copies (One to) (One from) bytes.now target.now.places
        source.now out.old }
{
    match to.kind() {
        Kind::Bool => copy_kind::<Booleans>(out, to, target, bytes, from, source),
        Kind::I8 => copy_kind::<Int8s>(out, to, target, bytes, from, source),
        Kind::I16 => copy_kind::<Int16s>(out, to, target, bytes, from, source),
        Kind::I32 => copy_kind::<Int32s>(out, to, target, bytes, from, source),
        Kind::I64 => copy_kind::<Int64s>(out, to, target, bytes, from, source),
        Kind::U8 => copy_kind::<UInt8s>(out, to, target, bytes, from, source),
        Kind::U16 => copy_kind::<UInt16s>(out, to, target, bytes, from, source),
        Kind::U32 => copy_kind::<UInt32s>(out, to, target, bytes, from, source),
        Kind::U64 => copy_kind::<UInt64s>(out, to, target, bytes, from, source),
    }
}
