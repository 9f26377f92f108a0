//! `copy_numbers`: chooses the loop that copies a run of numbers. All loops have one contract, so
//! the choice is a matter of speed alone.
ghost use Rattle.std.specs.Prelude.{◌≡◌, length};
ghost use Rattle.nd_model.specs.Arrays.View.{One};
ghost use Rattle.nd_element.specs.Elements.{AreHeld};
ghost use Rattle.nd_assign.specs.Copies.{with_copies};

use crate::gapless::copy_gapless;
use crate::kernel::copy_run;
use nd_convert::conversion::is_long_contiguous;
use nd_element::{is_elem, keeps_bytes};
use nd_types::{Elem, Kind};
use nd_view::Run;

// Copies between any dtypes: the loop is compiled once and not specialised.
#[inline(never)]
fn copy_any(out: &mut [u8], to: Elem, run: &Run, bytes: &[u8], from: Elem, from_run: &Run)
    requires counts { length from_run.now ≡ length run.now }
    requires out { AreHeld to out.old run.now }
    requires held { AreHeld from bytes.now from_run.now }
    ensures len { length out.new ≡ length out.old }
    ensures bytes { out.new ≡ with_copies (One to) (One from) bytes.now run.now from_run.now
        out.old }
{
    copy_run(out, to, run, bytes, from, from_run);
}

// Copies by a loop specialised for two known dtypes where they are these, and by the general one
// otherwise.
#[inline(always)]
fn copy_known(
    known_to: Elem,
    known_from: Elem,
    out: &mut [u8],
    to: Elem,
    run: &Run,
    bytes: &[u8],
    from: Elem,
    from_run: &Run,
)
    requires counts { length from_run.now ≡ length run.now }
    requires out { AreHeld to out.old run.now }
    requires held { AreHeld from bytes.now from_run.now }
    ensures len { length out.new ≡ length out.old }
    ensures bytes { out.new ≡ with_copies (One to) (One from) bytes.now run.now from_run.now
        out.old }
{
    if is_elem(to, known_to) && is_elem(from, known_from) {
        copy_run(out, known_to, run, bytes, known_from, from_run);
    } else {
        copy_any(out, to, run, bytes, from, from_run);
    }
}

// Copies little-endian numbers of one kind, by a loop specialised for each.
#[inline(never)]
fn copy_alike(out: &mut [u8], to: Elem, run: &Run, bytes: &[u8], from: Elem, from_run: &Run)
    requires counts { length from_run.now ≡ length run.now }
    requires out { AreHeld to out.old run.now }
    requires held { AreHeld from bytes.now from_run.now }
    ensures len { length out.new ≡ length out.old }
    ensures bytes { out.new ≡ with_copies (One to) (One from) bytes.now run.now from_run.now
        out.old }
{
    match from.kind() {
        Kind::Bool => {
            let known = Elem::little(Kind::Bool);
            copy_known(known, known, out, to, run, bytes, from, from_run);
        }
        Kind::I8 => {
            let known = Elem::little(Kind::I8);
            copy_known(known, known, out, to, run, bytes, from, from_run);
        }
        Kind::I16 => {
            let known = Elem::little(Kind::I16);
            copy_known(known, known, out, to, run, bytes, from, from_run);
        }
        Kind::I32 => {
            let known = Elem::little(Kind::I32);
            copy_known(known, known, out, to, run, bytes, from, from_run);
        }
        Kind::I64 => {
            let known = Elem::little(Kind::I64);
            copy_known(known, known, out, to, run, bytes, from, from_run);
        }
        Kind::U8 => {
            let known = Elem::little(Kind::U8);
            copy_known(known, known, out, to, run, bytes, from, from_run);
        }
        Kind::U16 => {
            let known = Elem::little(Kind::U16);
            copy_known(known, known, out, to, run, bytes, from, from_run);
        }
        Kind::U32 => {
            let known = Elem::little(Kind::U32);
            copy_known(known, known, out, to, run, bytes, from, from_run);
        }
        Kind::U64 => {
            let known = Elem::little(Kind::U64);
            copy_known(known, known, out, to, run, bytes, from, from_run);
        }
    }
}

/// Copies the numbers of a run to another one, converted.
pub(crate) fn copy_numbers(
    out: &mut [u8],
    to: Elem,
    run: &Run,
    bytes: &[u8],
    from: Elem,
    from_run: &Run,
)
    requires counts { length from_run.now ≡ length run.now }
    requires out { AreHeld to out.old run.now }
    requires held { AreHeld from bytes.now from_run.now }
    ensures len { length out.new ≡ length out.old }
    ensures bytes { out.new ≡ with_copies (One to) (One from) bytes.now run.now from_run.now
        out.old }
{
    if is_elem(to, from) {
        let size = to.size();
        if keeps_bytes(to) && is_long_contiguous(run, size) && from_run.is_contiguous(size) {
            copy_gapless(out, to, run, bytes, from_run);
            return;
        }
        copy_alike(out, to, run, bytes, from, from_run);
    } else {
        copy_any(out, to, run, bytes, from, from_run);
    }
}
