//! `convert`: converts the numbers of a run, whether or not the bytes hold all of them.
ghost use Rattle.std.specs.Prelude.{◌≡◌, ◌+◌, ◌*◌, ◌≤◌, length, IsTrue};
ghost use Rattle.std.specs.List.{All};
ghost use Rattle.nd_model.specs.Arrays.Element.{size_of};
ghost use Rattle.nd_convert.specs.Conversion.Converted.{converted_bytes};

use crate::conversion::pairs::convert_held;
use nd_block::store_at;
use nd_element::number_in;
use nd_types::{Elem, wrap};
use nd_view::Run;

// Whether all elements of a run, of `size` bytes each, end within the first `len` bytes.
fn are_held(run: &Run, size: usize, len: usize) -> bool
    ensures { IsTrue result → All (λ p. p + size ≤ len) run.now }
{
    if len < size {
        return false;
    }
    let most = len - size;
    // proof: the elements lie one step apart, by the clause of step().
    let _step = run.step();
    let count = run.count();
    let first = run.place(0);
    let last = run.place(count - 1);
    first as usize <= most && last as usize <= most
}

// Converts a run some of whose elements lie past the end, where each byte reads as 0.
#[inline(never)]
fn convert_past(out: &mut [u8], to: Elem, bytes: &[u8], from: Elem, run: &Run)
    requires { length out.old ≡ length run.now * size_of to.kind }
    ensures { out.new ≡ converted_bytes to from bytes.now run.now }
{
    let size = to.size() as usize;
    for index in 0..run.count() {
        let number = number_in(bytes, run.place(index), from);
        store_at(out, index as usize * size, to, wrap(to.kind(), number));
    }
}

/// Writes the numbers of a run, converted and contiguous. A byte past the end reads as 0.
pub fn convert(out: &mut [u8], to: Elem, bytes: &[u8], from: Elem, run: &Run)
    requires { length out.old ≡ length run.now * size_of to.kind }
    ensures { out.new ≡ converted_bytes to from bytes.now run.now }
{
    if are_held(run, from.size() as usize, bytes.len()) {
        convert_held(out, to, bytes, from, run);
    } else {
        convert_past(out, to, bytes, from, run);
    }
}
