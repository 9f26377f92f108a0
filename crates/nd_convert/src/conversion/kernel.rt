//! `convert_run`: the inner loop that converts the numbers of a run.
ghost use Rattle.std.specs.Prelude.{◌≡◌, ◌*◌, ◌<◌, ◌↔◌, length, slice_index, IsTrue};
ghost use Rattle.nd_model.specs.Arrays.Element.{size_of};
ghost use Rattle.nd_model.specs.Arrays.Runs.{run_places, AreWithin};
ghost use Rattle.nd_element.specs.Elements.{AreHeld};
ghost use Rattle.nd_convert.specs.Conversion.Converted.{converted_bytes};
ghost use Rattle.nd_view.specs.SideBySide.{side_by_side};

use nd_block::store_at;
use nd_element::number_of;
use nd_types::{Elem, wrap};
use nd_view::Run;

// The most elements of a run that is converted by the same loop whatever its step.
const SHORT: u64 = 8;

// Writes `count` numbers that lie `step` bytes apart, converted and contiguous.
#[inline(always)]
fn convert_each(
    out: &mut [u8],
    to: Elem,
    bytes: &[u8],
    from: Elem,
    start: u64,
    step: i128,
    count: usize,
)
    requires out { length out.old ≡ count * size_of to.kind }
    requires held { AreWithin start step (size_of from.kind) count (length bytes.now) }
    ensures { out.new ≡ converted_bytes to from bytes.now (run_places start step count) }
{
    let size = to.size() as usize;
    for index in 0..count {
        let number = number_of(bytes, from, start, step, index);
        store_at(out, index * size, to, wrap(to.kind(), number));
    }
}

/// Returns whether a run is contiguous, and long enough for a loop specialised for contiguous
/// elements.
#[inline(always)]
pub fn is_long_contiguous(run: &Run, itemsize: u64) -> bool
    ensures { IsTrue result ↔ ((8 < length run.now)
        × (run.now ≡ side_by_side itemsize (slice_index run.now 0) (length run.now))) }
{
    run.count() > SHORT && run.is_contiguous(itemsize)
}

/// Writes the numbers of a run, converted and contiguous, by a loop specialised for contiguous
/// input where the run is long.
#[inline(always)]
pub(crate) fn convert_run(out: &mut [u8], to: Elem, bytes: &[u8], from: Elem, run: &Run)
    requires out { length out.old ≡ length run.now * size_of to.kind }
    requires held { AreHeld from bytes.now run.now }
    ensures { out.new ≡ converted_bytes to from bytes.now run.now }
{
    let (size, count) = (from.size(), run.count() as usize);
    if is_long_contiguous(run, size) {
        convert_each(out, to, bytes, from, run.start(), i128::from(size), count);
    } else {
        convert_each(out, to, bytes, from, run.start(), run.step(), count);
    }
}
