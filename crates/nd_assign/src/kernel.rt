//! `copy_run`: the inner loop that reads numbers of one run, converts them, and writes them to
//! another.
ghost use Rattle.std.specs.Prelude.{◌≡◌, length};
ghost use Rattle.nd_model.specs.Arrays.Element.{size_of};
ghost use Rattle.nd_model.specs.Arrays.Runs.{run_places, AreWithin};
ghost use Rattle.nd_model.specs.Arrays.View.{One};
ghost use Rattle.nd_element.specs.Elements.{AreHeld};
ghost use Rattle.nd_assign.specs.Copies.{with_copies};

use nd_block::store_at;
use nd_convert::conversion::is_long_contiguous;
use nd_element::{number_of, spot};
use nd_types::{Elem, wrap};
use nd_view::Run;

/// Copies `count` numbers, converted, between two strided runs.
#[inline(always)]
pub(crate) fn copy_each(
    out: &mut [u8],
    to: Elem,
    start: u64,
    step: i128,
    bytes: &[u8],
    from: Elem,
    from_start: u64,
    from_step: i128,
    count: usize,
)
    requires out { AreWithin start step (size_of to.kind) count (length out.old) }
    requires held { AreWithin from_start from_step (size_of from.kind) count (length bytes.now) }
    ensures len { length out.new ≡ length out.old }
    ensures bytes { out.new ≡ with_copies (One to) (One from) bytes.now
        (run_places start step count) (run_places from_start from_step count) out.old }
{
    // proof: the itemsize is bounded, by the clause of size().
    let _size = to.size();
    for index in 0..count {
        let number = number_of(bytes, from, from_start, from_step, index);
        // proof: the number of bytes is bounded, by the clause of len().
        let _len = out.len();
        let place = spot(start, step, index);
        store_at(out, place, to, wrap(to.kind(), number));
    }
}

/// Copies the numbers of a run to another one, converted, by loops specialised for frequent steps.
#[inline(always)]
pub(crate) fn copy_run(
    out: &mut [u8],
    to: Elem,
    run: &Run,
    bytes: &[u8],
    from: Elem,
    from_run: &Run,
)
    requires counts { length from_run.now ≡ length run.now }
    requires out { AreHeld to out.old run.now }
    requires held { AreHeld from bytes.now from_run.now }
    ensures len { length out.new ≡ length out.old }
    ensures bytes { out.new ≡ with_copies (One to) (One from) bytes.now run.now from_run.now
        out.old }
{
    let count = run.count() as usize;
    let (start, step) = (run.start(), run.step());
    let (from_start, from_step) = (from_run.start(), from_run.step());
    let (size, from_size) = (i128::from(to.size()), i128::from(from.size()));
    let is_contiguous = is_long_contiguous(run, to.size());
    if is_contiguous && from_run.is_contiguous(from.size()) {
        copy_each(
            out, to, start, size, bytes, from, from_start, from_size, count,
        );
    } else if is_contiguous && from_step == 0 {
        copy_each(out, to, start, size, bytes, from, from_start, 0, count);
    } else {
        copy_each(
            out, to, start, step, bytes, from, from_start, from_step, count,
        );
    }
}
