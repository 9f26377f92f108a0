//! `copy_gapless` and `move_gapless`: contiguous numbers that keep their dtype, copied at once.
ghost use Rattle.std.specs.Prelude.{◌≡◌, ◌≢◌, ◌+◌, ◌*◌, ◌<◌, ◌≤◌, length, slice_index};
ghost use Rattle.std.specs.List.{All};
ghost use Rattle.nd_model.specs.Arrays.Element.{Boolean, size_of};
ghost use Rattle.nd_model.specs.Arrays.View.{One};
ghost use Rattle.nd_element.specs.Elements.{AreHeld};
ghost use Rattle.nd_assign.specs.Copies.{with_copies};
ghost use Rattle.nd_view.specs.SideBySide.{side_by_side};

use nd_types::Elem;
use nd_view::Run;

/// Returns the byte offset at which a contiguous run ends.
pub(crate) fn end_of(run: &Run, elem: Elem, bytes: &[u8]) -> usize
    requires held { AreHeld elem bytes.now run.now }
    requires gapless { run.now ≡ side_by_side (size_of elem.kind) (slice_index run.now 0)
        (length run.now) }
    ensures value { result ≡ slice_index run.now 0 + length run.now * size_of elem.kind }
    ensures inside { result ≤ length bytes.now }
    ensures small { All (λ byte. byte < 256) bytes.now }
{
    // proof: the number of bytes is bounded, by the clause of len().
    let _len = bytes.len();
    run.start() as usize + run.count() as usize * elem.size() as usize
}

/// Copies the numbers of a run to another one of the same dtype, where both are contiguous.
pub(crate) fn copy_gapless(out: &mut [u8], elem: Elem, run: &Run, bytes: &[u8], from_run: &Run)
    requires kind { elem.kind ≢ Boolean }
    requires counts { length from_run.now ≡ length run.now }
    requires out { AreHeld elem out.old run.now }
    requires held { AreHeld elem bytes.now from_run.now }
    requires gapless { run.now ≡ side_by_side (size_of elem.kind) (slice_index run.now 0)
        (length run.now) }
    requires from_gapless { from_run.now ≡ side_by_side (size_of elem.kind)
        (slice_index from_run.now 0) (length from_run.now) }
    ensures len { length out.new ≡ length out.old }
    ensures bytes { out.new ≡ with_copies (One elem) (One elem) bytes.now run.now from_run.now
        out.old }
{
    let (to, from) = (run.start() as usize, from_run.start() as usize);
    let (end, from_end) = (end_of(run, elem, out), end_of(from_run, elem, bytes));
    out[to..end].copy_from_slice(&bytes[from..from_end]);
}

/// Copies the numbers of a run to another one of the same dtype in the same bytes, where both are
/// contiguous. They may overlap: each number is read before it is overwritten.
pub(crate) fn move_gapless(bytes: &mut [u8], elem: Elem, run: &Run, from_run: &Run)
    requires kind { elem.kind ≢ Boolean }
    requires counts { length from_run.now ≡ length run.now }
    requires out { AreHeld elem bytes.old run.now }
    requires held { AreHeld elem bytes.old from_run.now }
    requires gapless { run.now ≡ side_by_side (size_of elem.kind) (slice_index run.now 0)
        (length run.now) }
    requires from_gapless { from_run.now ≡ side_by_side (size_of elem.kind)
        (slice_index from_run.now 0) (length from_run.now) }
    ensures len { length bytes.new ≡ length bytes.old }
    ensures bytes { bytes.new ≡ with_copies (One elem) (One elem) bytes.old run.now from_run.now
        bytes.old }
{
    let (to, from) = (run.start() as usize, from_run.start() as usize);
    let (_end, from_end) = (end_of(run, elem, bytes), end_of(from_run, elem, bytes));
    bytes.copy_within(from..from_end, to);
}
