//! `plain_bytes`: elements whose bytes in a block are those of a file.
ghost use Rattle.std.specs.Prelude.{◌≡◌, ◌≢◌, ◌+◌, ◌*◌, ◌<◌, ◌≤◌, length, slice_index, IfSome};
ghost use Rattle.std.specs.List.{All};
ghost use Rattle.nd_model.specs.Arrays.Element.{Boolean, size_of, bytes_at};
ghost use Rattle.nd_view.specs.SideBySide.{side_by_side};
ghost use Rattle.nd_element.specs.Elements.{canonical_bytes};

use nd_element::keeps_bytes;
use nd_types::{Elem, ElemType};
use nd_view::{Run, View};

// The run of all elements of a view, where they are contiguous and their bytes canonical.
fn plain_run(view: &View, elem: Elem) -> Option<Run>
    ensures { IfSome result (λ run. (run ≡ view.now.places)
        × (elem.kind ≢ Boolean)
        × (run ≡ side_by_side (size_of elem.kind) (slice_index run 0) (length run))) }
{
    if !keeps_bytes(elem) {
        return None;
    }
    view.contiguous_run(elem.size())
}

// The bytes of a run of contiguous elements, or `None` where some are missing.
fn run_bytes<'b>(run: &Run, elem: Elem, bytes: &'b [u8]) -> Option<&'b [u8]>
    ensures value { IfSome result (λ part. part.now ≡ bytes_at bytes.now (slice_index run.now 0)
        (length run.now * size_of elem.kind)) }
    ensures inside { IfSome result (λ part. slice_index run.now 0 + length run.now * size_of
        elem.kind ≤ length bytes.now) }
    ensures small { All (λ byte. byte < 256) bytes.now }
{
    let start = run.start() as usize;
    let len = (run.count() as usize).checked_mul(elem.size() as usize)?;
    let end = start.checked_add(len)?;
    bytes.get(start..end)
}

/// Returns the bytes of a view's elements in C order where they lie so in the block: contiguous
/// numbers, no Booleans. `None` otherwise.
pub fn plain_bytes<'b>(view: &View, bytes: &'b [u8]) -> Option<&'b [u8]>
    ensures { IfSome result (λ part. part.now ≡ canonical_bytes view.now bytes.now) }
{
    let ElemType::One(elem) = view.elem() else {
        return None;
    };
    let run = plain_run(view, *elem)?;
    run_bytes(&run, *elem, bytes)
}
