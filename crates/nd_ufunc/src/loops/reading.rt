//! `side_of`: the numbers of a run as an operand, borrowed where that is possible.
ghost use Rattle.std.specs.Prelude.{◌≡◌, ℕ, ◌*◌, ◌<◌, ◌≤◌, pos, length, take, drop, slice_index, IfSome};
ghost use Rattle.nd_model.specs.Arrays.Content.{number_at};
ghost use Rattle.nd_model.specs.Arrays.Element.{IsValue, size_of};
ghost use Rattle.nd_model.specs.Arrays.Runs.{place_at};
ghost use Rattle.nd_types.specs.Kinds.{kind_of};
ghost use Rattle.nd_element.specs.Elements.{AreHeld, numbers_at};
ghost use Rattle.nd_ufunc.specs.Loops.Sides.{HasNumbers, Keeps, numbers_on};
ghost use Rattle.nd_ufunc.specs.declared.loops.kernel.Side.TheVariants.{Each};

use crate::loops::kernel::Side;
use nd_block::value_at;
use nd_convert::conversion::convert;
use nd_element::is_elem;
use nd_types::{Elem, Kind};
use nd_view::Run;

// The number of a run whose step is 0: all its elements have one byte offset.
fn lone_number(bytes: &[u8], elem: Elem, run: &Run) -> i128
    requires { AreHeld elem bytes.now run.now }
    ensures { result ≡ number_at elem bytes.now (slice_index run.now 0) }
{
    // proof: the numbers of elements and of bytes are bounded, by the clauses of count() and len().
    let _count = run.count();
    let _len = bytes.len();
    value_at(bytes, run.start() as usize, elem)
}

// The bytes of a run of contiguous elements.
fn bytes_of_run<'b>(bytes: &'b [u8], elem: Elem, run: &Run) -> &'b [u8]
    requires held { AreHeld elem bytes.now run.now }
    requires step { (k : ℕ) → k < length run.now
        → place_at (slice_index run.now 0) (pos (size_of elem.kind)) k
        ≡ pos (slice_index run.now k) }
    ensures value { result.now ≡ take (length run.now * size_of elem.kind)
        (drop (slice_index run.now 0) bytes.now) }
    ensures len { length result.now ≡ length run.now * size_of elem.kind }
{
    let start = run.start() as usize;
    let end = start + run.count() as usize * elem.size() as usize;
    &bytes[start..end]
}

/// proof: each number that is read of these bytes is valid for its kind, by the clauses of len()
/// and size().
#[inline(always)]
pub(crate) fn numbers_are_valid(bytes: &[u8], elem: Elem)
    ensures { (p : ℕ) → IsValue elem.kind (number_at elem bytes.now p) }
{
    let _len = bytes.len();
    let _size = elem.size();
}

/// Returns the bytes of a run's numbers, or `None` where they are not contiguous little-endian
/// numbers of this kind.
pub(crate) fn lend<'b>(kind: Kind, bytes: &'b [u8], elem: Elem, run: &Run) -> Option<&'b [u8]>
    requires held { AreHeld elem bytes.now run.now }
    ensures { IfSome result (λ lent. HasNumbers (Each lent kind) (length run.now)
        × (numbers_on (Each lent kind) (length run.now) ≡ numbers_at elem bytes.now run.now)) }
{
    if run.is_contiguous(elem.size()) && is_elem(elem, Elem::little(kind)) {
        Some(bytes_of_run(bytes, elem, run))
    } else {
        None
    }
}

/// Returns the numbers of a run: borrowed where they are contiguous and of `kind`, a scalar where
/// the step is 0, and converted into the buffer otherwise.
pub fn side_of<'b>(
    buffer: &'b mut [u8],
    kind: Kind,
    bytes: &'b [u8],
    elem: Elem,
    run: &Run,
) -> Side<'b>
    requires held { AreHeld elem bytes.now run.now }
    requires keeps { Keeps elem.kind (kind_of kind) }
    requires buffer { length run.now * size_of (kind_of kind) ≤ length buffer.old }
    ensures enough { HasNumbers result (length run.now) }
    ensures numbers { numbers_on result (length run.now) ≡ numbers_at elem bytes.now run.now }
{
    if run.step() == 0 {
        return Side::Same(lone_number(bytes, elem, run));
    }
    if let Some(lent) = lend(kind, bytes, elem, run) {
        return Side::Each(lent, kind);
    }
    numbers_are_valid(bytes, elem);
    let end = run.count() as usize * kind.size() as usize;
    convert(&mut buffer[..end], Elem::little(kind), bytes, elem, run);
    Side::Each(&buffer[..end], kind)
}
