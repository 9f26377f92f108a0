//! `read_at`: the numbers of an index array, read where they lie.
ghost use Rattle.std.specs.Prelude.{◌≡◌, ◌<◌, ◌≤◌, length, slice_index, IsTrue, ◌↔◌};
ghost use Rattle.nd_model.specs.Arrays.Content.{number_at};
ghost use Rattle.nd_model.specs.Arrays.Element.{size_of};
ghost use Rattle.nd_index.specs.Items.Packed.{IsPacked};

use nd_block::value_at;
use nd_element::number_in;
use nd_types::Elem;
use nd_view::Run;

/// Returns whether the elements of a run, of `size` bytes each, are contiguous and end within the
/// first `len` bytes.
pub fn is_packed(run: &Run, size: u64, len: usize) -> bool
    requires { size ≤ 8 }
    ensures { IsTrue result ↔ IsPacked size len run.now }
{
    if !run.is_contiguous(size) {
        return false;
    }
    u128::from(run.start()) + u128::from(run.count()) * u128::from(size) <= len as u128
}

/// Returns the number of index `at` in a run. `packed` tells that the run is contiguous within the
/// bytes; otherwise a byte past the end reads as 0.
#[inline(always)]
pub fn read_at(bytes: &[u8], run: &Run, at: u64, elem: Elem, packed: bool) -> i128
    requires inside { at < length run.now }
    requires packed { IsTrue packed → IsPacked (size_of elem.kind) (length bytes.now) run.now }
    ensures { result ≡ number_at elem bytes.now (slice_index run.now at) }
{
    if packed {
        return value_at(bytes, (run.start() + at * elem.size()) as usize, elem);
    }
    let (place, len, size) = (run.place(at), bytes.len() as u64, elem.size());
    if size <= len && place <= len - size {
        value_at(bytes, place as usize, elem)
    } else {
        number_in(bytes, place, elem)
    }
}
