//! The numbers of a run's elements, `number_of`, each read at its byte offset in the block, `spot`.
ghost use Rattle.std.specs.Prelude.{◌≡◌, pos, ◌+◌, ◌^◌, ◌<◌, ◌≤◌, ◌≤ℤ◌, length};
ghost use Rattle.nd_model.specs.Arrays.Content.{number_at};
ghost use Rattle.nd_model.specs.Arrays.Element.{size_of, IsValue};
ghost use Rattle.nd_model.specs.Arrays.Runs.{place_at, spot_at};

use nd_block::value_at;
use nd_types::Elem;

/// Returns the byte offset of an element of a run, by the run's first byte offset and its step in
/// bytes.
#[inline(always)]
pub fn spot(start: u64, step: i128, index: usize) -> usize
    requires { (pos 0 ≤ℤ place_at start step index) × (spot_at start step index < 2 ^ 64) }
    ensures { result ≡ spot_at start step index }
{
    (start as i128 + index as i128 * step) as usize
}

/// Returns the number of an element of a run: `start` and `step` are in bytes, `index` counts
/// elements.
#[inline(always)]
pub fn number_of(bytes: &[u8], elem: Elem, start: u64, step: i128, index: usize) -> i128
    requires low { pos 0 ≤ℤ place_at start step index }
    requires high { spot_at start step index + size_of elem.kind ≤ length bytes.now }
    ensures value { result ≡ number_at elem bytes.now (spot_at start step index) }
    ensures in_range { IsValue elem.kind result }
{
    // proof: the length and the itemsize are within 64 bits, so the element's last byte is in the block
    let _len = bytes.len();
    let _size = elem.size();
    value_at(bytes, spot(start, step, index), elem)
}
