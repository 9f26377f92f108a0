//! `write_true_places` and `count_trues`: the true bytes of masks, in loops without a branch.
ghost use Rattle.std.specs.Prelude.{◌≡◌, ◌+◌, ◌^◌, ◌≤◌, if◌then◌else◌, length, take};
ghost use Rattle.nd_places.specs.Forms.{trues_on};
ghost use Rattle.nd_places.specs.Near.{is_true, trues_in};

use crate::line::{StridedLine, near_place};

// By how much the byte of a mask advances the count of true ones.
#[inline(always)]
fn count_of_byte(byte: u8) -> u8
    ensures { result ≡ (if is_true byte then 1 else 0) }
{
    if byte == 0 { 0 } else { 1 }
}

/// Writes the byte offsets of the elements of a line that a mask selects, and returns their number.
/// `first` is the index of the mask's first element.
#[inline(always)]
pub(crate) fn write_true_places(
    out: &mut [u64],
    line: StridedLine,
    first: u64,
    mask: &[u8],
) -> usize
    requires room { length mask.now ≤ length out.old }
    requires range { first + length mask.now ≤ 2 ^ 32 }
    ensures len { length out.new ≡ length out.old }
    ensures few { result ≤ length out.new }
    ensures places { take result out.new ≡ trues_on line first mask.now }
{
    let mut count = 0;
    for (index, byte) in mask.iter().enumerate() {
        let number = first + index as u64;
        out[count] = near_place(line.start + number as i64 * line.step);
        count += usize::from(count_of_byte(*byte));
    }
    count
}

// The most bytes whose count of true ones fits a byte.
const MOST: usize = 255;

// How many of at most 255 bytes of a mask are true.
#[inline(always)]
fn count_few(mask: &[u8]) -> u8
    requires { length mask.now ≤ MOST }
    ensures { result ≡ length (trues_in 0 mask.now) }
{
    let mut count = 0;
    for byte in mask {
        count += count_of_byte(*byte);
    }
    count
}

/// Returns how many bytes of a mask are true: two of `1 0 2`.
pub fn count_trues(mask: &[u8]) -> u64
    ensures value { result ≡ length (trues_in 0 mask.now) }
    ensures few { result ≤ length mask.now }
{
    let mut count = 0;
    let mut at = 0;
    while at < mask.len() {
        let end = at + MOST.min(mask.len() - at);
        count += u64::from(count_few(&mask[at..end]));
        at = end;
    }
    count
}
