//! `fill`: appends the results of a function to a filling block, a chunk of numbers at a time. A
//! chunk fits the nearest cache, and each byte of the block is written once.
ghost use Rattle.std.specs.Prelude.{◌≡◌, ◌*◌, ◌<◌, ◌≤◌, ◌++◌, length};
ghost use Rattle.nd_model.specs.Arrays.Element.{size_of};
ghost use Rattle.nd_model.specs.Making.Elementwise.{little};
ghost use Rattle.nd_types.specs.Kinds.{kind_of};
ghost use Rattle.nd_ufunc.specs.Loops.Feeds.{numbers_left};
ghost use Rattle.nd_ufunc.specs.Loops.Results.{result_bytes};

use crate::loops::appending::append_sides;
use crate::loops::feed::Feed;
use crate::loops::operation::Operation;
use nd_block::Filling;
use nd_types::Kind;

/// The bytes of the numbers that are taken at a time.
pub const CHUNK: usize = 8192;

/// Returns how many numbers make a chunk, given the itemsizes of the result and both operands.
///
/// `chunk_of(1, 8, 4)` is 1024.
pub fn chunk_of(size: usize, left: usize, right: usize) -> usize
    requires size { (0 < size) × (size ≤ 8) }
    requires left { (0 < left) × (left ≤ 8) }
    requires right { (0 < right) × (right ≤ 8) }
    ensures some { 0 < result }
    ensures size { result * size ≤ 8192 }
    ensures left { result * left ≤ 8192 }
    ensures right { result * right ≤ 8192 }
{
    CHUNK / size.max(left).max(right)
}

/// Appends the results for the next `count` pairs of numbers, and returns the filling block. `kind`
/// is that of the operands, `to` that of the results.
///
/// `fill::<Add>` of the numbers 1, 2, 3 and the scalar 10 appends the bytes of 11, 12, 13.
pub fn fill<O: Operation>(
    filling: Filling,
    to: Kind,
    kind: Kind,
    left: &mut Feed<'_>,
    right: &mut Feed<'_>,
    count: usize,
) -> Filling
    requires left { length (numbers_left left.old) ≡ count }
    requires right { length (numbers_left right.old) ≡ count }
    requires room { count * size_of (kind_of to) ≡ filling.1 }
    ensures left { result.1 ≡ 0 }
    ensures written { result.0 ≡ filling.0 ++ result_bytes (little (kind_of to))
        (O.gives (kind_of to)) (numbers_left left.old) (numbers_left right.old) }
{
    let chunk = chunk_of(1, left.size(), right.size());
    let mut left_buffer = [0; CHUNK];
    let mut right_buffer = [0; CHUNK];
    let mut out = filling;
    let mut rest = count;
    while rest > 0 {
        let some = chunk.min(rest);
        let xs = left.take(&mut left_buffer, some);
        let ys = right.take(&mut right_buffer, some);
        out = append_sides::<O>(out, kind, to, xs, ys, some);
        rest -= some;
    }
    out
}
