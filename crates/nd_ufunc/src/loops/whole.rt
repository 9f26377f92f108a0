//! `append_whole`: appends a function's results for operands that are read where they lie. No number
//! is gathered or converted, so no buffer is needed.
ghost use Rattle.std.specs.Prelude.{◌≡◌, ℕ, ◌+◌, ◌*◌, ◌<◌, ◌≤◌, ◌++◌};
ghost use Rattle.nd_model.specs.Arrays.Element.{IsValue, size_of};
ghost use Rattle.nd_model.specs.Making.Elementwise.{little};
ghost use Rattle.nd_types.specs.Kinds.{kind_of};
ghost use Rattle.nd_ufunc.specs.Loops.Results.{result_bytes};
ghost use Rattle.nd_ufunc.specs.Loops.Sides.{HasNumbers, number_on, numbers_on};

use crate::loops::appending::append_sides;
use crate::loops::kernel::Side;
use crate::loops::laid_out::lay_out_kind;
use crate::loops::operation::Operation;
use crate::loops::parts::side_behind;
use nd_block::Filling;
use nd_types::{Kind, fits};

// The bytes of a row in which a number is laid out.
const ROW: usize = 4096;

// Lays a number out in the first bytes of a row.
fn lay_row<'b>(row: &'b mut [u8; ROW], kind: Kind, number: i128, count: usize) -> Side<'b>
    requires number { IsValue (kind_of kind) number }
    requires row { count * size_of (kind_of kind) ≤ 4096 }
    ensures enough { HasNumbers result count }
    ensures each { (j : ℕ) → j < count → number_on result j ≡ number }
{
    let end = count * kind.size() as usize;
    lay_out_kind(&mut row[..end], kind, Side::Same(number), count);
    Side::Each(&row[..end], kind)
}

// The numbers of an operand, or those of a row in place of the number that is laid out there.
#[inline(always)]
fn over_row<'b>(side: Side<'b>, number: i128, row: Side<'b>, count: usize) -> Side<'b>
    requires enough { HasNumbers side count }
    requires row_enough { HasNumbers row count }
    requires row { (j : ℕ) → j < count → number_on row j ≡ number }
    ensures enough { HasNumbers result count }
    ensures numbers { numbers_on result count ≡ numbers_on side.entry count }
{
    // proof: `count` stands in the clauses alone.
    let _count = count;
    match side {
        Side::Same(own) if own == number => row,
        _ => side,
    }
}

// Appends the results for operands of which one is this number, which is laid out in a row.
#[inline(never)]
fn append_rows<O: Operation>(
    filling: Filling,
    kind: Kind,
    to: Kind,
    left: Side<'_>,
    right: Side<'_>,
    number: i128,
    count: usize,
) -> Filling
    requires number { IsValue (kind_of kind) number }
    requires room { count * size_of (kind_of to) ≤ filling.1 }
    requires left { HasNumbers left count }
    requires right { HasNumbers right count }
    ensures written { result.0 ≡ filling.0 ++ result_bytes (little (kind_of to))
        (O.gives (kind_of to)) (numbers_on left.entry count) (numbers_on right.entry count) }
    ensures room { result.1 + count * size_of (kind_of to) ≡ filling.1 }
{
    let chunk = ROW / kind.size() as usize;
    let mut bytes = [0; ROW];
    let row = lay_row(&mut bytes, kind, number, chunk.min(count));
    let mut out = filling;
    let mut done = 0;
    while done < count {
        let some = chunk.min(count - done);
        let (xs, ys) = (side_behind(left, done), side_behind(right, done));
        let xs = over_row(xs, number, row, some);
        let ys = over_row(ys, number, row, some);
        out = append_sides::<O>(out, kind, to, xs, ys, some);
        done += some;
    }
    out
}

/// Appends the results for the first `count` pairs. A scalar that fits `kind` is laid out where the
/// function's loop is vectorised over two arrays alone.
pub(crate) fn append_whole<O: Operation>(
    filling: Filling,
    kind: Kind,
    to: Kind,
    left: Side<'_>,
    right: Side<'_>,
    count: usize,
) -> Filling
    requires room { count * size_of (kind_of to) ≤ filling.1 }
    requires left { HasNumbers left count }
    requires right { HasNumbers right count }
    ensures written { result.0 ≡ filling.0 ++ result_bytes (little (kind_of to))
        (O.gives (kind_of to)) (numbers_on left.entry count) (numbers_on right.entry count) }
    ensures room { result.1 + count * size_of (kind_of to) ≡ filling.1 }
{
    match (left, right) {
        (Side::Each(_, _), Side::Same(number)) if O::LAYS_OUT && fits(kind, number) => {
            append_rows::<O>(filling, kind, to, left, right, number, count)
        }
        (Side::Same(number), Side::Each(_, _)) if O::LAYS_OUT && fits(kind, number) => {
            append_rows::<O>(filling, kind, to, left, right, number, count)
        }
        _ => append_sides::<O>(filling, kind, to, left, right, count),
    }
}
