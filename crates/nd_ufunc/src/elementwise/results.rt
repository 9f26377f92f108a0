//! `binary_results` and `single_results`: the block of a function's results, whose loops are chosen
//! once.
ghost use Rattle.std.specs.Prelude.{◌≡◌, ◌≢◌, ◌*◌, ◌^◌, ◌≤◌, ◌++◌, replicate, IfOk};
ghost use Rattle.nd_model.specs.Arrays.Element.{size_of};
ghost use Rattle.nd_model.specs.Making.Elementwise.{little, single_number};
ghost use Rattle.nd_model.specs.Making.Operators as operators;
ghost use Rattle.nd_model.specs.Grammar.Syntax as syntax;
ghost use Rattle.nd_syntax.specs.Trees.Syntax.{binary_op};
ghost use Rattle.nd_types.specs.Kinds.{kind_of};
ghost use Rattle.nd_ufunc.specs.Scalar.Ufuncs.{single_of, ufunc_of};
ghost use Rattle.nd_ufunc.specs.Loops.Feeds.{numbers_left};
ghost use Rattle.nd_ufunc.specs.Loops.Results.{binary_result, result_bytes};
ghost use Rattle.nd_ufunc.specs.Elementwise.Stretched.{HasCount, IsHeld, stretched_numbers};

use crate::elementwise::stretched::Stretched;
use crate::loops::operation::Operation;
use crate::loops::{Feed, ROOM, append_whole, fill, operation as functions};
use crate::scalar::{BinaryUfunc, Single, shift_factor};
use nd_block::{Filling, RawBlock};
use nd_syntax::trees::{BinaryOp, UnaryOp};
use nd_types::{Kind, promote};
use std::alloc::{AllocError, Global};

/// Returns the kind that a loop is specialised for: that of the results, or, for comparisons, the
/// common kind of the operands.
pub(crate) fn operand_kind<O: Operation>(
    to: Kind,
    left: Option<Kind>,
    right: Option<Kind>,
) -> Kind {
    if !O::IS_COMPARISON {
        return to;
    }
    match (left, right) {
        (Some(left), Some(right)) => promote(left, right).unwrap_or(left),
        (Some(left), None) => left,
        (None, Some(right)) => right,
        (None, None) => to,
    }
}

// Begins with all numbers of an operand, in the form that the function's loop is fast for.
fn begin<'b, O: Operation>(
    numbers: &'b Stretched<'_>,
    kind: Kind,
    count: usize,
    room: &'b mut [u8; ROOM],
) -> Feed<'b>
    requires { IsHeld numbers.now }
    ensures { numbers_left result ≡ stretched_numbers numbers.now count }
{
    if O::LAYS_OUT {
        numbers.begin_laid_out(kind, count, room)
    } else {
        numbers.begin(kind, count, room)
    }
}

// Appends the results for operands that are gathered, converted or laid out a chunk at a time.
#[inline(never)]
fn fill_by_chunks<O: Operation>(
    filling: Filling,
    kind: Kind,
    to: Kind,
    left: &Stretched<'_>,
    right: &Stretched<'_>,
    count: usize,
) -> Filling
    requires left { IsHeld left.now }
    requires left_count { HasCount left.now count }
    requires right { IsHeld right.now }
    requires right_count { HasCount right.now count }
    requires room { count * size_of (kind_of to) ≡ filling.1 }
    ensures left { result.1 ≡ 0 }
    ensures written { result.0 ≡ filling.0 ++ result_bytes (little (kind_of to))
        (O.gives (kind_of to)) (stretched_numbers left.now count)
        (stretched_numbers right.now count) }
{
    let mut left_room = [0; ROOM];
    let mut right_room = [0; ROOM];
    let mut left = begin::<O>(left, kind, count, &mut left_room);
    let mut right = begin::<O>(right, kind, count, &mut right_room);
    fill::<O>(filling, to, kind, &mut left, &mut right, count)
}

// The block with the results of a function for `count` numbers of both operands. Operands that lie
// contiguous in the wanted kind, and numbers, are read without a buffer.
fn results<O: Operation>(
    alloc: Global,
    to: Kind,
    left: &Stretched<'_>,
    right: &Stretched<'_>,
    count: usize,
) -> Result<RawBlock, AllocError>
    requires left { IsHeld left.now }
    requires left_count { HasCount left.now count }
    requires right { IsHeld right.now }
    requires right_count { HasCount right.now count }
    requires count { count ≤ 2 ^ 24 }
    ensures { IfOk result (λ b. b ≡ result_bytes (little (kind_of to)) (O.gives (kind_of to))
        (stretched_numbers left.now count) (stretched_numbers right.now count)) }
{
    let kind = operand_kind::<O>(to, left.kind(), right.kind());
    let filling = Filling::with_room(alloc, count * to.size() as usize)?;
    let out = match (left.side(kind), right.side(kind)) {
        (Some(xs), Some(ys)) => append_whole::<O>(filling, kind, to, xs, ys, count),
        _ => fill_by_chunks::<O>(filling, kind, to, left, right, count),
    };
    Ok(out.finish())
}

// The block with the products of `count` numbers and one factor.
fn products(
    alloc: Global,
    to: Kind,
    left: &Stretched<'_>,
    factor: i128,
    count: usize,
) -> Result<RawBlock, AllocError>
    requires left { IsHeld left.now }
    requires left_count { HasCount left.now count }
    requires count { count ≤ 2 ^ 24 }
    ensures { IfOk result (λ b. b ≡ result_bytes (little (kind_of to))
        (binary_result (operators.Operator syntax.Multiply) (kind_of to))
        (stretched_numbers left.now count) (replicate count factor)) }
{
    let factor = Stretched::Number(factor);
    let made = results::<functions::Multiply>(alloc, to, left, &factor, count);
    drop(factor);
    made
}

// The block with the results of shifts up for `count` numbers of both operands. A shift by one number is
// a product, whose loop takes wide registers for bytes too.
fn shifts_up(
    alloc: Global,
    to: Kind,
    left: &Stretched<'_>,
    right: &Stretched<'_>,
    count: usize,
) -> Result<RawBlock, AllocError>
    requires left { IsHeld left.now }
    requires left_count { HasCount left.now count }
    requires right { IsHeld right.now }
    requires right_count { HasCount right.now count }
    requires count { count ≤ 2 ^ 24 }
    ensures { IfOk result (λ b. b ≡ result_bytes (little (kind_of to))
        (binary_result (operators.Operator syntax.LeftShift) (kind_of to))
        (stretched_numbers left.now count) (stretched_numbers right.now count)) }
{
    match right {
        Stretched::Number(number) => match shift_factor(to, *number) {
            Some(factor) => {
                let made = products(alloc, to, left, factor, count)?;
                Ok(made)
            }
            None => results::<functions::LeftShift>(alloc, to, left, right, count),
        },
        Stretched::Elements(_, _, _) => {
            results::<functions::LeftShift>(alloc, to, left, right, count)
        }
    }
}

// The block with the results of an operator for `count` numbers of both operands.
fn operator_results(
    alloc: Global,
    op: BinaryOp,
    to: Kind,
    left: &Stretched<'_>,
    right: &Stretched<'_>,
    count: usize,
) -> Result<RawBlock, AllocError>
    requires op { binary_op op ≢ syntax.Divide }
    requires left { IsHeld left.now }
    requires left_count { HasCount left.now count }
    requires right { IsHeld right.now }
    requires right_count { HasCount right.now count }
    requires count { count ≤ 2 ^ 24 }
    ensures { IfOk result (λ b. b ≡ result_bytes (little (kind_of to))
        (binary_result (operators.Operator (binary_op op)) (kind_of to))
        (stretched_numbers left.now count) (stretched_numbers right.now count)) }
{
    match op {
        BinaryOp::Add => results::<functions::Add>(alloc, to, left, right, count),
        BinaryOp::Subtract => results::<functions::Subtract>(alloc, to, left, right, count),
        BinaryOp::Multiply => results::<functions::Multiply>(alloc, to, left, right, count),
        BinaryOp::FloorDivide => results::<functions::FloorDivide>(alloc, to, left, right, count),
        BinaryOp::Divide => unreachable!(),
        BinaryOp::Remainder => results::<functions::Remainder>(alloc, to, left, right, count),
        BinaryOp::Power => results::<functions::Power>(alloc, to, left, right, count),
        BinaryOp::LeftShift => shifts_up(alloc, to, left, right, count),
        BinaryOp::RightShift => results::<functions::RightShift>(alloc, to, left, right, count),
        BinaryOp::BitwiseAnd => results::<functions::BitwiseAnd>(alloc, to, left, right, count),
        BinaryOp::BitwiseXor => results::<functions::BitwiseXor>(alloc, to, left, right, count),
        BinaryOp::BitwiseOr => results::<functions::BitwiseOr>(alloc, to, left, right, count),
        BinaryOp::Less => results::<functions::Less>(alloc, to, left, right, count),
        BinaryOp::LessEqual => results::<functions::LessEqual>(alloc, to, left, right, count),
        BinaryOp::Greater => results::<functions::Greater>(alloc, to, left, right, count),
        BinaryOp::GreaterEqual => {
            results::<functions::GreaterEqual>(alloc, to, left, right, count)
        }
        BinaryOp::Equal => results::<functions::Equal>(alloc, to, left, right, count),
        BinaryOp::NotEqual => results::<functions::NotEqual>(alloc, to, left, right, count),
    }
}

/// Returns the block with the results of a function for `count` numbers of both operands.
pub(crate) fn binary_results(
    alloc: Global,
    ufunc: BinaryUfunc,
    to: Kind,
    left: &Stretched<'_>,
    right: &Stretched<'_>,
    count: usize,
) -> Result<RawBlock, AllocError>
    requires ufunc { ufunc_of ufunc ≢ operators.Operator syntax.Divide }
    requires left { IsHeld left.now }
    requires left_count { HasCount left.now count }
    requires right { IsHeld right.now }
    requires right_count { HasCount right.now count }
    requires count { count ≤ 2 ^ 24 }
    ensures { IfOk result (λ b. b ≡ result_bytes (little (kind_of to))
        (binary_result (ufunc_of ufunc) (kind_of to))
        (stretched_numbers left.now count) (stretched_numbers right.now count)) }
{
    match ufunc {
        BinaryUfunc::Operator(op) => operator_results(alloc, op, to, left, right, count),
        BinaryUfunc::Minimum => results::<functions::Minimum>(alloc, to, left, right, count),
        BinaryUfunc::Maximum => results::<functions::Maximum>(alloc, to, left, right, count),
    }
}

/// Returns the block with the results of a function for `count` numbers. `others` is ignored.
pub(crate) fn single_results(
    alloc: Global,
    op: Single,
    to: Kind,
    numbers: &Stretched<'_>,
    others: &Stretched<'_>,
    count: usize,
) -> Result<RawBlock, AllocError>
    requires numbers { IsHeld numbers.now }
    requires numbers_count { HasCount numbers.now count }
    requires others { IsHeld others.now }
    requires others_count { HasCount others.now count }
    requires count { count ≤ 2 ^ 24 }
    ensures { IfOk result (λ b. b ≡ result_bytes (little (kind_of to))
        (λ x y. single_number (single_of op) (kind_of to) x)
        (stretched_numbers numbers.now count) (stretched_numbers others.now count)) }
{
    match op {
        Single::Of(UnaryOp::Negative) => {
            results::<functions::Negative>(alloc, to, numbers, others, count)
        }
        Single::Of(UnaryOp::Invert) => {
            results::<functions::Invert>(alloc, to, numbers, others, count)
        }
        Single::Absolute => results::<functions::Absolute>(alloc, to, numbers, others, count),
    }
}
