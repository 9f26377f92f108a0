//! `prepare_in_place`: augmented assignments such as `x += y`, prepared so that the write cannot
//! fail.
ghost use Rattle.std.specs.Prelude.{◌≡◌, ◌≢◌, ◌^◌, ◌≤◌, None, Ok, true, false, length, IfOk, IfSome, IsOk, IsSome};
ghost use Rattle.nd_model.specs.Arrays.Broadcast as broadcasting;
ghost use Rattle.nd_model.specs.Arrays.Element as element;
ghost use Rattle.nd_model.specs.Arrays.Strides.{IsInLimits};
ghost use Rattle.nd_model.specs.Arrays.Tuple.{elements_of};
ghost use Rattle.nd_model.specs.Arrays.View.{One, contiguous};
ghost use Rattle.nd_model.specs.Grammar.Syntax as syntax;
ghost use Rattle.nd_model.specs.Making.Augmenting as augmenting;
ghost use Rattle.nd_model.specs.Making.Elementwise as elementwise;
ghost use Rattle.nd_model.specs.Making.Elementwise.{little, operand_sort};
ghost use Rattle.nd_model.specs.Making.Operand as operand;
ghost use Rattle.nd_model.specs.Making.Operators.{Operator};
ghost use Rattle.nd_model.specs.Cells.Sound.{LiesIn};
ghost use Rattle.nd_assign.specs.Prepared.{written_by};
ghost use Rattle.nd_syntax.specs.Trees.Syntax.{binary_op};
ghost use Rattle.nd_types.specs.Kinds.{kind_of};
ghost use Rattle.nd_types.specs.Types.{type_of};
ghost use Rattle.nd_ufunc.specs.Scalar.Ufuncs.{ufunc_of};
ghost use Rattle.nd_ufunc.specs.Elementwise.Arguments.{LiesInBlock, argument_of, contents_over};
ghost use Rattle.nd_ufunc.specs.Elementwise.Arguments.{numbers_beside};
ghost use Rattle.nd_ufunc.specs.Elementwise.Directness.{IsDirect};
ghost use Rattle.nd_ufunc.specs.Elementwise.Faults.{Makes};
ghost use Rattle.nd_ufunc.specs.Elementwise.Prepared.{IsRightSide, right_operand, with_results};
ghost use Rattle.nd_ufunc.specs.Elementwise.Prepared.{written_in_place};
ghost use Rattle.nd_ufunc.specs.Elementwise.InPlaceResults.{AreResults};
ghost use Rattle.nd_ufunc.specs.Elementwise.Stretched.{HasCount, IsHeld, stretched_numbers};
ghost use Rattle.nd_ufunc.specs.Loops.Results.{binary_result, result_bytes};

use crate::elementwise::argument::{Argument, argument_sort, binary_kind, element_sort, shape_of};
use crate::elementwise::beside::beside_of;
use crate::elementwise::direct::{Direct, buffer_places, make_direct};
use crate::elementwise::fault::MapFault;
use crate::elementwise::powers::{has_power_below, is_power};
use crate::elementwise::results::binary_results;
use crate::elementwise::stretched::{Stretched, stretch};
use crate::scalar::{BinaryUfunc, UfuncFault};
use nd_assign::Assignment;
use nd_block::RawBlock;
use nd_shape::broadcasts_to;
use nd_syntax::trees::BinaryOp;
use nd_types::{Elem, ElemType, Kind, Num, same_kind};
use nd_view::View;
use std::alloc::{AllocError, Global};
use std::marker::Model;

/// The right operand of an operator in place.
#[derive(Clone, Copy)]
pub enum RightSide<'v> {
    /// A number, which is broadcast to the target's shape.
    Number(Num),
    /// A view of the target's own block, which may overlap the target.
    Own(&'v View),
    /// A view of another block, which has these bytes.
    Other(&'v View, &'v [u8]),
}

// How results get to the target.
#[derive(Drop)]
enum Way<'v> {
    // They are all worked out before any is written.
    Found(Assignment<'v>),
    // They are worked out as they are written.
    Directly(Direct<'v>),
}

/// Prepared results of an operator in place: writing them takes no memory.
#[derive(Drop)]
pub struct InPlace<'v> {
    way: Way<'v>,
}

impl<'v> Model for InPlace<'v> {
    ghost use Rattle.nd_ufunc.specs.Elementwise.Prepared.{PreparedInPlace};

    ghost Value = { PreparedInPlace };

    ghost use Rattle.nd_ufunc.specs.Elementwise.WaysInPlace.{prepared_in_place};

    ghost view = { prepared_in_place };
}

impl<'v> InPlace<'v> {
    /// Writes the results to a block of the length that they were prepared for; any other block
    /// stays as it is.
    pub fn write(&self, block: &mut RawBlock)
        ensures { block.new ≡ written_in_place self.now block.old }
    {
        match &self.way {
            Way::Found(assignment) => assignment.write(block),
            Way::Directly(direct) => direct.write(block),
        }
    }

    /// Returns what [`InPlace::write`] leaves of a block, as a block of its own. A block of another
    /// length is copied as it is. An error means want of memory.
    ///
    /// Results that are all bytes of the block are appended to the new one, and the old one is read
    /// once. Then `x += 1` costs what `x + 1` does.
    pub fn write_copy(&self, alloc: Global, block: &RawBlock) -> Result<RawBlock, AllocError>
        ensures { IfOk result (λ b. b ≡ written_in_place self.now block.now) }
    {
        match &self.way {
            Way::Found(assignment) => assignment.write_copy(alloc, block),
            Way::Directly(direct) => direct.write_copy(alloc, block),
        }
    }
}

// Whether results of a kind may be written to elements of a dtype (NumPy's casting rule
// `same_kind`).
fn casts_in_place(kind: Kind, elem: &ElemType) -> bool
    ensures { result ≡ augmenting.casts_in_place (kind_of kind) (type_of elem.now) }
{
    match elem {
        ElemType::One(elem) => same_kind(kind, elem.kind()),
        ElemType::Rec(_) => false,
    }
}

/// Returns the right operand as an argument, where the target's block has these bytes.
pub fn argument_beside<'b>(right: RightSide<'b>, block: &'b [u8]) -> Argument<'b>
    requires { IsRightSide (length block.now) right }
    ensures operand { argument_of result ≡ right_operand right.entry block.now }
    ensures lies { LiesInBlock result }
{
    match right {
        RightSide::Number(number) => Argument::Number(number),
        RightSide::Own(view) => Argument::Elements(view, block),
        RightSide::Other(view, bytes) => Argument::Elements(view, bytes),
    }
}

// Whether the function is the power, and an exponent negative that stands beside an element of the
// target.
fn is_any_exponent_below(
    alloc: Global,
    ufunc: BinaryUfunc,
    target: &View,
    right: Argument<'_>,
) -> Result<bool, AllocError>
    requires lies { LiesInBlock right }
    requires numbers { operand_sort (argument_of right) ≢ None }
    requires fits { broadcasting.broadcasts_to (operand.shape_of (argument_of right))
        target.now.shape ≡ true }
    requires limits { (k : element.Kind) → IsInLimits (element.size_of k) target.now.shape }
    ensures { IfOk result (λ below. below ≡ elementwise.has_power_below (ufunc_of ufunc)
        (argument_of right.entry) target.now.shape) }
{
    if !is_power(ufunc) {
        return Ok(false);
    }
    let exponents = stretch(alloc, right, target.shape())?;
    Ok(has_power_below(ufunc, &exponents, target.count()))
}

/// Returns the kind of the operation `target op= right`.
///
/// Refused in this order: operands that the operator does not take; results that `same_kind`
/// casting forbids (`KindCast`); a read-only target (`ReadOnly`); a right operand that does not
/// broadcast to the target's shape (`ShapeMismatch`); a negative exponent (`NegativePower`).
///
/// For an `int8` target `x += True` is of kind `int8`, and `x += y` with `int64` elements `y` of kind
/// `int64`, which is written back. An `uint8` target refuses these `y` (`KindCast`).
pub fn in_place_kind(
    alloc: Global,
    op: BinaryOp,
    target: &View,
    right: Argument<'_>,
) -> Result<Kind, MapFault>
    requires { LiesInBlock right }
    ensures { Makes kind_of result
        (augmenting.in_place_kind (binary_op op) target.now (argument_of right.entry)) }
{
    let ufunc = BinaryUfunc::Operator(op);
    let kind = binary_kind(ufunc, element_sort(target.elem()), argument_sort(right))?;
    if !casts_in_place(kind, target.elem()) {
        return Err(MapFault::Ufunc(UfuncFault::KindCast));
    }
    if !target.writable() {
        return Err(MapFault::Ufunc(UfuncFault::ReadOnly));
    }
    if !broadcasts_to(shape_of(right), target.shape()) {
        return Err(MapFault::Ufunc(UfuncFault::ShapeMismatch));
    }
    let below = is_any_exponent_below(alloc, ufunc, target, right)?;
    if below {
        return Err(MapFault::Ufunc(UfuncFault::NegativePower));
    }
    Ok(kind)
}

// The array of the results for `count` numbers of both operands, in this shape.
fn result_array(
    alloc: Global,
    op: BinaryOp,
    kind: Kind,
    left: &Stretched<'_>,
    right: &Stretched<'_>,
    shape: &[u64],
    count: usize,
) -> Result<(View, RawBlock), AllocError>
    requires op { binary_op op ≢ syntax.Divide }
    requires left { IsHeld left.now }
    requires left_count { HasCount left.now count }
    requires right { IsHeld right.now }
    requires right_count { HasCount right.now count }
    requires limits { (k : element.Kind) → IsInLimits (element.size_of k) shape.now }
    requires count { count ≤ 2 ^ 24 }
    ensures view { IfOk result (λ r. r.0 ≡ contiguous (One (little (kind_of kind))) shape.now) }
    ensures results { IfOk result (λ r. r.1 ≡ result_bytes (little (kind_of kind))
        (binary_result (Operator (binary_op op)) (kind_of kind)) (stretched_numbers left.now count)
        (stretched_numbers right.now count)) }
{
    let results = binary_results(alloc, BinaryUfunc::Operator(op), kind, left, right, count)?;
    let view = View::contiguous(alloc, ElemType::One(Elem::little(kind)), shape)?;
    Ok((view, results))
}

// The array of the results for `count` numbers of the left operand and a right one that broadcasts to
// this shape.
fn result_beside(
    alloc: Global,
    op: BinaryOp,
    kind: Kind,
    left: &Stretched<'_>,
    right: Argument<'_>,
    shape: &[u64],
    count: usize,
) -> Result<(View, RawBlock), AllocError>
    requires op { binary_op op ≢ syntax.Divide }
    requires left { IsHeld left.now }
    requires left_count { HasCount left.now count }
    requires right { LiesInBlock right }
    requires right_numbers { operand_sort (argument_of right) ≢ None }
    requires right_fits { broadcasting.broadcasts_to (operand.shape_of (argument_of right))
        shape.now ≡ true }
    requires limits { (k : element.Kind) → IsInLimits (element.size_of k) shape.now }
    requires elements { count ≡ elements_of shape.now }
    requires count { count ≤ 2 ^ 24 }
    ensures view { IfOk result (λ r. r.0 ≡ contiguous (One (little (kind_of kind))) shape.now) }
    ensures results { IfOk result (λ r. r.1 ≡ result_bytes (little (kind_of kind))
        (binary_result (Operator (binary_op op)) (kind_of kind)) (stretched_numbers left.now count)
        (numbers_beside (argument_of right.entry) shape.now)) }
{
    let right = stretch(alloc, right, shape)?;
    result_array(alloc, op, kind, left, &right, shape, count)
}

/// Returns the results of `target op= right` as a new array in the kind of the operation, and its
/// block. `block` is the target's. Converted to the target's dtype, they are what the operator
/// writes.
///
/// For `x *= y` with `int8` elements `x`, `[100 1]`, and `int64` elements `y`, `[2 3]`, they are the
/// `int64` elements `[200 3]`.
pub fn results_in_place(
    alloc: Global,
    op: BinaryOp,
    kind: Kind,
    target: &View,
    block: &[u8],
    right: RightSide<'_>,
) -> Result<(View, RawBlock), AllocError>
    requires target { LiesIn (length block.now) target.now }
    requires right { IsRightSide (length block.now) right }
    requires kind { augmenting.in_place_kind (binary_op op) target.now
        (right_operand right block.now) ≡ Ok (kind_of kind) }
    ensures { IfOk result (λ r. AreResults (kind_of kind) (binary_op op) target.now
        (contents_over target.now block.now) (right_operand right.entry block.now) r.0 r.1) }
{
    let (shape, count) = (target.shape(), target.count());
    let left = stretch(alloc, Argument::Elements(target, block), shape)?;
    let right = argument_beside(right, block);
    result_beside(alloc, op, kind, &left, right, shape, count)
}

// Works out all results before any is written.
fn find_all<'v>(
    alloc: Global,
    op: BinaryOp,
    kind: Kind,
    target: &'v View,
    block: &[u8],
    right: RightSide<'v>,
) -> Result<Assignment<'v>, AllocError>
    requires target { LiesIn (length block.now) target.now }
    requires right { IsRightSide (length block.now) right }
    requires kind { augmenting.in_place_kind (binary_op op) target.now
        (right_operand right block.now) ≡ Ok (kind_of kind) }
    ensures { IfOk result (λ a. written_by a block.now
        ≡ with_results (kind_of kind) (binary_op op) target.now right.entry block.now) }
{
    // proof: the number of elements is bounded, by the clause of count().
    let _count = target.count();
    let found = results_in_place(alloc, op, kind, target, block, right)?;
    Ok(Assignment::of_block(target, found.0, found.1, block.len()))
}

// Prepares an operator in place that takes no temporary array, or gives `None` where one is needed.
fn prepare_directly<'v>(
    alloc: Global,
    op: BinaryOp,
    kind: Kind,
    target: &'v View,
    block: &[u8],
    right: RightSide<'v>,
) -> Option<Direct<'v>>
    requires target { LiesIn (length block.now) target.now }
    requires right { IsRightSide (length block.now) right }
    requires kind { augmenting.in_place_kind (binary_op op) target.now
        (right_operand right block.now) ≡ Ok (kind_of kind) }
    ensures value { IfSome result (λ d. d ≡ record {
      kind = kind_of kind;
      op = binary_op op;
      target = target.now;
      right = right.entry;
      len = length block.now;
    }) }
    ensures direct { IsDirect target.now right.entry → IsSome result }
{
    let beside = beside_of(alloc, right, target.shape(), block);
    let places = buffer_places(alloc, kind);
    make_direct(op, kind, target, block, right, beside, places)
}

/// Prepares the results of `target op= right` for blocks as long as `block`, which is the target's.
///
/// The results are those of reading both operands before any write, also where they overlap:
/// `x[1:] += x[:-1]` makes `[1 3 5]` of `[1 2 3]`. An error means want of memory. There is none for
/// a contiguous target and a right operand that, broadcast to the target's shape, overlaps it nowhere
/// or has its byte offsets.
pub fn prepare_in_place<'v>(
    alloc: Global,
    op: BinaryOp,
    kind: Kind,
    target: &'v View,
    block: &[u8],
    right: RightSide<'v>,
) -> Result<InPlace<'v>, AllocError>
    requires target { LiesIn (length block.now) target.now }
    requires right { IsRightSide (length block.now) right }
    requires kind { augmenting.in_place_kind (binary_op op) target.now
        (right_operand right block.now) ≡ Ok (kind_of kind) }
    ensures results { IfOk result (λ p. written_in_place p block.now
        ≡ with_results (kind_of kind) (binary_op op) target.now right.entry block.now) }
    ensures memory { IsDirect target.now right.entry → IsOk result }
{
    if let Some(direct) = prepare_directly(alloc, op, kind, target, block, right) {
        return Ok(InPlace {
            way: Way::Directly(direct),
        });
    }
    let assignment = find_all(alloc, op, kind, target, block, right)?;
    Ok(InPlace {
        way: Way::Found(assignment),
    })
}
