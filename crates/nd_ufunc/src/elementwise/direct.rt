//! `Direct`: an operator in place that writes results as they are worked out, without a temporary
//! array.
ghost use Rattle.std.specs.Prelude.{◌≡◌, ◌≢◌, ℕ, List, None, Ok, length, slice_index, IfOk, IfSome, IsSome, IsTrue, ◌↔◌};
ghost use Rattle.nd_model.specs.Making.Augmenting as augmenting;
ghost use Rattle.nd_model.specs.Arrays.Element.{size_of};
ghost use Rattle.nd_model.specs.Arrays.Tuple.{elements_of};
ghost use Rattle.nd_model.specs.Arrays.View.{One, item_size};
ghost use Rattle.nd_model.specs.Making.Elementwise.{element_sort};
ghost use Rattle.nd_model.specs.Making.Operators as operators;
ghost use Rattle.nd_model.specs.Cells.Sound.{LiesIn};
ghost use Rattle.nd_syntax.specs.Trees.Syntax.{binary_op};
ghost use Rattle.nd_types.specs.Kinds.{kind_of};
ghost use Rattle.nd_view.specs.SideBySide.{side_by_side};
ghost use Rattle.nd_ufunc.specs.Elementwise.Arguments.{numbers_beside};
ghost use Rattle.nd_ufunc.specs.Elementwise.Beside.{IsBeside, IsFixedHeld, KeepsOffTarget, beside_numbers};
ghost use Rattle.nd_ufunc.specs.Elementwise.Directness.{IsGapless};
ghost use Rattle.nd_ufunc.specs.Elementwise.Prepared.{right_operand, with_results, written_directly};
ghost use Rattle.nd_ufunc.specs.Elementwise.Stretched.{IsHeld};
ghost use Rattle.nd_ufunc.specs.Elementwise.WaysDirect.{FillsBlock, IsRightOf};
ghost use Rattle.nd_ufunc.specs.Loops.Results.{binary_result};

use crate::elementwise::apart::is_gapless;
use crate::elementwise::beside::Beside;
use crate::elementwise::in_place::RightSide;
use crate::elementwise::replacing::replace_numbers;
use crate::elementwise::results::{binary_results, operand_kind};
use crate::elementwise::stretched::Stretched;
use crate::loops::operation::Operation;
use crate::loops::{CHUNK, ROOM, operation as functions};
use crate::scalar::BinaryUfunc;
use nd_block::RawBlock;
use nd_element::is_elem;
use nd_syntax::trees::BinaryOp;
use nd_types::{Elem, ElemType, Kind};
use nd_view::{Run, View};
use std::alloc::{AllocError, Global};
use std::marker::Model;

/// An operator in place whose target is written while operands are read.
#[derive(Drop)]
pub(crate) struct Direct<'v> {
    op: BinaryOp,
    // the kind of the operation
    kind: Kind,
    target: &'v View,
    right: RightSide<'v>,
    // how many bytes the block has
    len: usize,
    // the target's dtype
    elem: Elem,
    // the right operand, broadcast to the target's shape
    beside: Beside<'v>,
    // the byte offsets of results in a buffer, where they are known
    places: Option<Run>,
}

impl<'v> Model for Direct<'v> {
    ghost use Rattle.nd_ufunc.specs.Elementwise.Prepared.{DirectInPlace};

    ghost Value = { DirectInPlace };

    ghost use Rattle.nd_ufunc.specs.Elementwise.WaysDirect.{direct_of, WritesDirectly};

    ghost view = { direct_of };

    ghost invariant = { WritesDirectly };
}

impl<'v> Direct<'v> {
    // Writes the results of a function, which is the operator's.
    fn replace<O: Operation>(&self, bytes: &mut [u8])
        requires len { length bytes.old ≡ self.now.len }
        requires gives { O.gives self.now.kind
            ≡ binary_result (operators.Operator self.now.op) self.now.kind }
        ensures { bytes.new ≡ with_results self.now.kind self.now.op self.now.target
            self.now.right bytes.old }
    {
        let kind = operand_kind::<O>(self.kind, Some(self.elem.kind()), self.beside.kind());
        let count = self.target.count();
        let mut room = [0; ROOM];
        let mut beside = self.beside.begin(kind, count, &mut room);
        replace_numbers::<O>(
            bytes,
            self.elem,
            self.target,
            self.kind,
            kind,
            &mut beside,
            &self.places,
        );
    }

    // Writes the results of the operator.
    fn replace_all(&self, bytes: &mut [u8])
        requires { length bytes.old ≡ self.now.len }
        ensures { bytes.new ≡ with_results self.now.kind self.now.op self.now.target
            self.now.right bytes.old }
    {
        match self.op {
            BinaryOp::Add => self.replace::<functions::Add>(bytes),
            BinaryOp::Subtract => self.replace::<functions::Subtract>(bytes),
            BinaryOp::Multiply => self.replace::<functions::Multiply>(bytes),
            BinaryOp::FloorDivide => self.replace::<functions::FloorDivide>(bytes),
            BinaryOp::Divide => unreachable!(),
            BinaryOp::Remainder => self.replace::<functions::Remainder>(bytes),
            BinaryOp::Power => self.replace::<functions::Power>(bytes),
            BinaryOp::LeftShift => self.replace::<functions::LeftShift>(bytes),
            BinaryOp::RightShift => self.replace::<functions::RightShift>(bytes),
            BinaryOp::BitwiseAnd => self.replace::<functions::BitwiseAnd>(bytes),
            BinaryOp::BitwiseXor => self.replace::<functions::BitwiseXor>(bytes),
            BinaryOp::BitwiseOr => self.replace::<functions::BitwiseOr>(bytes),
            BinaryOp::Less => self.replace::<functions::Less>(bytes),
            BinaryOp::LessEqual => self.replace::<functions::LessEqual>(bytes),
            BinaryOp::Greater => self.replace::<functions::Greater>(bytes),
            BinaryOp::GreaterEqual => self.replace::<functions::GreaterEqual>(bytes),
            BinaryOp::Equal => self.replace::<functions::Equal>(bytes),
            BinaryOp::NotEqual => self.replace::<functions::NotEqual>(bytes),
        }
    }

    /// Writes the results to a block of the length that they were prepared for; any other block
    /// stays as it is.
    pub(crate) fn write(&self, block: &mut RawBlock)
        ensures { block.new ≡ written_directly self.now block.old }
    {
        if block.len() == self.len {
            self.replace_all(block.as_mut_slice());
        }
    }
}

// The results as a new block, where they are all bytes of the old one.
impl<'v> Direct<'v> {
    // Whether the results are all bytes of the block, and are written in their own dtype.
    fn fills_block(&self) -> bool
        ensures { IsTrue result ↔ FillsBlock self.now }
    {
        is_elem(self.elem, Elem::little(self.kind))
            && self.target.offset() == 0
            && self.target.count() * self.elem.size() as usize == self.len
    }

    // The right operand for results that are all bytes of a block. `None` where they are not, or
    // the operand is walked in the target's shape.
    fn right_of_block<'b>(&'b self, block: &'b [u8]) -> Result<Option<Stretched<'b>>, AllocError>
        ensures fills { IfOk result (λ found. IsSome found → FillsBlock self.now) }
        ensures len { IfOk result (λ found. IsSome found → length block.now ≡ self.now.len) }
        ensures held { IfOk result (λ found. IfSome found IsHeld) }
        ensures right { IfOk result (λ found. IfSome found (IsRightOf self.now block.now)) }
    {
        if block.len() != self.len || !self.fills_block() {
            return Ok(None);
        }
        self.beside.stretched(block)
    }

    // The results for a block, which are all its bytes.
    fn results(
        &self,
        alloc: Global,
        block: &[u8],
        right: &Stretched<'_>,
    ) -> Result<RawBlock, AllocError>
        requires fills { FillsBlock self.now }
        requires len { length block.now ≡ self.now.len }
        requires held { IsHeld right.now }
        requires right { IsRightOf self.now block.now right.now }
        ensures { IfOk result (λ b. b ≡ written_directly self.now block.now) }
    {
        let ufunc = BinaryUfunc::Operator(self.op);
        let count = self.target.count();
        let left = Stretched::of_view(self.target, self.elem, block)?;
        binary_results(alloc, ufunc, self.kind, &left, right, count)
    }

    // A copy of the block, to which the results are written.
    fn copy_block(&self, block: &RawBlock) -> Result<RawBlock, AllocError>
        ensures { IfOk result (λ b. b ≡ written_directly self.now block.now) }
    {
        let mut copy = block.try_clone()?;
        self.write(&mut copy);
        Ok(copy)
    }

    /// Returns what [`Direct::write`] leaves of a block, as a block of its own. Results that are all
    /// bytes of it are appended to the new block. An error means want of memory.
    pub(crate) fn write_copy(&self, alloc: Global, block: &RawBlock) -> Result<RawBlock, AllocError>
        ensures { IfOk result (λ b. b ≡ written_directly self.now block.now) }
    {
        let right = self.right_of_block(block.as_slice())?;
        match &right {
            Some(right) => self.results(alloc, block.as_slice(), right),
            None => self.copy_block(block),
        }
    }
}

/// Returns the byte offsets of results of a kind in a buffer, which are contiguous, or `None` where
/// memory for them is refused.
pub(crate) fn buffer_places(alloc: Global, kind: Kind) -> Option<Run>
    ensures { IfSome result (λ run. run ≡ side_by_side (size_of (kind_of kind)) 0 8192) }
{
    let elem = Elem::little(kind);
    match View::contiguous(alloc, ElemType::One(elem), &[CHUNK as u64]) {
        Ok(view) => view.contiguous_run(elem.size()),
        Err(_) => None,
    }
}

// The dtype of a target that may be written while operands are read, or `None` where a temporary
// array is needed.
fn direct_elem(target: &View, beside: &Beside<'_>) -> Option<Elem>
    requires number { element_sort target.now.element ≢ None }
    requires fixed { IsFixedHeld beside.now }
    ensures elem { IfSome result (λ elem. target.now.element ≡ One elem) }
    ensures gapless { IsSome result → IsGapless target.now }
    ensures off { IsSome result → KeepsOffTarget beside.now (slice_index target.now.places 0)
        (item_size target.now.element) }
    ensures direct { IsGapless target.now → KeepsOffTarget beside.now
        (slice_index target.now.places 0) (item_size target.now.element) → IsSome result }
{
    let ElemType::One(elem) = target.elem() else {
        return None;
    };
    if !is_gapless(target, elem.size()) {
        return None;
    }
    if !beside.keeps_off(target.offset(), elem.size()) {
        return None;
    }
    Some(*elem)
}

/// Returns an operator in place that writes results as they are worked out, or `None` where a
/// temporary array is needed. The target must be contiguous, and no operand may be overwritten
/// before it is read. It takes no memory.
pub(crate) fn make_direct<'v>(
    op: BinaryOp,
    kind: Kind,
    target: &'v View,
    block: &[u8],
    right: RightSide<'v>,
    beside: Beside<'v>,
    places: Option<Run>,
) -> Option<Direct<'v>>
    requires target { LiesIn (length block.now) target.now }
    requires kind { augmenting.in_place_kind (binary_op op) target.now
        (right_operand right block.now) ≡ Ok (kind_of kind) }
    requires numbers { (bytes : List ℕ) → length bytes ≡ length block.now
        → beside_numbers beside (elements_of target.now.shape) bytes
        ≡ numbers_beside (right_operand right bytes) target.now.shape }
    requires fixed { IsFixedHeld beside }
    requires held { IsBeside beside (length block.now) }
    requires places { IfSome places (λ run. run ≡ side_by_side (size_of (kind_of kind)) 0 8192) }
    ensures value { IfSome result (λ d. d ≡ record {
      kind = kind_of kind;
      op = binary_op op;
      target = target.now;
      right = right.entry;
      len = length block.now;
    }) }
    ensures direct { IsGapless target.now → KeepsOffTarget beside.entry
        (slice_index target.now.places 0) (item_size target.now.element) → IsSome result }
{
    let Some(elem) = direct_elem(target, &beside) else {
        return None;
    };
    Some(Direct {
        op,
        kind,
        target,
        right,
        len: block.len(),
        elem,
        beside,
        places,
    })
}
