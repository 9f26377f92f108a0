//! How values become operands, and results become values: `operand_in` and `give`.

ghost use Rattle.std.specs.Prelude.{◌≡◌, Bool, ◌+◌, ◌<◌, ◌^◌, [], length, IfOk, OnOk, slice_index};
ghost use Rattle.nd_model.specs.Making.Operand as model;
ghost use Rattle.nd_model.specs.Making.Operand.{ACopy};
ghost use Rattle.nd_model.specs.Cells.Operation as operation;
ghost use Rattle.nd_model.specs.Cells.Sound.{LiesIn};
ghost use Rattle.nd_model.specs.Arrays.View.{Geo};
ghost use Rattle.nd_heap.specs.Values.{base_of, geo_of, value_of};
ghost use Rattle.nd_session.specs.Session.Live.{live};
ghost use Rattle.nd_operation.specs.Operators.Contents.{operand_of};
ghost use Rattle.nd_eval.specs.Contents.{operands_of};
ghost use Rattle.nd_eval.specs.Ends.{Evaluates, session_of};
ghost use Rattle.nd_eval.specs.Choosing.Indexing.{CopyLies, IsCopyOf, IsOne, chosen_of};
ghost use Rattle.nd_eval.specs.Choosing.Selections.{selected};
ghost use Rattle.nd_operation.specs.Operators.New.{given};
ghost use Rattle.nd_eval.specs.Uses.{IsHeld, AreHeld, item_marked, items_marked, index_marked};
ghost use Rattle.nd_eval.specs.Uses.{HasTypeOf, IsOfType, marked, all_marked};
ghost use Rattle.nd_eval.specs.Uses.{operand_over, operands_over};

use crate::choosing::{Chosen, IndexValue, ItemValue, Selection, copy_selection};
use crate::evaluator::Evaluator;
use nd_element::number_in;
use nd_operation::operators::{BorrowedArray, New, Operand};
use nd_operation::refusals::Stop;
use nd_session::session::{Array, Base, OutOfMemory, Session, Value};
use nd_types::{ElemType, Num};
use nd_view::View;
use std::alloc::AllocError;

/// Notes that all elements of a value are used.
pub(crate) fn mark_operand(session: &mut Session, value: &Value) -> Result<(), OutOfMemory>
    ensures { OnOk result (live session.new ≡ marked value.now (live session.old)) }
{
    match value {
        Value::Number(_) => {}
        Value::Array(array) | Value::Row(array) => {
            session.mark_used(array)?;
        }
    }
    Ok(())
}

/// Notes that all elements of an item of an index are used, if it is an array.
fn mark_item(session: &mut Session, item: &Value) -> Result<(), OutOfMemory>
    ensures { OnOk result (live session.new ≡ item_marked item.now (live session.old)) }
{
    if let Value::Array(array) = item {
        session.mark_used(array)?;
    }
    Ok(())
}

/// Notes that the arrays among the items of an index are used, from left to right.
fn mark_items(session: &mut Session, items: &[ItemValue]) -> Result<(), OutOfMemory>
    ensures { OnOk result (live session.new ≡ items_marked items.now (live session.old)) }
{
    for item in items {
        if let ItemValue::At(value) = item {
            mark_item(session, value)?;
        }
    }
    Ok(())
}

/// Notes what an index uses.
pub(crate) fn mark_index(session: &mut Session, index: &IndexValue<'_>) -> Result<(), OutOfMemory>
    ensures { OnOk result (live session.new ≡ index_marked index.now (live session.old)) }
{
    match index {
        IndexValue::Field(_) => Ok(()),
        IndexValue::Items(items) => mark_items(session, items),
    }
}

/// Notes that all elements of values are used, from left to right.
pub(crate) fn mark_operands(session: &mut Session, values: &[Value]) -> Result<(), OutOfMemory>
    ensures { OnOk result (live session.new ≡ all_marked values.now (live session.old)) }
{
    for value in values {
        mark_operand(session, value)?;
    }
    Ok(())
}

/// Returns the operand that a value is. It notes nothing: `mark_operand` does.
pub(crate) fn operand_in<'v>(session: &'v Session, value: &'v Value) -> Operand<'v>
    requires { IsHeld (live session.now) value.now }
    ensures { operand_of result ≡ operand_over (live session.now).bytes value.now }
{
    match value {
        Value::Number(number) => Operand::Number(*number),
        Value::Array(array) => Operand::Elements(BorrowedArray {
            view: &array.view,
            block: session.bytes(array.base),
            is_row: false,
        }),
        Value::Row(row) => Operand::Elements(BorrowedArray {
            view: &row.view,
            block: session.bytes(row.base),
            is_row: true,
        }),
    }
}

/// Returns the operands that values are.
pub(crate) fn operands_in<'v>(
    session: &'v Session,
    values: &'v [Value],
) -> Result<Vec<Operand<'v>>, AllocError>
    requires { AreHeld (live session.now) values.now }
    ensures { IfOk result (λ os. operands_of os
        ≡ operands_over (live session.now).bytes values.now) }
{
    let mut operands = Vec::with_capacity(session.allocator(), values.len())?;
    for value in values {
        operands.push(operand_in(session, value))?;
    }
    Ok(operands)
}

impl Evaluator<'_> {
    /// Returns the value of a result. An array gets a block of its own.
    pub(crate) fn give(&mut self, new: New) -> Result<Value, Stop>
        requires { (session_of self.old).next + 1 < 2 ^ 64 }
        ensures { Evaluates value_of result self.old (given new) self.new }
    {
        match new {
            New::Number(number) => Ok(Value::Number(number)),
            New::Array(view, block) => match self.session.new_block(block) {
                Ok(base) => Ok(Value::Array(Array { base, view })),
                Err(memory) => {
                    drop(view);
                    Err(Stop::Memory(memory))
                }
            },
        }
    }

    /// The value of one selected element of a block: a NumPy scalar, or a row, none of whose bytes
    /// is used.
    fn element_value(&mut self, base: Base, view: View) -> Result<Value, Stop>
        requires { view.shape ≡ [] }
        ensures { Evaluates value_of result self.old (operation.element_of (base_of base)
            view.writable view.element (slice_index view.places 0)) self.new }
    {
        // proof: there is one element, within the limits of arrays, by the clauses of count() and
        // shape().
        let _count = view.count();
        let _shape = view.shape();
        match view.elem() {
            ElemType::One(elem) => {
                let elem = *elem;
                let place = view.place_of(0);
                drop(view);
                self.session
                    .mark_element(base, place, &ElemType::One(elem))?;
                let number = number_in(self.session.bytes(base), place, elem);
                Ok(Value::Number(Num::Scalar(elem.kind(), number)))
            }
            ElemType::Rec(_) => Ok(Value::Row(Array { base, view })),
        }
    }

    /// A copy of the elements of a block that an advanced index selects.
    fn copy_chosen(&mut self, base: Base, selection: &Selection) -> Result<Value, Stop>
        requires lies { LiesIn (length ((session_of self.old).bytes (base_of base)))
            (selected selection.now) }
        requires room { (session_of self.old).next + 1 < 2 ^ 64 }
        ensures value { (g : Geo) → Evaluates value_of result self.old (operation.choose_in
            (base_of base) g (ACopy (selected selection.now))) self.new }
        ensures types { IfOk result (IsOfType selection.now.view.element) }
    {
        let places = &selection.places.places;
        self.session
            .mark_used_elements(base, selection.view.elem(), places)?;
        let alloc = self.session.allocator();
        let copy = copy_selection(alloc, selection, self.session.bytes(base))?;
        self.give(copy)
    }

    /// Returns the value of what was selected of an array.
    pub(crate) fn chosen_value(&mut self, array: &Array, chosen: Chosen) -> Result<Value, Stop>
        requires one { IsOne array.now.view.writable chosen }
        requires lies { CopyLies (length ((session_of self.old).bytes (base_of array.now.base)))
            chosen }
        requires room { (session_of self.old).next + 1 < 2 ^ 64 }
        ensures value { Evaluates value_of result self.old (operation.choose_in
            (base_of array.now.base) (geo_of array.now) (chosen_of chosen)) self.new }
        ensures types { (is_advanced : Bool) → (o : model.Operand) → IsCopyOf is_advanced o chosen
            → IfOk result (HasTypeOf is_advanced o) }
    {
        let base = array.base;
        match chosen {
            Chosen::Element(view) => self.element_value(base, view),
            Chosen::View(view) => {
                // proof: the shape is within the limits of arrays, by the clause of shape().
                let _shape = view.shape();
                Ok(Value::Array(Array { base, view }))
            }
            Chosen::Copy(selection) => {
                let copied = self.copy_chosen(base, &selection);
                drop(selection);
                copied
            }
        }
    }
}
