//! Views of values: other axes, shapes and dtypes, and `np.broadcast_to`.

ghost use Rattle.std.specs.Prelude.{◌≡◌, ◌+◌, ◌<◌, ◌^◌, map};
ghost use Rattle.nd_model.specs.Making.Operand.{ACopy, AView};
ghost use Rattle.nd_model.specs.Cells.Operation as operation;
ghost use Rattle.nd_model.specs.Cells.Sound.{IsHeldView};
ghost use Rattle.nd_model.specs.Arrays.Tuple.{elements_of};
ghost use Rattle.nd_model.specs.Indexing.Viewing as viewing;
ghost use Rattle.nd_syntax.specs.Trees.Calls.{dtype_of};
ghost use Rattle.nd_heap.specs.Values.{base_of, geo_of, value_of};
ghost use Rattle.nd_eval.specs.Contents.{viewing_of};
ghost use Rattle.nd_eval.specs.Ends.{Evaluates, session_of};
ghost use Rattle.nd_eval.specs.Parts as parts;
ghost use Rattle.nd_heap.specs.declared.value.Value.TheVariants as values;
ghost use Rattle.nd_eval.specs.Uses.{IsHeld, IsNoArray};

use crate::choosing::{Reshaped, reshape, stretch_element, stretch_view, transpose, view_as};
use crate::evaluator::Evaluator;
use crate::operation::{mark_operand, operand_in};
use nd_operation::operators::{BorrowedArray, copy_reshaped, not_an_array};
use nd_operation::refusals::Stop;
use nd_session::session::{Array, Value};
use nd_syntax::trees::DType;
use nd_view::View;

/// A method that gives a view of an array.
#[derive(Clone, Copy)]
pub(crate) enum ViewMethod<'t> {
    /// `.transpose(..)`, `.T`
    Transpose,
    /// `.reshape(..)`, which copies where no strides lead to the elements
    Reshape,
    /// `.view(t)`
    ViewAs(&'t DType),
}

impl Evaluator<'_> {
    /// The value of a view of an array.
    fn seen_value(&mut self, found: &Value, view: View) -> Result<Value, Stop>
        ensures { Evaluates value_of result self.old
            (operation.choose_of (value_of found.now) (AView view)) self.new }
    {
        // proof: the shape is within the limits of arrays, by the clause of shape().
        let _shape = view.shape();
        match found {
            Value::Number(_) => {
                drop(view);
                Err(Stop::Refused(not_an_array()))
            }
            Value::Array(array) | Value::Row(array) => {
                let base = array.base;
                Ok(Value::Array(Array { base, view }))
            }
        }
    }

    /// `.transpose(..)` of a value, by the values of the axes.
    fn transpose_value(&mut self, found: &Value, axes: &[Value]) -> Result<Value, Stop>
        ensures { Evaluates value_of result self.old (parts.view_value viewing.Transposed
            (value_of found.now) (map value_of axes.now)) self.new }
    {
        let view = transpose(self.session.allocator(), found, axes)?;
        self.seen_value(found, view)
    }

    /// A copy of an array's elements in another shape.
    fn copy_value(&mut self, array: &Array, shape: &[u64]) -> Result<Value, Stop>
        requires held { IsHeldView (session_of self.old) (base_of array.now.base)
            (geo_of array.now) }
        requires room { (session_of self.old).next + 1 < 2 ^ 64 }
        requires count { elements_of shape.now ≡ elements_of (geo_of array.now).shape }
        ensures { Evaluates value_of result self.old (operation.choose_in
            (base_of array.now.base) (geo_of array.now)
            (ACopy (record (geo_of array.now) { shape = shape.now }))) self.new }
    {
        let alloc = self.session.allocator();
        self.session.mark_used(array)?;
        let elements = BorrowedArray {
            view: &array.view,
            block: self.session.bytes(array.base),
            is_row: false,
        };
        let new = copy_reshaped(alloc, &elements, shape)?;
        self.give(new)
    }

    /// `.reshape(..)` of a value, by the values of the lengths.
    fn reshape_value(&mut self, found: &Value, lengths: &[Value]) -> Result<Value, Stop>
        requires held { IsHeld (session_of self.old) found.now }
        requires room { (session_of self.old).next + 1 < 2 ^ 64 }
        ensures { Evaluates value_of result self.old (parts.view_value viewing.Reshaped
            (value_of found.now) (map value_of lengths.now)) self.new }
    {
        let (array, new) = reshape(self.session.allocator(), found, lengths)?;
        match new {
            Reshaped::View(view) => self.seen_value(found, view),
            Reshaped::Copy(shape) => self.copy_value(array, &shape),
        }
    }

    /// `.view(t)` of a value
    fn recast_value(
        &mut self,
        found: &Value,
        dtype: &DType,
        _others: &[Value],
    ) -> Result<Value, Stop>
        ensures { Evaluates value_of result self.old (parts.view_value
            (viewing.ViewedAs (dtype_of dtype.now)) (value_of found.now) (map value_of _others.now))
            self.new }
    {
        let view = view_as(self.session.allocator(), found, dtype)?;
        self.seen_value(found, view)
    }

    /// Returns the result of a method that gives a view, for a value and the values of the method's
    /// expressions.
    pub(crate) fn view_value(
        &mut self,
        method: ViewMethod<'_>,
        found: &Value,
        others: &[Value],
    ) -> Result<Value, Stop>
        requires held { IsHeld (session_of self.old) found.now }
        requires room { (session_of self.old).next + 1 < 2 ^ 64 }
        ensures { Evaluates value_of result self.old (parts.view_value
            (viewing_of method.entry) (value_of found.now) (map value_of others.now)) self.new }
    {
        match method {
            ViewMethod::Transpose => self.transpose_value(found, others),
            ViewMethod::Reshape => self.reshape_value(found, others),
            ViewMethod::ViewAs(dtype) => self.recast_value(found, dtype, others),
        }
    }

    /// `np.broadcast_to` of a number or a row, which is used: a view of a new array of one element.
    fn stretch_element(&mut self, found: &Value, shape: &[Value]) -> Result<Value, Stop>
        requires alone { IsNoArray found.now }
        requires held { IsHeld (session_of self.old) found.now }
        requires room { (session_of self.old).next + 1 < 2 ^ 64 }
        ensures { Evaluates value_of result self.old
            (parts.stretch (value_of found.now) (map value_of shape.now)) self.new }
    {
        let alloc = self.session.allocator();
        mark_operand(self.session, found)?;
        let new = stretch_element(alloc, &operand_in(self.session, found), shape)?;
        self.give(new)
    }

    /// `np.broadcast_to` of an array, whose elements are not used.
    fn stretch_array(&mut self, array: &Array, shape: &[Value]) -> Result<Value, Stop>
        ensures { Evaluates value_of result self.old
            (parts.stretch (value_of (values.Array array.now)) (map value_of shape.now)) self.new }
    {
        let view = stretch_view(self.session.allocator(), array, shape)?;
        // proof: the shape is within the limits of arrays, by the clause of shape().
        let _shape = view.shape();
        let base = array.base;
        Ok(Value::Array(Array { base, view }))
    }

    /// `np.broadcast_to` of a value, by the values of the lengths.
    pub(crate) fn stretch_value(&mut self, found: &Value, shape: &[Value]) -> Result<Value, Stop>
        requires held { IsHeld (session_of self.old) found.now }
        requires room { (session_of self.old).next + 1 < 2 ^ 64 }
        ensures { Evaluates value_of result self.old
            (parts.stretch (value_of found.now) (map value_of shape.now)) self.new }
    {
        match found {
            Value::Number(_) => self.stretch_element(found, shape),
            Value::Array(array) => self.stretch_array(array, shape),
            Value::Row(_) => self.stretch_element(found, shape),
        }
    }
}
