//! Expressions of the running cell, evaluated: names, operators, calls, subscripts.

ghost use Rattle.std.specs.Prelude.{◌≡◌, ◌+◌, ◌<◌, ◌^◌, IfOk, is_some, map, option_map};
ghost use Rattle.nd_model.specs.Grammar.Cells.{chained, elements_of};
ghost use Rattle.nd_model.specs.Cells.Meaning as meaning;
ghost use Rattle.nd_model.specs.Cells.Meaning.{along, is_given};
ghost use Rattle.nd_model.specs.Cells.Operation as operation;
ghost use Rattle.nd_model.specs.Grammar.Syntax.{Called, Nested, NewArray};
ghost use Rattle.nd_model.specs.Grammar.Tokens.{tokens_of, tokens_of_elements, tokens_of_call, tokens_of_fold, tokens_of_all, tokens_of_bound, tokens_of_element, tokens_of_method};
ghost use Rattle.nd_syntax.specs.Trees.Lists.{operation_of};
ghost use Rattle.nd_syntax.specs.Trees.Syntax.{axis_of, bound_of, expr_of, call_of, element_of, fold_of, method_of, suffix_of};
ghost use Rattle.nd_heap.specs.Values.{value_of};
ghost use Rattle.nd_eval.specs.Contents as contents;
ghost use Rattle.nd_eval.specs.Contents.{option_values, values_of};
ghost use Rattle.nd_eval.specs.Ends.{Evaluates, session_of};
ghost use Rattle.nd_eval.specs.Uses.{IsHeld};
ghost use Rattle.nd_eval.specs.Parts as parts;
ghost use Rattle.nd_eval.specs.Suffixes.{axis_tokens, suffix_tokens};
ghost use Rattle.nd_operation.specs.Operators.New.{made_of_one};
ghost use Rattle.nd_operation.specs.Operators.OfTwo.{made_of_two};
ghost use Rattle.nd_syntax.specs.Trees.Calls.{dtype_of, fill_of, ufunc_of};
ghost use Rattle.nd_eval.specs.Reducing.Folds.{made_of_fold};

use crate::evaluator::Evaluator;
use crate::loading::InputSort;
use crate::operation::{mark_operand, mark_operands, operand_in};
use crate::reducing::Folding;
use crate::views::ViewMethod;
use nd_operation::operators::{
    BinaryCall, UnaryCall, make_filled, make_full, make_list, make_of_one, make_of_two, make_range,
};
use nd_operation::refusals::{StmtError, StmtFault, Stop};
use nd_session::session::Value;
use nd_syntax::trees::{
    Axis, BinaryOp, Call, DType, Element, Expr, Fill, Fold, Index, Method, Suffix, Ufunc,
};
use nd_types::Num;
use nd_ufunc::scalar::{BinaryUfunc, Single};

impl Evaluator<'_> {
    /// Returns the value of a bound name, and notes that it was looked up.
    pub(crate) fn look_up(&mut self, name: &str) -> Result<Value, Stop>
        ensures { Evaluates value_of result self.old (operation.name name.now) self.new }
    {
        match self.session.lookup(name)? {
            Some(value) => Ok(value),
            None => {
                let name = String::from_str(self.session.allocator(), name)?;
                Err(Stop::Refused(StmtFault::Stmt(StmtError::NoName(name))))
            }
        }
    }

    /// Returns the value of an expression. Suffixes (`x[0].T`) are a loop: only brackets and signs
    /// recurse, at most 64 levels deep.
    #[cycle(value)]
    pub(crate) fn value(&mut self, expr: &Expr) -> Result<Value, Stop>
        requires { (session_of self.old).next + tokens_of (expr_of expr.now) < 2 ^ 64 }
        ensures { Evaluates value_of result self.old (meaning.value (expr_of expr.now)) self.new }
    {
        self.session.soundness();
        match expr {
            Expr::Name(name) => self.look_up(name.as_str()),
            Expr::Integer(number) => Ok(Value::Number(Num::Int(i128::from(*number)))),
            Expr::Truth(truth) => Ok(Value::Number(Num::Bool(*truth))),
            Expr::Unary(op, operand) => {
                self.value_of_one(UnaryCall::Operator(Single::Of(*op)), operand)
            }
            Expr::Call(call) => self.call_value(call),
            Expr::Postfix(operand, suffixes) => {
                let mut found = self.value(operand)?;
                for suffix in suffixes {
                    found = self.suffix_value(found, suffix)?;
                }
                Ok(found)
            }
            Expr::Chain(operand, others) => self.chain_value(operand, others),
        }
    }

    /// The value of an operand and the operators behind it, from left to right.
    #[cycle(value)]
    fn chain_value(&mut self, operand: &Expr, others: &[(BinaryOp, Expr)]) -> Result<Value, Stop>
        requires { (session_of self.old).next
            + tokens_of (chained (expr_of operand.now) (map operation_of others.now)) < 2 ^ 64 }
        ensures { Evaluates value_of result self.old
            (meaning.value (chained (expr_of operand.now) (map operation_of others.now)))
            self.new }
    {
        self.session.soundness();
        let mut found = self.value(operand)?;
        for other in others {
            found = self.binary_value(BinaryCall::Operator(other.0), found, &other.1)?;
        }
        Ok(found)
    }

    /// The result of an operator or a function of NumPy, for a value and the expression behind it.
    #[cycle(value)]
    fn binary_value(&mut self, call: BinaryCall, left: Value, right: &Expr) -> Result<Value, Stop>
        requires held { IsHeld (session_of self.old) left }
        requires room { (session_of self.old).next + tokens_of (expr_of right.now) + 1 < 2 ^ 64 }
        ensures { Evaluates value_of result self.old
            (parts.binary_value (made_of_two call) (value_of left) (expr_of right.now))
            self.new }
    {
        self.session.soundness();
        match self.value(right) {
            Ok(right) => {
                let made = self.operate(call, &left, &right);
                drop(left);
                drop(right);
                made
            }
            Err(stop) => {
                drop(left);
                Err(stop)
            }
        }
    }

    /// Returns the result of an operator or a function of NumPy, for two values.
    pub(crate) fn operate(
        &mut self,
        call: BinaryCall,
        left: &Value,
        right: &Value,
    ) -> Result<Value, Stop>
        requires left { IsHeld (session_of self.old) left.now }
        requires right { IsHeld (session_of self.old) right.now }
        requires room { (session_of self.old).next + 1 < 2 ^ 64 }
        ensures { Evaluates value_of result self.old
            (parts.operate (made_of_two call) (value_of left.now) (value_of right.now)) self.new }
    {
        let alloc = self.session.allocator();
        mark_operand(self.session, left)?;
        mark_operand(self.session, right)?;
        let left = operand_in(self.session, left);
        let right = operand_in(self.session, right);
        let new = make_of_two(alloc, call, &left, &right)?;
        self.give(new)
    }

    /// The result of a function of NumPy, for two expressions.
    #[cycle(value)]
    fn value_of_two(&mut self, call: BinaryCall, left: &Expr, right: &Expr) -> Result<Value, Stop>
        requires { (session_of self.old).next + tokens_of (expr_of left.now)
            + tokens_of (expr_of right.now) + 1 < 2 ^ 64 }
        ensures { Evaluates value_of result self.old
            (parts.value_of_two (made_of_two call) (expr_of left.now) (expr_of right.now))
            self.new }
    {
        self.session.soundness();
        let left = self.value(left)?;
        self.binary_value(call, left, right)
    }

    /// The result of a call or an operator, for one expression.
    #[cycle(value)]
    fn value_of_one(&mut self, call: UnaryCall<'_>, operand: &Expr) -> Result<Value, Stop>
        requires { (session_of self.old).next + tokens_of (expr_of operand.now) + 1 < 2 ^ 64 }
        ensures { Evaluates value_of result self.old
            (parts.value_of_one (made_of_one call.entry) (expr_of operand.now)) self.new }
    {
        self.session.soundness();
        let operand = self.value(operand)?;
        let made = self.make_value(call, &operand);
        drop(operand);
        made
    }

    /// The result of a call or an operator, for one value.
    fn make_value(&mut self, call: UnaryCall<'_>, operand: &Value) -> Result<Value, Stop>
        requires held { IsHeld (session_of self.old) operand.now }
        requires room { (session_of self.old).next + 1 < 2 ^ 64 }
        ensures { Evaluates value_of result self.old
            (parts.make_value (made_of_one call.entry) (value_of operand.now)) self.new }
    {
        let alloc = self.session.allocator();
        mark_operand(self.session, operand)?;
        let new = make_of_one(alloc, call, &operand_in(self.session, operand))?;
        self.give(new)
    }

    /// The result of a method that gives a view, for a value and the method's expressions.
    #[cycle(value)]
    fn viewed_value(
        &mut self,
        method: ViewMethod<'_>,
        found: &Value,
        exprs: &[Expr],
    ) -> Result<Value, Stop>
        requires held { IsHeld (session_of self.old) found.now }
        requires room { (session_of self.old).next + tokens_of_all (map expr_of exprs.now) + 1
            < 2 ^ 64 }
        ensures { Evaluates value_of result self.old (parts.viewed_value
            (contents.viewing_of method.entry) (map expr_of exprs.now) (value_of found.now))
            self.new }
    {
        let others = self.values(exprs)?;
        let made = self.view_value(method, found, &others);
        drop(others);
        made
    }

    /// `np.broadcast_to`
    #[cycle(value)]
    fn stretched_value(&mut self, operand: &Expr, shape: &[Expr]) -> Result<Value, Stop>
        requires { (session_of self.old).next + tokens_of (expr_of operand.now)
            + tokens_of_all (map expr_of shape.now) + 1 < 2 ^ 64 }
        ensures { Evaluates value_of result self.old
            (parts.stretched_value (expr_of operand.now) (map expr_of shape.now)) self.new }
    {
        self.session.soundness();
        let found = self.value(operand)?;
        let made = self.stretch_by(&found, shape);
        drop(found);
        made
    }

    /// `np.broadcast_to` of a value, by the expressions of the lengths.
    #[cycle(value)]
    fn stretch_by(&mut self, found: &Value, shape: &[Expr]) -> Result<Value, Stop>
        requires held { IsHeld (session_of self.old) found.now }
        requires room { (session_of self.old).next + tokens_of_all (map expr_of shape.now) + 1
            < 2 ^ 64 }
        ensures { Evaluates value_of result self.old
            (parts.stretch_by (value_of found.now) (map expr_of shape.now)) self.new }
    {
        let shape = self.values(shape)?;
        let made = self.stretch_value(found, &shape);
        drop(shape);
        made
    }

    /// The result of a method, for a value.
    #[cycle(value)]
    fn method_value(&mut self, found: &Value, method: &Method) -> Result<Value, Stop>
        requires held { IsHeld (session_of self.old) found.now }
        requires room { (session_of self.old).next + 2 + tokens_of_method (method_of method.now)
            < 2 ^ 64 }
        ensures { Evaluates value_of result self.old
            (parts.method_value (method_of method.now) (value_of found.now)) self.new }
    {
        match method {
            Method::Copy => self.make_value(UnaryCall::Copy, found),
            Method::AsType(dtype) => self.make_value(UnaryCall::AsType(dtype), found),
            Method::Transpose(axes) => self.viewed_value(ViewMethod::Transpose, found, axes),
            Method::Reshape(shape) => self.viewed_value(ViewMethod::Reshape, found, shape),
            Method::View(dtype) => self.view_value(ViewMethod::ViewAs(dtype), found, &[]),
            Method::Reduce(reduction, axis, keepdims) => {
                self.reduction_value(Folding::Reduce(*reduction, *keepdims), None, axis, found)
            }
            Method::Accumulate(accumulation, axis) => {
                self.accumulation_value(Folding::Accumulate(*accumulation), None, axis, found)
            }
        }
    }

    /// The reduction or accumulation of a value along the axis that an expression says.
    #[cycle(value)]
    fn fold_at(&mut self, folding: Folding, found: &Value, axis: &Expr) -> Result<Value, Stop>
        requires held { IsHeld (session_of self.old) found.now }
        requires room { (session_of self.old).next + tokens_of (expr_of axis.now) + 1 < 2 ^ 64 }
        ensures { Evaluates value_of result self.old
            (parts.binary_value (along (made_of_fold folding)) (value_of found.now)
            (expr_of axis.now)) self.new }
    {
        self.session.soundness();
        let axis = self.value(axis)?;
        let made = self.fold_along(folding, found, &axis);
        drop(axis);
        made
    }

    /// The reduction of a value along an axis; where none is written, along `otherwise` or of all
    /// numbers.
    #[cycle(value)]
    fn reduction_value(
        &mut self,
        folding: Folding,
        otherwise: Option<i128>,
        axis: &Axis,
        found: &Value,
    ) -> Result<Value, Stop>
        requires held { IsHeld (session_of self.old) found.now }
        requires room { (session_of self.old).next + axis_tokens (axis_of axis.now) + 1 < 2 ^ 64 }
        ensures { Evaluates value_of result self.old (parts.reduction_value
            (made_of_fold folding) otherwise (axis_of axis.now) (value_of found.now)) self.new }
    {
        match axis {
            Axis::Default => self.fold_value(folding, otherwise, found),
            Axis::All => self.fold_value(folding, None, found),
            Axis::At(expr) => self.fold_at(folding, found, expr),
        }
    }

    /// The result of an accumulation whose axis is a number.
    #[cycle(value)]
    fn accumulation_value(
        &mut self,
        folding: Folding,
        otherwise: Option<i128>,
        axis: &Option<Expr>,
        found: &Value,
    ) -> Result<Value, Stop>
        requires held { IsHeld (session_of self.old) found.now }
        requires room { (session_of self.old).next + tokens_of_bound (bound_of axis.now) + 1
            < 2 ^ 64 }
        ensures { Evaluates value_of result self.old (parts.accumulation_value
            (made_of_fold folding) otherwise (bound_of axis.now) (value_of found.now)) self.new }
    {
        match axis {
            Some(expr) => self.fold_at(folding, found, expr),
            None => self.fold_value(folding, otherwise, found),
        }
    }

    /// `np.add.reduce`, `np.add.accumulate` and the like.
    #[cycle(value)]
    fn fold_call(&mut self, ufunc: Ufunc, call: &Fold) -> Result<Value, Stop>
        requires { (session_of self.old).next + tokens_of_fold (fold_of call.now) + 1 < 2 ^ 64 }
        ensures { Evaluates value_of result self.old
            (parts.fold_call (ufunc_of ufunc) (fold_of call.now)) self.new }
    {
        self.session.soundness();
        match call {
            Fold::Reduce(operand, axis, keepdims) => {
                let found = self.value(operand)?;
                let folding = Folding::ReduceCall(ufunc, *keepdims);
                let made = self.reduction_value(folding, Some(0), axis, &found);
                drop(found);
                made
            }
            Fold::Accumulate(operand, axis) => {
                let found = self.value(operand)?;
                let folding = Folding::AccumulateCall(ufunc);
                let made = self.accumulation_value(folding, Some(0), axis, &found);
                drop(found);
                made
            }
        }
    }

    /// `np.zeros`, `np.ones`
    #[cycle(value)]
    fn filled_value(
        &mut self,
        fill: Fill,
        shape: &[Expr],
        dtype: &Option<DType>,
    ) -> Result<Value, Stop>
        requires { (session_of self.old).next + tokens_of_all (map expr_of shape.now) + 1
            < 2 ^ 64 }
        ensures { Evaluates value_of result self.old
            (parts.filled_value (fill_of fill) (map expr_of shape.now)
            (option_map dtype_of dtype.now)) self.new }
    {
        let alloc = self.session.allocator();
        let shape = self.values(shape)?;
        match make_filled(alloc, fill, dtype, &shape) {
            Ok(new) => {
                drop(shape);
                self.give(new)
            }
            Err(stop) => {
                drop(shape);
                Err(stop)
            }
        }
    }

    /// `np.full`
    #[cycle(value)]
    fn full_value(
        &mut self,
        shape: &[Expr],
        value: &Expr,
        dtype: &Option<DType>,
    ) -> Result<Value, Stop>
        requires { (session_of self.old).next + tokens_of_all (map expr_of shape.now)
            + tokens_of (expr_of value.now) + 1 < 2 ^ 64 }
        ensures { Evaluates value_of result self.old
            (parts.full_value (map expr_of shape.now) (expr_of value.now)
            (option_map dtype_of dtype.now)) self.new }
    {
        self.session.soundness();
        let shape = self.values(shape)?;
        let made = self.full_of_shape(&shape, value, dtype);
        drop(shape);
        made
    }

    /// `np.full`, by the values of the lengths.
    #[cycle(value)]
    fn full_of_shape(
        &mut self,
        shape: &[Value],
        value: &Expr,
        dtype: &Option<DType>,
    ) -> Result<Value, Stop>
        requires { (session_of self.old).next + tokens_of (expr_of value.now) + 1 < 2 ^ 64 }
        ensures { Evaluates value_of result self.old
            (parts.full_of_shape (map value_of shape.now) (expr_of value.now)
            (option_map dtype_of dtype.now)) self.new }
    {
        self.session.soundness();
        let value = self.value(value)?;
        let made = self.full_array(shape, &value, dtype);
        drop(value);
        made
    }

    /// `np.full` of values.
    fn full_array(
        &mut self,
        shape: &[Value],
        value: &Value,
        dtype: &Option<DType>,
    ) -> Result<Value, Stop>
        requires held { IsHeld (session_of self.old) value.now }
        requires room { (session_of self.old).next + 1 < 2 ^ 64 }
        ensures { Evaluates value_of result self.old
            (parts.full_array (map value_of shape.now) (value_of value.now)
            (option_map dtype_of dtype.now)) self.new }
    {
        let alloc = self.session.allocator();
        mark_operands(self.session, shape)?;
        mark_operand(self.session, value)?;
        let new = make_full(alloc, dtype, shape, &operand_in(self.session, value))?;
        self.give(new)
    }

    /// Returns the value of an expression that may be left out.
    #[cycle(value)]
    pub(crate) fn bound_value(&mut self, bound: &Option<Expr>) -> Result<Option<Value>, Stop>
        requires { (session_of self.old).next + tokens_of_bound (bound_of bound.now) < 2 ^ 64 }
        ensures value { Evaluates option_values result self.old
            (parts.values (parts.bound_exprs (bound_of bound.now))) self.new }
        ensures given { IfOk result (λ o. is_some o ≡ is_given (bound_of bound.now)) }
    {
        match bound {
            Some(expr) => Ok(Some(self.value(expr)?)),
            None => Ok(None),
        }
    }

    /// `np.arange`
    #[cycle(value)]
    fn range_value(
        &mut self,
        start: &Option<Expr>,
        stop: &Expr,
        step: &Option<Expr>,
        dtype: &Option<DType>,
    ) -> Result<Value, Stop>
        requires { (session_of self.old).next + tokens_of_bound (bound_of start.now)
            + tokens_of (expr_of stop.now) + tokens_of_bound (bound_of step.now) + 1 < 2 ^ 64 }
        ensures { Evaluates value_of result self.old
            (parts.range_value (bound_of start.now) (expr_of stop.now) (bound_of step.now)
            (option_map dtype_of dtype.now)) self.new }
    {
        let start = self.bound_value(start)?;
        let made = self.range_from(&start, stop, step, dtype);
        drop(start);
        made
    }

    /// `np.arange`, by the value of its start.
    #[cycle(value)]
    fn range_from(
        &mut self,
        start: &Option<Value>,
        stop: &Expr,
        step: &Option<Expr>,
        dtype: &Option<DType>,
    ) -> Result<Value, Stop>
        requires { (session_of self.old).next + tokens_of (expr_of stop.now)
            + tokens_of_bound (bound_of step.now) + 1 < 2 ^ 64 }
        ensures { Evaluates value_of result self.old
            (parts.range_from (is_some start.now) (option_values start.now) (expr_of stop.now)
            (bound_of step.now) (option_map dtype_of dtype.now)) self.new }
    {
        let stop = self.value(stop)?;
        let made = self.range_to(start, &stop, step, dtype);
        drop(stop);
        made
    }

    /// `np.arange`, by the values of its start and its stop.
    #[cycle(value)]
    fn range_to(
        &mut self,
        start: &Option<Value>,
        stop: &Value,
        step: &Option<Expr>,
        dtype: &Option<DType>,
    ) -> Result<Value, Stop>
        requires { (session_of self.old).next + tokens_of_bound (bound_of step.now) + 1 < 2 ^ 64 }
        ensures { Evaluates value_of result self.old
            (parts.range_to (is_some start.now) (option_values start.now) (value_of stop.now)
            (bound_of step.now) (option_map dtype_of dtype.now)) self.new }
    {
        let step = self.bound_value(step)?;
        let made = self.range_array(start, stop, &step, dtype);
        drop(step);
        made
    }

    /// `np.arange` of values.
    fn range_array(
        &mut self,
        start: &Option<Value>,
        stop: &Value,
        step: &Option<Value>,
        dtype: &Option<DType>,
    ) -> Result<Value, Stop>
        requires { (session_of self.old).next + 1 < 2 ^ 64 }
        ensures { Evaluates value_of result self.old
            (parts.range_array (is_some start.now) (is_some step.now) (option_values start.now)
            (value_of stop.now) (option_values step.now) (option_map dtype_of dtype.now))
            self.new }
    {
        let alloc = self.session.allocator();
        let new = make_range(alloc, start, stop, step, dtype)?;
        self.give(new)
    }

    /// Appends the values of an element of a list, from left to right.
    #[cycle(value)]
    fn push_values(&mut self, values: &mut Vec<Value>, element: &Element) -> Result<(), Stop>
        requires { (session_of self.old).next + tokens_of_element (element_of element.now)
            < 2 ^ 64 }
        ensures { Evaluates (λ u. values_of values.new) result self.old
            (parts.values_behind (values_of values.old)
            (parts.exprs_of_element (element_of element.now))) self.new }
    {
        match element {
            Element::Single(expr) => {
                let found = self.value(expr)?;
                values.push(found)?;
                Ok(())
            }
            Element::Nested(elements) => self.push_all(values, elements),
        }
    }

    /// Appends the values of a list, from left to right.
    #[cycle(value)]
    fn push_all(&mut self, values: &mut Vec<Value>, elements: &[Element]) -> Result<(), Stop>
        requires { (session_of self.old).next
            + tokens_of_elements (elements_of (map element_of elements.now)) < 2 ^ 64 }
        ensures { Evaluates (λ u. values_of values.new) result self.old
            (parts.values_behind (values_of values.old)
            (parts.exprs_in (elements_of (map element_of elements.now)))) self.new }
    {
        for element in elements {
            self.push_values(values, element)?;
        }
        Ok(())
    }

    /// Returns the array of a list, of the dtype that is written or else of its own.
    #[cycle(value)]
    pub(crate) fn list_value(
        &mut self,
        elements: &[Element],
        dtype: &Option<DType>,
    ) -> Result<Value, Stop>
        requires { (session_of self.old).next
            + tokens_of_elements (elements_of (map element_of elements.now)) + 1 < 2 ^ 64 }
        ensures { Evaluates value_of result self.old (parts.list_value
            (Nested (elements_of (map element_of elements.now))) (option_map dtype_of dtype.now))
            self.new }
    {
        let alloc = self.session.allocator();
        let mut values = Vec::new(alloc);
        self.push_all(&mut values, elements)?;
        mark_operands(self.session, &values)?;
        let new = make_list(alloc, elements, dtype, &values)?;
        self.give(new)
    }

    /// `np.array`
    #[cycle(value)]
    fn array_value(&mut self, element: &Element, dtype: &Option<DType>) -> Result<Value, Stop>
        requires { (session_of self.old).next + tokens_of_element (element_of element.now) + 1
            < 2 ^ 64 }
        ensures { Evaluates value_of result self.old
            (meaning.value (Called (NewArray (element_of element.now)
            (option_map dtype_of dtype.now)))) self.new }
    {
        match element {
            Element::Single(value) => self.value_of_one(UnaryCall::ArrayOf(dtype), value),
            Element::Nested(elements) => self.list_value(elements, dtype),
        }
    }

    /// The result of a function's call.
    #[cycle(value)]
    fn call_value(&mut self, call: &Call) -> Result<Value, Stop>
        requires { (session_of self.old).next + tokens_of_call (call_of call.now) < 2 ^ 64 }
        ensures { Evaluates value_of result self.old
            (meaning.value (Called (call_of call.now))) self.new }
    {
        match call {
            Call::Arange(start, stop, step, dtype) => self.range_value(start, stop, step, dtype),
            Call::Filled(fill, shape, dtype) => self.filled_value(*fill, shape, dtype),
            Call::Full(shape, value, dtype) => self.full_value(shape, value, dtype),
            Call::Array(element, dtype) => self.array_value(element, dtype),
            Call::Convert(kind, value) => self.value_of_one(UnaryCall::Convert(*kind), value),
            Call::BroadcastTo(operand, shape) => self.stretched_value(operand, shape),
            Call::Minimum(left, right) => {
                self.value_of_two(BinaryCall::Call(BinaryUfunc::Minimum), left, right)
            }
            Call::Maximum(left, right) => {
                self.value_of_two(BinaryCall::Call(BinaryUfunc::Maximum), left, right)
            }
            Call::Absolute(operand) => self.value_of_one(
                UnaryCall::Ufunc(Single::Absolute),
                operand,
            ),
            Call::PythonAbs(operand) => {
                self.value_of_one(UnaryCall::Operator(Single::Absolute), operand)
            }
            Call::Load(name) => self.input_value(InputSort::File, name.as_str()),
            Call::Buffer(name) => self.input_value(InputSort::Buffer, name.as_str()),
            Call::Fold(ufunc, call) => self.fold_call(*ufunc, call),
        }
    }

    /// The result of an index or a method, for a value.
    #[cycle(value)]
    fn suffix_value(&mut self, found: Value, suffix: &Suffix) -> Result<Value, Stop>
        requires held { IsHeld (session_of self.old) found }
        requires room { (session_of self.old).next + suffix_tokens (suffix_of suffix.now)
            < 2 ^ 64 }
        ensures { Evaluates value_of result self.old
            (parts.suffix_value (suffix_of suffix.now) (value_of found)) self.new }
    {
        match suffix {
            Suffix::Index(index) => {
                let made = self.index_into(&found, index);
                drop(found);
                made
            }
            Suffix::Method(method) => {
                let made = self.method_value(&found, method);
                drop(found);
                made
            }
        }
    }

    /// Returns the values of expressions, from left to right.
    #[cycle(value)]
    pub(crate) fn values(&mut self, exprs: &[Expr]) -> Result<Vec<Value>, Stop>
        requires { (session_of self.old).next + tokens_of_all (map expr_of exprs.now) < 2 ^ 64 }
        ensures { Evaluates values_of result self.old
            (parts.values (map expr_of exprs.now)) self.new }
    {
        let mut values = Vec::new(self.session.allocator());
        for expr in exprs {
            let found = self.value(expr)?;
            values.push(found)?;
        }
        Ok(values)
    }
}
