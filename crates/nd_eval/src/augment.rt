//! `augment_effect` and `augment_item_effect`: assignments with an operator, such as `x += 1` and
//! `x[m] += 1`.

ghost use Rattle.std.specs.Prelude.{◌≡◌, true, ◌+◌, ◌<◌, ◌^◌, IfOk, MatchResult, OnOk};
ghost use Rattle.nd_model.specs.Cells.Evaluation as evaluation;
ghost use Rattle.nd_model.specs.Indexing.Index.{has_array};
ghost use Rattle.nd_model.specs.Cells.Meaning as meaning;
ghost use Rattle.nd_model.specs.Cells.Sound.{IsHeldView};
ghost use Rattle.nd_model.specs.Grammar.Syntax.{Augment, AugmentItem};
ghost use Rattle.nd_model.specs.Grammar.Tokens.{tokens_of, tokens_of_index, tokens_of_stmt};
ghost use Rattle.nd_syntax.specs.Trees.Syntax.{binary_op, expr_of, index_of};
ghost use Rattle.nd_heap.specs.Values.{base_of, geo_of, value_of};
ghost use Rattle.nd_heap.specs.declared.value.Value.TheVariants as values;
ghost use Rattle.nd_session.specs.Session.Live.{live};
ghost use Rattle.nd_operation.specs.Operators.Contents.{contents_over, unused_of};
ghost use Rattle.nd_operation.specs.Refusals.Ends.{Makes};
ghost use Rattle.nd_eval.specs.Choosing.Indexing.{index_operands, operands_of, viewing_of};
ghost use Rattle.nd_eval.specs.Contents as contents;
ghost use Rattle.nd_eval.specs.Effects.{EvaluatesEffect, IsReady, effect_of};
ghost use Rattle.nd_eval.specs.declared.augment.CopyUpdate.{CopyUpdate};
ghost use Rattle.nd_eval.specs.declared.effect.Effect.TheVariants as effects;
ghost use Rattle.nd_eval.specs.Ends.{session_of};
ghost use Rattle.nd_eval.specs.Parts as parts;
ghost use Rattle.nd_eval.specs.Uses.{HasTypeOf, IsHeld, IsNoArray, index_marked, marked, operand_over};

use crate::choosing::{IndexValue, Selection, Target, assignment_target, is_advanced};
use crate::effect::Effect;
use crate::evaluator::Evaluator;
use crate::exec::store_effect;
use crate::operation::{mark_index, mark_operand, operand_in};
use nd_operation::operators::{
    BinaryCall, BorrowedArray, Operand, kind_in_place, make_of_two, not_an_array,
};
use nd_operation::refusals::Stop;
use nd_session::session::{Array, Base, OutOfMemory, Session, Value};
use nd_syntax::trees::{BinaryOp, Expr, Index};
use nd_types::Kind;

/// An operator on a copy of chosen elements: its kind, and where its results are assigned.
#[derive(Drop)]
struct CopyUpdate {
    kind: Kind,
    base: Base,
    selection: Selection,
}

/// The array that a value is, or else the value.
fn array_of(value: Value) -> Result<Array, Value>
    ensures { MatchResult result (λ a. value ≡ values.Array a) (λ v. (v ≡ value) × IsNoArray v) }
{
    match value {
        Value::Array(array) => Ok(array),
        other => Err(other),
    }
}

/// The effect of an operator in place on an array, once the elements of both are noted as used.
fn update_effect(
    session: &Session,
    op: BinaryOp,
    array: Array,
    value: Value,
) -> Result<Effect, Stop>
    requires array { IsHeldView (live session.now) (base_of array.base) (geo_of array) }
    requires value { IsHeld (live session.now) value }
    ensures effect { Makes (effect_of (live session.now).bytes) result (parts.update
        (binary_op op) (base_of array.base) (geo_of array)
        (contents_over (geo_of array) ((live session.now).bytes (base_of array.base)))
        (operand_over (live session.now).bytes value)) }
    ensures ready { IfOk result (IsReady (live session.now)) }
{
    let operand = operand_in(session, &value);
    match kind_in_place(session.allocator(), op, &array.view, &operand) {
        Ok(kind) => Ok(Effect::Update(kind, op, array, value)),
        Err(stop) => {
            drop(array);
            drop(value);
            Err(stop)
        }
    }
}

/// The kind of an operator on a copy of the elements that an advanced index selects, and what it
/// selects: once all elements are noted as used.
fn copy_update(
    session: &Session,
    op: BinaryOp,
    copy: &Array,
    value: &Value,
    target: &Value,
    index: &IndexValue<'_>,
) -> Result<CopyUpdate, Stop>
    requires advanced { has_array (operands_of index.now) ≡ true }
    requires copy { IsHeldView (live session.now) (base_of copy.now.base) (geo_of copy.now) }
    requires value { IsHeld (live session.now) value.now }
    requires target { IsHeld (live session.now) target.now }
    requires types { HasTypeOf true (unused_of target.now) (values.Array copy.now) }
    ensures effect { Makes (λ (found : CopyUpdate). effect_of (live session.now).bytes
        (effects.UpdateChosen found.kind op found.base found.selection copy.now value.now)) result
        (parts.copy_update (binary_op op) (geo_of copy.now)
        (contents_over (geo_of copy.now) ((live session.now).bytes (base_of copy.now.base)))
        (operand_over (live session.now).bytes value.now) (viewing_of index.now)
        (value_of target.now) (unused_of target.now)
        (index_operands (live session.now).bytes index.now)) }
    ensures ready { IfOk result (λ (found : CopyUpdate). IsReady (live session.now)
        (effects.UpdateChosen found.kind op found.base found.selection copy.now value.now)) }
{
    let operand = operand_in(session, value);
    let kind = kind_in_place(session.allocator(), op, &copy.view, &operand)?;
    let copied = Operand::Elements(BorrowedArray {
        view: &copy.view,
        block: session.bytes(copy.base),
        is_row: false,
    });
    let found = assignment_target(session, &copied, target, index)?;
    let Value::Array(array) = target else {
        drop(found);
        return Err(Stop::Refused(not_an_array()));
    };
    match found {
        Target::Elements(selection) => Ok(CopyUpdate {
            kind,
            base: array.base,
            selection,
        }),
        Target::View(view) => {
            drop(view);
            Err(Stop::Refused(not_an_array()))
        }
    }
}

/// The effect of an operator on the elements that an advanced index selects, once all elements are
/// noted as used. It works on a copy, which is then assigned.
fn copy_update_effect(
    session: &Session,
    op: BinaryOp,
    copy: Array,
    value: Value,
    target: &Value,
    index: &IndexValue<'_>,
) -> Result<Effect, Stop>
    requires advanced { has_array (operands_of index.now) ≡ true }
    requires copy { IsHeldView (live session.now) (base_of copy.base) (geo_of copy) }
    requires value { IsHeld (live session.now) value }
    requires target { IsHeld (live session.now) target.now }
    requires types { HasTypeOf true (unused_of target.now) (values.Array copy) }
    ensures effect { Makes (effect_of (live session.now).bytes) result (parts.copy_update
        (binary_op op) (geo_of copy)
        (contents_over (geo_of copy) ((live session.now).bytes (base_of copy.base)))
        (operand_over (live session.now).bytes value) (viewing_of index.now) (value_of target.now)
        (unused_of target.now) (index_operands (live session.now).bytes index.now)) }
    ensures ready { IfOk result (IsReady (live session.now)) }
{
    match copy_update(session, op, &copy, &value, target, index) {
        Ok(found) => Ok(Effect::UpdateChosen(
            found.kind,
            op,
            found.base,
            found.selection,
            copy,
            value,
        )),
        Err(stop) => {
            drop(copy);
            drop(value);
            Err(stop)
        }
    }
}

/// Notes that all elements of an array and of a value are used.
fn mark_array_and_value(
    session: &mut Session,
    array: &Array,
    value: &Value,
) -> Result<(), OutOfMemory>
    ensures { OnOk result (live session.new
        ≡ marked value.now (marked (values.Array array.now) (live session.old))) }
{
    session.mark_used(array)?;
    mark_operand(session, value)
}

/// Notes that all elements of two values are used, and what an index uses.
fn mark_item_operands(
    session: &mut Session,
    value: &Value,
    found: &Value,
    index: &IndexValue<'_>,
) -> Result<(), OutOfMemory>
    ensures { OnOk result (live session.new
        ≡ index_marked index.now (marked found.now (marked value.now (live session.old)))) }
{
    mark_operand(session, value)?;
    mark_operand(session, found)?;
    mark_index(session, index)
}

impl Evaluator<'_> {
    /// The effect of `name op= value` where the name's value is no array: the name is bound to the
    /// result.
    fn rebind(
        &mut self,
        name: &str,
        op: BinaryOp,
        found: &Value,
        value: &Value,
    ) -> Result<Effect, Stop>
        requires none { IsNoArray found.now }
        requires found { IsHeld (session_of self.old) found.now }
        requires value { IsHeld (session_of self.old) value.now }
        requires room { (session_of self.old).next + 1 < 2 ^ 64 }
        ensures effect { EvaluatesEffect result self.old (parts.augmentation name.now
            (binary_op op) (value_of found.now) (value_of value.now)) self.new }
        ensures ready { IfOk result (IsReady (session_of self.new)) }
    {
        let bound = self.operate(BinaryCall::Operator(op), found, value)?;
        match String::from_str(self.session.allocator(), name) {
            Ok(name) => Ok(Effect::Bind(name, bound)),
            Err(refused) => {
                drop(bound);
                Err(Stop::Memory(refused.into()))
            }
        }
    }

    /// The effect of `name op= value`, for the name's value and the operand.
    fn augment(
        &mut self,
        name: &str,
        op: BinaryOp,
        found: Value,
        value: Value,
    ) -> Result<Effect, Stop>
        requires found { IsHeld (session_of self.old) found }
        requires value { IsHeld (session_of self.old) value }
        requires room { (session_of self.old).next + 1 < 2 ^ 64 }
        ensures effect { EvaluatesEffect result self.old (parts.augmentation name.now
            (binary_op op) (value_of found) (value_of value)) self.new }
        ensures ready { IfOk result (IsReady (session_of self.new)) }
    {
        match array_of(found) {
            Ok(array) => match mark_array_and_value(self.session, &array, &value) {
                Ok(()) => update_effect(self.session, op, array, value),
                Err(memory) => {
                    drop(array);
                    drop(value);
                    Err(Stop::Memory(memory))
                }
            },
            Err(found) => {
                let bound = self.rebind(name, op, &found, &value);
                drop(found);
                drop(value);
                bound
            }
        }
    }

    /// Returns the effect of `name op= expr`. The name's value is found before the operand.
    pub(crate) fn augment_effect(
        &mut self,
        name: &str,
        op: BinaryOp,
        expr: &Expr,
    ) -> Result<Effect, Stop>
        requires { (session_of self.old).next + tokens_of_stmt (Augment name.now (binary_op op)
            (expr_of expr.now)) < 2 ^ 64 }
        ensures effect { EvaluatesEffect result self.old
            (meaning.meaning (Augment name.now (binary_op op) (expr_of expr.now))) self.new }
        ensures ready { IfOk result (IsReady (session_of self.new)) }
    {
        self.session.soundness();
        let found = self.look_up(name)?;
        match self.value(expr) {
            Ok(value) => self.augment(name, op, found, value),
            Err(stop) => {
                drop(found);
                Err(stop)
            }
        }
    }

    /// The effect of `target[index] op= value` where the item is no array, once all operands are
    /// noted as used: the result is assigned to it.
    fn assign_made(
        &mut self,
        op: BinaryOp,
        value: &Value,
        found: &Value,
        target: &Value,
        index: &IndexValue<'_>,
    ) -> Result<Effect, Stop>
        requires value { IsHeld (session_of self.old) value.now }
        requires found { IsHeld (session_of self.old) found.now }
        requires target { IsHeld (session_of self.old) target.now }
        requires room { (session_of self.old).next + 1 < 2 ^ 64 }
        ensures effect { EvaluatesEffect result self.old (evaluation.◌>>=◌
            (evaluation.decide (parts.made_assignment (binary_op op)
            (operand_over (session_of self.old).bytes found.now)
            (operand_over (session_of self.old).bytes value.now) (viewing_of index.now)
            (unused_of target.now) (index_operands (session_of self.old).bytes index.now)))
            (parts.store_made (value_of target.now))) self.new }
        ensures ready { IfOk result (IsReady (session_of self.new)) }
    {
        let alloc = self.session.allocator();
        let left = operand_in(self.session, found);
        let right = operand_in(self.session, value);
        let new = make_of_two(alloc, BinaryCall::Operator(op), &left, &right)?;
        match assignment_target(self.session, &new.operand(), target, index) {
            Ok(elements) => match self.give(new) {
                Ok(made) => match target {
                    Value::Number(_) => {
                        drop(elements);
                        drop(made);
                        Err(Stop::Refused(not_an_array()))
                    }
                    Value::Array(array) => Ok(store_effect(array.base, elements, made)),
                    Value::Row(row) => Ok(store_effect(row.base, elements, made)),
                },
                Err(stop) => {
                    drop(elements);
                    Err(stop)
                }
            },
            Err(stop) => {
                drop(new);
                Err(stop)
            }
        }
    }

    /// The effect of `target[index] op= value`, for an item that is found already.
    fn augment_item(
        &mut self,
        op: BinaryOp,
        value: Value,
        found: Value,
        target: &Value,
        index: &IndexValue<'_>,
    ) -> Result<Effect, Stop>
        requires value { IsHeld (session_of self.old) value }
        requires found { IsHeld (session_of self.old) found }
        requires target { IsHeld (session_of self.old) target.now }
        requires types { HasTypeOf (has_array (operands_of index.now)) (unused_of target.now)
            found }
        requires room { (session_of self.old).next + 1 < 2 ^ 64 }
        ensures effect { EvaluatesEffect result self.old (parts.item_augmentation (binary_op op)
            (value_of value) (value_of found) (value_of target.now)
            (contents.index_of index.now)) self.new }
        ensures ready { IfOk result (IsReady (session_of self.new)) }
    {
        match mark_item_operands(self.session, &value, &found, index) {
            Ok(()) => {}
            Err(memory) => {
                drop(found);
                drop(value);
                return Err(Stop::Memory(memory));
            }
        }
        match array_of(found) {
            Ok(array) => {
                if is_advanced(index) {
                    return copy_update_effect(self.session, op, array, value, target, index);
                }
                update_effect(self.session, op, array, value)
            }
            Err(found) => {
                let made = self.assign_made(op, &value, &found, target, index);
                drop(found);
                drop(value);
                made
            }
        }
    }

    /// Returns the effect of `target[index] op= expr`. Target, index and item are found before the
    /// operand.
    pub(crate) fn augment_item_effect(
        &mut self,
        target: &Expr,
        index: &Index,
        op: BinaryOp,
        expr: &Expr,
    ) -> Result<Effect, Stop>
        requires { (session_of self.old).next + tokens_of_stmt (AugmentItem (expr_of target.now)
            (index_of index.now) (binary_op op) (expr_of expr.now)) < 2 ^ 64 }
        ensures effect { EvaluatesEffect result self.old (meaning.meaning (AugmentItem
            (expr_of target.now) (index_of index.now) (binary_op op) (expr_of expr.now)))
            self.new }
        ensures ready { IfOk result (IsReady (session_of self.new)) }
    {
        self.session.soundness();
        let target = self.value(target)?;
        let made = self.augment_index(&target, index, op, expr);
        drop(target);
        made
    }

    /// The effect of `target[index] op= expr`, for the target's value.
    fn augment_index(
        &mut self,
        target: &Value,
        index: &Index,
        op: BinaryOp,
        expr: &Expr,
    ) -> Result<Effect, Stop>
        requires held { IsHeld (session_of self.old) target.now }
        requires room { (session_of self.old).next + tokens_of_index (index_of index.now)
            + tokens_of (expr_of expr.now) + 3 < 2 ^ 64 }
        ensures effect { EvaluatesEffect result self.old (parts.index_augmentation (binary_op op)
            (expr_of expr.now) (value_of target.now) (index_of index.now)) self.new }
        ensures ready { IfOk result (IsReady (session_of self.new)) }
    {
        self.session.soundness();
        let index = self.index_value(index)?;
        match self.choose_value(target, &index) {
            Ok(found) => match self.value(expr) {
                Ok(value) => {
                    let made = self.augment_item(op, value, found, target, &index);
                    drop(index);
                    made
                }
                Err(stop) => {
                    drop(found);
                    drop(index);
                    Err(stop)
                }
            },
            Err(stop) => {
                drop(index);
                Err(stop)
            }
        }
    }
}
