//! `run_stmt`: evaluates a statement, and carries its effect out.

ghost use Rattle.std.specs.Prelude.{◌≡◌, ℕ, List, ◌+◌, ◌<◌, ◌≤◌, ◌^◌, IfOk, OnOk, map};
ghost use Rattle.nd_model.specs.Cells.Running as running;
ghost use Rattle.nd_model.specs.Cells.Running.{Running};
ghost use Rattle.nd_model.specs.Arrays.Value as model;
ghost use Rattle.nd_model.specs.Cells.Meaning as meaning;
ghost use Rattle.nd_model.specs.Cells.Cell.{statement};
ghost use Rattle.nd_model.specs.Grammar.Syntax.{Assign, Bind, Delete, Print};
ghost use Rattle.nd_model.specs.Grammar.Tokens.{tokens_of, tokens_of_all, tokens_of_index, tokens_of_stmt};
ghost use Rattle.nd_syntax.specs.Trees.Syntax.{expr_of, index_of, stmt_of};
ghost use Rattle.nd_heap.specs.Values.{base_of, value_of};
ghost use Rattle.nd_session.specs.Inputs.Values.{inputs_of};
ghost use Rattle.nd_session.specs.Session.Live.{live};
ghost use Rattle.nd_eval.specs.Ends.{Ends, Evaluates, session_of};
ghost use Rattle.nd_eval.specs.Contents as contents;
ghost use Rattle.nd_eval.specs.Effects.{EvaluatesEffect, EvaluatesEffectInLimit, IsReady, MayStore, effect_of, stored_at};
ghost use Rattle.nd_eval.specs.Done.{output_of, outcome_of};
ghost use Rattle.nd_model.specs.Cells.Cell.{limit_text};
ghost use Rattle.nd_eval.specs.Uses.{IsHeld, operand_over};
ghost use Rattle.nd_eval.specs.Choosing.Targets.{geo_in, writes_to};
ghost use Rattle.nd_eval.specs.Storing.Storable.{IsStorableIn};
ghost use Rattle.nd_eval.specs.Parts as parts;
ghost use Rattle.nd_eval.specs.Lines.{limit_effect};
ghost use Rattle.nd_model.specs.Cells.Evaluation.{run};

use crate::choosing::{IndexValue, Target, assignment_target};
use crate::effect::Effect;
use crate::evaluator::Evaluator;
use crate::operation::{mark_index, mark_operand, mark_operands, operand_in, operands_in};
use crate::storing::{scatter, store, update, update_chosen};
use nd_operation::operators::{not_an_array, print_line};
use nd_operation::refusals::{StmtFault, Stop};
use nd_session::session::{Array, Base, Inputs, OutOfMemory, Session, Value};
use nd_syntax::trees::{Expr, Index, Stmt};
use std::alloc::Global;

/// What a statement gives to its cell: the text that it prints, and a file that it saves, if any,
/// with its name.
#[derive(Drop)]
pub struct Output {
    pub text: String,
    pub save: Option<(String, Vec<u8>)>,
}

/// Where an assignment stores its value: the block, and what of it.
#[derive(Drop)]
struct Place {
    base: Base,
    target: Target,
}

/// Returns the effect of assigning a value to elements of a block.
pub(crate) fn store_effect(base: Base, target: Target, value: Value) -> Effect
    ensures effect { (bytes : model.Base → List ℕ) → effect_of bytes result
        ≡ running.Storing (base_of base) (writes_to (geo_in target) (operand_over bytes value)) }
    ensures ready { (r : Running) → IsStorableIn r (base_of base) (geo_in target) value
        → IsReady r result }
{
    match target {
        Target::View(view) => Effect::Store(Array { base, view }, value),
        Target::Elements(selection) => Effect::Scatter(base, selection, value),
    }
}

impl Evaluator<'_> {
    /// The effect of a binding.
    fn binding_effect(&mut self, name: &str, expr: &Expr) -> Result<Effect, Stop>
        requires { (session_of self.old).next + tokens_of (expr_of expr.now) < 2 ^ 64 }
        ensures effect { EvaluatesEffect result self.old
            (meaning.meaning (Bind name.now (expr_of expr.now))) self.new }
        ensures ready { IfOk result (IsReady (session_of self.new)) }
    {
        self.session.soundness();
        let bound = self.value(expr)?;
        match String::from_str(self.session.allocator(), name) {
            Ok(name) => Ok(Effect::Bind(name, bound)),
            Err(refused) => {
                drop(bound);
                Err(Stop::Memory(refused.into()))
            }
        }
    }

    /// Where an assignment stores its value, for the values of its parts.
    fn assign(
        &mut self,
        value: &Value,
        target: &Value,
        index: &IndexValue<'_>,
    ) -> Result<Place, Stop>
        requires value { IsHeld (session_of self.old) value.now }
        requires target { IsHeld (session_of self.old) target.now }
        ensures effect { Evaluates (stored_at (session_of self.new).bytes value.now) result
            self.old (parts.assignment (value_of value.now) (value_of target.now)
            (contents.index_of index.now)) self.new }
        ensures ready { IfOk result (MayStore (session_of self.new) value.now) }
    {
        mark_operand(self.session, value)?;
        mark_index(self.session, index)?;
        let operand = operand_in(self.session, value);
        let found = assignment_target(self.session, &operand, target, index)?;
        match target {
            Value::Number(_) => {
                drop(found);
                Err(Stop::Refused(not_an_array()))
            }
            Value::Array(array) => Ok(Place {
                base: array.base,
                target: found,
            }),
            Value::Row(row) => Ok(Place {
                base: row.base,
                target: found,
            }),
        }
    }

    /// Where an assignment stores its value, for the value and that of its target.
    fn assign_at(&mut self, value: &Value, target: &Value, index: &Index) -> Result<Place, Stop>
        requires value { IsHeld (session_of self.old) value.now }
        requires target { IsHeld (session_of self.old) target.now }
        requires room { (session_of self.old).next + tokens_of_index (index_of index.now)
            < 2 ^ 64 }
        ensures effect { Evaluates (stored_at (session_of self.new).bytes value.now) result
            self.old (parts.index_assignment (value_of value.now) (value_of target.now)
            (index_of index.now)) self.new }
        ensures ready { IfOk result (MayStore (session_of self.new) value.now) }
    {
        let index = self.index_value(index)?;
        let place = self.assign(value, target, &index);
        drop(index);
        place
    }

    /// Where an assignment stores its value, for the value.
    fn place_of(&mut self, value: &Value, target: &Expr, index: &Index) -> Result<Place, Stop>
        requires value { IsHeld (session_of self.old) value.now }
        requires room { (session_of self.old).next + tokens_of (expr_of target.now)
            + tokens_of_index (index_of index.now) < 2 ^ 64 }
        ensures effect { Evaluates (stored_at (session_of self.new).bytes value.now) result
            self.old (parts.target_assignment (value_of value.now) (expr_of target.now)
            (index_of index.now)) self.new }
        ensures ready { IfOk result (MayStore (session_of self.new) value.now) }
    {
        self.session.soundness();
        let target = self.value(target)?;
        let place = self.assign_at(value, &target, index);
        drop(target);
        place
    }

    /// The effect of an assignment. Value, target and index are evaluated in this order.
    fn assignment_effect(
        &mut self,
        target: &Expr,
        index: &Index,
        expr: &Expr,
    ) -> Result<Effect, Stop>
        requires { (session_of self.old).next + tokens_of_stmt (Assign (expr_of target.now)
            (index_of index.now) (expr_of expr.now)) < 2 ^ 64 }
        ensures effect { EvaluatesEffect result self.old
            (meaning.meaning (Assign (expr_of target.now) (index_of index.now) (expr_of expr.now)))
            self.new }
        ensures ready { IfOk result (IsReady (session_of self.new)) }
    {
        self.session.soundness();
        let written = self.value(expr)?;
        match self.place_of(&written, target, index) {
            Ok(place) => Ok(store_effect(place.base, place.target, written)),
            Err(stop) => {
                drop(written);
                Err(stop)
            }
        }
    }

    /// The effect of a deletion.
    fn deletion_effect(&mut self, name: &str) -> Result<Effect, Stop>
        ensures effect { EvaluatesEffect result self.old (meaning.meaning (Delete name.now))
            self.new }
        ensures ready { IfOk result (IsReady (session_of self.new)) }
    {
        // the name must be bound, and is noted as looked up
        let bound = self.look_up(name)?;
        drop(bound);
        let name = String::from_str(self.session.allocator(), name)?;
        Ok(Effect::Unbind(name))
    }

    /// The effect of `print`: none on the session, but its text.
    fn print_effect(&mut self, exprs: &[Expr]) -> Result<Effect, Stop>
        requires { (session_of self.old).next + tokens_of_all (map expr_of exprs.now) < 2 ^ 64 }
        ensures effect { EvaluatesEffectInLimit result self.old
            (meaning.meaning (Print (map expr_of exprs.now))) self.new }
        ensures ready { IfOk result (IsReady (session_of self.new)) }
    {
        self.session.soundness();
        let shown = self.values(exprs)?;
        mark_operands(self.session, &shown)?;
        let operands = operands_in(self.session, &shown)?;
        let line = print_line(self.session.allocator(), &operands)?;
        Ok(Effect::Print(line))
    }

    /// The effect of a statement.
    fn stmt_effect(&mut self, stmt: &Stmt) -> Result<Effect, Stop>
        requires { (session_of self.old).next + tokens_of_stmt (stmt_of stmt.now) < 2 ^ 64 }
        ensures effect { EvaluatesEffectInLimit result self.old
            (meaning.meaning (stmt_of stmt.now)) self.new }
        ensures ready { IfOk result (IsReady (session_of self.new)) }
    {
        match stmt {
            Stmt::Import => Ok(Effect::Nothing),
            Stmt::Bind(name, expr) => self.binding_effect(name.as_str(), expr),
            Stmt::Augment(name, op, expr) => self.augment_effect(name.as_str(), *op, expr),
            Stmt::Assign(target, index, expr) => self.assignment_effect(target, index, expr),
            Stmt::AugmentItem(target, index, op, expr) => {
                self.augment_item_effect(target, index, *op, expr)
            }
            Stmt::Delete(name) => self.deletion_effect(name.as_str()),
            Stmt::Print(exprs) => self.print_effect(exprs),
            Stmt::Save(name, expr) => self.save_effect(name.as_str(), expr),
        }
    }
}

/// Carries an effect out, and returns what the cell gets of it.
fn do_effect(session: &mut Session, effect: Effect) -> Result<Output, OutOfMemory>
    requires { IsReady (live session.old) effect }
    ensures output { IfOk result (λ o. output_of o
        ≡ running.output (effect_of (live session.old).bytes effect)) }
    ensures done { OnOk result (live session.new
        ≡ running.done (effect_of (live session.old).bytes effect) (live session.old)) }
{
    let alloc = session.allocator();
    match effect {
        Effect::Nothing => Ok(no_output(alloc)),
        Effect::Print(text) => Ok(Output { text, save: None }),
        Effect::Save(name, file) => Ok(Output {
            text: String::new(alloc),
            save: Some((name, file)),
        }),
        Effect::Bind(name, bound) => {
            session.bind(name, bound)?;
            Ok(no_output(alloc))
        }
        Effect::Unbind(name) => {
            let done = session.unbind(name.as_str());
            drop(name);
            done?;
            Ok(no_output(alloc))
        }
        Effect::Store(target, value) => {
            let done = store(session, &target, &value);
            drop(target);
            drop(value);
            done?;
            Ok(no_output(alloc))
        }
        Effect::Scatter(base, selection, value) => {
            let done = scatter(session, base, &selection, &value);
            drop(selection);
            drop(value);
            done?;
            Ok(no_output(alloc))
        }
        Effect::Update(kind, op, target, value) => {
            let done = update(session, op, kind, &target, &value);
            drop(target);
            drop(value);
            done?;
            Ok(no_output(alloc))
        }
        Effect::UpdateChosen(kind, op, base, selection, copy, value) => {
            let done = update_chosen(session, op, kind, base, &selection, &copy, &value);
            drop(selection);
            drop(copy);
            drop(value);
            done?;
            Ok(no_output(alloc))
        }
    }
}

/// Nothing for the cell.
fn no_output(alloc: Global) -> Output
    ensures { output_of result ≡ running.output running.Nothing }
{
    Output {
        text: String::new(alloc),
        save: None,
    }
}

/// The effect of a statement, evaluated over a session.
fn evaluate_stmt(session: &mut Session, inputs: &Inputs, stmt: &Stmt) -> Result<Effect, Stop>
    requires { (live session.old).next + tokens_of_stmt (stmt_of stmt.now) < 2 ^ 64 }
    ensures effect { Ends (effect_of (live session.new).bytes) result (live session.new)
        (limit_effect (run (inputs_of inputs.now.entries) (meaning.meaning (stmt_of stmt.now))
        (live session.old))) }
    ensures ready { IfOk result (IsReady (live session.new)) }
{
    let mut evaluator = Evaluator { session, inputs };
    evaluator.stmt_effect(stmt)
}

/// Runs a statement, and returns what it gives to its cell, or its refusal.
///
/// Where `x` is bound to `[5 6 7]`, the output of `print(x[1:])` has the text `[6 7]` and a newline.
/// The statement `x[9] = 1` is refused with `OutOfBounds`: axis 0, index 9, length 3.
///
/// A refused statement binds, unbinds and writes nothing, yet it may have made blocks. A text
/// longer than any cell may print is refused at once, so that it is never built whole.
pub fn run_stmt(
    session: &mut Session,
    inputs: &Inputs,
    stmt: &Stmt,
) -> Result<Result<Output, StmtFault>, OutOfMemory>
    requires { (live session.old).next + tokens_of_stmt (stmt_of stmt.now) < 2 ^ 64 }
    ensures meaning { IfOk result (λ out. limit_text (statement (inputs_of inputs.now.entries)
        (stmt_of stmt.now) (live session.old)) ≡ (outcome_of out, live session.new)) }
    ensures numbers { OnOk result
        ((live session.new).next ≤ (live session.old).next + tokens_of_stmt (stmt_of stmt.now)) }
{
    session.soundness();
    match evaluate_stmt(session, inputs, stmt) {
        Ok(effect) => Ok(Ok(do_effect(session, effect)?)),
        Err(Stop::Refused(fault)) => Ok(Err(fault)),
        Err(Stop::Memory(memory)) => Err(memory),
    }
}
