//! `np.load`, `buffer` and `np.save` in a running cell.

ghost use Rattle.std.specs.Prelude.{◌+◌, ◌<◌, ◌^◌, IfOk};
ghost use Rattle.nd_model.specs.Cells.Meaning as meaning;
ghost use Rattle.nd_model.specs.Cells.Operation as operation;
ghost use Rattle.nd_model.specs.Grammar.Syntax.{Save};
ghost use Rattle.nd_model.specs.Grammar.Tokens.{tokens_of};
ghost use Rattle.nd_syntax.specs.Trees.Syntax.{expr_of};
ghost use Rattle.nd_heap.specs.Values.{value_of};
ghost use Rattle.nd_eval.specs.Loading.Loads.{load_by};
ghost use Rattle.nd_eval.specs.Effects.{EvaluatesEffect, IsReady};
ghost use Rattle.nd_eval.specs.Ends.{Evaluates, session_of};
ghost use Rattle.nd_eval.specs.Parts as parts;
ghost use Rattle.nd_eval.specs.Uses.{IsHeld};

use crate::effect::Effect;
use crate::evaluator::Evaluator;
use crate::loading::{InputSort, load, save_file};
use crate::operation::{mark_operand, operand_in};
use nd_operation::operators::bad_argument;
use nd_operation::refusals::Stop;
use nd_session::inputs::find_input;
use nd_session::session::{Value, is_input_name};
use nd_syntax::trees::Expr;

impl Evaluator<'_> {
    /// Returns a new array of an input. It is noted as asked for, also where it is then refused.
    pub(crate) fn input_value(&mut self, sort: InputSort, name: &str) -> Result<Value, Stop>
        requires { (session_of self.old).next + 1 < 2 ^ 64 }
        ensures { Evaluates value_of result self.old
            (operation.input_value name.now (load_by sort name.now)) self.new }
    {
        if !is_input_name(name) {
            return Err(Stop::Refused(bad_argument()));
        }
        self.session.ask(name)?;
        let alloc = self.session.allocator();
        let new = load(alloc, sort, name, find_input(self.inputs, name))?;
        self.give(new)
    }

    /// The effect of saving a value.
    fn save(&mut self, name: &str, value: &Value) -> Result<Effect, Stop>
        requires { IsHeld (session_of self.old) value.now }
        ensures effect { EvaluatesEffect result self.old
            (parts.saving name.now (value_of value.now)) self.new }
        ensures ready { IfOk result (IsReady (session_of self.new)) }
    {
        mark_operand(self.session, value)?;
        let alloc = self.session.allocator();
        let operand = operand_in(self.session, value);
        let file = save_file(alloc, name, &operand)?;
        let name = String::from_str(alloc, name)?;
        Ok(Effect::Save(name, file))
    }

    /// Returns the effect of `np.save`.
    pub(crate) fn save_effect(&mut self, name: &str, expr: &Expr) -> Result<Effect, Stop>
        requires { (session_of self.old).next + tokens_of (expr_of expr.now) < 2 ^ 64 }
        ensures effect { EvaluatesEffect result self.old
            (meaning.meaning (Save name.now (expr_of expr.now))) self.new }
        ensures ready { IfOk result (IsReady (session_of self.new)) }
    {
        self.session.soundness();
        let saved = self.value(expr)?;
        let made = self.save(name, &saved);
        drop(saved);
        made
    }
}
