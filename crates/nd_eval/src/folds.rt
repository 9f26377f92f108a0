//! Reductions and accumulations of values, once their axis is found.

ghost use Rattle.std.specs.Prelude.{◌+◌, ◌<◌, ◌^◌};
ghost use Rattle.nd_model.specs.Cells.Meaning.{along};
ghost use Rattle.nd_heap.specs.Values.{value_of};
ghost use Rattle.nd_eval.specs.Reducing.Folds.{made_of_fold};
ghost use Rattle.nd_eval.specs.Ends.{Evaluates, session_of};
ghost use Rattle.nd_eval.specs.Parts as parts;
ghost use Rattle.nd_eval.specs.Uses.{IsHeld};

use crate::evaluator::Evaluator;
use crate::operation::{mark_operand, operand_in};
use crate::reducing::{Folding, make_fold, make_fold_along};
use nd_operation::refusals::Stop;
use nd_session::session::Value;

impl Evaluator<'_> {
    /// Returns the reduction or accumulation of a value, along this axis or of all numbers.
    pub(crate) fn fold_value(
        &mut self,
        folding: Folding,
        axis: Option<i128>,
        found: &Value,
    ) -> Result<Value, Stop>
        requires held { IsHeld (session_of self.old) found.now }
        requires room { (session_of self.old).next + 1 < 2 ^ 64 }
        ensures { Evaluates value_of result self.old
            (parts.make_value (λ o. made_of_fold folding o axis) (value_of found.now)) self.new }
    {
        let alloc = self.session.allocator();
        mark_operand(self.session, found)?;
        let new = make_fold(alloc, folding, &operand_in(self.session, found), axis)?;
        self.give(new)
    }

    /// Returns the reduction or accumulation of a value along the axis that another value is.
    pub(crate) fn fold_along(
        &mut self,
        folding: Folding,
        found: &Value,
        axis: &Value,
    ) -> Result<Value, Stop>
        requires found { IsHeld (session_of self.old) found.now }
        requires axis { IsHeld (session_of self.old) axis.now }
        requires room { (session_of self.old).next + 1 < 2 ^ 64 }
        ensures { Evaluates value_of result self.old
            (parts.operate (along (made_of_fold folding)) (value_of found.now)
            (value_of axis.now)) self.new }
    {
        let alloc = self.session.allocator();
        mark_operand(self.session, found)?;
        mark_operand(self.session, axis)?;
        let operand = operand_in(self.session, found);
        let place = operand_in(self.session, axis);
        let new = make_fold_along(alloc, folding, &operand, &place)?;
        self.give(new)
    }
}
