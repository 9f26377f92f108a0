//! `Evaluator::index_value`: the indexes of the running cell, evaluated, and what they select.

ghost use Rattle.std.specs.Prelude.{◌+◌, ◌<◌, ◌^◌, IfOk, is_some, map};
ghost use Rattle.nd_model.specs.Grammar.Cells.{elements_of, items_of};
ghost use Rattle.nd_model.specs.Cells.Evaluation as evaluation;
ghost use Rattle.nd_model.specs.Grammar.Syntax.{Items, Listed};
ghost use Rattle.nd_model.specs.Grammar.Tokens.{tokens_of_elements, tokens_of_index, tokens_of_item, tokens_of_bound};
ghost use Rattle.nd_syntax.specs.Trees.Syntax.{bound_of, element_of, index_of, item_of};
ghost use Rattle.nd_heap.specs.Values.{value_of};
ghost use Rattle.nd_eval.specs.Contents as contents;
ghost use Rattle.nd_eval.specs.Contents.{option_values};
ghost use Rattle.nd_eval.specs.Ends.{Evaluates, session_of};
ghost use Rattle.nd_eval.specs.Uses.{HasTypeOf, IsHeld};
ghost use Rattle.nd_model.specs.Indexing.Index.{has_array};
ghost use Rattle.nd_eval.specs.Choosing.Indexing.{operands_of};
ghost use Rattle.nd_operation.specs.Operators.Contents.{unused_of};
ghost use Rattle.nd_eval.specs.Parts as parts;

use crate::choosing::{IndexValue, ItemValue, choose};
use crate::evaluator::Evaluator;
use crate::operation::mark_index;
use nd_operation::operators::is_empty_list;
use nd_operation::refusals::{StmtError, StmtFault, Stop};
use nd_session::session::Value;
use nd_syntax::trees::{Element, Expr, Index, IndexItem};

impl Evaluator<'_> {
    /// Returns the result of an index, for a value.
    #[cycle(value)]
    pub(crate) fn index_into(&mut self, found: &Value, index: &Index) -> Result<Value, Stop>
        requires held { IsHeld (session_of self.old) found.now }
        requires room { (session_of self.old).next + tokens_of_index (index_of index.now) + 1
            < 2 ^ 64 }
        ensures { Evaluates value_of result self.old
            (evaluation.◌>>=◌ (parts.index_parts (index_of index.now))
            (parts.choose_value (value_of found.now))) self.new }
    {
        let index = self.index_value(index)?;
        let made = self.choose_value(found, &index);
        drop(index);
        made
    }

    /// Returns an index with the values of its expressions.
    #[cycle(value)]
    pub(crate) fn index_value<'n>(&mut self, index: &'n Index) -> Result<IndexValue<'n>, Stop>
        requires { (session_of self.old).next + tokens_of_index (index_of index.now) < 2 ^ 64 }
        ensures { Evaluates contents.index_of result self.old
            (parts.index_parts (index_of index.now)) self.new }
    {
        match index {
            Index::Field(name) => Ok(IndexValue::Field(name.as_str())),
            Index::Items(items) => {
                let items = self.item_values(items)?;
                Ok(IndexValue::Items(items))
            }
        }
    }

    /// Items of an index with the values of their expressions, from left to right.
    #[cycle(value)]
    fn item_values(&mut self, items: &[IndexItem]) -> Result<Vec<ItemValue>, Stop>
        requires { (session_of self.old).next
            + tokens_of_index (Items (items_of (map item_of items.now))) < 2 ^ 64 }
        ensures { Evaluates contents.items_of result self.old
            (parts.items_parts (items_of (map item_of items.now))) self.new }
    {
        let mut values = Vec::new(self.session.allocator());
        for item in items {
            let found = self.item_value(item)?;
            values.push(found)?;
        }
        Ok(values)
    }

    /// A list as an item of an index: an array, unless the list is empty.
    #[cycle(value)]
    fn list_item(&mut self, elements: &[Element]) -> Result<ItemValue, Stop>
        requires { (session_of self.old).next
            + tokens_of_elements (elements_of (map element_of elements.now)) + 1 < 2 ^ 64 }
        ensures { Evaluates contents.item_of result self.old
            (parts.item_parts (Listed (elements_of (map element_of elements.now)))) self.new }
    {
        if is_empty_list(elements) {
            return Ok(ItemValue::Empty);
        }
        let value = self.list_value(elements, &None)?;
        Ok(ItemValue::At(value))
    }

    /// A slice, by the value of its start.
    #[cycle(value)]
    fn slice_from(
        &mut self,
        start: Option<Value>,
        stop: &Option<Expr>,
        step: &Option<Expr>,
    ) -> Result<ItemValue, Stop>
        requires { (session_of self.old).next + tokens_of_bound (bound_of stop.now)
            + tokens_of_bound (bound_of step.now) < 2 ^ 64 }
        ensures { Evaluates contents.item_of result self.old (parts.slice_from (is_some start)
            (option_values start) (bound_of stop.now) (bound_of step.now)) self.new }
    {
        match self.bound_value(stop) {
            Ok(stop) => self.slice_to(start, stop, step),
            Err(fault) => {
                drop(start);
                Err(fault)
            }
        }
    }

    /// A slice, by the values of its start and its stop.
    #[cycle(value)]
    fn slice_to(
        &mut self,
        start: Option<Value>,
        stop: Option<Value>,
        step: &Option<Expr>,
    ) -> Result<ItemValue, Stop>
        requires { (session_of self.old).next + tokens_of_bound (bound_of step.now) < 2 ^ 64 }
        ensures { Evaluates contents.item_of result self.old
            (parts.slice_to (is_some start) (is_some stop) (option_values start)
            (option_values stop) (bound_of step.now)) self.new }
    {
        match self.bound_value(step) {
            Ok(step) => Ok(ItemValue::Slice { start, stop, step }),
            Err(fault) => {
                drop(start);
                drop(stop);
                Err(fault)
            }
        }
    }

    /// An item of an index with the values of its expressions.
    #[cycle(value)]
    fn item_value(&mut self, item: &IndexItem) -> Result<ItemValue, Stop>
        requires { (session_of self.old).next + tokens_of_item (item_of item.now) < 2 ^ 64 }
        ensures { Evaluates contents.item_of result self.old
            (parts.item_parts (item_of item.now)) self.new }
    {
        match item {
            IndexItem::At(expr) => {
                let value = self.value(expr)?;
                Ok(ItemValue::At(value))
            }
            IndexItem::Slice(start, stop, step) => {
                let start = self.bound_value(start)?;
                self.slice_from(start, stop, step)
            }
            IndexItem::Ellipsis => Ok(ItemValue::Ellipsis),
            IndexItem::NewAxis => Ok(ItemValue::NewAxis),
            IndexItem::List(elements) => self.list_item(elements),
        }
    }

    /// Returns what an index selects of a value.
    pub(crate) fn choose_value(
        &mut self,
        target: &Value,
        index: &IndexValue<'_>,
    ) -> Result<Value, Stop>
        requires held { IsHeld (session_of self.old) target.now }
        requires room { (session_of self.old).next + 1 < 2 ^ 64 }
        ensures value { Evaluates value_of result self.old
            (parts.choose_value (value_of target.now) (contents.index_of index.now)) self.new }
        ensures types { IfOk result (HasTypeOf (has_array (operands_of index.now))
            (unused_of target.now)) }
    {
        mark_index(self.session, index)?;
        let chosen = choose(self.session, target, index)?;
        match target {
            Value::Number(_) => {
                drop(chosen);
                Err(Stop::Refused(StmtFault::Stmt(StmtError::NotAnArray)))
            }
            Value::Array(array) => self.chosen_value(array, chosen),
            Value::Row(row) => self.chosen_value(row, chosen),
        }
    }
}
