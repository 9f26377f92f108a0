//! `IndexValue`: the evaluated index of an array or a row.

ghost use Rattle.std.specs.Prelude.{◌≡◌, ℕ, [], false, IfOk, is_ok};
ghost use Rattle.std.specs.List.{list_all, list_any};
ghost use Rattle.nd_model.specs.Indexing.Index as model;
ghost use Rattle.nd_model.specs.Indexing.Selecting.{field_of};
ghost use Rattle.nd_model.specs.Making.Operand as operand;
ghost use Rattle.nd_model.specs.Indexing.Viewing as viewing;
ghost use Rattle.nd_model.specs.Making.Writing.{may_be_written};
ghost use Rattle.nd_index.specs.Basic.Items as basic;
ghost use Rattle.nd_session.specs.Session.Live.{live};
ghost use Rattle.nd_operation.specs.Operators.Contents.{unused_of};
ghost use Rattle.nd_operation.specs.Refusals.Ends.{Makes, Says};
ghost use Rattle.nd_eval.specs.Choosing.Indexing.{CopyLies, IsCopyOf, IsOne, basic_choice, bound_item, bound_operands, forms_of};
ghost use Rattle.nd_eval.specs.Choosing.Indexing.{choice_by, chosen_of, index_operands, item_from, operands_of};
ghost use Rattle.nd_eval.specs.Choosing.Indexing.{items_from, items_operands, operands_in, operands_in_item, viewing_of};
ghost use Rattle.nd_eval.specs.Choosing.Targets.{Lies};
ghost use Rattle.nd_model.specs.Cells.Sound.{LiesIn};

use crate::choosing::selection::Selection;
use crate::choosing::selections::{first_refusal, select_elements};
use nd_heap::Value;
use nd_index::basic::{BasicItem, field, select};
use nd_operation::operators::not_an_array;
use nd_operation::refusals::{IndexFault, StmtFault, Stop};
use nd_session::session::Session;
use nd_types::{Kind, Num};
use nd_view::View;
use std::alloc::Global;

/// An item of an index, with its expressions evaluated.
#[derive(Drop)]
pub(crate) enum ItemValue {
    /// An integer, or an array.
    At(Value),
    /// A slice, `start:stop:step`.
    Slice {
        start: Option<Value>,
        stop: Option<Value>,
        step: Option<Value>,
    },
    /// `...`, which stands for the whole slices that are missing.
    Ellipsis,
    /// `None`: a new axis of length 1.
    NewAxis,
    /// An empty list, which is no index.
    Empty,
}

/// What stands in the brackets of an index, evaluated: the name of a field, or items.
#[derive(Drop)]
pub(crate) enum IndexValue<'n> {
    Field(&'n str),
    Items(Vec<ItemValue>),
}

/// What an index selects of an array or a row.
#[derive(Drop)]
pub(crate) enum Chosen {
    /// One element, as a view without axes of the array's bytes: a number, or a row of an array of
    /// structures.
    Element(View),
    /// A view of the array's bytes.
    View(View),
    /// Elements that are copied.
    Copy(Selection),
}

/// Returns the integer that an item or a bound is.
pub(crate) fn integer_of(value: &Value) -> Result<i128, StmtFault>
    ensures { Says (λ z. z) result (model.integer_of (unused_of value.now)) }
{
    match value {
        Value::Number(Num::Int(z)) => Ok(*z),
        Value::Number(Num::Scalar(kind, z)) => {
            if let Kind::Bool = kind {
                return Err(StmtFault::Index(IndexFault::NotAnIndex));
            }
            Ok(*z)
        }
        _ => Err(StmtFault::Index(IndexFault::NotAnIndex)),
    }
}

/// The bound of a slice, if there is one.
fn bound_of(bound: &Option<Value>) -> Result<Option<i128>, StmtFault>
    ensures { Says (λ z. z) result (bound_item bound.now) }
{
    match bound {
        Some(value) => Ok(Some(integer_of(value)?)),
        None => Ok(None),
    }
}

/// Returns the item of a basic index. An array is none.
pub(crate) fn item_of(item: &ItemValue) -> Result<BasicItem, StmtFault>
    ensures { Says basic.item_of result (item_from item.now) }
{
    match item {
        ItemValue::At(value) => Ok(BasicItem::At(integer_of(value)?)),
        ItemValue::Slice { start, stop, step } => {
            let start = bound_of(start)?;
            let stop = bound_of(stop)?;
            let step = bound_of(step)?;
            Ok(BasicItem::Slice { start, stop, step })
        }
        ItemValue::Ellipsis => Ok(BasicItem::Ellipsis),
        ItemValue::NewAxis => Ok(BasicItem::NewAxis),
        ItemValue::Empty => Err(StmtFault::Index(IndexFault::NotAnIndex)),
    }
}

/// The items of a basic index, or the first refusal from the left.
fn items_of(alloc: Global, items: &[ItemValue]) -> Result<Vec<BasicItem>, Stop>
    ensures { Makes (λ is. basic.items_of is.items) result (items_from items.now) }
{
    let mut found = Vec::with_capacity(alloc, items.len())?;
    for item in items {
        let item = item_of(item)?;
        found.push(item)?;
    }
    Ok(found)
}

fn is_number(item: &BasicItem) -> bool
    ensures { result ≡ model.is_number (basic.item_of item.now) }
{
    matches!(item, BasicItem::At(_))
}

/// Whether all items are integers.
fn are_numbers(items: &[BasicItem]) -> bool
    ensures { result ≡ list_all model.is_number (basic.items_of items.now) }
{
    for item in items {
        if !is_number(item) {
            return false;
        }
    }
    true
}

/// An element where all items are integers, else a view.
fn choice_of(is_one: bool, view: View) -> Chosen
    ensures choice { chosen_of result ≡ model.choice_of is_one view.shape view }
    ensures one { IsOne view.writable result }
    ensures lies { (len : ℕ) → CopyLies len result }
{
    if is_one && view.shape().is_empty() {
        return Chosen::Element(view);
    }
    Chosen::View(view)
}

/// What a basic index selects of an array.
fn choose_basic(alloc: Global, view: &View, items: &[ItemValue]) -> Result<Chosen, Stop>
    ensures choice { Makes chosen_of result (basic_choice items.now view.now) }
    ensures one { IfOk result (IsOne view.now.writable) }
    ensures lies { IfOk result (λ c. (len : ℕ) → CopyLies len c) }
{
    let items = items_of(alloc, items)?;
    match select(alloc, view, &items)? {
        Ok(found) => Ok(choice_of(are_numbers(&items), found)),
        Err(fault) => Err(Stop::from(fault)),
    }
}

fn is_array(value: &Value) -> bool
    ensures { result ≡ is_ok (model.array_of (unused_of value.now)) }
{
    matches!(value, Value::Array(_))
}

/// Whether the bound of a slice is an array.
fn is_array_bound(bound: &Option<Value>) -> bool
    ensures { result ≡ model.has_array (bound_operands bound.now) }
{
    match bound {
        Some(value) => is_array(value),
        None => false,
    }
}

/// Whether an item is an array, or a slice with an array as a bound.
fn is_array_item(item: &ItemValue) -> bool
    ensures { result ≡ model.has_array (operands_in_item item.now) }
{
    match item {
        ItemValue::At(value) => is_array(value),
        ItemValue::Slice { start, stop, step } => {
            is_array_bound(start) || is_array_bound(stop) || is_array_bound(step)
        }
        ItemValue::Ellipsis | ItemValue::NewAxis | ItemValue::Empty => false,
    }
}

/// Whether some item is an array, so that the index is advanced.
fn has_array(items: &[ItemValue]) -> bool
    ensures { result ≡ model.has_array (operands_in items.now) }
{
    for item in items {
        if is_array_item(item) {
            return true;
        }
    }
    false
}

/// What items select of an array.
fn choose_items(session: &Session, view: &View, items: &[ItemValue]) -> Result<Chosen, Stop>
    ensures choice { Makes chosen_of result
        (choice_by (live session.now).bytes items.now view.now) }
    ensures one { IfOk result (IsOne view.now.writable) }
    ensures copies { IfOk result (IsCopyOf (model.has_array (operands_in items.now))
        (operand.Elements false view.now [])) }
    ensures lies { IfOk result (λ c. (len : ℕ) → LiesIn len view.now → CopyLies len c) }
{
    if let Some(fault) = first_refusal(session, items) {
        return Err(Stop::Refused(fault));
    }
    if has_array(items) {
        let selection = select_elements(session, view, items)?;
        return Ok(Chosen::Copy(selection));
    }
    choose_basic(session.allocator(), view, items)
}

/// What items select of a value.
fn index_array(session: &Session, target: &Value, items: &[ItemValue]) -> Result<Chosen, Stop>
    ensures choice { Makes chosen_of result (model.index_array (forms_of items.now)
        (unused_of target.now) (items_operands (live session.now).bytes items.now)) }
    ensures one { IfOk result (IsOne (may_be_written (unused_of target.now))) }
    ensures copies { IfOk result (IsCopyOf (model.has_array (operands_in items.now))
        (unused_of target.now)) }
    ensures lies { IfOk result (λ c. (len : ℕ) → Lies len (unused_of target.now) → CopyLies len c) }
{
    let Value::Array(array) = target else {
        return Err(Stop::Refused(not_an_array()));
    };
    choose_items(session, &array.view, items)
}

/// The field of this name: a view of an array, a number of a row.
fn choose_field(alloc: Global, view: &View, is_row: bool, name: &str) -> Result<Chosen, Stop>
    ensures choice { Makes chosen_of result (model.choose_field is_row view.now name.now
        (field_of name.now view.now.element)) }
    ensures one { IfOk result (IsOne view.now.writable) }
    ensures lies { IfOk result (λ c. (len : ℕ) → CopyLies len c) }
{
    match field(alloc, view, name)? {
        Some(found) => Ok(choice_of(is_row, found)),
        None => {
            let name = String::from_str(alloc, name)?;
            Err(Stop::Refused(StmtFault::Index(IndexFault::NoField(name))))
        }
    }
}

/// What the name of a field selects of a value.
fn index_field(alloc: Global, target: &Value, name: &str) -> Result<Chosen, Stop>
    ensures choice { Makes chosen_of result (model.index_field name.now (unused_of target.now)) }
    ensures one { IfOk result (IsOne (may_be_written (unused_of target.now))) }
    ensures lies { IfOk result (λ c. (len : ℕ) → CopyLies len c) }
{
    match target {
        Value::Number(_) => Err(Stop::Refused(not_an_array())),
        Value::Array(array) => choose_field(alloc, &array.view, false, name),
        Value::Row(row) => choose_field(alloc, &row.view, true, name),
    }
}

/// Returns whether an index is advanced: some item is an array. `x[0, 1:]` has none, and
/// `x[[0, 1], 1:]` has one.
pub(crate) fn is_advanced(index: &IndexValue<'_>) -> bool
    ensures { result ≡ model.has_array (operands_of index.now) }
{
    match index {
        IndexValue::Field(_) => false,
        IndexValue::Items(items) => has_array(items),
    }
}

/// Returns what an index selects of a value. It reads no byte of the value, and all elements of the
/// arrays among the items, in the session's blocks.
///
/// In an array of shape (4, 5), `[1]` selects a view of shape (5,), and `[rows]`, where `rows` has the
/// numbers 0 and 2, a selection of shape (2, 5).
///
/// Refused in this order: `NotAnArray`; for a name `NoField`; for items `NotAnIndex` from left to
/// right, then as `select` or `choose_places` refuses.
pub(crate) fn choose(
    session: &Session,
    target: &Value,
    index: &IndexValue<'_>,
) -> Result<Chosen, Stop>
    ensures choice { Makes chosen_of result (viewing.choose_of_first (viewing_of index.now)
        (unused_of target.now) (index_operands (live session.now).bytes index.now)) }
    ensures one { IfOk result (IsOne (may_be_written (unused_of target.now))) }
    ensures copies { IfOk result (IsCopyOf (model.has_array (operands_of index.now))
        (unused_of target.now)) }
    ensures lies { IfOk result (λ c. (len : ℕ) → Lies len (unused_of target.now) → CopyLies len c) }
{
    match index {
        IndexValue::Field(name) => index_field(session.allocator(), target, name),
        IndexValue::Items(items) => index_array(session, target, items),
    }
}
