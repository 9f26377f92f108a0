//! `select_elements`: advanced indexes over the blocks of a session.

ghost use Rattle.std.specs.Prelude.{◌≡◌, ℕ, length, IfOk, option_map};
ghost use Rattle.std.specs.List.{All};
ghost use Rattle.nd_model.specs.Indexing.Index as model;
ghost use Rattle.nd_model.specs.Cells.Operation.{give};
ghost use Rattle.nd_model.specs.Indexing.Selected.{HoldsAll};
ghost use Rattle.nd_model.specs.Cells.Sound.{LiesIn};
ghost use Rattle.nd_index.specs.Items.Items as fancy;
ghost use Rattle.nd_session.specs.Session.Live.{live};
ghost use Rattle.nd_operation.specs.Refusals.Ends.{Makes, Says};
ghost use Rattle.nd_operation.specs.Refusals.Faults.{fault_of};
ghost use Rattle.nd_operation.specs.Operators.New.{given};
ghost use Rattle.nd_eval.specs.Choosing.Indexing.{elements_by, index_operand, item_over, items_over, refusal_in};
ghost use Rattle.nd_eval.specs.Choosing.Selections.{copy_of, fancy_stop, selected};

use crate::choosing::indexes::{ItemValue, integer_of, item_of};
use crate::choosing::selection::Selection;
use nd_heap::Value;
use nd_index::advanced::choose_places;
use nd_index::basic::BasicItem;
use nd_index::items::{FancyFault, Item, ItemFault as ItemsFault};
use nd_operation::operators::New;
use nd_operation::refusals::{IndexFault, StmtFault, Stop};
use nd_scatter::{gather, hold_fields};
use nd_session::session::Session;
use nd_view::View;
use std::alloc::{AllocError, Global};

/// The refusal of an advanced index, as a statement's.
fn stop_of(fault: FancyFault) -> Stop
    ensures { result ≡ fancy_stop fault }
{
    let fault = match fault {
        FancyFault::Memory(memory) => return Stop::Memory(memory),
        FancyFault::View(fault) => return Stop::Refused(StmtFault::View(fault)),
        FancyFault::Index(fault) => fault,
    };
    Stop::Refused(StmtFault::Index(match fault {
        ItemsFault::TwoEllipses => IndexFault::TwoEllipses,
        ItemsFault::TooManyIndices => IndexFault::TooManyIndices,
        ItemsFault::ZeroStep => IndexFault::ZeroStep,
        ItemsFault::OutOfBounds { axis, index, size } => {
            IndexFault::OutOfBounds { axis, index, size }
        }
        ItemsFault::MaskShape { axis } => IndexFault::MaskShape { axis },
        ItemsFault::IndexShapes => IndexFault::IndexShapes,
    }))
}

/// The item that a value is: an array with its elements in its block, or else an integer.
fn item_at<'v>(session: &'v Session, value: &'v Value) -> Result<Item<'v>, StmtFault>
    ensures item { Says fancy.item_of result
        (model.item_of (index_operand (live session.now).bytes value.now)) }
    ensures whole { IfOk result (λ i. HoldsAll (fancy.item_of i)) }
{
    let Value::Array(array) = value else {
        return Ok(Item::Basic(BasicItem::At(integer_of(value)?)));
    };
    // proof: the array has an element for each index tuple, by the clause of count().
    let _count = array.view.count();
    match Item::of_array(&array.view, session.bytes(array.base)) {
        Some(found) => Ok(found),
        None => Err(StmtFault::Index(IndexFault::NotAnIndex)),
    }
}

/// The item that an evaluated one is.
fn item_in<'v>(session: &'v Session, item: &'v ItemValue) -> Result<Item<'v>, StmtFault>
    ensures item { Says fancy.item_of result (item_over (live session.now).bytes item.now) }
    ensures whole { IfOk result (λ i. HoldsAll (fancy.item_of i)) }
{
    match item {
        ItemValue::At(value) => item_at(session, value),
        _ => Ok(Item::Basic(item_of(item)?)),
    }
}

/// Returns the refusal of the first item from the left that is no index. It takes no memory.
pub(crate) fn first_refusal(session: &Session, items: &[ItemValue]) -> Option<StmtFault>
    ensures { option_map fault_of result
        ≡ refusal_in (items_over (live session.now).bytes items.now) }
{
    for item in items {
        if let Err(fault) = item_in(session, item) {
            return Some(fault);
        }
    }
    None
}

/// The items that evaluated ones are, or the first refusal from the left.
fn items_in<'v>(session: &'v Session, items: &'v [ItemValue]) -> Result<Vec<Item<'v>>, Stop>
    ensures items { Makes (λ is. fancy.items_of is.items) result
        (items_over (live session.now).bytes items.now) }
    ensures whole { IfOk result (λ is. All HoldsAll (fancy.items_of is.items)) }
{
    let mut found = Vec::with_capacity(session.allocator(), items.len())?;
    for item in items {
        let item = item_in(session, item)?;
        found.push(item)?;
    }
    Ok(found)
}

/// Returns the elements that an advanced index selects of a view.
pub(crate) fn select_elements(
    session: &Session,
    view: &View,
    items: &[ItemValue],
) -> Result<Selection, Stop>
    ensures elements { Makes selected result
        (elements_by (live session.now).bytes items.now view.now) }
    ensures view { IfOk result (λ s. s.view ≡ view.now) }
    ensures lies { IfOk result (λ s. (len : ℕ) → LiesIn len view.now → LiesIn len (selected s)) }
{
    let items = items_in(session, items)?;
    match choose_places(session.allocator(), view, &items) {
        Ok(places) => {
            drop(items);
            match view.try_clone() {
                Ok(view) => Ok(Selection { view, places }),
                Err(refused) => {
                    drop(places);
                    Err(Stop::Memory(refused.into()))
                }
            }
        }
        Err(fault) => {
            drop(items);
            Err(stop_of(fault))
        }
    }
}

/// Returns a copy, as a new array, of the elements that an advanced index selected in a block: it
/// shares no byte with them.
pub(crate) fn copy_selection(
    alloc: Global,
    selection: &Selection,
    block: &[u8],
) -> Result<New, AllocError>
    requires { LiesIn (length block.now) (selected selection.now) }
    ensures { IfOk result (λ n. give (copy_of (selected selection.now) block.now) ≡ given n) }
{
    hold_fields(selection.view.elem());
    let found = gather(alloc, &selection.view, block, &selection.places)?;
    Ok(New::Array(found.0, found.1))
}
