//! `Item`: an item of an index, basic or an array.
ghost use Rattle.std.specs.Prelude.{◌≡◌, ◌+◌, ◌≤◌, map};
ghost use Rattle.std.specs.List.{All};
ghost use Rattle.std.specs.Option.{option_map};
ghost use Rattle.nd_model.specs.Indexing.Advanced as model;
ghost use Rattle.nd_model.specs.Arrays.Content.{content_at};
ghost use Rattle.nd_model.specs.Indexing.Selected.{HoldsAll};
ghost use Rattle.nd_index.specs.Items.Items.{item_of, items_of};

use crate::basic::BasicItem;
use nd_types::{Elem, ElemType, Kind};
use nd_view::View;

/// An array of numbers as an item of an index, with the bytes of its block.
#[derive(Clone, Copy)]
pub struct IndexArray<'i> {
    /// The array.
    pub view: &'i View,
    /// The dtype of its elements.
    pub elem: &'i Elem,
    /// The bytes of its block.
    pub bytes: &'i [u8],
}

/// An item of an index.
#[derive(Clone, Copy)]
pub enum Item<'i> {
    /// An item of a basic index. Beside arrays, an integer counts as an array of shape ().
    Basic(BasicItem),
    /// Positions on an axis. Negative ones count from the end.
    Numbers(IndexArray<'i>),
    /// A mask: it selects where its Booleans are true, in C order.
    Mask(IndexArray<'i>),
}

impl<'i> Item<'i> {
    /// Returns the item that an array with these bytes is, or `None` where it has no axes or holds
    /// structures. A byte past the end reads as 0.
    pub fn of_array(view: &'i View, bytes: &'i [u8]) -> Option<Item<'i>>
        ensures { option_map item_of result ≡ model.array_item view.now.element view.now.shape
            (map (content_at view.now.element bytes.now) view.now.places) }
    {
        let ElemType::One(elem) = view.elem() else {
            return None;
        };
        if view.shape().is_empty() {
            return None;
        }
        match elem.kind() {
            Kind::Bool => Some(Item::Mask(IndexArray { view, elem, bytes })),
            _ => Some(Item::Numbers(IndexArray { view, elem, bytes })),
        }
    }
}

/// Returns the number of axes that an item stands for, where `...` stands for `missing` of them.
pub fn axes_of(item: &Item<'_>, missing: usize) -> usize
    ensures value { result ≡ model.axes_of missing (item_of item.now) }
    ensures limit { result ≤ 32 + missing }
    ensures whole { HoldsAll (item_of item.now) }
{
    match item {
        Item::Basic(BasicItem::At(_)) => 1,
        Item::Basic(BasicItem::Slice { .. }) => 1,
        Item::Basic(BasicItem::Ellipsis) => missing,
        Item::Basic(BasicItem::NewAxis) => 0,
        Item::Numbers(array) => {
            // proof: it holds all its numbers, by the clauses of count().
            let _count = array.view.count();
            1
        }
        Item::Mask(array) => {
            // proof: it holds all its Booleans, by the clauses of count().
            let _count = array.view.count();
            array.view.shape().len()
        }
    }
}

// The number of `...` that an item is.
fn ellipses_of(item: &Item<'_>) -> usize
    ensures value { result ≡ model.ellipses_of (item_of item.now) }
    ensures limit { result ≤ 1 }
{
    match item {
        Item::Basic(BasicItem::Ellipsis) => 1,
        _ => 0,
    }
}

/// Returns the number of `...`.
pub fn count_ellipses(items: &[Item<'_>]) -> usize
    ensures { result ≡ model.ellipses_in (items_of items.now) }
{
    let mut count = 0;
    for item in items {
        count += ellipses_of(item);
    }
    count
}

/// Returns the number of axes that the items stand for, without those of `...`.
pub fn count_axes(items: &[Item<'_>]) -> u128
    ensures value { result ≡ model.axes_in 0 (items_of items.now) }
    ensures whole { All HoldsAll (items_of items.now) }
{
    let mut count: u128 = 0;
    for item in items {
        count += axes_of(item, 0) as u128;
    }
    count
}
