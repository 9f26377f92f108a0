//! `Slices`: the slices of an index, which are applied before its arrays.
ghost use Rattle.std.specs.Prelude.{◌≡◌, ◌+◌, ◌<◌, ◌≤◌, [], ◌∷◌, ◌++◌, length, replicate};
ghost use Rattle.nd_model.specs.Indexing.Advanced as model;
ghost use Rattle.nd_model.specs.Indexing.Selecting as selecting;
ghost use Rattle.nd_index.specs.Basic.Items as basic;
ghost use Rattle.nd_index.specs.Items.Items.{item_of, items_of};

use crate::basic::BasicItem;
use crate::items::item::Item;
use std::marker::Model;

// The most slices of an index: one for each axis of an array, and `...`.
const MOST_SLICES: usize = 33;

/// The slices of an index, kept without memory of their own. A clause sees the list of them.
#[derive(Drop)]
pub struct Slices {
    slices: [BasicItem; MOST_SLICES],
    count: usize,
}

impl Model for Slices {
    ghost use Rattle.std.specs.Prelude.{List};
    ghost use Rattle.nd_model.specs.Indexing.Selecting.{Item};

    ghost Value = { List Item };

    ghost use Rattle.nd_index.specs.Items.Slices.{slices_of, AreSlices};

    ghost view = { slices_of };

    ghost invariant = { AreSlices };
}

fn whole_slice() -> BasicItem
    ensures { basic.item_of result ≡ selecting.whole_slice }
{
    BasicItem::Slice {
        start: None,
        stop: None,
        step: None,
    }
}

impl Slices {
    fn new() -> Slices
        ensures { result ≡ [] }
    {
        Slices {
            slices: [whole_slice(); MOST_SLICES],
            count: 0,
        }
    }

    fn push(&mut self, slice: BasicItem)
        requires { length self.old < MOST_SLICES }
        ensures { self.new ≡ self.old ++ basic.item_of slice ∷ [] }
    {
        self.slices[self.count] = slice;
        self.count += 1;
    }

    fn push_whole(&mut self, count: usize)
        requires { length self.old + count ≤ MOST_SLICES }
        ensures { self.new ≡ self.old ++ replicate count selecting.whole_slice }
    {
        for _ in 0..count {
            self.push(whole_slice());
        }
    }

    // Appends the slices of an item.
    fn push_item(&mut self, item: &Item<'_>)
        requires { length self.old + length (model.slices_of (item_of item.now)) ≤ MOST_SLICES }
        ensures { self.new ≡ self.old ++ model.slices_of (item_of item.now) }
    {
        match item {
            Item::Basic(BasicItem::At(_)) | Item::Numbers(_) => self.push(whole_slice()),
            Item::Basic(BasicItem::NewAxis) => {}
            Item::Basic(item) => self.push(*item),
            Item::Mask(array) => self.push_whole(array.view.shape().len()),
        }
    }

    /// Returns the slices.
    pub fn as_slice(&self) -> &[BasicItem]
        ensures { basic.items_of result.now ≡ self.now }
    {
        &self.slices[..self.count]
    }
}

/// Returns the slices of an index. All axes for which another item stands are kept whole.
pub fn slices_of(items: &[Item<'_>]) -> Slices
    requires { length (model.slices_in (items_of items.now)) ≤ MOST_SLICES }
    ensures { result ≡ model.slices_in (items_of items.now) }
{
    let mut slices = Slices::new();
    for item in items {
        slices.push_item(item);
    }
    slices
}
