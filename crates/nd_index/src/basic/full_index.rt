//! `FullIndex`: an index with an item for each axis of an array.
ghost use Rattle.std.specs.Prelude.{◌≡◌, ◌+◌, ◌<◌, ◌≤◌, ◌^◌, length, nat_eq, slice_index_or};
ghost use Rattle.nd_model.specs.Indexing.Selecting as model;
ghost use Rattle.nd_index.specs.Basic.Items.{item_of, items_of};
ghost use Rattle.nd_index.specs.Basic.FullIndexes.{items_in};

use crate::basic::item::{BasicItem, whole_slice};

/// The items of an index, with whole slices in place of `...`, or at the end where there is none.
#[derive(Clone, Copy)]
pub(crate) struct FullIndex<'i> {
    pub(crate) front: &'i [BasicItem],
    pub(crate) missing: usize,
    pub(crate) back: &'i [BasicItem],
}

fn is_ellipsis(item: &BasicItem) -> bool
    ensures { result ≡ nat_eq (model.ellipses_of (item_of item.now)) 1 }
{
    matches!(item, BasicItem::Ellipsis)
}

/// Returns the index with `missing` whole slices filled in.
pub(crate) fn fill(items: &[BasicItem], missing: usize) -> FullIndex<'_>
    requires { missing ≤ 32 }
    ensures items { items_in result ≡ model.filled_items missing (items_of items.now) }
    ensures missing { result.missing ≡ missing }
{
    for (at, item) in items.iter().enumerate() {
        if is_ellipsis(item) {
            return FullIndex {
                front: &items[..at],
                missing,
                back: &items[at + 1..],
            };
        }
    }
    FullIndex {
        front: items,
        missing,
        back: &[],
    }
}

impl FullIndex<'_> {
    /// Returns the number of items.
    pub(crate) fn len(&self) -> usize
        requires { self.now.missing ≤ 32 }
        ensures { result ≡ length (items_in self.now) }
    {
        self.front.len() + self.missing + self.back.len()
    }

    /// Returns the item of this number.
    pub(crate) fn item(&self, number: usize) -> BasicItem
        requires inside { number < length (items_in self.now) }
        requires missing { self.now.missing ≤ 32 }
        ensures { item_of result ≡ slice_index_or (items_in self.now) number model.whole_slice }
    {
        if number < self.front.len() {
            return self.front[number];
        }
        let behind = number - self.front.len();
        if behind < self.missing {
            return whole_slice();
        }
        self.back[behind - self.missing]
    }
}
