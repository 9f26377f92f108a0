//! `BasicItem`: an integer, slice, `...` or new axis in a basic index.
ghost use Rattle.std.specs.Prelude.{◌≡◌, ◌+◌, ◌<◌, ◌≤◌, ◌^◌, length};
ghost use Rattle.std.specs.List.{list_any};
ghost use Rattle.nd_model.specs.Indexing.Selecting as model;
ghost use Rattle.nd_index.specs.Basic.Items.{item_of, items_of, kept_in};

/// An item of a basic index.
#[derive(Clone, Copy)]
pub enum BasicItem {
    /// An integer. A negative one counts from the end.
    At(i128),
    /// A slice, `start:stop:step`.
    Slice {
        start: Option<i128>,
        stop: Option<i128>,
        step: Option<i128>,
    },
    /// `...`, which stands for the whole slices that are missing.
    Ellipsis,
    /// `None`: a new axis of length 1.
    NewAxis,
}

/// Returns the slice of a whole axis.
pub(crate) fn whole_slice() -> BasicItem
    ensures { item_of result ≡ model.whole_slice }
{
    BasicItem::Slice {
        start: None,
        stop: None,
        step: None,
    }
}

/// Returns the number of the array's axes that an item stands for.
pub(crate) fn axes_of(item: &BasicItem) -> usize
    ensures value { result ≡ model.axes_of (item_of item.now) }
    ensures limit { result ≤ 1 }
{
    match item {
        BasicItem::At(_) => 1,
        BasicItem::Slice { .. } => 1,
        BasicItem::Ellipsis => 0,
        BasicItem::NewAxis => 0,
    }
}

/// The items of an index, counted.
#[derive(Clone, Copy)]
pub(crate) struct Counts {
    /// The number of `...`.
    pub(crate) ellipses: usize,
    /// The number of the array's axes that the items stand for.
    pub(crate) axes: usize,
    /// The number of axes that the view gets from items other than `...`.
    pub(crate) kept: usize,
}

/// Counts the items.
pub(crate) fn count_items(items: &[BasicItem]) -> Counts
    ensures ellipses { result.ellipses ≡ model.ellipses_in (items_of items.now) }
    ensures axes { result.axes ≡ model.axes_in (items_of items.now) }
    ensures kept { result.kept ≡ kept_in (items_of items.now) }
    ensures limit { result.kept ≤ length items.now }
{
    let mut counts = Counts {
        ellipses: 0,
        axes: 0,
        kept: 0,
    };
    for item in items {
        match item {
            BasicItem::At(_) => counts.axes += 1,
            BasicItem::Slice { .. } => {
                counts.axes += 1;
                counts.kept += 1;
            }
            BasicItem::Ellipsis => counts.ellipses += 1,
            BasicItem::NewAxis => counts.kept += 1,
        }
    }
    counts
}

fn is_zero_step(item: &BasicItem) -> bool
    ensures { result ≡ model.has_zero_step (item_of item.now) }
{
    match item {
        BasicItem::Slice {
            step: Some(step),
            ..
        } => *step == 0,
        _ => false,
    }
}

/// Returns whether the step of a slice is 0.
pub(crate) fn has_zero_step(items: &[BasicItem]) -> bool
    ensures { result ≡ list_any model.has_zero_step (items_of items.now) }
{
    for item in items {
        if is_zero_step(item) {
            return true;
        }
    }
    false
}
