//! `takes`: how each item of an advanced index uses the axes that the slices leave.
ghost use Rattle.std.specs.Prelude.{◌≡◌, ℕ, ◌++◌, ◌≤◌, ◌^◌, [], ◌∷◌, None, true, length, map, replicate, IfOk, OnOk};
ghost use Rattle.std.specs.List.{All};
ghost use Rattle.nd_model.specs.Indexing.Advanced as model;
ghost use Rattle.nd_model.specs.Indexing.Advanced.{axes_in, first_fault};
ghost use Rattle.nd_model.specs.Indexing.Selecting.{counted_from, is_within};
ghost use Rattle.nd_index.specs.Items.Items.{item_of, items_of, numbers_of};
ghost use Rattle.nd_index.specs.Advanced.Takes.{axes_taken_by, spread_of, take_of, takes_of};
ghost use Rattle.nd_index.specs.Items.Inside.{IsInside};

use crate::advanced::index_numbers::IndexNumbers;
use crate::advanced::spread::Spread;
use crate::basic::{BasicItem, length_of};
use crate::items::{IndexArray, Item, axes_of, count_true, inside_position};
use smallvec::SmallVec;
use std::alloc::{AllocError, Global};

/// How an item of an index uses axes.
#[derive(Drop, Default)]
pub(crate) enum Take<'t, 'i> {
    /// A kept axis.
    #[default]
    Whole,
    /// A new axis of length 1, for `None`.
    Added,
    /// Adjacent axes that an array addresses.
    Spread(Spread<'t, 'i>),
}

/// How all axes are used.
pub(crate) type Takes<'t, 'i> = SmallVec<Take<'t, 'i>, 8>;

impl Take<'_, '_> {
    /// Returns the number of axes that it uses.
    pub(crate) fn axes(&self) -> usize
        ensures { result ≡ axes_taken_by (take_of self.now) }
    {
        match self {
            Take::Whole => 1,
            Take::Added => 0,
            Take::Spread(spread) => spread.axes,
        }
    }
}

fn push_whole(takes: &mut Takes<'_, '_>, count: usize) -> Result<(), AllocError>
    ensures { OnOk result (takes_of takes.new.items ≡ takes_of takes.old.items
        ++ replicate count model.Whole) }
{
    for _ in 0..count {
        takes.push(Take::Whole)?;
    }
    Ok(())
}

// One position, for an integer.
fn spread_number<'t, 'i>(alloc: Global, size: u64, index: i128) -> Spread<'t, 'i>
    requires size { size ≤ 2 ^ 32 }
    requires inside { is_within size index ≡ true }
    ensures { spread_of result ≡ model.Spread 1 [] (counted_from size index ∷ []) }
{
    Spread {
        axes: 1,
        shape: SmallVec::new(alloc),
        count: 1,
        numbers: IndexNumbers::One(inside_position(size, index)),
    }
}

// The positions of an array of numbers.
fn spread_numbers<'t, 'i>(
    alloc: Global,
    size: u64,
    array: &'t IndexArray<'i>,
) -> Result<Spread<'t, 'i>, AllocError>
    requires size { size ≤ 2 ^ 32 }
    requires inside { (axis : ℕ) → model.outside_fault axis size (numbers_of array.now) ≡ None }
    ensures { IfOk result (λ s. spread_of s ≡ model.Spread 1 array.now.view.now.shape
        (map (counted_from size) (numbers_of array.now))) }
{
    let count = array.view.count() as u64;
    Ok(Spread {
        axes: 1,
        shape: SmallVec::from_slice(alloc, array.view.shape())?,
        count,
        numbers: IndexNumbers::Positions(size, array),
    })
}

// The true elements of a mask.
fn spread_mask<'t, 'i>(
    alloc: Global,
    mask: &'t IndexArray<'i>,
) -> Result<Spread<'t, 'i>, AllocError>
    ensures { IfOk result (λ s. spread_of s ≡ (let ks = model.true_numbers 0 (map model.is_nonzero
        (numbers_of mask.now)) in model.Spread (length mask.now.view.now.shape)
        (length ks ∷ []) ks)) }
{
    // proof: the number of elements is bounded, by the clause of count().
    let _count = mask.view.count();
    let count = count_true(mask);
    Ok(Spread {
        axes: mask.view.shape().len(),
        shape: SmallVec::from_slice(alloc, &[count])?,
        count,
        numbers: IndexNumbers::Trues(mask),
    })
}

// Appends what an item uses, whose first axis has length `size`. `...` stands for `missing` axes.
fn push_takes<'t, 'i>(
    alloc: Global,
    takes: &mut Takes<'t, 'i>,
    size: u64,
    missing: usize,
    item: &'t Item<'i>,
) -> Result<(), AllocError>
    requires size { size ≤ 2 ^ 32 }
    requires inside { IsInside size (item_of item.now) }
    ensures { OnOk result (takes_of takes.new.items ≡ takes_of takes.old.items
        ++ model.takes_of missing size (item_of item.now)) }
{
    let taken = match item {
        Item::Basic(BasicItem::At(index)) => Take::Spread(spread_number(alloc, size, *index)),
        Item::Basic(BasicItem::Slice { .. }) => Take::Whole,
        Item::Basic(BasicItem::Ellipsis) => return push_whole(takes, missing),
        Item::Basic(BasicItem::NewAxis) => Take::Added,
        Item::Numbers(array) => Take::Spread(spread_numbers(alloc, size, array)?),
        Item::Mask(mask) => Take::Spread(spread_mask(alloc, mask)?),
    };
    takes.push(taken)?;
    Ok(())
}

/// Returns how the items use axes with these lengths. Axes behind the last item are kept.
pub(crate) fn takes<'t, 'i>(
    alloc: Global,
    sizes: &[u64],
    missing: usize,
    items: &'t [Item<'i>],
) -> Result<Takes<'t, 'i>, AllocError>
    requires axes { axes_in missing (items_of items.now) ≤ 64 }
    requires lengths { All (λ n. n ≤ 2 ^ 32) sizes.now }
    requires inside { first_fault (model.bounds_fault sizes.now) missing 0 (items_of items.now)
        ≡ None }
    ensures { IfOk result (λ v. takes_of v.items
        ≡ model.takes_in missing 0 sizes.now (items_of items.now)) }
{
    let mut takes = SmallVec::new(alloc);
    let mut axis = 0;
    for item in items {
        push_takes(alloc, &mut takes, length_of(sizes, axis), missing, item)?;
        axis += axes_of(item, missing);
    }
    push_whole(&mut takes, sizes.len().saturating_sub(axis))?;
    Ok(takes)
}
