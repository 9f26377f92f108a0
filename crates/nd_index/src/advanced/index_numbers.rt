//! `IndexNumbers`: the flat indices by which an array of an index addresses its axes.
ghost use Rattle.std.specs.Prelude.{◌≡◌, ◌≤◌, ◌^◌, map, IfOk};
ghost use Rattle.std.specs.List.{All};
ghost use Rattle.nd_model.specs.Indexing.Advanced as model;
ghost use Rattle.nd_model.specs.Indexing.Selecting.{counted_from};
ghost use Rattle.nd_index.specs.Items.Items.{numbers_of};
ghost use Rattle.nd_index.specs.Advanced.IndexNumbers.{numbers_in};

use crate::advanced::walk::NumberWalk;
use crate::items::{IndexArray, inside_position};
use std::alloc::{AllocError, Global};

/// The flat indices of an array over its axes (`np.ravel_multi_index`), which are read only where
/// they are used.
#[derive(Clone, Copy)]
pub(crate) enum IndexNumbers<'t, 'i> {
    /// One position.
    One(u64),
    /// The positions of an array of numbers, on an axis of this length; negative ones count from
    /// the end.
    Positions(u64, &'t IndexArray<'i>),
    /// The flat indices of the true elements of a mask.
    Trues(&'t IndexArray<'i>),
}

// The positions of an array of numbers, on an axis of this length.
fn positions_of(alloc: Global, size: u64, array: &IndexArray<'_>) -> Result<Vec<u64>, AllocError>
    requires near { All (λ k. k ≤ 2 ^ 32) (map (counted_from size) (numbers_of array.now)) }
    ensures { IfOk result (λ v. v.items ≡ map (counted_from size) (numbers_of array.now)) }
{
    let mut positions = Vec::with_capacity(alloc, array.view.count())?;
    let mut walk = NumberWalk::new(array);
    while let Some(number) = walk.next() {
        positions.push(inside_position(size, number))?;
    }
    Ok(positions)
}

// The flat indices of the true elements of a mask.
fn true_numbers(alloc: Global, mask: &IndexArray<'_>) -> Result<Vec<u64>, AllocError>
    ensures { IfOk result (λ v. v.items ≡ model.true_numbers 0
        (map model.is_nonzero (numbers_of mask.now))) }
{
    // proof: the number of elements is bounded, by the clause of count().
    let _count = mask.view.count();
    let mut numbers = Vec::new(alloc);
    let mut at = 0;
    let mut walk = NumberWalk::new(mask);
    while let Some(number) = walk.next() {
        if number != 0 {
            numbers.push(at)?;
        }
        at += 1;
    }
    Ok(numbers)
}

impl IndexNumbers<'_, '_> {
    /// Returns the flat indices as a list.
    pub(crate) fn list(&self, alloc: Global) -> Result<Vec<u64>, AllocError>
        requires { All (λ k. k ≤ 2 ^ 32) (numbers_in self.now) }
        ensures { IfOk result (λ v. v.items ≡ numbers_in self.now) }
    {
        match self {
            IndexNumbers::One(number) => {
                let mut numbers = Vec::with_capacity(alloc, 1)?;
                numbers.push(*number)?;
                Ok(numbers)
            }
            IndexNumbers::Positions(size, array) => positions_of(alloc, *size, array),
            IndexNumbers::Trues(mask) => true_numbers(alloc, mask),
        }
    }
}
