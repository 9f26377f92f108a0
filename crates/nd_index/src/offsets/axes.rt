//! `Axes`: adjacent axes that one flat index addresses (`np.unravel_index`).
ghost use Rattle.std.specs.Prelude.{◌≡◌, ◌+◌, ◌^◌, ◌<◌, ◌≤◌, ℤ, Some, None, length, unsigned_abs};
ghost use Rattle.std.specs.List.{All};
ghost use Rattle.nd_model.specs.Arrays.Tuple.{elements_of};
ghost use Rattle.nd_index.specs.Offsets.Ways.{HasSmallStep, IsEvenBy};

use crate::offsets::ways::{even_step, way_of};
use nd_view::element_count;

/// The elements of some last axes, which are one step apart in C order.
#[derive(Clone, Copy)]
pub(crate) struct EvenBlock {
    /// The number of the elements.
    pub(crate) count: u64,
    /// The step from each element to the next, in bytes.
    pub(crate) step: i64,
    ghost some: { 0 < count },
    ghost near: { unsigned_abs step ≤ 2 ^ 29 },
}

/// The first element of a block.
#[derive(Clone, Copy)]
pub(crate) struct Front {
    /// Its flat index.
    pub(crate) number: u64,
    /// Its offset from the first of all elements, in bytes.
    pub(crate) way: i128,
    ghost low: { number ≤ 2 ^ 32 },
    ghost near_front: { unsigned_abs way ≤ 2 ^ 112 },
}

/// Adjacent axes with elements, addressed together by a flat index.
#[derive(Clone, Copy)]
pub struct Axes<'a> {
    /// The number of elements of the axes.
    pub count: u64,
    /// The length of each axis.
    pub lengths: &'a [u64],
    /// The stride of each axis, in bytes.
    pub strides: &'a [i128],
    /// The step from each element to the next in C order, in bytes, where it is constant and small.
    pub step: Option<i64>,
    ghost all: { count ≡ elements_of lengths.now },
    ghost some: { 0 < count },
    ghost few: { count ≤ 2 ^ 24 },
    ghost each: { length strides.now ≡ length lengths.now },
    ghost most: { length lengths.now ≤ 64 },
    ghost range: { All (λ s. unsigned_abs s < 2 ^ 64) strides.now },
    ghost even: { (s : ℤ) → step ≡ Some s → (unsigned_abs s ≤ 2 ^ 29)
        × IsEvenBy s lengths.now strides.now },
    ghost uneven: { step ≡ None → HasSmallStep lengths.now strides.now → ⊥ },
}

impl<'a> Axes<'a> {
    ghost use Rattle.nd_index.specs.Offsets.RowPlaces.{HasBlocks, IsFront, way_on};

    /// Returns these axes, whose strides are in bytes.
    pub fn new(lengths: &'a [u64], strides: &'a [i128]) -> Axes<'a>
        requires some { 0 < elements_of lengths.now }
        requires few { elements_of lengths.now ≤ 2 ^ 24 }
        requires axes { length strides.now ≡ length lengths.now }
        requires most { length lengths.now ≤ 64 }
        requires range { All (λ s. unsigned_abs s < 2 ^ 64) strides.now }
        ensures lengths { result.lengths.now ≡ lengths.now }
        ensures strides { result.strides.now ≡ strides.now }
    {
        let count = element_count(lengths);
        Axes {
            count,
            lengths,
            strides,
            step: even_step(count, lengths, strides),
        }
    }

    /// Returns the offset of an element from the first one, in bytes. `number` is its flat index in
    /// C order.
    ///
    /// Of lengths (2, 3) and strides (24, 8), `way(4)` is 32.
    #[inline(always)]
    pub fn way(&self, number: u64) -> i128
        requires { number ≤ 2 ^ 32 }
        ensures value { result ≡ way_on self.now number }
        ensures near { unsigned_abs result ≤ 2 ^ 112 }
    {
        match self.step {
            Some(step) => i128::from(number as i64 * step),
            None => way_of(number, self.count, self.lengths, self.strides),
        }
    }

    /// Returns the block of as many last axes as are walked by one step, as contiguous ones are.
    pub(crate) fn even_block(&self) -> EvenBlock
        ensures { HasBlocks self.now result.count result.step }
    {
        if let Some(step) = self.step {
            return EvenBlock {
                count: self.count,
                step,
            };
        }
        let mut count = self.count;
        for (axis, length) in self.lengths.iter().enumerate() {
            count /= *length;
            let behind = axis + 1;
            let step = even_step(count, &self.lengths[behind..], &self.strides[behind..]);
            if let Some(step) = step {
                return EvenBlock { count, step };
            }
        }
        EvenBlock { count: 1, step: 0 }
    }

    /// Returns the front of the block in which the element of this flat index lies. `front` is that
    /// of any block: where the element lies in it too, nothing is divided.
    #[inline(always)]
    pub(crate) fn front_of(&self, block: EvenBlock, front: Front, number: u64) -> Front
        requires number { number ≤ 2 ^ 32 }
        requires front { IsFront self.now block.count front.number front.way }
        ensures front { IsFront self.now block.count result.number result.way }
        ensures inside { (result.number ≤ number) × (number < result.number + block.count) }
    {
        if number >= front.number && number - front.number < block.count {
            return front;
        }
        let first = number - number % block.count;
        Front {
            number: first,
            way: self.way(first),
        }
    }
}
