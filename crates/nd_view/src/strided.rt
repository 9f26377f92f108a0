//! `View`: where the elements of an array lie in its bytes.
ghost use Rattle.std.specs.Prelude.{◌≡◌, ◌+◌, ◌*◌, ◌^◌, ◌<◌, ◌≤◌, length, take, slice_index, false, IsTrue, ◌↔◌, IfOk, IfSome, OnOk, MatchOption, unsigned_abs};
ghost use Rattle.std.specs.List.{All, concat};
ghost use Rattle.nd_model.specs.Arrays.Runs.{runs_of};
ghost use Rattle.nd_model.specs.Arrays.Strides as model;
ghost use Rattle.nd_model.specs.Arrays.Strides.{IsInLimits, places_by};
ghost use Rattle.nd_model.specs.Arrays.Tuple.{elements_of, number};
ghost use Rattle.nd_model.specs.Arrays.View.{Geo, item_size, byte_places, contiguous};
ghost use Rattle.nd_model.specs.Cells.Sound.{LiesIn};
ghost use Rattle.nd_types.specs.Types.{type_of};
ghost use Rattle.nd_view.specs.Faults.{view_given};
ghost use Rattle.nd_view.specs.Indexes.{IsIndex};
ghost use Rattle.nd_view.specs.SideBySide.{side_by_side};
ghost use Rattle.nd_view.specs.Strides.{kept_all};

use crate::elements::push_element;
use crate::fault::ViewFault;
use crate::inner_loop::{last_axis, widest_loop};
use crate::parts::{kept_offset, kept_steps, kept_strides, parts_fault, reach_of};
use crate::runs::{Run, Runs};
use crate::shapes::{element_count, steps};
use crate::walk::{advance, place_by, shift_place};
use nd_types::ElemType;
use smallvec::SmallVec;
use std::alloc::{AllocError, Global};
use std::marker::Model;

/// The lengths of an array's axes. Up to eight lie in the value itself.
pub type Shape = SmallVec<u64, 8>;

/// An index tuple: an index for each axis.
pub type Index = SmallVec<u64, 8>;

/// Where the elements of an array lie in its bytes: an offset, and for each axis a stride, both in
/// bytes (PEP 3118).
///
/// Equal views have equal fields. The stride is 0 on an axis of at most one element; without
/// elements all strides and the offset are 0.
#[derive(Drop)]
pub struct View {
    elem: ElemType,
    shape: Shape,
    strides: SmallVec<i128, 8>,
    offset: u64,
    writable: bool,
}

impl Model for View {
    ghost use Rattle.nd_model.specs.Arrays.View.{Geo};

    ghost Value = { Geo };

    ghost use Rattle.nd_view.specs.Views.{geo_of, IsView};

    ghost view = { geo_of };

    ghost invariant = { IsView };
}

impl View {
    /// Returns the view of a contiguous array that fills its block. It is writable.
    ///
    /// Shape (3, 4) of `int64` has strides (32, 8) and offset 0.
    pub fn contiguous(alloc: Global, elem: ElemType, shape: &[u64]) -> Result<View, AllocError>
        requires { IsInLimits (item_size (type_of elem)) shape.now }
        ensures { IfOk result (λ v. v ≡ contiguous (type_of elem) shape.now) }
    {
        let strides = steps(alloc, elem.size(), shape)?;
        Ok(View {
            elem,
            shape: SmallVec::from_slice(alloc, shape)?,
            strides,
            offset: 0,
            writable: true,
        })
    }

    /// Returns the view of a block of `block_len` bytes with this shape, these strides in bytes and
    /// byte offset of the first element. It is writable. A view without elements lies in every
    /// block (PEP 3118, "strides").
    ///
    /// With itemsize 1, shape (2, 2), strides (3, 1) and offset 1 have the byte offsets `1 2 4 5`,
    /// which need 6 bytes. Refused in this order: `AxesDiffer`, `TooManyAxes`, `TooManyElements`,
    /// `OutOfBlock`.
    pub fn from_parts(
        alloc: Global,
        elem: ElemType,
        shape: &[u64],
        strides: &[i64],
        offset: u64,
        block_len: u64,
    ) -> Result<Result<View, ViewFault>, AllocError>
        ensures { IfOk result (λ r. view_given r
            ≡ model.from_parts (type_of elem) shape.now strides.now offset block_len) }
    {
        if let Some(fault) = parts_fault(elem.size(), shape, strides, offset, block_len) {
            return Ok(Err(fault));
        }
        Ok(Ok(View {
            elem,
            shape: SmallVec::from_slice(alloc, shape)?,
            strides: kept_strides(alloc, shape, strides)?,
            offset: kept_offset(shape, offset),
            writable: true,
        }))
    }

    /// Returns the view with this shape, these strides in bytes, byte offset of the first element
    /// and `writable`. All byte offsets must lie between 0 and 2^64 - 1.
    ///
    /// Shape (3,) with stride -8 and offset 16 has the byte offsets `16 8 0`.
    pub fn from_strides(
        alloc: Global,
        elem: ElemType,
        shape: &[u64],
        strides: &[i128],
        offset: u64,
        writable: bool,
    ) -> Result<View, AllocError>
        requires { model.parts_fault (item_size (type_of elem)) shape.now strides.now offset
            (2 ^ 64) ≡ None }
        ensures { IfOk result (λ v. v ≡ record (model.parted (type_of elem) shape.now strides.now
            offset) { writable = writable }) }
    {
        let size = elem.size();
        prove!(size > 0 && size <= 65536);
        let start = kept_offset(shape, offset);
        Ok(View {
            elem,
            shape: SmallVec::from_slice(alloc, shape)?,
            strides: kept_steps(alloc, shape, strides)?,
            offset: start,
            writable,
        })
    }

    /// Returns a view of the same elements.
    pub fn try_clone(&self) -> Result<View, AllocError>
        ensures { IfOk result (λ v. v ≡ self.now) }
    {
        let alloc = *self.shape.allocator();
        Ok(View {
            elem: self.elem.try_clone()?,
            shape: SmallVec::from_slice(alloc, self.shape.as_slice())?,
            strides: SmallVec::from_slice(alloc, self.strides.as_slice())?,
            offset: self.offset,
            writable: self.writable,
        })
    }

    /// Returns the dtype of the elements.
    pub fn elem(&self) -> &ElemType
        ensures { type_of result.now ≡ self.now.element }
    {
        &self.elem
    }

    /// Returns the lengths of the axes.
    pub fn shape(&self) -> &[u64]
        ensures value { result.now ≡ self.now.shape }
        ensures limits { IsInLimits (item_size self.now.element) self.now.shape }
    {
        self.shape.as_slice()
    }

    /// Returns the strides: the bytes from one element to the next along each axis.
    pub fn strides(&self) -> &[i128]
        ensures axes { length result.now ≡ length self.now.shape }
        ensures places { self.now.places ≡ places_by (slice_index self.now.places 0) result.now
            self.now.shape }
        ensures kept { kept_all (length self.now.places) self.now.shape result.now ≡ result.now }
    {
        self.strides.as_slice()
    }

    /// Returns the strides in bytes. Their clauses also say that all byte offsets are at least 0
    /// and below 2^64.
    pub fn held_strides(&self) -> &[i128]
        ensures held { model.parts_fault (item_size self.now.element) self.now.shape result.now
            (slice_index self.now.places 0) (2 ^ 64) ≡ None }
        ensures places { self.now.places ≡ places_by (slice_index self.now.places 0) result.now
            self.now.shape }
        ensures range { All (λ s. unsigned_abs s < 2 ^ 64) result.now }
    {
        SmallVec::as_slice(&self.strides)
    }

    /// Returns the byte offset of the first element, 0 where there are none.
    pub fn offset(&self) -> u64
        ensures { result ≡ slice_index self.now.places 0 }
    {
        self.offset
    }

    /// Returns whether both have the same dtype, shape and `writable`, and the same byte offsets in
    /// C order.
    pub fn is_same(&self, other: &View) -> bool
        ensures { IsTrue result ↔ (self.now ≡ other.now) }
    {
        if self.writable != other.writable {
            return false;
        }
        if self.offset != other.offset {
            return false;
        }
        if self.shape.as_slice() != other.shape.as_slice() {
            return false;
        }
        if self.strides.as_slice() != other.strides.as_slice() {
            return false;
        }
        self.elem.is_same(&other.elem)
    }

    /// Returns whether the elements may be written to.
    pub fn writable(&self) -> bool
        ensures { result ≡ self.now.writable }
    {
        self.writable
    }

    /// Returns whether every byte of every element lies in a block of `length` bytes. No element is
    /// looked at.
    ///
    /// A view of three `int64`s with stride 16 lies within 40 bytes, and not within 39.
    pub fn lies_within(&self, length: u64) -> bool
        ensures { IsTrue result ↔ LiesIn length self.now }
    {
        let shape = self.shape.as_slice();
        if element_count(shape) == 0 {
            return true;
        }
        let reach = reach_of(shape, self.strides.as_slice());
        u128::from(self.offset) + reach + u128::from(self.elem.size()) <= u128::from(length)
    }

    /// Returns the number of elements.
    pub fn count(&self) -> usize
        ensures value { result ≡ length self.now.places }
        ensures elements { result ≡ elements_of self.now.shape }
        ensures limit { result ≤ 2 ^ 24 }
    {
        element_count(self.shape.as_slice()) as usize
    }

    /// Returns the byte offset of an element. `number` is its flat index in C order: in a
    /// contiguous view of shape (2, 3) and itemsize 8, element 4 lies at 32.
    pub fn place_of(&self, number: u64) -> u64
        requires { number < length self.now.places }
        ensures value { result ≡ slice_index self.now.places number }
        ensures limit { result + item_size self.now.element ≤ 2 ^ 64 }
    {
        let strides = self.strides.as_slice();
        let mut each = element_count(self.shape.as_slice());
        let mut left = number;
        let mut place = self.offset;
        for (axis, length) in self.shape.as_slice().iter().enumerate() {
            each /= *length;
            place = shift_place(place, left / each, strides[axis]);
            left %= each;
        }
        place
    }

    /// Returns the index tuple of the first element, or `None` where there are no elements.
    pub fn first(&self) -> Result<Option<Index>, AllocError>
        ensures { IfOk result (λ found. MatchOption found (length self.now.places ≡ 0)
            (λ t. IsIndex self.now.shape t.items × (number self.now.shape t.items ≡ 0))) }
    {
        if self.count() == 0 {
            return Ok(None);
        }
        let index = SmallVec::from_elem(*self.shape.allocator(), 0, self.shape.len())?;
        Ok(Some(index))
    }

    /// Returns the byte offset of the element of an index tuple. In a contiguous view of shape
    /// (2, 3) and itemsize 8, (1, 2) lies at 40.
    pub fn place(&self, index: &Index) -> u64
        requires { IsIndex self.now.shape index.now.items }
        ensures { result ≡ slice_index self.now.places (number self.now.shape index.now.items) }
    {
        place_by(self.offset, self.strides.as_slice(), index.as_slice())
    }

    /// Moves the index tuple to the next one in C order, and returns whether there is one. The last
    /// tuple stays. In shape (2, 3), the tuple after (0, 2) is (1, 0).
    pub fn next(&self, index: &mut Index) -> bool
        requires { IsIndex self.now.shape index.old.items }
        ensures inside { IsIndex self.now.shape index.new.items }
        ensures next { IsTrue result → number self.now.shape index.new.items
            ≡ number self.now.shape index.old.items + 1 }
        ensures more { IsTrue result
            ↔ (number self.now.shape index.old.items + 1 < length self.now.places) }
        ensures stays { result ≡ false → index.new.items ≡ index.old.items }
    {
        advance(self.shape.as_slice(), index.as_mut_slice())
    }

    /// Returns the elements in C order as runs. Axes are walked together where one step leads
    /// through them, as NumPy's iterator does.
    ///
    /// A contiguous `x` of shape (2, 3) is one run, and `x[:, :2]` has two of two elements.
    pub fn runs(&self) -> Runs<'_>
        ensures places { concat result ≡ self.now.places }
        ensures ends { All (λ p. p + item_size self.now.element ≤ 2 ^ 64) self.now.places }
    {
        Runs::new(
            self,
            widest_loop(self.shape.as_slice(), self.strides.as_slice()),
        )
    }

    /// Returns the elements in C order as one run, where they are contiguous: `8 16` for `x[1:3]`
    /// with itemsize 8. `None` where the view is empty, or not one contiguous run.
    pub fn contiguous_run(&self, itemsize: u64) -> Option<Run>
        ensures { IfSome result (λ run. (run ≡ self.now.places)
            × (run ≡ side_by_side itemsize (slice_index run 0) (length run))) }
    {
        let mut runs = self.runs();
        let run = runs.next()?;
        if run.count() as usize != self.count() {
            return None;
        }
        if !run.is_contiguous(itemsize) {
            return None;
        }
        Some(run)
    }

    /// Returns the runs of elements along the last axis, in C order: two of three elements for
    /// shape (2, 3). A view without axes has one run of one element.
    pub fn rows(&self) -> Runs<'_>
        ensures value { result ≡ runs_of self.now }
        ensures places { concat result ≡ self.now.places }
        ensures ends { All (λ p. p + item_size self.now.element ≤ 2 ^ 64) self.now.places }
    {
        Runs::new(
            self,
            last_axis(self.shape.as_slice(), self.strides.as_slice()),
        )
    }

    // The byte offset of the first element with these indices on the first axes.
    pub(crate) fn place_on(&self, outer: &[u64]) -> u64
        requires inside { IsIndex (take (length outer.now) self.now.shape) outer.now }
        requires axes { length outer.now ≤ length self.now.shape }
        requires some { 0 < length self.now.places }
        ensures { result ≡ slice_index self.now.places (number self.now.shape outer.now) }
    {
        place_by(self.offset, self.strides.as_slice(), outer)
    }

    /// Returns the byte offsets of the bytes of all elements, without pad bytes: `0 1 4 5` for two
    /// elements of `<i2` with stride 4.
    pub fn byte_places(&self, alloc: Global) -> Result<Vec<u64>, AllocError>
        ensures { IfOk result (λ v. v.items ≡ byte_places self.now) }
    {
        let mut places = Vec::new(alloc);
        let mut runs = self.runs();
        while let Some(run) = runs.next() {
            for number in 0..run.count() {
                push_element(&mut places, &self.elem, run.place(number))?;
            }
        }
        Ok(places)
    }
}
