//! `elements_in`: the array of an NPY file, from its header and the bytes behind it.
ghost use Rattle.std.specs.Prelude.{◌≡◌, ◌*◌, length, reverse, IfOk};
ghost use Rattle.nd_model.specs.Formats.NpyReading as npy;
ghost use Rattle.nd_model.specs.Arrays.Strides.{IsInLimits};
ghost use Rattle.nd_model.specs.Indexing.Transposing.{reversed_view};
ghost use Rattle.nd_model.specs.Arrays.Tuple.{elements_of};
ghost use Rattle.nd_model.specs.Arrays.View.{contiguous, item_size};
ghost use Rattle.nd_types.specs.Types.{type_of};
ghost use Rattle.nd_npy.specs.Header.Gives.{elements_block, header_from, is_plain, GivesArray};

use crate::header::fault::NpyError;
use crate::header::file::NpyArray;
use crate::header::header::Header;
use crate::header::split::split;
use nd_block::RawBlock;
use nd_convert::conversion::copy_elements;
use nd_shape::reverse_axes;
use nd_types::{ElemType, Kind};
use nd_view::{View, element_count};
use std::alloc::{AllocError, Global};

// Whether the bytes of an element are always canonical, as of numbers that are no Booleans.
fn is_plain(elem: &ElemType) -> bool
    ensures { result ≡ is_plain (type_of elem.now) }
{
    match elem {
        ElemType::One(elem) => elem.kind() != Kind::Bool,
        ElemType::Rec(_) => false,
    }
}

// The lengths in reversed order.
fn turn_lengths(alloc: Global, shape: &[u64]) -> Result<Vec<u64>, AllocError>
    ensures { IfOk result (λ v. v.items ≡ reverse shape.now) }
{
    shape.iter().rev().copied().collect(alloc)
}

// The view of elements in Fortran order: that of a C-contiguous array with its axes reversed.
fn fortran_view(alloc: Global, view: &View) -> Result<View, AllocError>
    requires { IsInLimits (item_size view.now.element) view.now.shape }
    ensures { IfOk result (λ v. v
        ≡ reversed_view (contiguous view.now.element (reverse view.now.shape))) }
{
    let shape = turn_lengths(alloc, view.shape())?;
    let file = View::contiguous(alloc, view.elem().try_clone()?, &shape)?;
    reverse_axes(alloc, &file)
}

// The block of the elements. Bytes of numbers are copied as they are, without a second block.
fn block_of(
    alloc: Global,
    view: &View,
    fortran: bool,
    elements: &[u8],
) -> Result<RawBlock, AllocError>
    requires limits { IsInLimits (item_size view.now.element) view.now.shape }
    requires alone { view.now ≡ contiguous view.now.element view.now.shape }
    requires len { length elements.now
        ≡ elements_of view.now.shape * item_size view.now.element }
    ensures { IfOk result (λ b. b
        ≡ elements_block view.now.element fortran view.now.shape elements.now) }
{
    if fortran {
        let file = fortran_view(alloc, view)?;
        return copy_elements(alloc, &file, elements);
    }
    if is_plain(view.elem()) {
        return RawBlock::from_slice(alloc, elements);
    }
    copy_elements(alloc, view, elements)
}

/// Returns the array of a header, whose elements these bytes begin with. `Truncated` where they are
/// too few.
#[tactic(auto, unfolding(nd_model::specs::Formats::NpyReading::elements_in))]
pub fn elements_in(alloc: Global, header: Header, bytes: &[u8]) -> Result<NpyArray, NpyError>
    requires { IsInLimits (item_size (type_of header.elem)) header.shape.items }
    ensures { GivesArray result (npy.elements_in (header_from header) bytes.now) }
{
    let count = element_count(&header.shape) * header.elem.size();
    let (elements, _) = split(count as usize, bytes)?;
    let view = View::contiguous(alloc, header.elem, &header.shape)?;
    let block = block_of(alloc, &view, header.fortran, elements)?;
    Ok(NpyArray { view, block })
}
