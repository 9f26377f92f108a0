//! The items of an advanced index: [`Item`], the refusals of an index, and its slices, all before
//! any element is selected.
mod common;
mod fault;
mod item;
mod limits;
mod reading;
mod slices;

pub use common::{common_shape, count_true};
pub use fault::{FancyFault, ItemFault};
pub use item::{IndexArray, Item, axes_of, count_axes, count_ellipses};
pub use limits::{bounds_fault, inside_position, shape_fault};
pub use reading::{is_packed, read_at};
pub use slices::{Slices, slices_of};
