//! NumPy's basic indexing: [`select`] gives the view of integers, slices, `...` and `None`,
//! [`field`] that of a structure's field.
mod choosing;
mod fault;
mod fields;
mod full_index;
mod item;
mod layout;
mod positions;

pub use choosing::select;
pub use fault::SelectFault;
pub use fields::field;
pub use item::BasicItem;
pub use layout::length_of;
