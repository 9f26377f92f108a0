//! The blocks of new arrays: [`zeros`], [`full`], [`repeat`], [`list`] and [`range`].
mod blocks;
mod elements;
mod filling;
mod ranges;

pub use blocks::{full, range, zeros};
pub use elements::{list, repeat};
pub use ranges::{Range, range_count, range_misfit};
