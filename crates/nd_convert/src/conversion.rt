//! The elements of a view as a new array: [`convert_numbers`] changes kind or byte order,
//! [`copy_elements`] keeps the dtype.
mod blocks;
mod held;
mod kernel;
pub mod known;
mod numbers;
mod pairs;
mod run;
mod structures;

pub use blocks::{convert_numbers, copy_elements};
pub use kernel::is_long_contiguous;
pub use run::convert;
