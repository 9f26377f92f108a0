//! NumPy's advanced indexing: [`choose_places`] finds the elements that arrays and masks select,
//! beside slices, `...` and `None`.
mod arrays;
mod by_mask;
mod by_rows;
mod choosing;
mod direct;
mod index_numbers;
mod layout;
mod masks;
mod sole;
mod spread;
mod takes;
mod walk;

pub use choosing::{ChosenPlaces, choose_places};
