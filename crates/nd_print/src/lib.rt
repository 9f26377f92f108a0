//! The text of numbers and arrays as NumPy prints them: [`scalar_text`] and [`push_elements`].
#![tactic(auto)]

mod arrays;
mod columns;
mod elements;
mod lengths;
mod scalars;

pub use arrays::{Fit, push_elements};
pub use scalars::scalar_text;
