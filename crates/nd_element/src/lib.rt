//! The elements of arrays: their numbers ([`numbers_of`]), and their bytes as they are shown
//! ([`canonical_bytes`]).
#![tactic(auto)]

mod canonical;
mod elem;
mod numbers;
mod spots;

pub use canonical::{canonical_bytes, number_in, write_structure};
pub use elem::{is_elem, keeps_bytes};
pub use numbers::{numbers_of, push_bytes_of, push_numbers};
pub use spots::{number_of, spot};
