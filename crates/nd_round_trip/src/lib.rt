//! Laws that what was written is read again: of NPY files in [`files`], of PEP 3118 formats in
//! [`formats`].
#![tactic(auto)]

pub mod files;
pub mod formats;
