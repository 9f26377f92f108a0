//! NPY files and their dtypes: [`header`] reads files, [`writing`] writes them, [`pep3118`] has
//! format strings.
#![tactic(auto)]

pub mod header;
pub mod pep3118;
pub mod writing;
