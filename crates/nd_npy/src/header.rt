//! NPY files (NumPy's description of the format): [`read_npy`] reads one as a new array.
mod elements;
mod fault;
mod file;
mod grammar;
mod header;
mod kinds;
mod literal;
mod sets;
mod split;
mod state;
mod texts;

pub use fault::{NpyError, NpyFault};
pub use file::{NpyArray, read_npy, rest_is_ignored};
pub use literal::{header_is_read, one_meaning};
