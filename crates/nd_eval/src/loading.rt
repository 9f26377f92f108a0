//! Inputs and files: [`load`] makes an array of an input, [`save_file`] a file of an array.
mod inputs;
mod save;

pub(crate) use inputs::{InputSort, load};
pub(crate) use save::save_file;
