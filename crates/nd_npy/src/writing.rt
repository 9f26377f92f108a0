//! NPY files, written: [`write_npy`] gives the bytes of an array's file.
mod file;
mod header;
mod items;
mod literal;
mod plain;

pub use file::{write_elements, write_npy};
