//! Values, and the names and blocks that sessions and their versions share.
#![tactic(auto)]

mod block_table;
mod blocks;
mod heap;
mod layer;
mod name_table;
mod names;
mod value;
mod writer;

pub use blocks::{Bases, Blocks, bytes_of};
pub use heap::Heap;
pub use nd_memory::OutOfMemory;
pub use value::{Array, Base, Value, are_same_values};
pub use writer::BlockWriter;
