//! The inner loops of NumPy's universal functions: an [`operation`] over two operands, each a
//! [`Feed`] that is read a chunk at a time. [`fill`] appends the results to a new block,
//! [`apply_sides`] writes them over bytes that are there.
mod appending;
mod chunks;
mod cycle;
mod elements;
mod feed;
mod kernel;
mod laid_out;
mod lent;
pub mod operation;
mod pairs;
mod parts;
mod reading;
mod repeated;
mod whole;

pub use chunks::{CHUNK, chunk_of, fill};
pub use cycle::{Cycle, ROOM};
pub use elements::{Elements, take_numbers};
pub use feed::Feed;
pub use kernel::Side;
pub use laid_out::LaidOut;
pub use lent::Lent;
pub use pairs::apply_sides;
pub use reading::side_of;
pub(crate) use reading::{lend, numbers_are_valid};
pub use repeated::Repeated;
pub(crate) use whole::append_whole;
