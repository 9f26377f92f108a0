//! Blocks of bytes ([`RawBlock`], and [`Filling`] while one is made), and numbers in bytes
//! ([`value_at`], [`store_at`]).
#![tactic(auto)]

mod block;
mod bytes;
mod filling;
mod memory;
mod runs;

pub use block::RawBlock;
pub use bytes::{push_bytes, store_at, value_at};
pub use filling::Filling;
