//! [`Change`]: what an edit may have changed in the session before a cell, carried from cell to cell.
//! [`KeyFilter`] tells quickly that a cell has nothing to do with it.

mod change;
mod covering;
mod filter;
mod fitting;
mod following;
mod inputs;
mod keeping;
mod matching;
mod patching;

pub use change::Change;
pub use filter::KeyFilter;
pub(crate) use patching::{is_done, next_now, put_over};
