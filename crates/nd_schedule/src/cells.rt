//! The cells of a notebook ([`KeptCell`]), their labels, and lists of values that notebooks share.
mod labels;
mod shared;
mod source;

pub(crate) use labels::{FreeLabel, fresh_label};
pub use shared::{make_room, move_item};
pub use source::KeptCell;
