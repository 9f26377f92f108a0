//! [`PlaceList`]: the byte offsets of selected elements in a block, kept one by one, by rows, or as
//! a mask over a line.
#![tactic(auto)]

mod form;
mod line;
mod list;
mod masks;
mod walk;

pub use form::{Rows, Trues};
pub use line::{StridedLine, near_place};
pub use list::PlaceList;
pub use masks::count_trues;
pub use walk::PlaceWalk;
