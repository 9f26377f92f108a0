//! What a running cell has read and done: its [`Trace`], and marked bytes of several blocks, a
//! [`Footprint`].
#![tactic(auto)]

mod marking;
mod trace;

pub use marking::Footprint;
pub use trace::{Event, Trace};
