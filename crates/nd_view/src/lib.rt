//! [`View`]: dtype, shape, strides and offset of an array, apart from its bytes.
#![tactic(auto)]

mod elements;
mod fault;
mod inner_loop;
mod parts;
mod runs;
mod shapes;
mod strided;
mod walk;

pub use fault::ViewFault;
pub use runs::{Run, Runs};
pub use shapes::{element_count, limit_fault, stride_of};
pub use strided::{Index, Shape, View};
