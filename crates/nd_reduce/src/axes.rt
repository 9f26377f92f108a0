//! NumPy's reductions and accumulations of arrays along an axis, or of all elements: [`reduce`] and
//! [`accumulate`].
mod accumulating;
mod axis;
mod columns;
mod fault;
mod reducing;
mod tables;

pub use accumulating::accumulate;
pub use fault::AxisFault;
pub use reducing::{reduce, reduce_number};
