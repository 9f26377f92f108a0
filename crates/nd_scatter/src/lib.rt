//! Gather and scatter, NumPy's advanced indexing: [`gather`] copies the elements that arrays or
//! masks select, [`Scatter`] assigns to them.
#![tactic(auto)]

mod gathering;
mod kernel;
mod masked;
mod numbers;
mod preparation;
mod results;
mod scatter;
mod shape;
mod structures;
mod writing;

pub use gathering::gather;
pub use preparation::{hold_fields, prepare_scatter};
pub use results::prepare_results;
pub use scatter::Scatter;
pub use shape::fits_places;
