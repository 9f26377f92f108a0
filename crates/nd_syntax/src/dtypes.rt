//! The dtypes that statements write: [`element_type`] makes them dtypes of arrays.
mod fault;
mod types;

pub use fault::TypeFault;
pub use types::element_type;
