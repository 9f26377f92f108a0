//! The grammar of what stands in brackets, over operands: [`Rules`] reads expressions, arguments,
//! indexes and lists.
mod arguments;
mod indexes;
mod operators;
mod rows;

pub use operators::{Rules, with_operation};
pub use rows::append;
