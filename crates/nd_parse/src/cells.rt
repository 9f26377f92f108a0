//! The syntax of cells: [`parse_cell`] gives the statements of a text, or its fault.
mod expr;
mod parse;
mod stmt;

pub use nd_syntax::trees::{Line, ParseFault, ParseKind};
pub use parse::parse_cell;
