//! The grammar of operands, with the calls and methods in them: [`Calls`].
mod call;
mod level;
mod methods;
mod operands;

pub use operands::{Calls, with_suffixes};
