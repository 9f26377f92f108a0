//! [`tokens`]: the names, numbers, quoted texts and symbols of a cell's text, with their lines and
//! columns.
#![tactic(auto)]

mod scan;
mod symbol;
mod token;
mod word;

pub use scan::tokens;
pub use token::{BadToken, Token, Word};
