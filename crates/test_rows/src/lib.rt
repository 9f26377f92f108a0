//! [`unescape`]: texts written in one line of ASCII.
//!
//! ```text
//! \n \r \t \\       a newline, a carriage return, a tab, a backslash
//! \u{HEX}           the character with that number
//! \{COUNT:PIECE}    COUNT times the piece
//! ```
//!
//! A piece has no closing brace, and of the escapes only the first four.
#![tactic(auto)]

mod escape;

pub use escape::{EscapeFault, unescape};
