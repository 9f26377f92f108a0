//! Format strings of PEP 3118: [`parse_format`] reads one as a dtype, [`write_format`] writes that
//! of a dtype.
mod fault;
mod grammar;
mod parse;
mod progress;
mod write;

pub use fault::{FormatError, FormatFault};
pub use parse::{one_meaning, parse_format, reading_is_exact};
pub use write::write_format;
