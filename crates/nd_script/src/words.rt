//! The lines of a script as commands, [`command_of`], and the pieces of which answers are made.
mod command;
mod input;
mod pieces;
mod word;

pub use command::{LineCommand, command_of, is_end_of_source};
pub use input::{Numeral, numbers_of, split_part};
pub use pieces::{
    push_count_line, push_hex, push_hex_digits, push_integer, push_names, push_number, push_shape,
    push_text,
};
pub use word::{number_of, split_word};
