//! `print_tree`, `print_tokens` and `print_field_name`: the statements and the tokens of a cell's
//! text, and the names of fields.

use nd_parse::cells::parse_cell;
use nd_token::{BadToken, Token, tokens};
use nd_types::is_field_name;
use std::io;

/// Prints the statements of the text, or its fault.
pub(crate) fn print_tree(rt: &HostRuntime, text: &str) -> io::Result<()> {
    match parse_cell(rt.alloc(), text)? {
        Ok(lines) => println!(rt; "{lines:?}"),
        Err(fault) => println!(rt; "{} {:?} {}", fault.line, fault.kind, fault.column),
    }
}

fn print_token(rt: &HostRuntime, token: &Token) -> io::Result<()> {
    let mark = if token.starts { "^" } else { "" };
    print!(rt; " {mark}{}:{} {:?}", token.line, token.column, token.word)
}

fn print_line(rt: &HostRuntime, tokens: &[Token]) -> io::Result<()> {
    print!(rt; "tokens")?;
    for token in tokens {
        print_token(rt, token)?;
    }
    println!(rt; "")
}

/// Prints the tokens of the text, or the first place that is none.
pub(crate) fn print_tokens(rt: &HostRuntime, text: &str) -> io::Result<()> {
    match tokens(rt.alloc(), text)? {
        Ok(tokens) => print_line(rt, &tokens),
        Err(BadToken { line, column }) => println!(rt; "{line} BadToken {column}"),
    }
}

/// Prints whether a field may have the text as its name.
pub(crate) fn print_field_name(rt: &HostRuntime, text: &str) -> io::Result<()> {
    println!(rt; "{}", is_field_name(text))
}
