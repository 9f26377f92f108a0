//! Makes the calls of parsing that no script shows, a line each on standard input, and prints what
//! they give.
//!
//! A line is the call and, behind a space, its text, which has the escapes of `test_rows`. Empty
//! lines, and lines that begin with `#`, are passed over. A line that is no call is answered
//! `bad line`, and a text with a bad escape with its fault.
//!
//! ```text
//! tree TEXT         the statements of a cell, or its fault as LINE KIND COLUMN
//! tokens TEXT       its tokens as LINE:COLUMN WORD, or the first place that is none
//! field_name TEXT   whether a field may have this name
//! format SIZE TEXT  the size and the format that is written again, as `8 as <q`, or the fault
//! ```
//!
//! A token that begins a statement has `^` before it.
#![tactic(auto)]

mod cells;
mod formats;

use std::alloc::AllocError;
use std::io::{self, Read};
use test_rows::{EscapeFault, unescape};

/// Prints what the call gives for a text.
fn answer_text(rt: &HostRuntime, call: &str, text: &str) -> io::Result<()> {
    match call {
        "tree" => cells::print_tree(rt, text),
        "tokens" => cells::print_tokens(rt, text),
        "field_name" => cells::print_field_name(rt, text),
        "format" => formats::print_format(rt, text),
        _ => println!(rt; "bad line"),
    }
}

/// Prints the answer to a line.
fn answer_line(rt: &HostRuntime, line: &str) -> io::Result<()> {
    let (call, escaped) = line.split_once(' ').unwrap_or((line, ""));
    match unescape(rt.alloc(), escaped) {
        Ok(text) => answer_text(rt, call, &text),
        Err(EscapeFault::Memory(memory)) => Err(AllocError::from(memory).into()),
        Err(fault) => println!(rt; "{fault:?}"),
    }
}

/// Prints the answers to the lines.
fn answer_lines(rt: &HostRuntime, rows: &str) -> io::Result<()> {
    for line in rows.lines() {
        if !line.is_empty() && !line.starts_with('#') {
            answer_line(rt, line)?;
        }
    }
    Ok(())
}

fn main(rt: HostRuntime) -> io::Result<()> {
    let mut rows = String::new(rt.alloc());
    rt.stdin().read_to_string(&mut rows)?;
    answer_lines(&rt, &rows)
}
