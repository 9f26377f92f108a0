//! Rows of scripts and of lists of edits, and command lines of the program.
//!
//! Each argument `rows FILE` names a file of rows. A script stands below each line `= TITLE`, and a
//! list of edits below each line `= edits: TITLE`. A script's lines may have the escapes of
//! `test_rows`.
//!
//! Each other argument is a command line of the program, which is run. Its exit status is printed,
//! and that of the last one is this program's.
#![tactic(auto)]

mod edits;
mod scripts;

use std::io::{self, Read};
use std::process::ExitCode;
use std::{env, fs};

/// What stands before the title of a row that is not the first of its file.
const TITLE: &str = "\n= ";

/// What stands before the title of the first row of a file.
const FIRST_TITLE: &str = "= ";

/// What stands before the name of a file of rows.
const ROWS: &str = "rows ";

/// The title of a row, and the lines below it.
fn title_and_lines(row: &str) -> (&str, &str) {
    row.split_once('\n').unwrap_or((row, ""))
}

/// Runs the rows of a file.
fn run_table(rt: &HostRuntime, table: &str) -> io::Result<()> {
    let rows = table.strip_prefix(FIRST_TITLE).unwrap_or(table);
    for row in rows.split(TITLE) {
        let (title, lines) = title_and_lines(row);
        match title.strip_prefix("edits: ") {
            Some(title) => edits::run_row(rt, title, lines)?,
            None => scripts::run_row(rt, title, lines)?,
        }
    }
    Ok(())
}

/// Runs the rows of the file at the path.
fn run_file(rt: &HostRuntime, path: &str) -> io::Result<()> {
    let mut table = String::new(rt.alloc());
    fs::open(rt, path)?.read_to_string(&mut table)?;
    run_table(rt, &table)
}

/// Runs the rows of each file that is named, and the program with each other command line.
fn run_arguments(rt: &HostRuntime, arguments: &[String]) -> io::Result<ExitCode> {
    let mut status = ExitCode::SUCCESS;
    for argument in arguments {
        match argument.strip_prefix(ROWS) {
            Some(path) => run_file(rt, path)?,
            None => status = scripts::run_program(rt, argument.as_str())?,
        }
    }
    Ok(status)
}

fn main(rt: HostRuntime) -> io::Result<ExitCode> {
    let arguments: Vec<String> = env::args(&rt)?.skip(1).collect(rt.alloc())?;
    run_arguments(&rt, &arguments)
}
