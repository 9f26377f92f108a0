//! `run_row` and `run_program`: run scripts, and command lines of the program.

use nd_commands::{ScriptReader, ScriptWriter, run_script, status_of};
use nd_notebook::Meter;
use std::alloc::{AllocError, Global};
use std::io::{self, Write};
use std::process::ExitCode;
use test_rows::{EscapeFault, unescape};

/// Prints the answers to a script, below its title.
fn print_answers(rt: &HostRuntime, title: &str, script: &[u8]) -> io::Result<()> {
    println!(rt; "= {title}")?;
    let mut reader = ScriptReader::new(script);
    let mut writer = ScriptWriter::new(Vec::new(rt.alloc()));
    let ended = run_script(rt.alloc(), &mut reader, &mut writer, &mut Meter::new(rt));
    rt.stdout().write_all(writer.into_inner().as_slice())?;
    match ended {
        Ok(()) => Ok(()),
        Err(fault) => println!(rt; "{fault}"),
    }
}

/// The script of some lines.
fn script_of(alloc: Global, lines: &str) -> Result<String, EscapeFault> {
    let mut script = String::new(alloc);
    for line in lines.lines() {
        script.push_str(unescape(alloc, line)?.as_str())?;
        script.push('\n')?;
    }
    Ok(script)
}

/// Runs the script of some lines, and prints its answers below its title.
pub(crate) fn run_row(rt: &HostRuntime, title: &str, lines: &str) -> io::Result<()> {
    match script_of(rt.alloc(), lines) {
        Ok(script) => print_answers(rt, title, script.as_bytes()),
        Err(fault) => println!(rt; "bad row {title}: {fault:?}"),
    }
}

/// The words of a command line of the program.
fn words_of(alloc: Global, line: &str) -> Result<Vec<String>, AllocError> {
    let mut words = Vec::new(alloc);
    words.push(String::from_str(alloc, "ndnote")?)?;
    for word in line.split(' ') {
        words.push(String::from_str(alloc, word)?)?;
    }
    Ok(words)
}

/// Runs the program with this command line, and prints its exit status.
pub(crate) fn run_program(rt: &HostRuntime, line: &str) -> io::Result<ExitCode> {
    println!(rt; "= ndnote {line}")?;
    let status = status_of(rt, &words_of(rt.alloc(), line)?);
    println!(rt; "{status:?}")?;
    Ok(status)
}
