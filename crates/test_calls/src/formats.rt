//! `print_format`: reads format strings with spaces, which no line of a script can say.

use nd_npy::pep3118::{FormatError, FormatFault, parse_format, write_format};
use nd_types::ElemType;
use std::alloc::AllocError;
use std::io;

/// The name of a fault, and the byte that it tells.
fn words_of(fault: FormatFault) -> (&'static str, Option<usize>) {
    match fault {
        FormatFault::UnknownCode(at) => ("UnknownCode", Some(at)),
        FormatFault::Unclosed(at) => ("Unclosed", Some(at)),
        FormatFault::NoName(at) => ("NoName", Some(at)),
        FormatFault::DoubleName(at) => ("DoubleName", Some(at)),
        FormatFault::CountNotHere(at) => ("CountNotHere", Some(at)),
        FormatFault::LargerThanItem => ("LargerThanItem", None),
        FormatFault::TooManyFields => ("TooManyFields", None),
        FormatFault::BadItemSize => ("BadItemSize", None),
    }
}

fn print_fault(rt: &HostRuntime, fault: FormatFault) -> io::Result<()> {
    match words_of(fault) {
        (name, Some(at)) => println!(rt; "{name} {at}"),
        (name, None) => println!(rt; "{name}"),
    }
}

/// Prints the size of a type, and the format that is written of it.
fn print_taken(rt: &HostRuntime, elem: &ElemType) -> io::Result<()> {
    let written = write_format(rt.alloc(), elem)?;
    println!(rt; "{} as {written}", elem.size())
}

/// Prints what a text is as the format of an item of this size.
fn print_sized(rt: &HostRuntime, size: u64, format: &str) -> io::Result<()> {
    match parse_format(rt.alloc(), format, size) {
        Ok(elem) => print_taken(rt, &elem),
        Err(FormatError::Fault(fault)) => print_fault(rt, fault),
        Err(FormatError::Memory(memory)) => Err(AllocError::from(memory).into()),
    }
}

/// Prints what the text behind a size is as the format of an item of this size.
pub(crate) fn print_format(rt: &HostRuntime, text: &str) -> io::Result<()> {
    let (size, format) = text.split_once(' ').unwrap_or((text, ""));
    match size.parse() {
        Ok(size) => print_sized(rt, size, format),
        Err(_) => println!(rt; "bad line"),
    }
}
