//! `kinds_of`: classifies the bytes of an NPY header for its grammar.
ghost use Rattle.std.specs.Prelude.{◌≡◌, IfOk, length};
ghost use Rattle.nd_model.specs.Formats.NpyHeader as header;

use std::alloc::{AllocError, Global};

// The kinds of quotes, by the key that follows.
pub const SINGLE_OTHER: u8 = 0;

pub const SINGLE_DESCR: u8 = 1;

pub const SINGLE_FORTRAN: u8 = 2;

pub const SINGLE_SHAPE: u8 = 3;

pub const DOUBLE_OTHER: u8 = 4;

pub const DOUBLE_DESCR: u8 = 5;

pub const DOUBLE_FORTRAN: u8 = 6;

pub const DOUBLE_SHAPE: u8 = 7;

pub const OPEN_BRACE: u8 = 8;

pub const CLOSE_BRACE: u8 = 9;

pub const OPEN_BRACKET: u8 = 10;

pub const CLOSE_BRACKET: u8 = 11;

pub const OPEN_PARENTHESIS: u8 = 12;

pub const CLOSE_PARENTHESIS: u8 = 13;

pub const COLON: u8 = 14;

pub const COMMA_BEFORE_QUOTE: u8 = 15;

pub const OTHER_COMMA: u8 = 16;

pub const SPACE: u8 = 17;

pub const LINE_SPACE: u8 = 18;

pub const ZERO_DIGIT: u8 = 19;

pub const OTHER_DIGIT: u8 = 20;

pub const CAPITAL_T: u8 = 21;

pub const LETTER_R: u8 = 22;

pub const LETTER_U: u8 = 23;

pub const LETTER_E: u8 = 24;

pub const CAPITAL_F: u8 = 25;

pub const LETTER_A: u8 = 26;

pub const LETTER_L: u8 = 27;

pub const LETTER_S: u8 = 28;

pub const OTHER_BYTE: u8 = 29;

fn single_quote(rest: &[u8]) -> u8
    ensures { result ≡ header.by_key 39 rest.now header.single_other header.single_descr
        header.single_fortran header.single_shape }
{
    if rest.starts_with(b"descr'") {
        SINGLE_DESCR
    } else if rest.starts_with(b"fortran_order'") {
        SINGLE_FORTRAN
    } else if rest.starts_with(b"shape'") {
        SINGLE_SHAPE
    } else {
        SINGLE_OTHER
    }
}

fn double_quote(rest: &[u8]) -> u8
    ensures { result ≡ header.by_key 34 rest.now header.double_other header.double_descr
        header.double_fortran header.double_shape }
{
    if rest.starts_with(b"descr\"") {
        DOUBLE_DESCR
    } else if rest.starts_with(b"fortran_order\"") {
        DOUBLE_FORTRAN
    } else if rest.starts_with(b"shape\"") {
        DOUBLE_SHAPE
    } else {
        DOUBLE_OTHER
    }
}

// Whether a quote comes next, behind any spaces.
fn quote_ahead(rest: &[u8]) -> bool
    ensures { result ≡ header.quote_ahead rest.now }
{
    for byte in rest {
        if *byte != b' ' {
            return *byte == b'\'' || *byte == b'"';
        }
    }
    false
}

// The kind of a comma. It looks as far as the next byte other than a space, so that all commas
// together look at each byte once.
fn comma(rest: &[u8]) -> u8
    ensures { result ≡ header.kind_of 44 rest.now }
{
    if quote_ahead(rest) {
        COMMA_BEFORE_QUOTE
    } else {
        OTHER_COMMA
    }
}

fn kind_of(byte: u8, rest: &[u8]) -> u8
    ensures { result ≡ header.kind_of byte rest.now }
{
    match byte {
        b'\'' => single_quote(rest),
        b'"' => double_quote(rest),
        b'{' => OPEN_BRACE,
        b'}' => CLOSE_BRACE,
        b'[' => OPEN_BRACKET,
        b']' => CLOSE_BRACKET,
        b'(' => OPEN_PARENTHESIS,
        b')' => CLOSE_PARENTHESIS,
        b':' => COLON,
        b',' => comma(rest),
        b' ' => SPACE,
        b'\t' | b'\n' => LINE_SPACE,
        b'0' => ZERO_DIGIT,
        b'1'..=b'9' => OTHER_DIGIT,
        b'T' => CAPITAL_T,
        b'r' => LETTER_R,
        b'u' => LETTER_U,
        b'e' => LETTER_E,
        b'F' => CAPITAL_F,
        b'a' => LETTER_A,
        b'l' => LETTER_L,
        b's' => LETTER_S,
        _ => OTHER_BYTE,
    }
}

/// Returns the kind of each byte.
pub fn kinds_of(alloc: Global, bytes: &[u8]) -> Result<Vec<u8>, AllocError>
    ensures value { IfOk result (λ v. v.items ≡ header.kinds_of bytes.now) }
    ensures len { IfOk result (λ v. length v.items ≡ length bytes.now) }
{
    let mut kinds = Vec::with_capacity(alloc, bytes.len())?;
    for (at, byte) in bytes.iter().enumerate() {
        kinds.push(kind_of(*byte, &bytes[at + 1..]))?;
    }
    Ok(kinds)
}
