//! `unescape`: the text that a row with escapes stands for.

ghost use Rattle.std.specs.Prelude.{◌≡◌, ◌≤◌, Contains, IfOk, length, string_bytes};

use nd_memory::OutOfMemory;
use std::alloc::{AllocError, Global};

/// The most bytes that a repetition makes.
const MOST_REPEATED: usize = 1 << 20;

/// The escapes of one letter, and the characters that they stand for.
const LETTERS: [(char, char); 4] = [('n', '\n'), ('r', '\r'), ('t', '\t'), ('\\', '\\')];

/// Why a line stands for no text.
#[derive(Clone, Copy, Debug)]
pub enum EscapeFault {
    /// What stands behind a backslash is no escape.
    UnknownEscape,
    /// Between the braces of `\u{..}` stands no character's number.
    UnknownCharacter,
    /// `\{..}` has no count, no colon or no closing brace.
    BadRepetition,
    /// A repetition makes more than 2^20 bytes.
    TooLong,
    /// The memory ran out.
    Memory(OutOfMemory),
}

impl From<AllocError> for EscapeFault {
    fn from(refused: AllocError) -> EscapeFault {
        EscapeFault::Memory(refused.into())
    }
}

/// Appends what an escape of one letter stands for, and returns what stands behind it.
fn push_letter<'a>(text: &mut String, escape: &'a str) -> Result<&'a str, EscapeFault>
    ensures { IfOk result (λ rest. length rest.now ≤ length escape.now) }
{
    for (letter, character) in LETTERS {
        if let Some(rest) = escape.strip_prefix(letter) {
            text.push(character)?;
            return Ok(rest);
        }
    }
    Err(EscapeFault::UnknownEscape)
}

/// The character that has this number in hexadecimal digits.
fn character_of(digits: &str) -> Option<char> {
    char::from_u32(u32::from_str_radix(digits, 16).ok()?)
}

/// Appends the character whose number stands before the closing brace, and returns what stands behind that.
fn push_character<'a>(text: &mut String, escape: &'a str) -> Result<&'a str, EscapeFault>
    ensures { IfOk result (λ rest. length rest.now ≤ length escape.now) }
{
    let (digits, rest) = escape.split_once('}').ok_or(EscapeFault::UnknownCharacter)?;
    text.push(character_of(digits).ok_or(EscapeFault::UnknownCharacter)?)?;
    Ok(rest)
}

/// The text of a piece.
fn unescape_piece(alloc: Global, piece: &str) -> Result<String, EscapeFault> {
    let mut text = String::new(alloc);
    let mut rest = piece;
    while let Some((plain, escape)) = rest.split_once('\\') {
        text.push_str(plain)?;
        rest = push_letter(&mut text, escape)?;
    }
    text.push_str(rest)?;
    Ok(text)
}

/// The text of `count` pieces, or the refusal of a text that is too long.
fn repeat(alloc: Global, piece: &str, count: usize) -> Result<String, EscapeFault> {
    match piece.len().checked_mul(count) {
        Some(length) if length <= MOST_REPEATED => Ok(piece.repeat(alloc, count)?),
        _ => Err(EscapeFault::TooLong),
    }
}

/// The count and the piece of a repetition.
fn count_and_piece(repetition: &str) -> Option<(usize, &str)> {
    let (count, piece) = repetition.split_once(':')?;
    Some((count.parse().ok()?, piece))
}

/// Appends the repetition that stands before the closing brace, and returns what stands behind that.
fn push_repetition<'a>(
    alloc: Global,
    text: &mut String,
    escape: &'a str,
) -> Result<&'a str, EscapeFault>
    ensures { IfOk result (λ rest. length rest.now ≤ length escape.now) }
{
    let (repetition, rest) = escape.split_once('}').ok_or(EscapeFault::BadRepetition)?;
    let (count, piece) = count_and_piece(repetition).ok_or(EscapeFault::BadRepetition)?;
    let piece = unescape_piece(alloc, piece)?;
    text.push_str(repeat(alloc, piece.as_str(), count)?.as_str())?;
    Ok(rest)
}

/// Appends what the escape at the front stands for, and returns what stands behind it.
fn push_escape<'a>(
    alloc: Global,
    text: &mut String,
    escape: &'a str,
) -> Result<&'a str, EscapeFault>
    ensures { IfOk result (λ rest. length rest.now ≤ length escape.now) }
{
    if let Some(character) = escape.strip_prefix("u{") {
        return push_character(text, character);
    }
    if let Some(repetition) = escape.strip_prefix('{') {
        return push_repetition(alloc, text, repetition);
    }
    push_letter(text, escape)
}

/// The text that a line stands for: itself, where it has no backslash. `a\nb` stands for two lines,
/// and `\{3:ab}` for `ababab`.
pub fn unescape(alloc: Global, line: &str) -> Result<String, EscapeFault>
    ensures { ¬ Contains line.now 92 → IfOk result (λ text. string_bytes text ≡ line.now) }
{
    let mut text = String::new(alloc);
    let mut rest = line;
    while let Some((plain, escape)) = rest.split_once('\\') {
        text.push_str(plain)?;
        rest = push_escape(alloc, &mut text, escape)?;
    }
    text.push_str(rest)?;
    Ok(text)
}
