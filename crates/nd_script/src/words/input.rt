//! `input_of`: the input that a line of a script writes out.

ghost use Rattle.std.specs.Prelude.{
  ◌≡◌,
  ◌≢◌,
  ◌<◌,
  ◌∷◌,
  IfErr,
  IfOk,
  IfSome,
  List,
  None,
  Option,
  codes,
  length,
  option_copied,
  option_map,
  ℕ,
};
ghost use Rattle.nd_model.specs.Book.Script.{
  every,
  hex_bytes,
  hex_word,
  input_of_words,
  integer_word,
  list_word,
  negative,
  number_word,
  positive,
  words_of,
};
ghost use Rattle.nd_input.specs.Sources.{source_of};
ghost use Rattle.nd_script.specs.Words.Command.{words_in};
ghost use Rattle.nd_script.specs.Words.Words.{parts_behind, parts_of, six_of};

use crate::words::word::{number_of, split_word};
use nd_input::Input;
use std::alloc::{AllocError, Global};

/// Returns the input that words write, of which the first says its form, or `None` where they write
/// none.
pub(crate) fn input_of(alloc: Global, kind: &str, rest: &str) -> Result<Option<Input>, AllocError>
    ensures { IfOk result (λ o. option_map source_of o
        ≡ input_of_words kind.now (words_of rest.now)) }
{
    match kind {
        "npy" => npy_of(alloc, rest),
        "buffer" => buffer_of(alloc, rest),
        _ => Ok(None),
    }
}

/// The bytes of an NPY file.
fn npy_of(alloc: Global, rest: &str) -> Result<Option<Input>, AllocError>
    ensures { IfOk result (λ o. option_map source_of o
        ≡ input_of_words (codes "npy") (words_of rest.now)) }
{
    match split_word(rest) {
        (_, Some(_)) => Ok(None),
        (word, None) => match bytes_of(alloc, word)? {
            Some(bytes) => Ok(Some(Input::Npy(bytes))),
            None => Ok(None),
        },
    }
}

/// The words of a buffer: format, itemsize, lengths, strides, offset and bytes.
#[derive(Clone, Copy)]
struct BufferWords<'a> {
    format: &'a str,
    itemsize: &'a str,
    shape: &'a str,
    strides: &'a str,
    offset: &'a str,
    bytes: &'a str,
}

/// The words, where there are six.
fn six_words(text: &str) -> Option<BufferWords<'_>>
    ensures { option_map words_in result ≡ six_of (words_of text.now) }
{
    let (format, rest) = split_word(text);
    let (itemsize, rest) = split_word(rest?);
    let (shape, rest) = split_word(rest?);
    let (strides, rest) = split_word(rest?);
    let (offset, rest) = split_word(rest?);
    let (bytes, rest) = split_word(rest?);
    match rest {
        Some(_) => None,
        None => Some(BufferWords {
            format,
            itemsize,
            shape,
            strides,
            offset,
            bytes,
        }),
    }
}

/// A strided buffer.
fn buffer_of(alloc: Global, rest: &str) -> Result<Option<Input>, AllocError>
    ensures { IfOk result (λ o. option_map source_of o
        ≡ input_of_words (codes "buffer") (words_of rest.now)) }
{
    match six_words(rest) {
        Some(words) => buffer_of_words(alloc, words),
        None => Ok(None),
    }
}

/// The strided buffer of six words.
fn buffer_of_words(alloc: Global, words: BufferWords) -> Result<Option<Input>, AllocError>
    ensures { IfOk result (λ o. option_map source_of o
        ≡ input_of_words (codes "buffer") (words_in words.entry)) }
{
    if words.format.is_empty() {
        return Ok(None);
    }
    let (Some(itemsize), Some(offset)) = (u64::read(words.itemsize), u64::read(words.offset)) else {
        return Ok(None);
    };
    let Some(shape) = numbers_of(alloc, words.shape)? else {
        return Ok(None);
    };
    let Some(strides) = numbers_of(alloc, words.strides)? else {
        return Ok(None);
    };
    let Some(bytes) = bytes_of(alloc, words.bytes)? else {
        return Ok(None);
    };
    let format = String::from_str(alloc, words.format)?;
    Ok(Some(Input::Buffer {
        format,
        itemsize,
        shape,
        strides,
        offset,
        bytes,
    }))
}

/// The bytes of a word of two hex digits each; a dash stands for none.
fn bytes_of(alloc: Global, word: &str) -> Result<Option<Vec<u8>>, AllocError>
    ensures { IfOk result (λ o. option_map (λ v. v.items) o ≡ hex_word word.now) }
{
    match word {
        "" => Ok(None),
        "-" => Ok(Some(Vec::new(alloc))),
        _ => bytes_of_digits(alloc, word),
    }
}

/// The bytes of two hex digits each.
fn bytes_of_digits(alloc: Global, word: &str) -> Result<Option<Vec<u8>>, AllocError>
    ensures { IfOk result (λ o. option_map (λ v. v.items) o ≡ hex_bytes word.now) }
{
    let digits = word.as_bytes();
    if digits.len() % 2 == 1 {
        return Ok(None);
    }
    let mut bytes = vec![in alloc; 0u8; digits.len() / 2]?;
    match hex::decode_to_slice(digits, &mut bytes) {
        Ok(()) => Ok(Some(bytes)),
        Err(_) => Ok(None),
    }
}

/// A kind of numbers that a word can be read as.
pub trait Numeral: Copy {
    ghost numeral: { List ℕ → Option Self };

    /// Returns the number whose decimal text the word is.
    fn read(word: &str) -> Option<Self>
        ensures { result ≡ numeral word.now };
}

impl Numeral for u64 {
    ghost numeral = { number_word };

    fn read(word: &str) -> Option<u64> {
        match number_of(word) {
            Some(number) => Some(number as u64),
            None => None,
        }
    }
}

impl Numeral for i64 {
    ghost numeral = { integer_word };

    fn read(word: &str) -> Option<i64> {
        match word.strip_prefix('-') {
            Some(digits) => negative(number_of(digits)),
            None => positive(number_of(word)),
        }
    }
}

/// The number as an integer of 64 bits.
fn positive(number: Option<usize>) -> Option<i64>
    ensures { result ≡ positive number }
{
    match number {
        Some(number) if number < 1 << 63 => Some(number as i64),
        _ => None,
    }
}

/// The 64-bit integer with the other sign. 0 is written without a sign.
fn negative(number: Option<usize>) -> Option<i64>
    ensures { result ≡ negative number }
{
    match number {
        Some(number) if 0 < number && number <= 1 << 63 => Some((-(number as i128)) as i64),
        _ => None,
    }
}

/// Returns the first part of a list, and what follows the comma that ends it.
pub fn split_part(text: &str) -> (&str, Option<&str>)
    ensures parts { parts_of text.now
        ≡ result.0.now ∷ parts_behind (option_copied result.1) }
    ensures shorter { IfSome result.1 (λ rest. length rest.now < length text.now) }
{
    match text.split_once(',') {
        Some((part, rest)) => (part, Some(rest)),
        None => (text, None),
    }
}

/// Returns the numbers of a list, separated by commas; `()` has none.
pub fn numbers_of<N: Numeral>(alloc: Global, word: &str) -> Result<Option<Vec<N>>, AllocError>
    ensures { IfOk result (λ o. option_map (λ v. v.items) o ≡ list_word N.numeral word.now) }
{
    if word == "()" {
        return Ok(Some(Vec::new(alloc)));
    }
    numbers_in(alloc, word)
}

/// The numbers of a list, separated by commas.
fn numbers_in<N: Numeral>(alloc: Global, word: &str) -> Result<Option<Vec<N>>, AllocError>
    ensures { IfOk result (λ o. option_map (λ v. v.items) o ≡ every N.numeral (parts_of word.now)) }
{
    let mut all = Vec::new(alloc);
    let mut left = Some(word);
    while let Some(text) = left {
        let (part, behind) = split_part(text);
        let Some(number) = N::read(part) else {
            return Ok(None);
        };
        all.push(number)?;
        left = behind;
    }
    Ok(Some(all))
}
