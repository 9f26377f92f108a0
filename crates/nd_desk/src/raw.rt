//! `raw_line`: reads a line that sets a strided buffer of the bytes of a file.

ghost use Rattle.std.specs.Prelude.{◌≡◌, is_some, option_map};
ghost use Rattle.nd_model.specs.Book.Script.{every, list_word, words_of};
ghost use Rattle.nd_script.specs.Words.Words.{parts_of};
ghost use Rattle.nd_desk.specs.Lines.{line_of, six_of, words_in};
ghost use Rattle.nd_desk.specs.Words.{raw_line};

use crate::form::FileForm;
use crate::word::{DeskLine, DeskWord};
use nd_script::words::{Numeral, split_part, split_word};

/// The words behind `raw`.
#[derive(Clone, Copy)]
pub struct RawWords<'a> {
    pub path: &'a str,
    pub format: &'a str,
    pub itemsize: &'a str,
    pub shape: &'a str,
    pub strides: &'a str,
    pub offset: &'a str,
}

// The words, where there are six.
fn six_words(text: &str) -> Option<RawWords<'_>>
    ensures { option_map words_in result ≡ six_of (words_of text.now) }
{
    let (path, rest) = split_word(text);
    let (format, rest) = split_word(rest?);
    let (itemsize, rest) = split_word(rest?);
    let (shape, rest) = split_word(rest?);
    let (strides, rest) = split_word(rest?);
    let (offset, rest) = split_word(rest?);
    match rest {
        Some(_) => None,
        None => Some(RawWords {
            path,
            format,
            itemsize,
            shape,
            strides,
            offset,
        }),
    }
}

// Whether all parts of a list are numbers.
fn are_numerals<N: Numeral>(word: &str) -> bool
    ensures { result ≡ is_some (every N.numeral (parts_of word.now)) }
{
    let mut left = Some(word);
    while let Some(text) = left {
        let (part, behind) = split_part(text);
        if N::read(part).is_none() {
            return false;
        }
        left = behind;
    }
    true
}

// Whether a word is a list of numbers; `()` has none.
fn is_list<N: Numeral>(word: &str) -> bool
    ensures { result ≡ is_some (list_word N.numeral word.now) }
{
    word == "()" || are_numerals::<N>(word)
}

// What a line says by these words.
fn raw_of_words<'a>(name: &'a str, words: RawWords<'a>) -> Option<DeskLine<'a>>
    ensures { option_map line_of result ≡ raw_line name.now (words_in words.entry) }
{
    if name.is_empty() || words.path.is_empty() || words.format.is_empty() {
        return None;
    }
    let itemsize = u64::read(words.itemsize)?;
    if !is_list::<u64>(words.shape) || !is_list::<i64>(words.strides) {
        return None;
    }
    let offset = u64::read(words.offset)?;
    let form = FileForm::Raw {
        format: words.format,
        itemsize,
        shape: words.shape,
        strides: words.strides,
        offset,
    };
    Some(DeskLine::Word(DeskWord::SetFile {
        name,
        path: words.path,
        form,
    }))
}

/// Returns what a line says behind `raw`: the input of a name is a buffer of the bytes of a file.
pub(crate) fn raw_line<'a>(name: &'a str, rest: &'a str) -> Option<DeskLine<'a>>
    ensures { option_map line_of result ≡ raw_line name.now (words_of rest.now) }
{
    raw_of_words(name, six_words(rest)?)
}
