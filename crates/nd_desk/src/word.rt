//! `desk_line`: reads a line as one of the words for front ends.

ghost use Rattle.std.specs.Prelude.{◌≡◌, [], ◌∷◌, option_map};
ghost use Rattle.nd_model.specs.Book.Script.{words_of};
ghost use Rattle.nd_desk.specs.Words.{
  file_line,
  line_of_words,
  long_line,
  part_line,
  read_word,
  save_line,
};
ghost use Rattle.nd_desk.specs.Lines.{line_of};

use crate::form::FileForm;
use crate::index::is_index;
use crate::raw::raw_line;
use nd_script::words::{number_of, split_word};

/// What a line says that is none of a script's commands. Positions count from 0.
#[derive(Clone, Copy)]
pub enum DeskLine<'a> {
    /// The text of a cell to be tried follows, line by line.
    Try(usize),
    /// Edits follow that are to be made as one.
    Begin,
    Word(DeskWord<'a>),
}

/// A command for front ends of one line.
#[derive(Clone, Copy)]
pub enum DeskWord<'a> {
    /// Which words there are.
    Words,
    /// Which cells ran in the last edit that was done.
    Ran,
    /// What a cell read, and of which cells.
    Reads(usize),
    /// The dtype and the shape of a name's value after a cell.
    Dtype {
        at: usize,
        name: &'a str,
    },
    /// What an index chooses of a name's value after a cell. The index stays as it is written.
    Part {
        at: usize,
        name: &'a str,
        index: &'a str,
    },
    /// The file at a path, in a form, is set as the input of a name.
    SetFile {
        name: &'a str,
        path: &'a str,
        form: FileForm<'a>,
    },
    /// A file that a cell saved is written to a path.
    SaveFile {
        at: usize,
        name: &'a str,
        path: &'a str,
    },
}

/// Returns what a line says, which is without its newline, if it is one of the words: `try 2`,
/// `part 0 x 1:5`, `input x file x.npy`. That path is all that stands behind its space.
pub fn desk_line(line: &[u8]) -> Option<DeskLine<'_>>
    ensures { option_map line_of result ≡ read_word line.now }
{
    let Ok(text) = str::from_utf8(line) else {
        return None;
    };
    text_line(text)
}

fn text_line(line: &str) -> Option<DeskLine<'_>>
    ensures { option_map line_of result ≡ line_of_words (words_of line.now) }
{
    let (word, behind) = split_word(line);
    let Some(rest) = behind else {
        return lone_word(word);
    };
    let (first, behind) = split_word(rest);
    let Some(rest) = behind else {
        return place_line(word, first);
    };
    let (second, behind) = split_word(rest);
    match behind {
        None => name_line(word, first, second),
        Some(path) => long_line(word, first, second, path),
    }
}

// A line of one word.
fn lone_word<'a>(word: &str) -> Option<DeskLine<'a>>
    ensures { option_map line_of result ≡ line_of_words (word.now ∷ []) }
{
    match word {
        "words" => Some(DeskLine::Word(DeskWord::Words)),
        "ran" => Some(DeskLine::Word(DeskWord::Ran)),
        "begin" => Some(DeskLine::Begin),
        _ => None,
    }
}

// A line of two words.
fn place_line<'a>(word: &str, place: &str) -> Option<DeskLine<'a>>
    ensures { option_map line_of result ≡ line_of_words (word.now ∷ place.now ∷ []) }
{
    match word {
        "try" => Some(DeskLine::Try(number_of(place)?)),
        "reads" => Some(DeskLine::Word(DeskWord::Reads(number_of(place)?))),
        _ => None,
    }
}

// A line of three words.
fn name_line<'a>(word: &str, place: &str, name: &'a str) -> Option<DeskLine<'a>>
    ensures { option_map line_of result ≡ line_of_words (word.now ∷ place.now ∷ name.now ∷ []) }
{
    if word != "type" || name.is_empty() {
        return None;
    }
    let at = number_of(place)?;
    Some(DeskLine::Word(DeskWord::Dtype { at, name }))
}

// proof: the words behind the third are told by their text.
fn long_line<'a>(word: &str, first: &'a str, second: &'a str, rest: &'a str) -> Option<DeskLine<'a>>
    ensures { option_map line_of result
        ≡ line_of_words (word.now ∷ first.now ∷ second.now ∷ words_of rest.now) }
{
    ending_line(word, first, second, rest)
}

// A line of four words or more.
fn ending_line<'a>(
    word: &str,
    first: &'a str,
    second: &'a str,
    rest: &'a str,
) -> Option<DeskLine<'a>>
    ensures { option_map line_of result
        ≡ long_line word.now first.now second.now (words_of rest.now) }
{
    match word {
        "input" if second == "file" => file_line(first, rest),
        "input" if second == "raw" => raw_line(first, rest),
        "save" => save_line(number_of(first)?, second, rest),
        "part" => part_line(number_of(first)?, second, rest),
        _ => None,
    }
}

// The NPY file at a path as an input.
fn file_line<'a>(name: &'a str, path: &'a str) -> Option<DeskLine<'a>>
    ensures { option_map line_of result ≡ file_line name.now path.now }
{
    if name.is_empty() || path.is_empty() {
        return None;
    }
    let form = FileForm::Npy;
    Some(DeskLine::Word(DeskWord::SetFile { name, path, form }))
}

// A part of a value, by an index, which ends its line.
fn part_line<'a>(at: usize, name: &'a str, rest: &'a str) -> Option<DeskLine<'a>>
    ensures { option_map line_of result ≡ part_line name.now (words_of rest.now) at }
{
    match split_word(rest) {
        (index, None) => index_line(at, name, index),
        (_, Some(_)) => None,
    }
}

fn index_line<'a>(at: usize, name: &'a str, index: &'a str) -> Option<DeskLine<'a>>
    ensures { option_map line_of result ≡ part_line name.now (index.now ∷ []) at }
{
    if name.is_empty() || !is_index(index) {
        return None;
    }
    Some(DeskLine::Word(DeskWord::Part { at, name, index }))
}

// A saved file that is written to a path.
fn save_line<'a>(at: usize, name: &'a str, path: &'a str) -> Option<DeskLine<'a>>
    ensures { option_map line_of result ≡ save_line name.now path.now at }
{
    if name.is_empty() || path.is_empty() {
        return None;
    }
    Some(DeskLine::Word(DeskWord::SaveFile { at, name, path }))
}
