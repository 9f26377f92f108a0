//! `command_of`: reads a line of a script as a command.

ghost use Rattle.std.specs.Prelude.{◌≡◌, [], ◌∷◌, IfOk};
ghost use Rattle.nd_model.specs.Book.Script.{
  is_dot,
  line_of_words,
  number_word,
  placed_line,
  read_line,
  rule_line,
  with_number,
  words_of,
};
ghost use Rattle.nd_script.specs.Words.Command.{line_of};

use crate::words::input::input_of;
use crate::words::word::{number_of, split_word};
use nd_input::Input;
use std::alloc::{AllocError, Global};

/// The command of a line of a script, outside a source. Positions count from 0.
#[derive(Drop)]
pub enum LineCommand<'a> {
    /// The text of a new cell follows, line by line.
    Insert(usize),
    /// The new text of a cell follows, line by line.
    Edit(usize),
    Remove(usize),
    Move { from: usize, to: usize },
    Show(usize),
    Source(usize),
    Names(usize),
    Value { at: usize, name: &'a str },
    Saved { at: usize, name: &'a str },
    SetInput { name: &'a str, input: Input },
    DropInput(&'a str),
    PythonRule,
    AtomicRule,
    Count,
    /// An empty line, or a comment.
    Silent,
    /// The line is no command.
    Bad,
}

/// Returns the command of a line, which is without its newline: `show 2`, `move 0 3`. Only an input
/// takes memory.
pub fn command_of(alloc: Global, line: &[u8]) -> Result<LineCommand<'_>, AllocError>
    ensures { IfOk result (λ c. line_of c ≡ read_line line.now) }
{
    if line.is_empty() || line[0] == b'#' {
        return Ok(LineCommand::Silent);
    }
    let Ok(text) = str::from_utf8(line) else {
        return Ok(LineCommand::Bad);
    };
    let command = text_command(alloc, text)?;
    Ok(command)
}

/// Returns whether a line ends a source: it is a single dot.
pub fn is_end_of_source(line: &[u8]) -> bool
    ensures { result ≡ is_dot line.now }
{
    matches!(line, b".")
}

fn text_command(alloc: Global, line: &str) -> Result<LineCommand<'_>, AllocError>
    ensures { IfOk result (λ c. line_of c ≡ line_of_words (words_of line.now)) }
{
    let (word, behind) = split_word(line);
    let Some(rest) = behind else {
        return Ok(lone_command(word));
    };
    let (first, behind) = split_word(rest);
    let Some(rest) = behind else {
        return Ok(single_command(word, first));
    };
    let (second, behind) = split_word(rest);
    match behind {
        None => Ok(pair_command(word, first, second)),
        Some(rest) => {
            let command = long_command(alloc, word, first, second, rest)?;
            Ok(command)
        }
    }
}

// A command of four words or more.
fn long_command<'a>(
    alloc: Global,
    word: &str,
    name: &'a str,
    kind: &str,
    rest: &str,
) -> Result<LineCommand<'a>, AllocError>
    ensures { IfOk result (λ c. line_of c
        ≡ line_of_words (word.now ∷ name.now ∷ kind.now ∷ words_of rest.now)) }
{
    if word != "input" {
        return Ok(LineCommand::Bad);
    }
    match input_of(alloc, kind, rest)? {
        Some(input) if !name.is_empty() => Ok(LineCommand::SetInput { name, input }),
        _ => Ok(LineCommand::Bad),
    }
}

// A command of two words.
fn single_command<'a>(word: &str, first: &'a str) -> LineCommand<'a>
    ensures { line_of result ≡ line_of_words (word.now ∷ first.now ∷ []) }
{
    match word {
        "drop" if first.is_empty() => LineCommand::Bad,
        "drop" => LineCommand::DropInput(first),
        "rule" => rule_command(first),
        _ => place_command(word, first),
    }
}

// A command that sets the rule.
fn rule_command<'a>(rule: &str) -> LineCommand<'a>
    ensures { line_of result ≡ rule_line rule.now }
{
    match rule {
        "python" => LineCommand::PythonRule,
        "atomic" => LineCommand::AtomicRule,
        _ => LineCommand::Bad,
    }
}

// A command of one word.
fn lone_command<'a>(word: &str) -> LineCommand<'a>
    ensures { line_of result ≡ line_of_words (word.now ∷ []) }
{
    match word {
        "count" => LineCommand::Count,
        _ => LineCommand::Bad,
    }
}

// A command of a word and a position.
fn place_command<'a>(word: &str, place: &str) -> LineCommand<'a>
    ensures { line_of result ≡ with_number (number_word place.now) (placed_line word.now) }
{
    let Some(at) = number_of(place) else {
        return LineCommand::Bad;
    };
    match word {
        "insert" => LineCommand::Insert(at),
        "edit" => LineCommand::Edit(at),
        "remove" => LineCommand::Remove(at),
        "show" => LineCommand::Show(at),
        "source" => LineCommand::Source(at),
        "names" => LineCommand::Names(at),
        _ => LineCommand::Bad,
    }
}

// A command of a word and two more.
fn pair_command<'a>(word: &str, first: &str, second: &'a str) -> LineCommand<'a>
    ensures { line_of result ≡ line_of_words (word.now ∷ first.now ∷ second.now ∷ []) }
{
    match word {
        "move" => match (number_of(first), number_of(second)) {
            (Some(from), Some(to)) => LineCommand::Move { from, to },
            _ => LineCommand::Bad,
        },
        "value" => match number_of(first) {
            Some(at) if !second.is_empty() => LineCommand::Value { at, name: second },
            _ => LineCommand::Bad,
        },
        "saved" => match number_of(first) {
            Some(at) if !second.is_empty() => LineCommand::Saved { at, name: second },
            _ => LineCommand::Bad,
        },
        _ => LineCommand::Bad,
    }
}
