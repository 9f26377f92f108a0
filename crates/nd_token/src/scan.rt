//! `tokens`: the pass over a text that gives its tokens.

ghost use Rattle.std.specs.Prelude.{◌≡◌, ◌+◌, ◌<◌, ◌≤◌, ◌^◌, ◌++◌, IfOk, IfSome, OnOk, drop, length, map, option_to_list};
ghost use Rattle.std.specs.Option.{option_map};
ghost use Rattle.nd_model.specs.Grammar.Lexing.{after_blank, after_newline, after_word, ahead, at_first, comment_length, depth_after, ended, ended_by_newline, piece_at, token_here, tokens};
ghost use Rattle.nd_token.specs.States.{piece_of, place_of, size_of, state_of};
ghost use Rattle.nd_token.specs.Tokens.{token_of, tokens_of, word_of};

use crate::token::{BadToken, Token, Word};
use crate::word::{bytes_from, word_at};
use std::alloc::{AllocError, Global};

// The front of a text: bytes that separate tokens, a newline, or a token, with the number of its
// bytes.
#[derive(Clone, Copy)]
enum Piece<'a> {
    Blank(usize),
    Newline,
    Lexeme(Word<'a>, usize),
}

// Line and column in bytes, both from 1.
#[derive(Clone, Copy)]
struct Place {
    line: usize,
    column: usize,
}

// The state of the pass.
#[derive(Clone, Copy)]
struct State {
    // the line and column of the next byte
    here: Place,
    // how many brackets are open
    depth: usize,
    // where the statement's last token ends, `None` before its first
    behind: Option<Place>,
}

impl Place {
    fn ahead(self, count: usize) -> Place
        requires { self.column + count < 2 ^ 64 }
        ensures { place_of result ≡ ahead count (place_of self) }
    {
        Place {
            line: self.line,
            column: self.column + count,
        }
    }
}

// The number of brackets that are open behind the word.
fn depth_after(word: &Word, depth: usize) -> usize
    requires { depth + 1 < 2 ^ 64 }
    ensures { result ≡ depth_after (word_of word.now) depth }
{
    match word {
        Word::OpenParen | Word::OpenBracket => depth + 1,
        Word::CloseParen | Word::CloseBracket => depth.saturating_sub(1),
        _ => depth,
    }
}

impl State {
    // The state before the first byte of a text.
    fn first() -> State
        ensures { state_of result ≡ at_first }
    {
        State {
            here: Place { line: 1, column: 1 },
            depth: 0,
            behind: None,
        }
    }

    // The state behind `count` bytes that separate tokens.
    fn after_blank(self, count: usize) -> State
        requires { self.here.column + count < 2 ^ 64 }
        ensures { state_of result ≡ after_blank count (state_of self) }
    {
        State {
            here: self.here.ahead(count),
            ..self
        }
    }

    fn after_newline(self) -> State
        requires { self.here.line + 1 < 2 ^ 64 }
        ensures { state_of result ≡ after_newline (state_of self) }
    {
        State {
            here: Place {
                line: self.here.line + 1,
                column: 1,
            },
            depth: self.depth,
            behind: if self.depth == 0 { None } else { self.behind },
        }
    }

    fn after_word(self, word: &Word, count: usize) -> State
        requires column { self.here.column + count < 2 ^ 64 }
        requires depth { self.depth + 1 < 2 ^ 64 }
        ensures { state_of result ≡ after_word (word_of word.now) count (state_of self) }
    {
        let here = self.here.ahead(count);
        State {
            here,
            depth: depth_after(word, self.depth),
            behind: Some(here),
        }
    }

    fn token_here(self, word: Word<'_>) -> Token<'_>
        ensures { token_of result ≡ token_here (word_of word.entry) (state_of self) }
    {
        Token {
            word,
            line: self.here.line,
            column: self.here.column,
            starts: self.behind.is_none(),
        }
    }

    // The end of the statement, where one has begun.
    fn ended<'a>(self) -> Option<Token<'a>>
        ensures { map token_of (option_to_list result) ≡ ended (state_of self) }
    {
        self.behind.map(|place| Token {
            word: Word::End,
            line: place.line,
            column: place.column,
            starts: false,
        })
    }

    fn ended_by_newline<'a>(self) -> Option<Token<'a>>
        ensures { map token_of (option_to_list result) ≡ ended_by_newline (state_of self) }
    {
        if self.depth == 0 { self.ended() } else { None }
    }
}

// The number of bytes of a comment, which ends with its line.
fn comment_length(text: &[u8]) -> usize
    ensures { result ≡ comment_length text.now }
{
    text.iter().take_while(|byte| **byte != b'\n').count()
}

// The piece at this index of the text.
#[tactic(auto, unfolding(nd_model::specs::Grammar::Lexing::piece_at))]
fn piece_at(text: &str, at: usize) -> Option<Piece<'_>>
    requires { at < length text.now }
    ensures value { option_map piece_of result ≡ piece_at (drop at text.now) }
    ensures fits { IfSome result (λ p. (0 < size_of (piece_of p))
        × (at + size_of (piece_of p) ≤ length text.now)) }
{
    let bytes = text.as_bytes();
    match bytes[at] {
        b'\n' => Some(Piece::Newline),
        b' ' | b'\t' => Some(Piece::Blank(1)),
        b'\r' if bytes.get(at + 1) == Some(&b'\n') => Some(Piece::Blank(1)),
        b'\r' => None,
        b'#' => Some(Piece::Blank(comment_length(bytes_from(text, at)))),
        _ => {
            let (word, count) = word_at(text, at)?;
            Some(Piece::Lexeme(word, count))
        }
    }
}

fn push_end<'a>(tokens: &mut Vec<Token<'a>>, end: Option<Token<'a>>) -> Result<(), AllocError>
    ensures { OnOk result (map token_of tokens.new.items
        ≡ map token_of tokens.old.items ++ map token_of (option_to_list end.entry)) }
{
    if let Some(token) = end {
        tokens.push(token)?;
    }
    Ok(())
}

/// Returns the tokens of a text, each statement with its end, or the first byte that begins no
/// token. Brackets join lines.
///
/// `x = 1` has the tokens `x`, `=` and `1` in columns 1, 3 and 5, and the statement's end in column
/// 6.
pub fn tokens<'a>(
    alloc: Global,
    text: &'a str,
) -> Result<Result<Vec<Token<'a>>, BadToken>, AllocError>
    ensures { IfOk result (λ r. tokens_of r ≡ tokens text.now) }
{
    let mut tokens = Vec::new(alloc);
    let mut state = State::first();
    let mut at = 0;
    while at < text.len() {
        match piece_at(text, at) {
            None => return Ok(Err(BadToken {
                line: state.here.line,
                column: state.here.column,
            })),
            Some(Piece::Blank(count)) => {
                state = state.after_blank(count);
                at += count;
            }
            Some(Piece::Newline) => {
                push_end(&mut tokens, state.ended_by_newline())?;
                state = state.after_newline();
                at += 1;
            }
            Some(Piece::Lexeme(word, count)) => {
                tokens.push(state.token_here(word))?;
                state = state.after_word(&word, count);
                at += count;
            }
        }
    }
    push_end(&mut tokens, state.ended())?;
    Ok(Ok(tokens))
}
