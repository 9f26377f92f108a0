//! `parse_cell`: reads a text as a cell, or finds its fault.
ghost use Rattle.std.specs.Prelude.{◌≡◌, IfOk};
ghost use Rattle.nd_model.specs.Grammar.Kinds.{kind};
ghost use Rattle.nd_model.specs.Grammar.Predict.{read, read_all};
ghost use Rattle.nd_model.specs.Grammar.Factored.{cell};
ghost use Rattle.nd_model.specs.Grammar.Reading.{fault_of_word, fault_kind, fault_at, reading};
ghost use Rattle.nd_token.specs.Tokens.{word_of};
ghost use Rattle.nd_syntax.specs.Trees.Syntax.{kind_of, fault_of, lines_of, parsed_of};
ghost use Rattle.nd_parse.specs.Cells.Readers.{goes_on, is_over};
ghost use Rattle.nd_parse.specs.Reader.Gives.{Gives, with_rest, tokens_of, reason_of, stop_of, list_of};

use crate::cells::stmt::line;
use crate::reader::kinds::{ANY, START, next_in};
use crate::reader::read::{Failure, Read, ReadStop, Reason, Tokens, stop_at};
use crate::rules::append;
use nd_syntax::trees::{Line, ParseFault, ParseKind};
use nd_token::{BadToken, Token, Word};
use std::alloc::{AllocError, Global};

/// The most levels that brackets, signs and `**` open.
const LEVELS: u8 = 64;

/// The most statements of a cell.
const LINES: usize = 1000;

/// Whether a statement comes, where `left` more may come.
fn goes_on(left: usize, tokens: &[Token]) -> bool
    ensures { result ≡ goes_on left (tokens_of tokens.now) }
{
    left > 0 && next_in(tokens, START)
}

/// Whether a statement begins that is one too many.
fn is_over(left: usize, tokens: &[Token]) -> bool
    ensures { result ≡ is_over left (tokens_of tokens.now) }
{
    left == 0 && next_in(tokens, ANY)
}

fn cell<'t>(alloc: Global, tokens: Tokens<'t>) -> Read<'t, Vec<Line>>
    ensures { Gives (with_rest list_of) result (read kind cell (tokens_of tokens.now)) }
{
    let mut all = Vec::new(alloc);
    // from the first token on
    let (_, mut rest) = tokens.split_at(0);
    let mut left = LINES;
    'lines: while goes_on(left, rest) {
        let (more, after) = append(all, line(alloc, LEVELS, rest))?;
        all = more;
        rest = after;
        left -= 1;
    }
    if is_over(left, rest) {
        drop(all);
        return Err(stop_at(rest, Reason::TooMany));
    }
    Ok((all, rest))
}

fn whole(alloc: Global, tokens: &[Token]) -> Result<Vec<Line>, Failure>
    ensures { Gives list_of result (read_all kind cell (tokens_of tokens.now)) }
{
    let (all, rest) = cell(alloc, tokens)?;
    if rest.is_empty() {
        Ok(all)
    } else {
        drop(all);
        Err(stop_at(rest, Reason::Itself))
    }
}

fn fault_of_word(word: Word) -> ParseKind
    ensures { kind_of result ≡ fault_of_word (word_of word.entry) }
{
    match word {
        Word::Keyword(_) | Word::Quoted(_) | Word::Semicolon | Word::At | Word::ColonEqual =>
            ParseKind::LeftOut,
        _ => ParseKind::Unexpected,
    }
}

fn fault_kind(why: Reason, word: Word) -> ParseKind
    ensures { kind_of result ≡ fault_kind (reason_of why) (word_of word.entry) }
{
    match why {
        Reason::TooDeep => ParseKind::TooDeep,
        Reason::LeftOut => ParseKind::LeftOut,
        Reason::TooMany => ParseKind::TooManyStatements,
        Reason::UnknownCall => ParseKind::UnknownCall,
        Reason::Itself => fault_of_word(word),
    }
}

/// The fault of the token at which the reader stopped.
fn fault_at(tokens: &[Token], stop: ReadStop) -> ParseFault
    ensures { fault_of result ≡ fault_at (tokens_of tokens.now) (stop_of stop) }
{
    match tokens.get(tokens.len().saturating_sub(stop.left)) {
        Some(token) => ParseFault {
            kind: fault_kind(stop.why, token.word),
            line: token.line,
            column: token.column,
        },
        None => ParseFault {
            kind: ParseKind::Unexpected,
            line: 1,
            column: 1,
        },
    }
}

/// Returns the statements of a text, or its fault: the first byte that begins no token, or else the
/// first token that continues no cell.
///
/// The lines `x = 1` and `print(x)` are two statements. The text `x = 1.5` has the fault `BadToken`
/// at line 1, column 5.
///
/// It takes time in proportion to the text, and nests at most 64 calls of itself deep, for
/// brackets, signs and `**`.
#[tactic(auto, unfolding(nd_model::specs::Grammar::Reading::reading))]
pub fn parse_cell(alloc: Global, text: &str) -> Result<Result<Vec<Line>, ParseFault>, AllocError>
    ensures { IfOk result (λ r. reading text.now ≡ parsed_of r) }
{
    let tokens = match nd_token::tokens(alloc, text)? {
        Ok(tokens) => tokens,
        Err(BadToken { line, column }) => {
            return Ok(Err(ParseFault {
                kind: ParseKind::BadToken,
                line,
                column,
            }));
        }
    };
    match whole(alloc, &tokens) {
        Ok(lines) => Ok(Ok(lines)),
        Err(Failure::Stopped(stop)) => Ok(Err(fault_at(&tokens, stop))),
        Err(Failure::Memory(memory)) => Err(memory.into()),
    }
}
