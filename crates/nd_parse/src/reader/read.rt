//! `take` and `Read`: reading one token, and where a reader stops.
ghost use Rattle.std.specs.Prelude.{◌≡◌, IfOk, length, if◌then◌else◌, string_bytes};
ghost use Rattle.nd_memory.specs.Want.{out_of_memory};
ghost use Rattle.nd_model.specs.Grammar.Kinds.{kind};
ghost use Rattle.nd_model.specs.Grammar.Predict.{read, next_in};
ghost use Rattle.nd_model.specs.Grammar.Cells.{token, leaf, name, name_of, quoted_of, line_at};
ghost use Rattle.nd_token.specs.Tokens.{token_of};
ghost use Rattle.nd_syntax.specs.Trees.Syntax.{expr_of};
ghost use Rattle.nd_parse.specs.Reader.Gives.{Gives, with_rest, tokens_of, front, Behind, paired};
ghost use Rattle.nd_parse.specs.declared.reader.read.Failure.TheVariants.{Memory, Stopped};
ghost use Rattle.nd_parse.specs.declared.reader.read.Reason.TheVariants.{Itself};

use crate::reader::kinds::{CALLED, NAME, next_in};
use nd_memory::OutOfMemory;
use nd_syntax::trees::Expr;
use nd_token::{Token, Word};
use std::alloc::{AllocError, AllocFailed, Global};

/// The tokens that are left.
pub type Tokens<'t> = &'t [Token<'t>];

/// What was read, and the tokens after it.
pub type Read<'t, X> = Result<(X, Tokens<'t>), Failure>;

/// Why a token is refused.
///
/// In `x = +1` the `+` is left out, and in `x = np.sort(y)` the call is unknown. In `x = )` the
/// bracket itself does not fit.
#[derive(Clone, Copy)]
pub enum Reason {
    /// The token itself does not fit.
    Itself,
    TooDeep,
    LeftOut,
    TooMany,
    UnknownCall,
}

/// Where a reader stops: how many tokens are left, and why the next one is refused.
#[derive(Clone, Copy)]
pub struct ReadStop {
    pub left: usize,
    pub why: Reason,
}

/// Why nothing was read: want of memory, or a refused token.
#[derive(Drop)]
pub enum Failure {
    Memory(OutOfMemory),
    Stopped(ReadStop),
}

impl From<AllocError> for Failure {
    ghost from_gives = { λ _ e. e ≡ Memory out_of_memory };

    fn from(refused: AllocError) -> Failure {
        Failure::Memory(refused.into())
    }
}

impl<T: Drop> From<AllocFailed<T>> for Failure {
    ghost from_gives = { λ _ e. e ≡ Memory out_of_memory };

    fn from(failed: AllocFailed<T>) -> Failure {
        Failure::Memory(failed.into())
    }
}

/// Returns the refusal of the next token.
pub fn stop_at(tokens: &[Token], why: Reason) -> Failure
    ensures { result ≡ Stopped (record { left = length tokens.now; why = why }) }
{
    Failure::Stopped(ReadStop {
        left: tokens.len(),
        why,
    })
}

/// Returns the refusal of the next token, with this reason if it is in the set.
pub fn refuse(tokens: &[Token], set: u128, why: Reason) -> Failure
    ensures { result ≡ Stopped
        (record {
          left = length tokens.now;
          why = (if next_in kind set (tokens_of tokens.now) then why else Itself);
        }) }
{
    if next_in(tokens, set) {
        stop_at(tokens, why)
    } else {
        stop_at(tokens, Reason::Itself)
    }
}

/// Reads a token of the set.
///
/// From `x = 1` a set with plain names takes `x`, and leaves `= 1`. A set of commas takes nothing:
/// the reader stops at `x`.
pub fn take<'t>(tokens: Tokens<'t>, set: u128) -> Read<'t, Token<'t>>
    ensures { Gives (with_rest token_of) result (read kind (token set) (tokens_of tokens.now)) }
{
    match tokens.split_first() {
        Some((token, rest)) => {
            if next_in(tokens, set) {
                Ok((*token, rest))
            } else {
                Err(stop_at(tokens, Reason::Itself))
            }
        }
        None => Err(stop_at(tokens, Reason::Itself)),
    }
}

/// Returns the tokens behind a token of the set: of `, 1)` those of `1)`, for a set of commas.
pub fn skip<'t>(tokens: Tokens<'t>, set: u128) -> Result<Tokens<'t>, Failure>
    ensures { Gives (λ rest. (front (tokens_of tokens.now), tokens_of rest.now)) result
        (read kind (token set) (tokens_of tokens.now)) }
{
    match tokens.split_first() {
        Some((_, rest)) => {
            if next_in(tokens, set) {
                Ok(rest)
            } else {
                Err(stop_at(tokens, Reason::Itself))
            }
        }
        None => Err(stop_at(tokens, Reason::Itself)),
    }
}

/// Returns the tokens behind the next one, if that is in the set.
pub fn behind<'t>(tokens: Tokens<'t>, set: u128) -> Option<Tokens<'t>>
    ensures { Behind set (tokens_of tokens.now) result }
{
    match tokens.split_first() {
        Some((_, rest)) => {
            if next_in(tokens, set) {
                Some(rest)
            } else {
                None
            }
        }
        None => None,
    }
}

/// Returns what was read, where a token of the set ends it.
pub fn close<'t, X: Drop>(inner: X, set: u128, tokens: Tokens<'t>) -> Read<'t, X>
    ensures read { Gives (λ x. (front (tokens_of tokens.now), tokens_of x.1.now)) result
        (read kind (token set) (tokens_of tokens.now)) }
    ensures kept { IfOk result (λ x. x.0 ≡ inner) }
{
    let rest = skip(tokens, set)?;
    Ok((inner, rest))
}

/// Returns what was read first, with what was read second.
pub fn pair<'t, X: Drop, Y: Drop>(first: X, second: Read<'t, Y>) -> Read<'t, (X, Y)>
    ensures { result ≡ paired first second.entry }
{
    let (second, rest) = second?;
    Ok(((first, second), rest))
}

/// Returns the line of the next token, or 0 where none is left.
pub fn line_at(tokens: &[Token]) -> usize
    ensures { result ≡ line_at (tokens_of tokens.now) }
{
    match tokens.first() {
        Some(token) => token.line,
        None => 0,
    }
}

/// Returns the text of a name.
pub fn text_of<'t>(token: Token<'t>) -> &'t str
    ensures { result.now ≡ name_of (token_of token.entry) }
{
    match token.word {
        Word::Name(text) => text,
        _ => "",
    }
}

/// Returns the text of a name, as a string of its own.
pub fn name_of(alloc: Global, token: Token) -> Result<String, AllocError>
    ensures { IfOk result (λ s. string_bytes s ≡ name_of (token_of token.entry)) }
{
    match token.word {
        Word::Name(text) => String::from_str(alloc, text),
        _ => Ok(String::new(alloc)),
    }
}

/// Returns the expression of one token.
pub fn leaf(alloc: Global, token: Token) -> Result<Expr, AllocError>
    ensures { IfOk result (λ e. expr_of e ≡ leaf (token_of token.entry)) }
{
    match token.word {
        Word::Integer(number) => Ok(Expr::Integer(number)),
        Word::Keyword(keyword) => Ok(Expr::Truth(keyword == "True")),
        _ => Ok(Expr::Name(name_of(alloc, token)?)),
    }
}

/// Reads a name that is not called.
#[tactic(auto, unfolding(nd_model::specs::Grammar::Cells::name))]
pub fn name<'t>(alloc: Global, tokens: Tokens<'t>) -> Read<'t, String>
    ensures { Gives (with_rest string_bytes) result (read kind name (tokens_of tokens.now)) }
{
    if next_in(tokens, NAME) {
        let (token, rest) = take(tokens, NAME)?;
        return Ok((name_of(alloc, token)?, rest));
    }
    Err(refuse(tokens, CALLED, Reason::UnknownCall))
}

/// Returns the text between two quotes.
pub fn quoted_of(alloc: Global, token: Token) -> Result<String, AllocError>
    ensures { IfOk result (λ s. string_bytes s ≡ quoted_of (token_of token.entry).word) }
{
    match token.word {
        Word::Quoted(text) => String::from_str(alloc, text),
        _ => Ok(String::new(alloc)),
    }
}
