//! `dtype`: the dtypes and other parts of calls that hold no expression.
ghost use Rattle.std.specs.Prelude.{◌≡◌, Ok, string_bytes};
ghost use Rattle.nd_model.specs.Grammar.Kinds.{kind, OPEN, OPEN_NONE, CLOSE, OPEN_BRACKET, CLOSE_BRACKET, COMMA_MORE};
ghost use Rattle.nd_model.specs.Grammar.Grammar.{Many};
ghost use Rattle.nd_model.specs.Grammar.Predict.{read};
ghost use Rattle.nd_model.specs.Grammar.Cells.{between, under, quoted, no_lengths, empty, kind_name, type_name, pair, fields, dtype, typing, only_typing, comma_typing, type_argument, truth_of, named_keepdims, only_keepdims, comma_keepdims};
ghost use Rattle.nd_token.specs.Tokens.{token_of};
ghost use Rattle.nd_syntax.specs.Trees.Calls.{type_name_of, field_type_of, field_types_of, dtype_of};
ghost use Rattle.nd_parse.specs.Reader.Gives.{Gives, with_rest, tokens_of, exprs_of, typing_of};
ghost use Rattle.nd_parse.specs.Reader.Parts.{quoted_text, closed, opened, field, some_fields, behind_comma, last_comma, text_type};

use crate::reader::kinds::{
    CLOSE, CLOSE_BRACKET, COMMA, COMMA_LAST, COMMA_MORE, DOT, DTYPE, DTYPE_CALLED, EQUAL, KEEPDIMS,
    KEEPDIMS_CALLED, KIND_PLAIN, NO_KIND, NP, OPEN, OPEN_BRACKET, OPEN_NONE, QUOTED, TRUTH,
    next_in,
};
use crate::reader::names::kind_named;
use crate::reader::read::{
    Read, Reason, Tokens, behind, close, quoted_of, refuse, skip, take, text_of,
};
use nd_syntax::trees::{DType, Expr, FieldType, TypeName};
use nd_token::{Token, Word};
use std::alloc::Global;

/// A text in quotes.
pub fn quoted_text<'t>(alloc: Global, tokens: Tokens<'t>) -> Read<'t, String>
    ensures { Gives (with_rest string_bytes) result (read kind quoted_text (tokens_of tokens.now)) }
{
    let (token, rest) = take(tokens, QUOTED)?;
    Ok((quoted_of(alloc, token)?, rest))
}

/// `(STRING)`
pub fn quoted<'t>(alloc: Global, levels: u8, tokens: Tokens<'t>) -> Read<'t, String>
    ensures { Gives (with_rest string_bytes) result (read kind (quoted (under levels))
        (tokens_of tokens.now)) }
{
    if levels == 0 {
        return Err(refuse(tokens, OPEN, Reason::TooDeep));
    }
    in_brackets(alloc, tokens)
}

fn in_brackets<'t>(alloc: Global, tokens: Tokens<'t>) -> Read<'t, String>
    ensures { Gives (with_rest string_bytes) result (read kind (between OPEN quoted_text CLOSE)
        (tokens_of tokens.now)) }
{
    let rest = skip(tokens, OPEN)?;
    let (text, rest) = quoted_text(alloc, rest)?;
    close(text, CLOSE, rest)
}

/// `()`, for a shape without axes
pub fn no_lengths<'t>(alloc: Global, levels: u8, tokens: Tokens<'t>) -> Read<'t, Vec<Expr>>
    ensures { Gives (with_rest exprs_of) result (read kind (no_lengths (under levels))
        (tokens_of tokens.now)) }
{
    if levels == 0 {
        return Err(refuse(tokens, OPEN_NONE, Reason::TooDeep));
    }
    closed(alloc, tokens)
}

fn closed<'t>(alloc: Global, tokens: Tokens<'t>) -> Read<'t, Vec<Expr>>
    ensures { Gives (with_rest exprs_of) result (read kind closed (tokens_of tokens.now)) }
{
    let rest = skip(tokens, OPEN_NONE)?;
    let rest = skip(rest, CLOSE)?;
    Ok((Vec::new(alloc), rest))
}

/// `()`
pub fn empty<'t>(levels: u8, tokens: Tokens<'t>) -> Read<'t, ()>
    ensures { Gives (with_rest (λ u. u)) result (read kind (empty (under levels))
        (tokens_of tokens.now)) }
{
    if levels == 0 {
        return Err(refuse(tokens, OPEN, Reason::TooDeep));
    }
    opened(tokens)
}

fn opened<'t>(tokens: Tokens<'t>) -> Read<'t, ()>
    ensures { Gives (with_rest (λ u. u)) result (read kind opened (tokens_of tokens.now)) }
{
    let rest = skip(tokens, OPEN)?;
    let rest = skip(rest, CLOSE)?;
    Ok(((), rest))
}

/// The name of a kind of numbers, which is not called.
#[tactic(auto, unfolding(nd_model::specs::Grammar::Cells::kind_name))]
fn kind_name<'t>(tokens: Tokens<'t>) -> Read<'t, TypeName>
    ensures { Gives (with_rest type_name_of) result (read kind kind_name (tokens_of tokens.now)) }
{
    if next_in(tokens, KIND_PLAIN) {
        let (token, rest) = take(tokens, KIND_PLAIN)?;
        return Ok((TypeName::Kind(kind_named(text_of(token))), rest));
    }
    Err(refuse(tokens, NO_KIND, Reason::UnknownCall))
}

/// `np.int8` and the like, or a text
#[tactic(auto, unfolding(nd_model::specs::Grammar::Cells::type_name))]
pub fn type_name<'t>(alloc: Global, tokens: Tokens<'t>) -> Read<'t, TypeName>
    ensures { Gives (with_rest type_name_of) result (read kind type_name (tokens_of tokens.now)) }
{
    if let Some(rest) = behind(tokens, NP) {
        let rest = skip(rest, DOT)?;
        return kind_name(rest);
    }
    text_type(alloc, tokens)
}

/// A text in quotes that names a type.
fn text_type<'t>(alloc: Global, tokens: Tokens<'t>) -> Read<'t, TypeName>
    ensures { Gives (with_rest type_name_of) result (read kind text_type (tokens_of tokens.now)) }
{
    let (token, rest) = take(tokens, QUOTED)?;
    Ok((TypeName::Text(quoted_of(alloc, token)?), rest))
}

/// `(STRING, type)`
fn pair<'t>(alloc: Global, levels: u8, tokens: Tokens<'t>) -> Read<'t, FieldType>
    ensures { Gives (with_rest field_type_of) result (read kind (pair (under levels))
        (tokens_of tokens.now)) }
{
    if levels == 0 {
        return Err(refuse(tokens, OPEN, Reason::TooDeep));
    }
    field(alloc, tokens)
}

fn field<'t>(alloc: Global, tokens: Tokens<'t>) -> Read<'t, FieldType>
    ensures { Gives (with_rest field_type_of) result (read kind (between OPEN field CLOSE)
        (tokens_of tokens.now)) }
{
    let rest = skip(tokens, OPEN)?;
    let (field, rest) = name_and_type(alloc, rest)?;
    close(field, CLOSE, rest)
}

/// `STRING, type`
fn name_and_type<'t>(alloc: Global, tokens: Tokens<'t>) -> Read<'t, FieldType>
    ensures { Gives (with_rest field_type_of) result (read kind field (tokens_of tokens.now)) }
{
    let (name, rest) = quoted_text(alloc, tokens)?;
    let rest = skip(rest, COMMA)?;
    let (type_name, rest) = type_name(alloc, rest)?;
    Ok((FieldType { name, type_name }, rest))
}

/// Returns the tokens behind a comma before the closing bracket, or all where there is none.
pub fn behind_last<'t>(last: u128, tokens: Tokens<'t>) -> Tokens<'t>
    ensures { read kind (last_comma last) (tokens_of tokens.now) ≡ Ok (tt, tokens_of result.now) }
{
    if let Some(rest) = behind(tokens, last) {
        return rest;
    }
    tokens
}

fn other_field<'t>(alloc: Global, levels: u8, tokens: Tokens<'t>) -> Read<'t, FieldType>
    ensures { Gives (with_rest field_type_of) result
        (read kind (behind_comma COMMA_MORE (pair (under levels))) (tokens_of tokens.now)) }
{
    let rest = skip(tokens, COMMA_MORE)?;
    pair(alloc, levels, rest)
}

/// Any number of fields, each behind a comma.
fn other_fields<'t>(alloc: Global, levels: u8, tokens: Tokens<'t>) -> Read<'t, Vec<FieldType>>
    ensures { Gives (with_rest field_types_of) result
        (read kind (Many COMMA_MORE (λ xs. xs) (behind_comma COMMA_MORE (pair (under levels))))
        (tokens_of tokens.now)) }
{
    let mut all = Vec::new(alloc);
    // from the first token on
    let (_, mut rest) = tokens.split_at(0);
    'more: while next_in(rest, COMMA_MORE) {
        let (next, after) = other_field(alloc, levels, rest)?;
        all.push(next)?;
        rest = after;
    }
    Ok((all, rest))
}

fn some_fields<'t>(alloc: Global, levels: u8, tokens: Tokens<'t>) -> Read<'t, Vec<FieldType>>
    ensures { Gives (with_rest field_types_of) result
        (read kind (between OPEN_BRACKET (some_fields (under levels)) CLOSE_BRACKET)
        (tokens_of tokens.now)) }
{
    let rest = skip(tokens, OPEN_BRACKET)?;
    let (all, rest) = pairs(alloc, levels, rest)?;
    close(all, CLOSE_BRACKET, rest)
}

/// `pair {"," pair} [","]`
fn pairs<'t>(alloc: Global, levels: u8, tokens: Tokens<'t>) -> Read<'t, Vec<FieldType>>
    ensures { Gives (with_rest field_types_of) result
        (read kind (some_fields (under levels)) (tokens_of tokens.now)) }
{
    let (first, rest) = pair(alloc, levels, tokens)?;
    let (mut all, rest) = other_fields(alloc, levels, rest)?;
    let rest = behind_last(COMMA_LAST, rest);
    all.insert(0, first)?;
    Ok((all, rest))
}

/// `[(STRING, type), ..]`
fn fields<'t>(alloc: Global, levels: u8, tokens: Tokens<'t>) -> Read<'t, Vec<FieldType>>
    ensures { Gives (with_rest field_types_of) result (read kind (fields (under levels))
        (tokens_of tokens.now)) }
{
    if levels == 0 {
        return Err(refuse(tokens, OPEN_BRACKET, Reason::TooDeep));
    }
    some_fields(alloc, levels - 1, tokens)
}

/// Reads a dtype: `np.int8`, `'<u2'`, or fields such as `[('a', np.int8), ('b', '<u2')]`.
#[tactic(auto, unfolding(nd_model::specs::Grammar::Cells::dtype))]
pub fn dtype<'t>(alloc: Global, levels: u8, tokens: Tokens<'t>) -> Read<'t, DType>
    ensures { Gives (with_rest dtype_of) result (read kind (dtype (under levels))
        (tokens_of tokens.now)) }
{
    if next_in(tokens, OPEN_BRACKET) {
        let (fields, rest) = fields(alloc, levels, tokens)?;
        return Ok((DType::Packed(fields), rest));
    }
    let (name, rest) = type_name(alloc, tokens)?;
    Ok((DType::Simple(name), rest))
}

/// `dtype = type`, where the name is of the set
#[tactic(auto, unfolding(nd_model::specs::Grammar::Cells::typing))]
pub fn typing<'t>(alloc: Global, levels: u8, key: u128, tokens: Tokens<'t>) -> Read<'t, DType>
    ensures { Gives (with_rest dtype_of) result (read kind (typing key (under levels))
        (tokens_of tokens.now)) }
{
    let rest = skip(tokens, key)?;
    let rest = skip(rest, EQUAL)?;
    dtype(alloc, levels, rest)
}

#[tactic(auto, unfolding(nd_model::specs::Grammar::Cells::only_typing))]
fn only_typing<'t>(alloc: Global, levels: u8, tokens: Tokens<'t>) -> Read<'t, DType>
    ensures { Gives (with_rest dtype_of) result (read kind (only_typing (under levels))
        (tokens_of tokens.now)) }
{
    if next_in(tokens, DTYPE) {
        return typing(alloc, levels, DTYPE, tokens);
    }
    Err(refuse(tokens, DTYPE_CALLED, Reason::UnknownCall))
}

/// `, dtype = type`, if it is there
#[tactic(auto, unfolding(nd_model::specs::Grammar::Cells::comma_typing))]
pub fn comma_typing<'t>(alloc: Global, levels: u8, tokens: Tokens<'t>) -> Read<'t, Option<DType>>
    ensures { Gives (with_rest typing_of) result (read kind (comma_typing (under levels))
        (tokens_of tokens.now)) }
{
    if let Some(rest) = behind(tokens, COMMA) {
        let (dtype, rest) = only_typing(alloc, levels, rest)?;
        return Ok((Some(dtype), rest));
    }
    Ok((None, tokens))
}

/// `(type)`
pub fn type_argument<'t>(alloc: Global, levels: u8, tokens: Tokens<'t>) -> Read<'t, DType>
    ensures { Gives (with_rest dtype_of) result (read kind (type_argument (under levels))
        (tokens_of tokens.now)) }
{
    if levels == 0 {
        return Err(refuse(tokens, OPEN, Reason::TooDeep));
    }
    type_in_brackets(alloc, levels - 1, tokens)
}

fn type_in_brackets<'t>(alloc: Global, levels: u8, tokens: Tokens<'t>) -> Read<'t, DType>
    ensures { Gives (with_rest dtype_of) result
        (read kind (between OPEN (dtype (under levels)) CLOSE) (tokens_of tokens.now)) }
{
    let rest = skip(tokens, OPEN)?;
    let (dtype, rest) = dtype(alloc, levels, rest)?;
    close(dtype, CLOSE, rest)
}

/// Whether a token is `True`.
fn truth_of(token: Token) -> bool
    ensures { result ≡ truth_of (token_of token.entry).word }
{
    match token.word {
        Word::Keyword(keyword) => keyword == "True",
        _ => false,
    }
}

/// `keepdims = True`, where the name is of the set
#[tactic(auto, unfolding(nd_model::specs::Grammar::Cells::named_keepdims))]
pub fn named_keepdims<'t>(key: u128, tokens: Tokens<'t>) -> Read<'t, bool>
    ensures { Gives (with_rest (λ k. k)) result (read kind (named_keepdims key)
        (tokens_of tokens.now)) }
{
    let rest = skip(tokens, key)?;
    let rest = skip(rest, EQUAL)?;
    let (token, rest) = take(rest, TRUTH)?;
    Ok((truth_of(token), rest))
}

/// `keepdims = True`
#[tactic(auto, unfolding(nd_model::specs::Grammar::Cells::only_keepdims))]
pub fn only_keepdims<'t>(tokens: Tokens<'t>) -> Read<'t, bool>
    ensures { Gives (with_rest (λ k. k)) result (read kind only_keepdims (tokens_of tokens.now)) }
{
    if next_in(tokens, KEEPDIMS) {
        return named_keepdims(KEEPDIMS, tokens);
    }
    Err(refuse(tokens, KEEPDIMS_CALLED, Reason::UnknownCall))
}

/// `, keepdims = True`, if it is there
#[tactic(auto, unfolding(nd_model::specs::Grammar::Cells::comma_keepdims))]
pub fn comma_keepdims<'t>(tokens: Tokens<'t>) -> Read<'t, bool>
    ensures { Gives (with_rest (λ k. k)) result (read kind comma_keepdims (tokens_of tokens.now)) }
{
    match behind(tokens, COMMA) {
        Some(rest) => only_keepdims(rest),
        None => Ok((false, tokens)),
    }
}
