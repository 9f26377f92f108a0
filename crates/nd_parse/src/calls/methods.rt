//! `method`: the calls of methods of arrays, such as `.sum()`.
ghost use Rattle.std.specs.Prelude.{◌≡◌, ◌+◌};
ghost use Rattle.nd_model.specs.Grammar.Kinds.{kind};
ghost use Rattle.nd_model.specs.Grammar.Predict.{read};
ghost use Rattle.nd_model.specs.Grammar.Syntax.{Transpose, Reshape};
ghost use Rattle.nd_model.specs.Grammar.Cells.{under, conversion_named, axes, lengths, reduction_options, reduction, accumulation, attribute, method};
ghost use Rattle.nd_syntax.specs.Trees.Calls.{dtype_of};
ghost use Rattle.nd_syntax.specs.Trees.Syntax.{method_of, bound_of};
ghost use Rattle.nd_parse.specs.Reader.Gives.{Gives, with_rest, tokens_of, inside, exprs_of, options_of};
ghost use Rattle.nd_parse.specs.Rules.Readers.{Operands};
ghost use Rattle.nd_parse.specs.Calls.Readers.{numbers};

use crate::calls::level::{close_read, open};
use crate::calls::operands::{Calls, next_token};
use crate::reader::kinds::{
    ACCUMULATION, AXIS, AXIS_BOUND, AXIS_CALLED, CLOSE, CONVERSION, COPY, DOT, EXPR, FIRST_AXIS,
    KEEPDIMS_BOUND, NO_METHOD, OPEN, OPEN_NONE, OPEN_TUPLE, REDUCTION, RESHAPE, TRANSPOSE,
    TRANSPOSED, next_in,
};
use crate::reader::names::{accumulation_named, reduction_named};
use crate::reader::read::{
    Read, Reason, Tokens, behind, close, pair, refuse, skip, stop_at, text_of,
};
use crate::reader::spot::Spot;
use crate::reader::types::{comma_keepdims, empty, named_keepdims, no_lengths, type_argument};
use nd_syntax::trees::{Axis, DType, Expr, Method};

impl<'f, F: for<'t> Fn(u8, Spot, Tokens<'t>) -> Read<'t, Expr>> Calls<'f, F> {
    /// `.method`, which may open `levels` levels
    #[tactic(auto, unfolding(nd_model::specs::Grammar::Cells::method))]
    pub fn method<'t>(&self, levels: u8, tokens: Tokens<'t>) -> Read<'t, Method>
        requires { Operands F.Fn self.now.rules.operand.now levels }
        ensures { Gives (with_rest method_of) result (read kind (method (under levels))
            (tokens_of tokens.now)) }
    {
        let rest = skip(tokens, DOT)?;
        self.attribute(levels, rest)
    }

    /// What follows the dot.
    #[tactic(auto, unfolding(nd_model::specs::Grammar::Cells::attribute))]
    fn attribute<'t>(&self, levels: u8, tokens: Tokens<'t>) -> Read<'t, Method>
        requires { Operands F.Fn self.now.rules.operand.now levels }
        ensures { Gives (with_rest method_of) result (read kind (attribute (under levels))
            (tokens_of tokens.now)) }
    {
        if let Some(rest) = behind(tokens, TRANSPOSED) {
            return Ok((transpose(Vec::new(self.rules.alloc)), rest));
        }
        if let Some(rest) = behind(tokens, TRANSPOSE) {
            let (axes, rest) = self.axes(levels, rest)?;
            return Ok((transpose(axes), rest));
        }
        if let Some(rest) = behind(tokens, RESHAPE) {
            let (lengths, rest) = self.lengths(levels, rest)?;
            return Ok((reshape(lengths), rest));
        }
        if let Some(rest) = behind(tokens, COPY) {
            let (_, rest) = empty(levels, rest)?;
            return Ok((Method::Copy, rest));
        }
        if next_in(tokens, CONVERSION) {
            let (name, rest) = next_token(tokens, CONVERSION);
            let (dtype, rest) = type_argument(self.rules.alloc, levels, rest)?;
            return Ok((conversion_named(text_of(name), dtype), rest));
        }
        if next_in(tokens, REDUCTION) {
            let (name, rest) = next_token(tokens, REDUCTION);
            let ((axis, keepdims), rest) = self.reduction(levels, rest)?;
            return Ok((
                Method::Reduce(reduction_named(text_of(name)), axis, keepdims),
                rest,
            ));
        }
        if next_in(tokens, ACCUMULATION) {
            let (name, rest) = next_token(tokens, ACCUMULATION);
            let (axis, rest) = self.accumulation(levels, rest)?;
            return Ok((
                Method::Accumulate(accumulation_named(text_of(name)), axis),
                rest,
            ));
        }
        Err(refuse(tokens, NO_METHOD, Reason::UnknownCall))
    }

    /// `([expr {"," expr}])`
    fn axes<'t>(&self, levels: u8, tokens: Tokens<'t>) -> Read<'t, Vec<Expr>>
        requires { Operands F.Fn self.now.rules.operand.now levels }
        ensures { Gives (with_rest exprs_of) result (read kind (axes (under levels))
            (tokens_of tokens.now)) }
    {
        let (levels, rest) = open(levels, OPEN, tokens)?;
        if next_in(rest, EXPR) {
            return close_read(self.rules.exprs(levels, Spot::Anywhere, rest), CLOSE);
        }
        close(Vec::new(self.rules.alloc), CLOSE, rest)
    }

    /// `(shape)`, or several lengths
    fn lengths<'t>(&self, levels: u8, tokens: Tokens<'t>) -> Read<'t, Vec<Expr>>
        requires { Operands F.Fn self.now.rules.operand.now levels }
        ensures { Gives (with_rest exprs_of) result (read kind (lengths (under levels))
            (tokens_of tokens.now)) }
    {
        let (levels, rest) = open(levels, OPEN, tokens)?;
        if next_in(rest, OPEN_TUPLE) {
            return close_read(self.rules.tuple(levels, rest), CLOSE);
        }
        if next_in(rest, OPEN_NONE) {
            return close_read(no_lengths(self.rules.alloc, levels, rest), CLOSE);
        }
        close_read(self.rules.exprs(levels, Spot::Length, rest), CLOSE)
    }

    /// The axis, and whether it is kept, in brackets.
    fn reduction<'t>(&self, levels: u8, tokens: Tokens<'t>) -> Read<'t, (Axis, bool)>
        requires { Operands F.Fn self.now.rules.operand.now levels }
        ensures { Gives (with_rest options_of) result (read kind (reduction (under levels))
            (tokens_of tokens.now)) }
    {
        let (levels, rest) = open(levels, OPEN, tokens)?;
        close_read(self.reduction_options(levels, rest), CLOSE)
    }

    /// The contents of a reduction's brackets.
    #[tactic(auto, unfolding(nd_model::specs::Grammar::Cells::reduction_options))]
    fn reduction_options<'t>(&self, levels: u8, tokens: Tokens<'t>) -> Read<'t, (Axis, bool)>
        requires { Operands F.Fn self.now.rules.operand.now (levels + 1) }
        ensures { Gives (with_rest options_of) result
            (read kind (reduction_options (inside levels)) (tokens_of tokens.now)) }
    {
        if next_in(tokens, AXIS_BOUND) {
            let (axis, rest) = self.rules.named_axis(levels, AXIS_BOUND, tokens)?;
            return pair(axis, comma_keepdims(rest));
        }
        if next_in(tokens, KEEPDIMS_BOUND) {
            return pair(Axis::Default, named_keepdims(KEEPDIMS_BOUND, tokens));
        }
        if next_in(tokens, FIRST_AXIS) {
            let (axis, rest) = self.rules.first_axis(levels, tokens)?;
            return pair(axis, comma_keepdims(rest));
        }
        Ok(((Axis::Default, false), tokens))
    }

    /// `([axis = expr])`
    fn accumulation<'t>(&self, levels: u8, tokens: Tokens<'t>) -> Read<'t, Option<Expr>>
        requires { Operands F.Fn self.now.rules.operand.now levels }
        ensures { Gives (with_rest bound_of) result (read kind (accumulation (under levels))
            (tokens_of tokens.now)) }
    {
        let (levels, rest) = open(levels, OPEN, tokens)?;
        if next_in(rest, AXIS) {
            return close_read(self.rules.numbered_axis(levels, rest), CLOSE);
        }
        if next_in(rest, AXIS_CALLED) {
            return Err(stop_at(rest, Reason::UnknownCall));
        }
        close(None, CLOSE, rest)
    }
}

fn transpose(axes: Vec<Expr>) -> Method
    ensures { method_of result ≡ Transpose (numbers (exprs_of axes)) }
{
    Method::Transpose(axes)
}

fn reshape(lengths: Vec<Expr>) -> Method
    ensures { method_of result ≡ Reshape (numbers (exprs_of lengths)) }
{
    Method::Reshape(lengths)
}

/// `astype` or `view`, by its name.
fn conversion_named(name: &str, dtype: DType) -> Method
    ensures { method_of result ≡ conversion_named name.now (dtype_of dtype) }
{
    if name == "astype" {
        Method::AsType(dtype)
    } else {
        Method::View(dtype)
    }
}
