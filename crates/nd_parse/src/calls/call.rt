//! `function`: the calls of NumPy's functions, each with its own arguments.
ghost use Rattle.std.specs.Prelude.{◌≡◌, ◌+◌};
ghost use Rattle.nd_model.specs.Grammar.Kinds.{kind};
ghost use Rattle.nd_model.specs.Grammar.Predict.{read};
ghost use Rattle.nd_model.specs.Grammar.Syntax.{Filled, Full, BroadcastTo};
ghost use Rattle.nd_model.specs.Grammar.Cells.{under, extremum_named, ranged, second, third, arange, filled, full, new_array, broadcast_to, two, reduce, accumulate, fold, call, function};
ghost use Rattle.nd_syntax.specs.Trees.Calls.{fill_of};
ghost use Rattle.nd_syntax.specs.Trees.Syntax.{expr_of, call_of, fold_of};
ghost use Rattle.nd_parse.specs.Reader.Gives.{Gives, with_rest, tokens_of, inside, exprs_of, typing_of, two_of, filled_of, second_of, third_of};
ghost use Rattle.nd_parse.specs.Rules.Readers.{Operands};
ghost use Rattle.nd_parse.specs.Calls.Readers.{numbers};

use crate::calls::level::{close_read, open};
use crate::calls::operands::{Calls, next_token};
use crate::reader::kinds::{
    ABSOLUTE, ACCUMULATE, ARANGE, ARRAY, BROADCAST, CLOSE, COMMA, DOT, DTYPE_BOUND, EXTREMUM, FILL,
    FULL, KIND, LOAD, NO_FOLD, NO_FUNCTION, OPEN, REDUCE, UFUNC, next_in,
};
use crate::reader::names::{fill_named, kind_named, ufunc_named};
use crate::reader::read::{Read, Reason, Tokens, behind, close, pair, refuse, skip, text_of};
use crate::reader::spot::Spot;
use crate::reader::types::{comma_typing, quoted, typing};
use nd_syntax::trees::{Call, DType, Expr, Fill, Fold};

impl<'f, F: for<'t> Fn(u8, Spot, Tokens<'t>) -> Read<'t, Expr>> Calls<'f, F> {
    /// `np.` and a call, where `np` is of the set
    #[tactic(auto, unfolding(nd_model::specs::Grammar::Cells::function))]
    pub(crate) fn function<'t>(&self, levels: u8, np: u128, tokens: Tokens<'t>) -> Read<'t, Expr>
        requires { Operands F.Fn self.now.rules.operand.now levels }
        ensures { Gives (with_rest expr_of) result (read kind (function np (under levels))
            (tokens_of tokens.now)) }
    {
        let rest = skip(tokens, np)?;
        let rest = skip(rest, DOT)?;
        let (call, rest) = self.call(levels, rest)?;
        Ok((Expr::Call(Box::new(self.rules.alloc, call)?), rest))
    }

    /// What stands behind `np.`.
    #[tactic(auto, unfolding(nd_model::specs::Grammar::Cells::call))]
    fn call<'t>(&self, levels: u8, tokens: Tokens<'t>) -> Read<'t, Call>
        requires { Operands F.Fn self.now.rules.operand.now levels }
        ensures { Gives (with_rest call_of) result (read kind (call (under levels))
            (tokens_of tokens.now)) }
    {
        if let Some(rest) = behind(tokens, ARANGE) {
            return self.arange(levels, rest);
        }
        if next_in(tokens, FILL) {
            let (name, rest) = next_token(tokens, FILL);
            let ((shape, dtype), rest) = self.filled(levels, rest)?;
            return Ok((filled_call(fill_named(text_of(name)), shape, dtype), rest));
        }
        if let Some(rest) = behind(tokens, FULL) {
            return self.full(levels, rest);
        }
        if let Some(rest) = behind(tokens, ARRAY) {
            return self.new_array(levels, rest);
        }
        if let Some(rest) = behind(tokens, BROADCAST) {
            return self.broadcast_to(levels, rest);
        }
        if next_in(tokens, KIND) {
            let (name, rest) = next_token(tokens, KIND);
            let (number, rest) = self.rules.grouped(levels, OPEN, rest)?;
            return Ok((Call::Convert(kind_named(text_of(name)), number), rest));
        }
        if next_in(tokens, EXTREMUM) {
            let (name, rest) = next_token(tokens, EXTREMUM);
            let ((left, right), rest) = self.two(levels, rest)?;
            return Ok((extremum_named(text_of(name), left, right), rest));
        }
        if let Some(rest) = behind(tokens, ABSOLUTE) {
            let (number, rest) = self.rules.grouped(levels, OPEN, rest)?;
            return Ok((Call::Absolute(number), rest));
        }
        if next_in(tokens, UFUNC) {
            let (name, rest) = next_token(tokens, UFUNC);
            let (fold, rest) = self.fold(levels, rest)?;
            return Ok((Call::Fold(ufunc_named(text_of(name)), fold), rest));
        }
        if let Some(rest) = behind(tokens, LOAD) {
            let (name, rest) = quoted(self.rules.alloc, levels, rest)?;
            return Ok((Call::Load(name), rest));
        }
        Err(refuse(tokens, NO_FUNCTION, Reason::UnknownCall))
    }

    /// `np.arange`
    fn arange<'t>(&self, levels: u8, tokens: Tokens<'t>) -> Read<'t, Call>
        requires { Operands F.Fn self.now.rules.operand.now levels }
        ensures { Gives (with_rest call_of) result (read kind (arange (under levels))
            (tokens_of tokens.now)) }
    {
        let (levels, rest) = open(levels, OPEN, tokens)?;
        let (first, rest) = self.rules.expr(levels, Spot::Anywhere, rest)?;
        let ((first, (more, dtype)), rest) = pair(first, self.second(levels, rest))?;
        close(arange_of(first, more, dtype), CLOSE, rest)
    }

    /// What follows the first number: a second one, a third one, a dtype.
    #[tactic(auto, unfolding(nd_model::specs::Grammar::Cells::second))]
    fn second<'t>(
        &self,
        levels: u8,
        tokens: Tokens<'t>,
    ) -> Read<'t, (Option<(Expr, Option<Expr>)>, Option<DType>)>
        requires { Operands F.Fn self.now.rules.operand.now (levels + 1) }
        ensures { Gives (with_rest second_of) result
            (read kind (second (inside levels)) (tokens_of tokens.now)) }
    {
        let Some(rest) = behind(tokens, COMMA) else {
            return Ok(((None, None), tokens));
        };
        if next_in(rest, DTYPE_BOUND) {
            let (dtype, rest) = typing(self.rules.alloc, levels, DTYPE_BOUND, rest)?;
            return Ok(((None, Some(dtype)), rest));
        }
        let (second, rest) = self.rules.expr(levels, Spot::Number, rest)?;
        let ((second, (third, dtype)), rest) = pair(second, self.third(levels, rest))?;
        Ok(((Some((second, third)), dtype), rest))
    }

    /// What follows the second number.
    #[tactic(auto, unfolding(nd_model::specs::Grammar::Cells::third))]
    fn third<'t>(&self, levels: u8, tokens: Tokens<'t>) -> Read<'t, (Option<Expr>, Option<DType>)>
        requires { Operands F.Fn self.now.rules.operand.now (levels + 1) }
        ensures { Gives (with_rest third_of) result
            (read kind (third (inside levels)) (tokens_of tokens.now)) }
    {
        let Some(rest) = behind(tokens, COMMA) else {
            return Ok(((None, None), tokens));
        };
        if next_in(rest, DTYPE_BOUND) {
            let (dtype, rest) = typing(self.rules.alloc, levels, DTYPE_BOUND, rest)?;
            return Ok(((None, Some(dtype)), rest));
        }
        let (third, rest) = self.rules.expr(levels, Spot::Number, rest)?;
        pair(Some(third), comma_typing(self.rules.alloc, levels, rest))
    }

    /// `(shape [, dtype = type])`
    fn filled<'t>(&self, levels: u8, tokens: Tokens<'t>) -> Read<'t, (Vec<Expr>, Option<DType>)>
        requires { Operands F.Fn self.now.rules.operand.now levels }
        ensures { Gives (with_rest filled_of) result (read kind (filled (under levels))
            (tokens_of tokens.now)) }
    {
        let (levels, rest) = open(levels, OPEN, tokens)?;
        let (shape, rest) = self.rules.shape(levels, rest)?;
        let dtype = comma_typing(self.rules.alloc, levels, rest);
        close_read(pair(shape, dtype), CLOSE)
    }

    /// `np.full`
    fn full<'t>(&self, levels: u8, tokens: Tokens<'t>) -> Read<'t, Call>
        requires { Operands F.Fn self.now.rules.operand.now levels }
        ensures { Gives (with_rest call_of) result (read kind (full (under levels))
            (tokens_of tokens.now)) }
    {
        let (levels, rest) = open(levels, OPEN, tokens)?;
        let (shape, rest) = self.rules.shape(levels, rest)?;
        let (shape, rest) = close(shape, COMMA, rest)?;
        let (both, rest) = pair(shape, self.rules.expr(levels, Spot::Anywhere, rest))?;
        let dtype = comma_typing(self.rules.alloc, levels, rest);
        let (((shape, value), dtype), rest) = pair(both, dtype)?;
        close(full_call(shape, value, dtype), CLOSE, rest)
    }

    /// `np.array`
    fn new_array<'t>(&self, levels: u8, tokens: Tokens<'t>) -> Read<'t, Call>
        requires { Operands F.Fn self.now.rules.operand.now levels }
        ensures { Gives (with_rest call_of) result (read kind (new_array (under levels))
            (tokens_of tokens.now)) }
    {
        let (levels, rest) = open(levels, OPEN, tokens)?;
        let (element, rest) = self.rules.element(levels, rest)?;
        let dtype = comma_typing(self.rules.alloc, levels, rest);
        let ((element, dtype), rest) = pair(element, dtype)?;
        close(Call::Array(element, dtype), CLOSE, rest)
    }

    /// `np.broadcast_to`
    fn broadcast_to<'t>(&self, levels: u8, tokens: Tokens<'t>) -> Read<'t, Call>
        requires { Operands F.Fn self.now.rules.operand.now levels }
        ensures { Gives (with_rest call_of) result (read kind (broadcast_to (under levels))
            (tokens_of tokens.now)) }
    {
        let (levels, rest) = open(levels, OPEN, tokens)?;
        let (value, rest) = self.rules.expr(levels, Spot::Anywhere, rest)?;
        let (value, rest) = close(value, COMMA, rest)?;
        let ((value, shape), rest) = pair(value, self.rules.shape(levels, rest))?;
        close(broadcast_call(value, shape), CLOSE, rest)
    }

    /// `(expr, expr)`
    fn two<'t>(&self, levels: u8, tokens: Tokens<'t>) -> Read<'t, (Expr, Expr)>
        requires { Operands F.Fn self.now.rules.operand.now levels }
        ensures { Gives (with_rest two_of) result (read kind (two (under levels))
            (tokens_of tokens.now)) }
    {
        let (levels, rest) = open(levels, OPEN, tokens)?;
        let (left, rest) = self.rules.expr(levels, Spot::Anywhere, rest)?;
        let (left, rest) = close(left, COMMA, rest)?;
        let right = self.rules.expr(levels, Spot::Anywhere, rest);
        close_read(pair(left, right), CLOSE)
    }

    /// `.reduce(..)`, `.accumulate(..)`
    #[tactic(auto, unfolding(nd_model::specs::Grammar::Cells::fold))]
    fn fold<'t>(&self, levels: u8, tokens: Tokens<'t>) -> Read<'t, Fold>
        requires { Operands F.Fn self.now.rules.operand.now levels }
        ensures { Gives (with_rest fold_of) result (read kind (fold (under levels))
            (tokens_of tokens.now)) }
    {
        let rest = skip(tokens, DOT)?;
        if let Some(rest) = behind(rest, REDUCE) {
            return self.reduce(levels, rest);
        }
        if let Some(rest) = behind(rest, ACCUMULATE) {
            return self.accumulate(levels, rest);
        }
        Err(refuse(rest, NO_FOLD, Reason::UnknownCall))
    }

    fn reduce<'t>(&self, levels: u8, tokens: Tokens<'t>) -> Read<'t, Fold>
        requires { Operands F.Fn self.now.rules.operand.now levels }
        ensures { Gives (with_rest fold_of) result (read kind (reduce (under levels))
            (tokens_of tokens.now)) }
    {
        let (levels, rest) = open(levels, OPEN, tokens)?;
        let (array, rest) = self.rules.expr(levels, Spot::Anywhere, rest)?;
        let options = self.rules.comma_options(levels, rest);
        let ((array, (axis, keepdims)), rest) = pair(array, options)?;
        close(Fold::Reduce(array, axis, keepdims), CLOSE, rest)
    }

    fn accumulate<'t>(&self, levels: u8, tokens: Tokens<'t>) -> Read<'t, Fold>
        requires { Operands F.Fn self.now.rules.operand.now levels }
        ensures { Gives (with_rest fold_of) result (read kind (accumulate (under levels))
            (tokens_of tokens.now)) }
    {
        let (levels, rest) = open(levels, OPEN, tokens)?;
        let (array, rest) = self.rules.expr(levels, Spot::Anywhere, rest)?;
        let ((array, axis), rest) = pair(array, self.rules.comma_axis(levels, rest))?;
        close(Fold::Accumulate(array, axis), CLOSE, rest)
    }
}

/// `np.zeros` or `np.ones` of a shape.
fn filled_call(fill: Fill, shape: Vec<Expr>, dtype: Option<DType>) -> Call
    ensures { call_of result ≡ Filled (fill_of fill) (numbers (exprs_of shape)) (typing_of dtype) }
{
    Call::Filled(fill, shape, dtype)
}

fn full_call(shape: Vec<Expr>, value: Expr, dtype: Option<DType>) -> Call
    ensures { call_of result ≡ Full (numbers (exprs_of shape)) (expr_of value) (typing_of dtype) }
{
    Call::Full(shape, value, dtype)
}

fn broadcast_call(value: Expr, shape: Vec<Expr>) -> Call
    ensures { call_of result ≡ BroadcastTo (expr_of value) (numbers (exprs_of shape)) }
{
    Call::BroadcastTo(value, shape)
}

/// `np.minimum` or `np.maximum`, by its name.
fn extremum_named(name: &str, left: Expr, right: Expr) -> Call
    ensures { call_of result ≡ extremum_named name.now (expr_of left) (expr_of right) }
{
    if name == "minimum" {
        Call::Minimum(left, right)
    } else {
        Call::Maximum(left, right)
    }
}

/// `np.arange` of a first number, the others, and a dtype.
fn arange_of(first: Expr, more: Option<(Expr, Option<Expr>)>, dtype: Option<DType>) -> Call
    ensures { call_of result ≡ ranged (expr_of first) (second_of (more, dtype)) }
{
    match more {
        None => Call::Arange(None, first, None, dtype),
        Some((stop, step)) => Call::Arange(Some(first), stop, step, dtype),
    }
}
