//! `Calls`: the grammar of operands, with signs, powers, indexes and methods.
ghost use Rattle.std.specs.Prelude.{◌≡◌, ◌+◌, true, IfOk, Ok};
ghost use Rattle.nd_model.specs.Grammar.Grammar.{Many};
ghost use Rattle.nd_model.specs.Grammar.Kinds.{kind, SUFFIX, POWER};
ghost use Rattle.nd_model.specs.Grammar.Predict.{read, next_in};
ghost use Rattle.nd_model.specs.Grammar.Cells.{Anywhere, token, under, suffixed, suffix, operand, postfix, exponent, power, signed, unary, operation};
ghost use Rattle.nd_token.specs.Tokens.{token_of};
ghost use Rattle.nd_syntax.specs.Trees.Syntax.{expr_of, suffix_of};
ghost use Rattle.nd_parse.specs.Reader.Gives.{Gives, with_rest, tokens_of, spot_of, suffixes_of, operation_of};
ghost use Rattle.nd_parse.specs.Rules.Readers.{Operands};
ghost use Rattle.nd_parse.specs.Calls.Readers.{with_sign};

use crate::reader::kinds::{
    ABS, BUFFER, CALLED, CLOSE, OPEN, OPEN_BRACKET, PLUS, POWER, SIGN, SUFFIX, next_in,
};
use crate::reader::operators::{binary_of, unary_of};
use crate::reader::read::{Read, Reason, Tokens, behind, leaf, pair, refuse, stop_at, take};
use crate::reader::spot::{Spot, leaves, modules, openings};
use crate::reader::types::quoted;
use crate::rules::{Rules, with_operation};
use nd_syntax::trees::{BinaryOp, Call, Expr, Suffix};
use nd_token::Token;
use std::alloc::{AllocError, Global};

/// The grammar of operands, calls and methods, over that of what stands in their brackets.
#[derive(Drop)]
pub struct Calls<'f, F> {
    pub rules: Rules<'f, F>,
}

impl<'f, F: for<'t> Fn(u8, Spot, Tokens<'t>) -> Read<'t, Expr>> Calls<'f, F> {
    /// Returns the grammar over a reader of signed operands.
    pub fn over(alloc: Global, operand: &'f F) -> Calls<'f, F>
        ensures { result.rules.operand.now ≡ operand.now }
    {
        Calls {
            rules: Rules::over(alloc, operand),
        }
    }

    /// Reads a sign with its operand, or an operand.
    #[tactic(auto, unfolding(nd_model::specs::Grammar::Cells::unary))]
    pub fn unary<'t>(&self, levels: u8, spot: Spot, tokens: Tokens<'t>) -> Read<'t, Expr>
        requires { Operands F.Fn self.now.rules.operand.now levels }
        ensures { Gives (with_rest expr_of) result (read kind (unary (spot_of spot) (under levels))
            (tokens_of tokens.now)) }
    {
        if next_in(tokens, SIGN) {
            return self.signed(levels, tokens);
        }
        self.power(levels, spot, tokens)
    }

    /// A sign with its operand.
    fn signed<'t>(&self, levels: u8, tokens: Tokens<'t>) -> Read<'t, Expr>
        requires { Operands F.Fn self.now.rules.operand.now levels }
        ensures { Gives (with_rest expr_of) result (read kind (signed (under levels))
            (tokens_of tokens.now)) }
    {
        if levels == 0 {
            return Err(refuse(tokens, SIGN, Reason::TooDeep));
        }
        self.with_sign(levels - 1, tokens)
    }

    fn with_sign<'t>(&self, levels: u8, tokens: Tokens<'t>) -> Read<'t, Expr>
        requires { Operands F.Fn self.now.rules.operand.now (levels + 1) }
        ensures { Gives (with_rest expr_of) result
            (read kind (with_sign (unary Anywhere (under levels))) (tokens_of tokens.now)) }
    {
        let (sign, rest) = take(tokens, SIGN)?;
        let (operand, rest) = self.rules.unary(levels, Spot::Anywhere, rest)?;
        let op = unary_of(sign.word);
        Ok((Expr::Unary(op, Box::new(self.rules.alloc, operand)?), rest))
    }

    /// An operand, and perhaps its exponent.
    #[tactic(auto, unfolding(nd_model::specs::Grammar::Cells::power))]
    fn power<'t>(&self, levels: u8, spot: Spot, tokens: Tokens<'t>) -> Read<'t, Expr>
        requires { Operands F.Fn self.now.rules.operand.now levels }
        ensures { Gives (with_rest expr_of) result (read kind (power (spot_of spot) (under levels))
            (tokens_of tokens.now)) }
    {
        let (base, rest) = self.postfix(levels, spot, tokens)?;
        if next_in(rest, POWER) {
            let ((base, exponent), rest) = pair(base, self.exponent(levels, rest))?;
            return Ok((with_operation(self.rules.alloc, base, exponent)?, rest));
        }
        Ok((base, rest))
    }

    /// `** unary`
    fn exponent<'t>(&self, levels: u8, tokens: Tokens<'t>) -> Read<'t, (BinaryOp, Expr)>
        requires { Operands F.Fn self.now.rules.operand.now levels }
        ensures { Gives (with_rest operation_of) result (read kind (exponent (under levels))
            (tokens_of tokens.now)) }
    {
        if levels == 0 {
            return Err(refuse(tokens, POWER, Reason::TooDeep));
        }
        self.raised(levels - 1, tokens)
    }

    fn raised<'t>(&self, levels: u8, tokens: Tokens<'t>) -> Read<'t, (BinaryOp, Expr)>
        requires { Operands F.Fn self.now.rules.operand.now (levels + 1) }
        ensures { Gives (with_rest operation_of) result
            (read kind (operation POWER (unary Anywhere (under levels))) (tokens_of tokens.now)) }
    {
        let (token, rest) = take(tokens, POWER)?;
        let (operand, rest) = self.rules.unary(levels, Spot::Anywhere, rest)?;
        Ok(((binary_of(token.word), operand), rest))
    }

    /// An operand with its indexes and methods.
    #[tactic(auto, unfolding(nd_model::specs::Grammar::Cells::postfix))]
    fn postfix<'t>(&self, levels: u8, spot: Spot, tokens: Tokens<'t>) -> Read<'t, Expr>
        requires { Operands F.Fn self.now.rules.operand.now levels }
        ensures { Gives (with_rest expr_of) result
            (read kind (postfix (spot_of spot) (under levels)) (tokens_of tokens.now)) }
    {
        let (operand, rest) = self.operand(levels, spot, tokens)?;
        let ((operand, suffixes), rest) = pair(operand, self.suffixes(levels, rest))?;
        Ok((with_suffixes(self.rules.alloc, operand, suffixes)?, rest))
    }

    /// Any number of indexes and methods.
    fn suffixes<'t>(&self, levels: u8, tokens: Tokens<'t>) -> Read<'t, Vec<Suffix>>
        requires { Operands F.Fn self.now.rules.operand.now levels }
        ensures { Gives (with_rest suffixes_of) result
            (read kind (Many SUFFIX (λ xs. xs) (suffix (under levels))) (tokens_of tokens.now)) }
    {
        let mut all = Vec::new(self.rules.alloc);
        // from the first token on
        let (_, mut rest) = tokens.split_at(0);
        'more: while next_in(rest, SUFFIX) {
            let (next, after) = self.suffix(levels, rest)?;
            all.push(next)?;
            rest = after;
        }
        Ok((all, rest))
    }

    /// `[index]`, `.method`
    #[tactic(auto, unfolding(nd_model::specs::Grammar::Cells::suffix))]
    fn suffix<'t>(&self, levels: u8, tokens: Tokens<'t>) -> Read<'t, Suffix>
        requires { Operands F.Fn self.now.rules.operand.now levels }
        ensures { Gives (with_rest suffix_of) result (read kind (suffix (under levels))
            (tokens_of tokens.now)) }
    {
        if next_in(tokens, OPEN_BRACKET) {
            let (index, rest) = self.rules.index(levels, tokens)?;
            return Ok((Suffix::Index(index), rest));
        }
        let (method, rest) = self.method(levels, tokens)?;
        Ok((Suffix::Method(method), rest))
    }

    /// Reads an operand, which may open `levels` levels.
    #[tactic(auto, unfolding(nd_model::specs::Grammar::Cells::operand))]
    pub fn operand<'t>(&self, levels: u8, spot: Spot, tokens: Tokens<'t>) -> Read<'t, Expr>
        requires { Operands F.Fn self.now.rules.operand.now levels }
        ensures { Gives (with_rest expr_of) result
            (read kind (operand (spot_of spot) (under levels)) (tokens_of tokens.now)) }
    {
        let set = leaves(spot);
        if next_in(tokens, set) {
            let (token, rest) = next_token(tokens, set);
            return Ok((leaf(self.rules.alloc, token)?, rest));
        }
        if next_in(tokens, CALLED) {
            return Err(stop_at(tokens, Reason::UnknownCall));
        }
        if next_in(tokens, PLUS) {
            return Err(stop_at(tokens, Reason::LeftOut));
        }
        let np = modules(spot);
        if next_in(tokens, np) {
            return self.function(levels, np, tokens);
        }
        if let Some(rest) = behind(tokens, ABS) {
            let (number, rest) = self.rules.grouped(levels, OPEN, rest)?;
            let call = Box::new(self.rules.alloc, Call::PythonAbs(number))?;
            return Ok((Expr::Call(call), rest));
        }
        if let Some(rest) = behind(tokens, BUFFER) {
            let (name, rest) = quoted(self.rules.alloc, levels, rest)?;
            let call = Box::new(self.rules.alloc, Call::Buffer(name))?;
            return Ok((Expr::Call(call), rest));
        }
        self.rules.grouped(levels, openings(spot), tokens)
    }
}

/// Returns the next token, which must be in the set, and the tokens after it.
pub(crate) fn next_token<'t>(tokens: Tokens<'t>, set: u128) -> (Token<'t>, Tokens<'t>)
    requires { next_in kind set (tokens_of tokens.now) ≡ true }
    ensures { read kind (token set) (tokens_of tokens.now) ≡ Ok (with_rest token_of result) }
{
    match tokens.split_first() {
        Some((token, rest)) => (*token, rest),
        None => unreachable!(),
    }
}

/// Returns an operand with its indexes and methods, if it has any. It takes memory for one node.
pub fn with_suffixes(
    alloc: Global,
    operand: Expr,
    suffixes: Vec<Suffix>,
) -> Result<Expr, AllocError>
    ensures { IfOk result (λ e. expr_of e ≡ suffixed (expr_of operand) (suffixes_of suffixes)) }
{
    if suffixes.is_empty() {
        return Ok(operand);
    }
    Ok(Expr::Postfix(Box::new(alloc, operand)?, suffixes))
}
