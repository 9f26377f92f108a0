//! `Rules`: the grammar of expressions, by the precedence of their operators.
ghost use Rattle.std.specs.Prelude.{◌≡◌, ◌+◌, IfOk};
ghost use Rattle.nd_model.specs.Grammar.Grammar.{Many};
ghost use Rattle.nd_model.specs.Grammar.Kinds.{kind};
ghost use Rattle.nd_model.specs.Grammar.Predict.{read};
ghost use Rattle.nd_model.specs.Grammar.Syntax.{Binary};
ghost use Rattle.nd_model.specs.Grammar.Cells.{Anywhere, under, chained, unary, operation, chain, bor, comparison, expr};
ghost use Rattle.nd_syntax.specs.Trees.Syntax.{expr_of};
ghost use Rattle.nd_parse.specs.Reader.Gives.{Gives, with_rest, tokens_of, spot_of, operation_of, operations_of};
ghost use Rattle.nd_parse.specs.Rules.Readers.{Operands, operators, ranked};

use crate::reader::kinds::{AMPERSAND, BAR, CARET, COMPARISON, PRODUCT, SHIFT, SUM, next_in};
use crate::reader::operators::binary_of;
use crate::reader::read::{Read, Reason, Tokens, pair, stop_at, take};
use crate::reader::spot::Spot;
use crate::rules::rows::append;
use nd_syntax::trees::{BinaryOp, Expr};
use std::alloc::{AllocError, Global};

/// The number of ranks of operators that are chained, from `*` to `|`.
const RANKS: u8 = 6;

/// The grammar of what stands in brackets, over a reader of signed operands.
#[derive(Drop)]
pub struct Rules<'f, F> {
    pub alloc: Global,
    /// Reads a signed operand at a spot, which may open a number of levels.
    pub operand: &'f F,
}

impl<'f, F: for<'t> Fn(u8, Spot, Tokens<'t>) -> Read<'t, Expr>> Rules<'f, F> {
    /// Returns the grammar over a reader of signed operands.
    pub fn over(alloc: Global, operand: &'f F) -> Rules<'f, F>
        ensures { result.operand.now ≡ operand.now }
    {
        Rules { alloc, operand }
    }

    /// Reads a signed operand, which may open `levels` levels.
    pub fn unary<'t>(&self, levels: u8, spot: Spot, tokens: Tokens<'t>) -> Read<'t, Expr>
        requires { Operands F.Fn self.now.operand.now (levels + 1) }
        ensures { Gives (with_rest expr_of) result (read kind (unary (spot_of spot) (under levels))
            (tokens_of tokens.now)) }
    {
        (self.operand)(levels, spot, tokens)
    }

    /// Reads an expression, which may open `levels` levels.
    #[tactic(auto, unfolding(nd_model::specs::Grammar::Cells::expr))]
    pub fn expr<'t>(&self, levels: u8, spot: Spot, tokens: Tokens<'t>) -> Read<'t, Expr>
        requires { Operands F.Fn self.now.operand.now (levels + 1) }
        ensures { Gives (with_rest expr_of) result (read kind (expr (spot_of spot) (under levels))
            (tokens_of tokens.now)) }
    {
        let (first, rest) = self.bor(levels, spot, tokens)?;
        if next_in(rest, COMPARISON) {
            let ((first, other), rest) = pair(first, self.comparison(levels, rest))?;
            return Ok((with_operation(self.alloc, first, other)?, rest));
        }
        Ok((first, rest))
    }

    /// A comparison with its right operand. A second comparison is refused as left out.
    #[tactic(auto, unfolding(nd_model::specs::Grammar::Cells::comparison))]
    fn comparison<'t>(&self, levels: u8, tokens: Tokens<'t>) -> Read<'t, (BinaryOp, Expr)>
        requires { Operands F.Fn self.now.operand.now (levels + 1) }
        ensures { Gives (with_rest operation_of) result (read kind (comparison (under levels))
            (tokens_of tokens.now)) }
    {
        let (token, rest) = take(tokens, COMPARISON)?;
        let (operand, rest) = self.bor(levels, Spot::Anywhere, rest)?;
        if next_in(rest, COMPARISON) {
            drop(operand);
            return Err(stop_at(rest, Reason::LeftOut));
        }
        Ok(((binary_of(token.word), operand), rest))
    }

    /// Operands with any operators but comparisons between them.
    fn bor<'t>(&self, levels: u8, spot: Spot, tokens: Tokens<'t>) -> Read<'t, Expr>
        requires { Operands F.Fn self.now.operand.now (levels + 1) }
        ensures { Gives (with_rest expr_of) result (read kind (bor (spot_of spot) (under levels))
            (tokens_of tokens.now)) }
    {
        self.ranked(levels, RANKS, spot, tokens)
    }

    /// Operands with operators of this rank, and of those that bind closer, between them.
    #[cycle(ranks)]
    fn ranked<'t>(&self, levels: u8, rank: u8, spot: Spot, tokens: Tokens<'t>) -> Read<'t, Expr>
        requires { Operands F.Fn self.now.operand.now (levels + 1) }
        ensures { Gives (with_rest expr_of) result
            (read kind (ranked rank (spot_of spot) (under levels)) (tokens_of tokens.now)) }
    {
        if rank == 0 {
            return self.unary(levels, spot, tokens);
        }
        self.chain(levels, rank - 1, spot, operators(rank), tokens)
    }

    /// An operand of this rank, and operations with operators of the set.
    #[cycle(ranks)]
    fn chain<'t>(
        &self,
        levels: u8,
        rank: u8,
        spot: Spot,
        set: u128,
        tokens: Tokens<'t>,
    ) -> Read<'t, Expr>
        requires { Operands F.Fn self.now.operand.now (levels + 1) }
        ensures { Gives (with_rest expr_of) result
            (read kind (chain set (ranked rank (spot_of spot) (under levels))
            (ranked rank Anywhere (under levels))) (tokens_of tokens.now)) }
    {
        let (first, rest) = self.ranked(levels, rank, spot, tokens)?;
        let ((first, others), rest) = pair(first, self.operations(levels, rank, set, rest))?;
        Ok((with_operations(self.alloc, first, others)?, rest))
    }

    /// Any number of operators of the set with their right operands.
    #[cycle(ranks)]
    fn operations<'t>(
        &self,
        levels: u8,
        rank: u8,
        set: u128,
        tokens: Tokens<'t>,
    ) -> Read<'t, Vec<(BinaryOp, Expr)>>
        requires { Operands F.Fn self.now.operand.now (levels + 1) }
        ensures { Gives (with_rest operations_of) result
            (read kind (Many set (λ xs. xs) (operation set (ranked rank Anywhere (under levels))))
            (tokens_of tokens.now)) }
    {
        let mut all = Vec::new(self.alloc);
        // from the first token on
        let (_, mut rest) = tokens.split_at(0);
        'more: while next_in(rest, set) {
            let (more, after) = append(all, self.operation(levels, rank, set, rest))?;
            all = more;
            rest = after;
        }
        Ok((all, rest))
    }

    /// An operator of the set with its right operand.
    #[cycle(ranks)]
    fn operation<'t>(
        &self,
        levels: u8,
        rank: u8,
        set: u128,
        tokens: Tokens<'t>,
    ) -> Read<'t, (BinaryOp, Expr)>
        requires { Operands F.Fn self.now.operand.now (levels + 1) }
        ensures { Gives (with_rest operation_of) result
            (read kind (operation set (ranked rank Anywhere (under levels)))
            (tokens_of tokens.now)) }
    {
        let (token, rest) = take(tokens, set)?;
        let op = binary_of(token.word);
        pair(op, self.ranked(levels, rank, Spot::Anywhere, rest))
    }
}

/// The operators of a rank.
fn operators(rank: u8) -> u128
    ensures { result ≡ operators rank }
{
    match rank {
        1 => PRODUCT,
        2 => SUM,
        3 => SHIFT,
        4 => AMPERSAND,
        5 => CARET,
        _ => BAR,
    }
}

/// An operand with its operations, if there are any.
fn with_operations(
    alloc: Global,
    operand: Expr,
    others: Vec<(BinaryOp, Expr)>,
) -> Result<Expr, AllocError>
    ensures { IfOk result (λ e. expr_of e ≡ chained (expr_of operand) (operations_of others)) }
{
    if others.is_empty() {
        return Ok(operand);
    }
    Ok(Expr::Chain(Box::new(alloc, operand)?, others))
}

/// Returns an operand with one operation. It takes memory for a node and its row.
pub fn with_operation(
    alloc: Global,
    operand: Expr,
    other: (BinaryOp, Expr),
) -> Result<Expr, AllocError>
    ensures { IfOk result (λ e. expr_of e ≡ Binary (operation_of other).0 (expr_of operand)
        (operation_of other).1) }
{
    let mut others = Vec::new(alloc);
    others.push(other)?;
    with_operations(alloc, operand, others)
}
