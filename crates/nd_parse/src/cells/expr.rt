//! `unary`: operands of cells, whose brackets, signs and `**` nest at most 64 levels deep.

ghost use Rattle.std.specs.Prelude.{◌<◌};
ghost use Rattle.nd_model.specs.Grammar.Kinds.{kind};
ghost use Rattle.nd_model.specs.Grammar.Predict.{read};
ghost use Rattle.nd_model.specs.Grammar.Cells.{under, unary};
ghost use Rattle.nd_syntax.specs.Trees.Syntax.{expr_of};
ghost use Rattle.nd_parse.specs.Reader.Gives.{Gives, with_rest, tokens_of, spot_of};

use crate::calls::Calls;
use crate::reader::read::{Read, Tokens};
use crate::reader::spot::Spot;
use nd_syntax::trees::Expr;
use std::alloc::Global;

/// Reads a signed operand, which may open `levels` levels. What stands in its brackets is read by
/// this function, with fewer of them.
pub(crate) fn unary<'t>(alloc: Global, levels: u8, spot: Spot, tokens: Tokens<'t>) -> Read<'t, Expr>
    ensures { Gives (with_rest expr_of) result
        (read kind (unary (spot_of spot) (under levels)) (tokens_of tokens.now)) }
{
    Calls::over(
        alloc,
        &|left, spot: Spot, tokens|
            requires { left < levels }
            ensures { Gives (with_rest expr_of) result
                (read kind (unary (spot_of spot) (under left)) (tokens_of tokens.now)) }
        {
            // proof: `levels` stands in the clause above.
            let _ = &levels;
            unary(alloc, left, spot, tokens)
        },
    )
    .unary(levels, spot, tokens)
}
