//! The arguments of calls that hold expressions: shapes, axes and lists of values.
ghost use Rattle.std.specs.Prelude.{◌≡◌, ◌+◌};
ghost use Rattle.nd_model.specs.Grammar.Grammar.{Many};
ghost use Rattle.nd_model.specs.Grammar.Kinds.{kind, OPEN_TUPLE, CLOSE};
ghost use Rattle.nd_model.specs.Grammar.Predict.{read};
ghost use Rattle.nd_model.specs.Grammar.Cells.{Anywhere, under, between, grouped, expr, exprs, tuple, shape, named_axis, numbered_axis, options, comma_options, first_axis};
ghost use Rattle.nd_syntax.specs.Trees.Syntax.{expr_of, axis_of, bound_of};
ghost use Rattle.nd_parse.specs.Reader.Gives.{Gives, with_rest, tokens_of, spot_of, inside, exprs_of, options_of};
ghost use Rattle.nd_parse.specs.Reader.Parts.{behind_comma};
ghost use Rattle.nd_parse.specs.Rules.Readers.{Operands, one_length, tuple_body, axis_at, axis_options, comma_axis, only_axis};

use crate::reader::kinds::{
    AXIS, AXIS_CALLED, CLOSE, COMMA, COMMA_CLOSING, COMMA_INNER, EQUAL, NONE, OPEN_NONE,
    OPEN_TUPLE, next_in,
};
use crate::reader::read::{Read, Reason, Tokens, behind, close, pair, refuse, skip, stop_at};
use crate::reader::spot::Spot;
use crate::reader::types::{behind_last, comma_keepdims, no_lengths, only_keepdims};
use crate::rules::operators::Rules;
use crate::rules::rows::{append, lead};
use nd_syntax::trees::{Axis, Expr};

impl<'f, F: for<'t> Fn(u8, Spot, Tokens<'t>) -> Read<'t, Expr>> Rules<'f, F> {
    /// The lengths of a shape: `6` in `np.zeros(6)`, `(2, 3)` in `np.zeros((2, 3))`.
    #[tactic(auto, unfolding(nd_model::specs::Grammar::Cells::shape))]
    pub fn shape<'t>(&self, levels: u8, tokens: Tokens<'t>) -> Read<'t, Vec<Expr>>
        requires { Operands F.Fn self.now.operand.now (levels + 1) }
        ensures { Gives (with_rest exprs_of) result (read kind (shape (inside levels))
            (tokens_of tokens.now)) }
    {
        if next_in(tokens, OPEN_TUPLE) {
            return self.tuple(levels, tokens);
        }
        if next_in(tokens, OPEN_NONE) {
            return no_lengths(self.alloc, levels, tokens);
        }
        self.one_length(levels, tokens)
    }

    fn one_length<'t>(&self, levels: u8, tokens: Tokens<'t>) -> Read<'t, Vec<Expr>>
        requires { Operands F.Fn self.now.operand.now (levels + 1) }
        ensures { Gives (with_rest exprs_of) result (read kind (one_length (inside levels))
            (tokens_of tokens.now)) }
    {
        let none = Vec::new(self.alloc);
        append(none, self.expr(levels, Spot::Length, tokens))
    }

    /// `(expr, ..)`
    pub fn tuple<'t>(&self, levels: u8, tokens: Tokens<'t>) -> Read<'t, Vec<Expr>>
        requires { Operands F.Fn self.now.operand.now levels }
        ensures { Gives (with_rest exprs_of) result (read kind (tuple (under levels))
            (tokens_of tokens.now)) }
    {
        if levels == 0 {
            return Err(refuse(tokens, OPEN_TUPLE, Reason::TooDeep));
        }
        self.tuple_in(levels - 1, tokens)
    }

    fn tuple_in<'t>(&self, levels: u8, tokens: Tokens<'t>) -> Read<'t, Vec<Expr>>
        requires { Operands F.Fn self.now.operand.now (levels + 1) }
        ensures { Gives (with_rest exprs_of) result
            (read kind (between OPEN_TUPLE (tuple_body (inside levels)) CLOSE)
            (tokens_of tokens.now)) }
    {
        let rest = skip(tokens, OPEN_TUPLE)?;
        let (all, rest) = self.tuple_body(levels, rest)?;
        close(all, CLOSE, rest)
    }

    /// `expr {"," expr} [","]`, where the commas are those of a tuple
    fn tuple_body<'t>(&self, levels: u8, tokens: Tokens<'t>) -> Read<'t, Vec<Expr>>
        requires { Operands F.Fn self.now.operand.now (levels + 1) }
        ensures { Gives (with_rest exprs_of) result
            (read kind (tuple_body (inside levels)) (tokens_of tokens.now)) }
    {
        let (first, rest) = self.expr(levels, Spot::Anywhere, tokens)?;
        let (all, rest) = lead(first, self.others(levels, COMMA_INNER, rest))?;
        Ok((all, behind_last(COMMA_CLOSING, rest)))
    }

    /// `expr {"," expr}`, where the first expression stands at the spot
    #[tactic(auto, unfolding(nd_model::specs::Grammar::Cells::exprs))]
    pub fn exprs<'t>(&self, levels: u8, spot: Spot, tokens: Tokens<'t>) -> Read<'t, Vec<Expr>>
        requires { Operands F.Fn self.now.operand.now (levels + 1) }
        ensures { Gives (with_rest exprs_of) result
            (read kind (exprs (expr (spot_of spot) (under levels)) (expr Anywhere (under levels)))
            (tokens_of tokens.now)) }
    {
        let (first, rest) = self.expr(levels, spot, tokens)?;
        lead(first, self.others(levels, COMMA, rest))
    }

    /// Any number of expressions, each behind a comma of the set.
    fn others<'t>(&self, levels: u8, comma: u128, tokens: Tokens<'t>) -> Read<'t, Vec<Expr>>
        requires { Operands F.Fn self.now.operand.now (levels + 1) }
        ensures { Gives (with_rest exprs_of) result
            (read kind (Many comma (λ xs. xs) (behind_comma comma (expr Anywhere (under levels))))
            (tokens_of tokens.now)) }
    {
        let mut all = Vec::new(self.alloc);
        // from the first token on
        let (_, mut rest) = tokens.split_at(0);
        'more: while next_in(rest, comma) {
            let (more, after) = append(all, self.other(levels, comma, rest))?;
            all = more;
            rest = after;
        }
        Ok((all, rest))
    }

    fn other<'t>(&self, levels: u8, comma: u128, tokens: Tokens<'t>) -> Read<'t, Expr>
        requires { Operands F.Fn self.now.operand.now (levels + 1) }
        ensures { Gives (with_rest expr_of) result
            (read kind (behind_comma comma (expr Anywhere (under levels))) (tokens_of tokens.now)) }
    {
        let rest = skip(tokens, comma)?;
        self.expr(levels, Spot::Anywhere, rest)
    }

    /// `axis = ..`, where the name is of the set
    #[tactic(auto, unfolding(nd_model::specs::Grammar::Cells::named_axis))]
    pub fn named_axis<'t>(&self, levels: u8, key: u128, tokens: Tokens<'t>) -> Read<'t, Axis>
        requires { Operands F.Fn self.now.operand.now (levels + 1) }
        ensures { Gives (with_rest axis_of) result (read kind (named_axis key (inside levels))
            (tokens_of tokens.now)) }
    {
        let rest = skip(tokens, key)?;
        let rest = skip(rest, EQUAL)?;
        self.axis_at(levels, Spot::Anywhere, rest)
    }

    /// `None`, or an expression at the spot
    fn axis_at<'t>(&self, levels: u8, spot: Spot, tokens: Tokens<'t>) -> Read<'t, Axis>
        requires { Operands F.Fn self.now.operand.now (levels + 1) }
        ensures { Gives (with_rest axis_of) result
            (read kind (axis_at (spot_of spot) (inside levels)) (tokens_of tokens.now)) }
    {
        if let Some(rest) = behind(tokens, NONE) {
            return Ok((Axis::All, rest));
        }
        let (axis, rest) = self.expr(levels, spot, tokens)?;
        Ok((Axis::At(axis), rest))
    }

    /// `axis = expr`
    #[tactic(auto, unfolding(nd_model::specs::Grammar::Cells::numbered_axis))]
    pub fn numbered_axis<'t>(&self, levels: u8, tokens: Tokens<'t>) -> Read<'t, Option<Expr>>
        requires { Operands F.Fn self.now.operand.now (levels + 1) }
        ensures { Gives (with_rest bound_of) result (read kind (numbered_axis (inside levels))
            (tokens_of tokens.now)) }
    {
        let rest = skip(tokens, AXIS)?;
        let rest = skip(rest, EQUAL)?;
        let (axis, rest) = self.expr(levels, Spot::Anywhere, rest)?;
        Ok((Some(axis), rest))
    }

    /// `, axis = expr`, if it is there
    pub fn comma_axis<'t>(&self, levels: u8, tokens: Tokens<'t>) -> Read<'t, Option<Expr>>
        requires { Operands F.Fn self.now.operand.now (levels + 1) }
        ensures { Gives (with_rest bound_of) result (read kind (comma_axis (inside levels))
            (tokens_of tokens.now)) }
    {
        match behind(tokens, COMMA) {
            Some(rest) => self.only_axis(levels, rest),
            None => Ok((None, tokens)),
        }
    }

    fn only_axis<'t>(&self, levels: u8, tokens: Tokens<'t>) -> Read<'t, Option<Expr>>
        requires { Operands F.Fn self.now.operand.now (levels + 1) }
        ensures { Gives (with_rest bound_of) result (read kind (only_axis (inside levels))
            (tokens_of tokens.now)) }
    {
        if next_in(tokens, AXIS) {
            return self.numbered_axis(levels, tokens);
        }
        Err(refuse(tokens, AXIS_CALLED, Reason::UnknownCall))
    }

    /// `axis = .. [, keepdims = ..]`, or `keepdims = ..`
    #[tactic(auto, unfolding(nd_model::specs::Grammar::Cells::options))]
    fn options<'t>(&self, levels: u8, tokens: Tokens<'t>) -> Read<'t, (Axis, bool)>
        requires { Operands F.Fn self.now.operand.now (levels + 1) }
        ensures { Gives (with_rest options_of) result (read kind (options (inside levels))
            (tokens_of tokens.now)) }
    {
        if next_in(tokens, AXIS) {
            return self.axis_options(levels, tokens);
        }
        if next_in(tokens, AXIS_CALLED) {
            return Err(stop_at(tokens, Reason::UnknownCall));
        }
        pair(Axis::Default, only_keepdims(tokens))
    }

    /// `axis = .. [, keepdims = ..]`
    fn axis_options<'t>(&self, levels: u8, tokens: Tokens<'t>) -> Read<'t, (Axis, bool)>
        requires { Operands F.Fn self.now.operand.now (levels + 1) }
        ensures { Gives (with_rest options_of) result
            (read kind (axis_options (inside levels)) (tokens_of tokens.now)) }
    {
        let (axis, rest) = self.named_axis(levels, AXIS, tokens)?;
        pair(axis, comma_keepdims(rest))
    }

    /// The options behind a comma, if they are there.
    #[tactic(auto, unfolding(nd_model::specs::Grammar::Cells::comma_options))]
    pub fn comma_options<'t>(&self, levels: u8, tokens: Tokens<'t>) -> Read<'t, (Axis, bool)>
        requires { Operands F.Fn self.now.operand.now (levels + 1) }
        ensures { Gives (with_rest options_of) result (read kind (comma_options (inside levels))
            (tokens_of tokens.now)) }
    {
        match behind(tokens, COMMA) {
            Some(rest) => self.options(levels, rest),
            None => Ok(((Axis::Default, false), tokens)),
        }
    }

    /// `None`, or a number
    #[tactic(auto, unfolding(nd_model::specs::Grammar::Cells::first_axis))]
    pub fn first_axis<'t>(&self, levels: u8, tokens: Tokens<'t>) -> Read<'t, Axis>
        requires { Operands F.Fn self.now.operand.now (levels + 1) }
        ensures { Gives (with_rest axis_of) result (read kind (first_axis (inside levels))
            (tokens_of tokens.now)) }
    {
        self.axis_at(levels, Spot::AxisNumber, tokens)
    }

    /// `(expr)`
    pub fn grouped<'t>(&self, levels: u8, opening: u128, tokens: Tokens<'t>) -> Read<'t, Expr>
        requires { Operands F.Fn self.now.operand.now levels }
        ensures { Gives (with_rest expr_of) result (read kind (grouped opening (under levels))
            (tokens_of tokens.now)) }
    {
        if levels == 0 {
            return Err(refuse(tokens, opening, Reason::TooDeep));
        }
        self.between(levels - 1, opening, tokens)
    }

    fn between<'t>(&self, levels: u8, opening: u128, tokens: Tokens<'t>) -> Read<'t, Expr>
        requires { Operands F.Fn self.now.operand.now (levels + 1) }
        ensures { Gives (with_rest expr_of) result
            (read kind (between opening (expr Anywhere (under levels)) CLOSE)
            (tokens_of tokens.now)) }
    {
        let rest = skip(tokens, opening)?;
        let (inner, rest) = self.expr(levels, Spot::Anywhere, rest)?;
        close(inner, CLOSE, rest)
    }
}
