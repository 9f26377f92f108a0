//! `line`: reads one statement of a cell, with its line.
ghost use Rattle.std.specs.Prelude.{◌≡◌, ◌+◌, [], ◌∷◌, ◌++◌, map, IfOk, string_bytes};
ghost use Rattle.std.specs.Option.{option_map};
ghost use Rattle.nd_model.specs.Grammar.Grammar.{Many};
ghost use Rattle.nd_model.specs.Grammar.Kinds.{kind, OPEN, CLOSE, DOT};
ghost use Rattle.nd_model.specs.Grammar.Predict.{read};
ghost use Rattle.nd_model.specs.Grammar.Cells.{Anywhere, AtIndex, OfMethod, under, between, expr, exprs, method, module_name, imports, delete, printed, print, saved, save, value, bound, written, line};
ghost use Rattle.nd_model.specs.Grammar.Factored.{bind, group, target, assign, stmt};
ghost use Rattle.nd_token.specs.Tokens.{token_of};
ghost use Rattle.nd_syntax.specs.Trees.Syntax.{expr_of, index_of, binary_op, stmt_of, line_of};
ghost use Rattle.nd_parse.specs.Reader.Gives.{Gives, with_rest, tokens_of, exprs_of, methods_of, suffixes_of, group_of, trailing_of, target_of, value_of};
ghost use Rattle.nd_parse.specs.Rules.Readers.{Operands};
ghost use Rattle.nd_parse.specs.Cells.Readers.{trailing, saved_body};

use crate::calls::{Calls, with_suffixes};
use crate::cells::expr::unary;
use crate::reader::kinds::{
    AS, ASSIGNMENT, BOUND, CLOSE, COMMA, DEL, DOT, END, IMPORT, NP, NP_SAVE, NUMPY, NUMPY_CALLED,
    OPEN, PRINT, SAVE, SUFFIX, next_in,
};
use crate::reader::operators::augment_of;
use crate::reader::read::{
    Read, Reason, Tokens, close, line_at, name, name_of, pair, refuse, skip, take,
};
use crate::reader::spot::Spot;
use crate::reader::types::quoted_text;
use crate::rules::append;
use nd_syntax::trees::{BinaryOp, Expr, Index, Line, Method, Stmt, Suffix};
use nd_token::Token;
use std::alloc::{AllocError, Global};

/// The grammar of statements, over that of operands.
#[derive(Drop)]
struct Statements<'f, F> {
    calls: Calls<'f, F>,
}

impl<'f, F: for<'t> Fn(u8, Spot, Tokens<'t>) -> Read<'t, Expr>> Statements<'f, F> {
    /// Returns the grammar over a reader of signed operands.
    fn over(alloc: Global, operand: &'f F) -> Statements<'f, F>
        ensures { result.calls.rules.operand.now ≡ operand.now }
    {
        Statements {
            calls: Calls::over(alloc, operand),
        }
    }

    fn listed<'t>(&self, levels: u8, tokens: Tokens<'t>) -> Read<'t, Vec<Expr>>
        requires { Operands F.Fn self.now.calls.rules.operand.now (levels + 1) }
        ensures { Gives (with_rest exprs_of) result
            (read kind (between OPEN (exprs (expr Anywhere (under levels))
            (expr Anywhere (under levels))) CLOSE) (tokens_of tokens.now)) }
    {
        let rest = skip(tokens, OPEN)?;
        let (all, rest) = self.calls.rules.exprs(levels, Spot::Anywhere, rest)?;
        close(all, CLOSE, rest)
    }

    /// `(expr {"," expr})`
    fn printed<'t>(&self, levels: u8, tokens: Tokens<'t>) -> Read<'t, Vec<Expr>>
        requires { Operands F.Fn self.now.calls.rules.operand.now (levels + 1) }
        ensures { Gives (with_rest exprs_of) result
            (read kind (printed (under levels)) (tokens_of tokens.now)) }
    {
        if levels == 0 {
            return Err(refuse(tokens, OPEN, Reason::TooDeep));
        }
        self.listed(levels - 1, tokens)
    }

    /// `print(expr {"," expr})`
    #[tactic(auto, unfolding(nd_model::specs::Grammar::Cells::print))]
    fn print<'t>(&self, levels: u8, tokens: Tokens<'t>) -> Read<'t, Stmt>
        requires { Operands F.Fn self.now.calls.rules.operand.now (levels + 1) }
        ensures { Gives (with_rest stmt_of) result
            (read kind (print (under levels)) (tokens_of tokens.now)) }
    {
        let rest = skip(tokens, PRINT)?;
        let (all, rest) = self.printed(levels, rest)?;
        Ok((Stmt::Print(all), rest))
    }

    /// `(STRING, expr)`
    fn saved<'t>(&self, levels: u8, tokens: Tokens<'t>) -> Read<'t, Stmt>
        requires { Operands F.Fn self.now.calls.rules.operand.now (levels + 1) }
        ensures { Gives (with_rest stmt_of) result
            (read kind (saved (under levels)) (tokens_of tokens.now)) }
    {
        if levels == 0 {
            return Err(refuse(tokens, OPEN, Reason::TooDeep));
        }
        self.saved_in(levels - 1, tokens)
    }

    fn saved_in<'t>(&self, levels: u8, tokens: Tokens<'t>) -> Read<'t, Stmt>
        requires { Operands F.Fn self.now.calls.rules.operand.now (levels + 1) }
        ensures { Gives (with_rest stmt_of) result
            (read kind (between OPEN (saved_body (expr Anywhere (under levels))) CLOSE)
            (tokens_of tokens.now)) }
    {
        let rest = skip(tokens, OPEN)?;
        let (name, rest) = quoted_text(self.calls.rules.alloc, rest)?;
        let (name, rest) = close(name, COMMA, rest)?;
        let value = self.calls.rules.expr(levels, Spot::Anywhere, rest);
        let ((name, value), rest) = pair(name, value)?;
        close(Stmt::Save(name, value), CLOSE, rest)
    }

    /// `np.save(STRING, expr)`
    #[tactic(auto, unfolding(nd_model::specs::Grammar::Cells::save))]
    fn save<'t>(&self, levels: u8, tokens: Tokens<'t>) -> Read<'t, Stmt>
        requires { Operands F.Fn self.now.calls.rules.operand.now (levels + 1) }
        ensures { Gives (with_rest stmt_of) result
            (read kind (save (under levels)) (tokens_of tokens.now)) }
    {
        let rest = skip(tokens, NP_SAVE)?;
        let rest = skip(rest, DOT)?;
        let rest = skip(rest, SAVE)?;
        self.saved(levels, rest)
    }

    /// `= expr`, `op= expr`
    #[tactic(auto, unfolding(nd_model::specs::Grammar::Cells::value))]
    fn value<'t>(&self, levels: u8, tokens: Tokens<'t>) -> Read<'t, (Option<BinaryOp>, Expr)>
        requires { Operands F.Fn self.now.calls.rules.operand.now (levels + 1) }
        ensures { Gives (with_rest value_of) result
            (read kind (value (under levels)) (tokens_of tokens.now)) }
    {
        let (assignment, rest) = take(tokens, ASSIGNMENT)?;
        let (value, rest) = self.calls.rules.expr(levels, Spot::Anywhere, rest)?;
        Ok(((augment_of(assignment.word), value), rest))
    }

    /// `NAME = expr`, `NAME op= expr`
    #[tactic(auto, unfolding(nd_model::specs::Grammar::Factored::bind))]
    fn bind<'t>(&self, levels: u8, tokens: Tokens<'t>) -> Read<'t, Stmt>
        requires { Operands F.Fn self.now.calls.rules.operand.now (levels + 1) }
        ensures { Gives (with_rest stmt_of) result
            (read kind (bind (under levels)) (tokens_of tokens.now)) }
    {
        let (token, rest) = take(tokens, BOUND)?;
        let name = name_of(self.calls.rules.alloc, token)?;
        let ((op, value), rest) = self.value(levels, rest)?;
        Ok((bound(name, op, value), rest))
    }

    /// Any number of methods.
    fn methods<'t>(&self, levels: u8, tokens: Tokens<'t>) -> Read<'t, Vec<Method>>
        requires { Operands F.Fn self.now.calls.rules.operand.now (levels + 1) }
        ensures { Gives (with_rest methods_of) result
            (read kind (Many DOT (λ ms. ms) (method (under levels))) (tokens_of tokens.now)) }
    {
        let mut all = Vec::new(self.calls.rules.alloc);
        // from the first token on
        let (_, mut rest) = tokens.split_at(0);
        'more: while next_in(rest, DOT) {
            let (more, after) = append(all, self.calls.method(levels, rest))?;
            all = more;
            rest = after;
        }
        Ok((all, rest))
    }

    /// Methods, and an index behind them.
    #[tactic(auto, unfolding(nd_model::specs::Grammar::Factored::group))]
    fn group<'t>(&self, levels: u8, tokens: Tokens<'t>) -> Read<'t, (Vec<Method>, Index)>
        requires { Operands F.Fn self.now.calls.rules.operand.now (levels + 1) }
        ensures { Gives (with_rest group_of) result
            (read kind (group (under levels)) (tokens_of tokens.now)) }
    {
        let (methods, rest) = self.methods(levels, tokens)?;
        pair(methods, self.calls.rules.index(levels, rest))
    }

    /// What follows an operand and ends with an index: all before that index, and the index.
    fn trailing<'t>(&self, levels: u8, tokens: Tokens<'t>) -> Read<'t, (Vec<Suffix>, Index)>
        requires { Operands F.Fn self.now.calls.rules.operand.now (levels + 1) }
        ensures { Gives (with_rest trailing_of) result
            (read kind (trailing (under levels)) (tokens_of tokens.now)) }
    {
        let (first, mut rest) = self.group(levels, tokens)?;
        let mut all = start_with(self.calls.rules.alloc, first)?;
        'groups: while next_in(rest, SUFFIX) {
            let ((before, next), after) = pair(all, self.group(levels, rest))?;
            all = add_group(before, next)?;
            rest = after;
        }
        Ok((all, rest))
    }

    /// What is assigned to: an operand with what follows it, and the last index.
    fn target<'t>(&self, levels: u8, tokens: Tokens<'t>) -> Read<'t, (Expr, Index)>
        requires { Operands F.Fn self.now.calls.rules.operand.now (levels + 1) }
        ensures { Gives (with_rest target_of) result
            (read kind (target (under levels)) (tokens_of tokens.now)) }
    {
        let (operand, rest) = self.calls.operand(levels, Spot::Target, tokens)?;
        let ((array, (before, last)), rest) = pair(operand, self.trailing(levels, rest))?;
        Ok((
            (with_suffixes(self.calls.rules.alloc, array, before)?, last),
            rest,
        ))
    }

    /// `target = expr`, `target op= expr`
    #[tactic(auto, unfolding(nd_model::specs::Grammar::Factored::assign))]
    fn assign<'t>(&self, levels: u8, tokens: Tokens<'t>) -> Read<'t, Stmt>
        requires { Operands F.Fn self.now.calls.rules.operand.now (levels + 1) }
        ensures { Gives (with_rest stmt_of) result
            (read kind (assign (under levels)) (tokens_of tokens.now)) }
    {
        let (target, rest) = self.target(levels, tokens)?;
        let (((array, at), (op, value)), rest) = pair(target, self.value(levels, rest))?;
        Ok((item_assignment(array, at, op, value), rest))
    }

    #[tactic(auto, unfolding(nd_model::specs::Grammar::Factored::stmt))]
    fn stmt<'t>(&self, levels: u8, tokens: Tokens<'t>) -> Read<'t, Stmt>
        requires { Operands F.Fn self.now.calls.rules.operand.now (levels + 1) }
        ensures { Gives (with_rest stmt_of) result
            (read kind (stmt (under levels)) (tokens_of tokens.now)) }
    {
        if next_in(tokens, IMPORT) {
            return imports(tokens);
        }
        if next_in(tokens, DEL) {
            return delete(self.calls.rules.alloc, tokens);
        }
        if next_in(tokens, PRINT) {
            return self.print(levels, tokens);
        }
        if next_in(tokens, NP_SAVE) {
            return self.save(levels, tokens);
        }
        if next_in(tokens, BOUND) {
            return self.bind(levels, tokens);
        }
        self.assign(levels, tokens)
    }

    /// Reads a statement, which may open `levels` levels, with the line of its first token.
    #[tactic(auto, unfolding(nd_model::specs::Grammar::Cells::line))]
    fn line<'t>(&self, levels: u8, tokens: Tokens<'t>) -> Read<'t, Line>
        requires { Operands F.Fn self.now.calls.rules.operand.now (levels + 1) }
        ensures { Gives (with_rest line_of) result
            (read kind (line (stmt (under levels))) (tokens_of tokens.now)) }
    {
        let line = line_at(tokens);
        let (stmt, rest) = self.stmt(levels, tokens)?;
        close(Line { line, stmt }, END, rest)
    }
}

/// Reads a statement, which may open `levels` levels, with the line of its first token.
pub fn line<'t>(alloc: Global, levels: u8, tokens: Tokens<'t>) -> Read<'t, Line>
    ensures { Gives (with_rest line_of) result
        (read kind (line (stmt (under levels))) (tokens_of tokens.now)) }
{
    Statements::over(
        alloc,
        &|levels, spot, tokens| unary(alloc, levels, spot, tokens),
    )
    .line(levels, tokens)
}

#[tactic(auto, unfolding(nd_model::specs::Grammar::Cells::module_name))]
fn module_name<'t>(tokens: Tokens<'t>) -> Read<'t, Token<'t>>
    ensures { Gives (with_rest token_of) result (read kind module_name (tokens_of tokens.now)) }
{
    if next_in(tokens, NUMPY) {
        return take(tokens, NUMPY);
    }
    Err(refuse(tokens, NUMPY_CALLED, Reason::UnknownCall))
}

/// `import numpy as np`
#[tactic(auto, unfolding(nd_model::specs::Grammar::Cells::imports))]
fn imports<'t>(tokens: Tokens<'t>) -> Read<'t, Stmt>
    ensures { Gives (with_rest stmt_of) result (read kind imports (tokens_of tokens.now)) }
{
    let rest = skip(tokens, IMPORT)?;
    let (_, rest) = module_name(rest)?;
    let rest = skip(rest, AS)?;
    let rest = skip(rest, NP)?;
    Ok((Stmt::Import, rest))
}

/// `del NAME`
#[tactic(auto, unfolding(nd_model::specs::Grammar::Cells::delete))]
fn delete<'t>(alloc: Global, tokens: Tokens<'t>) -> Read<'t, Stmt>
    ensures { Gives (with_rest stmt_of) result (read kind delete (tokens_of tokens.now)) }
{
    let rest = skip(tokens, DEL)?;
    let (name, rest) = name(alloc, rest)?;
    Ok((Stmt::Delete(name), rest))
}

/// The statement that binds a name.
fn bound(name: String, op: Option<BinaryOp>, value: Expr) -> Stmt
    ensures { stmt_of result ≡ bound (string_bytes name) (option_map binary_op op) (expr_of value) }
{
    match op {
        None => Stmt::Bind(name, value),
        Some(op) => Stmt::Augment(name, op, value),
    }
}

/// The statement that assigns to an item of a target.
fn item_assignment(target: Expr, item: Index, op: Option<BinaryOp>, value: Expr) -> Stmt
    ensures { stmt_of result ≡
        written (expr_of target) (index_of item) (option_map binary_op op) (expr_of value) }
{
    match op {
        None => Stmt::Assign(target, item, value),
        Some(op) => Stmt::AugmentItem(target, item, op, value),
    }
}

/// Appends methods to what follows an operand.
fn add_methods(suffixes: &mut Vec<Suffix>, methods: Vec<Method>) -> Result<(), AllocError>
    ensures { IfOk result (λ _. suffixes_of suffixes.new ≡
        suffixes_of suffixes.old ++ map OfMethod (methods_of methods)) }
{
    for method in methods {
        suffixes.push(Suffix::Method(method))?;
    }
    Ok(())
}

/// What the first group adds to an operand, and its index.
fn start_with(
    alloc: Global,
    first: (Vec<Method>, Index),
) -> Result<(Vec<Suffix>, Index), AllocError>
    ensures before { IfOk result (λ all. suffixes_of all.0 ≡ map OfMethod (methods_of first.0)) }
    ensures last { IfOk result (λ all. all.1 ≡ first.1) }
{
    let (methods, last) = first;
    let mut before = Vec::new(alloc);
    add_methods(&mut before, methods)?;
    Ok((before, last))
}

/// What follows an operand, with one more group behind it.
fn add_group(
    all: (Vec<Suffix>, Index),
    next: (Vec<Method>, Index),
) -> Result<(Vec<Suffix>, Index), AllocError>
    ensures before { IfOk result (λ more. suffixes_of more.0 ≡
        (suffixes_of all.0 ++ AtIndex (index_of all.1) ∷ []) ++ map OfMethod (methods_of next.0)) }
    ensures last { IfOk result (λ more. more.1 ≡ next.1) }
{
    let (mut before, last) = all;
    let (methods, next) = next;
    before.push(Suffix::Index(last))?;
    add_methods(&mut before, methods)?;
    Ok((before, next))
}
