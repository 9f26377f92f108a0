//! `Rules::index` and `Rules::element`: subscripts, and the elements of lists.
ghost use Rattle.std.specs.Prelude.{◌≡◌, ◌+◌};
ghost use Rattle.nd_model.specs.Grammar.Grammar.{Many};
ghost use Rattle.nd_model.specs.Grammar.Kinds.{kind, OPEN_BRACKET, CLOSE_BRACKET, COMMA_MORE, COMMA_LAST};
ghost use Rattle.nd_model.specs.Grammar.Predict.{read};
ghost use Rattle.nd_model.specs.Grammar.Cells.{FirstItem, LaterItem, under, between, mapped, separated, bound_in, step_in, slice, newaxis_name, newaxis, element, elements, elements_of, list, part, item, nothing, contents, index};
ghost use Rattle.nd_syntax.specs.Trees.Syntax.{index_of, item_of, bound_of, element_of};
ghost use Rattle.nd_parse.specs.Reader.Gives.{Gives, with_rest, tokens_of, spot_of, items_in, elements_in, list_of_elements, bounds_of, inside};
ghost use Rattle.nd_parse.specs.Reader.Parts.{behind_comma};
ghost use Rattle.nd_parse.specs.Rules.Readers.{Operands, items_of_index, no_items, open_slice, list_item, field_name};

use crate::reader::kinds::{
    CLOSE, CLOSE_BRACKET, COLON, COMMA_LAST, COMMA_MORE, DOT, ELEMENT, ELLIPSIS, EXPR, NEWAXIS,
    NEWAXIS_CALLED, NONE, NP_NEWAXIS, OPEN_BRACKET, OPEN_NONE, QUOTED, next_in,
};
use crate::reader::read::{
    Read, Reason, Tokens, behind, close, pair, quoted_of, refuse, skip, take,
};
use crate::reader::spot::Spot;
use crate::reader::types::behind_last;
use crate::rules::operators::Rules;
use crate::rules::rows::{append, lead};
use nd_syntax::trees::{Element, Expr, Index, IndexItem};
use std::alloc::Global;

impl<'f, F: for<'t> Fn(u8, Spot, Tokens<'t>) -> Read<'t, Expr>> Rules<'f, F> {
    /// `[index]`, which may open `levels` levels: `[1:, ::2]` is two slices, `['a']` a field, `[m]`
    /// one item that is an expression
    pub fn index<'t>(&self, levels: u8, tokens: Tokens<'t>) -> Read<'t, Index>
        requires { Operands F.Fn self.now.operand.now levels }
        ensures { Gives (with_rest index_of) result (read kind (index (under levels))
            (tokens_of tokens.now)) }
    {
        if levels == 0 {
            return Err(refuse(tokens, OPEN_BRACKET, Reason::TooDeep));
        }
        self.bracketed(levels - 1, tokens)
    }

    fn bracketed<'t>(&self, levels: u8, tokens: Tokens<'t>) -> Read<'t, Index>
        requires { Operands F.Fn self.now.operand.now (levels + 1) }
        ensures { Gives (with_rest index_of) result
            (read kind (between OPEN_BRACKET (contents (inside levels)) CLOSE_BRACKET)
            (tokens_of tokens.now)) }
    {
        let rest = skip(tokens, OPEN_BRACKET)?;
        let (inner, rest) = self.contents(levels, rest)?;
        close(inner, CLOSE_BRACKET, rest)
    }

    /// The contents of an index's brackets.
    #[tactic(auto, unfolding(nd_model::specs::Grammar::Cells::contents))]
    fn contents<'t>(&self, levels: u8, tokens: Tokens<'t>) -> Read<'t, Index>
        requires { Operands F.Fn self.now.operand.now (levels + 1) }
        ensures { Gives (with_rest index_of) result (read kind (contents (inside levels))
            (tokens_of tokens.now)) }
    {
        if next_in(tokens, QUOTED) {
            return field_name(self.alloc, tokens);
        }
        let (all, rest) = self.items(levels, tokens)?;
        Ok((Index::Items(all), rest))
    }

    /// `()`, or the items of an index.
    fn items<'t>(&self, levels: u8, tokens: Tokens<'t>) -> Read<'t, Vec<IndexItem>>
        requires { Operands F.Fn self.now.operand.now (levels + 1) }
        ensures { Gives (with_rest items_in) result (read kind (items_of_index (inside levels))
            (tokens_of tokens.now)) }
    {
        if next_in(tokens, OPEN_NONE) {
            return nothing(self.alloc, levels, tokens);
        }
        self.some_items(levels, tokens)
    }

    /// `item {"," item} [","]`
    fn some_items<'t>(&self, levels: u8, tokens: Tokens<'t>) -> Read<'t, Vec<IndexItem>>
        requires { Operands F.Fn self.now.operand.now (levels + 1) }
        ensures { Gives (with_rest items_in) result
            (read kind (separated COMMA_MORE COMMA_LAST (item FirstItem (inside levels))
            (item LaterItem (inside levels))) (tokens_of tokens.now)) }
    {
        let (first, rest) = self.item(levels, Spot::FirstItem, tokens)?;
        let (all, rest) = lead(first, self.other_items(levels, rest))?;
        Ok((all, behind_last(COMMA_LAST, rest)))
    }

    /// Any number of items, each behind a comma.
    fn other_items<'t>(&self, levels: u8, tokens: Tokens<'t>) -> Read<'t, Vec<IndexItem>>
        requires { Operands F.Fn self.now.operand.now (levels + 1) }
        ensures { Gives (with_rest items_in) result
            (read kind (Many COMMA_MORE (λ xs. xs)
            (behind_comma COMMA_MORE (item LaterItem (inside levels)))) (tokens_of tokens.now)) }
    {
        let mut all = Vec::new(self.alloc);
        // from the first token on
        let (_, mut rest) = tokens.split_at(0);
        'more: while next_in(rest, COMMA_MORE) {
            let (more, after) = append(all, self.other_item(levels, rest))?;
            all = more;
            rest = after;
        }
        Ok((all, rest))
    }

    fn other_item<'t>(&self, levels: u8, tokens: Tokens<'t>) -> Read<'t, IndexItem>
        requires { Operands F.Fn self.now.operand.now (levels + 1) }
        ensures { Gives (with_rest item_of) result
            (read kind (behind_comma COMMA_MORE (item LaterItem (inside levels)))
            (tokens_of tokens.now)) }
    {
        let rest = skip(tokens, COMMA_MORE)?;
        self.item(levels, Spot::LaterItem, rest)
    }

    /// An item of an index.
    #[tactic(auto, unfolding(nd_model::specs::Grammar::Cells::item))]
    fn item<'t>(&self, levels: u8, spot: Spot, tokens: Tokens<'t>) -> Read<'t, IndexItem>
        requires { Operands F.Fn self.now.operand.now (levels + 1) }
        ensures { Gives (with_rest item_of) result (read kind (item (spot_of spot) (inside levels))
            (tokens_of tokens.now)) }
    {
        if next_in(tokens, COLON) {
            return self.open_slice(levels, tokens);
        }
        if let Some(rest) = behind(tokens, ELLIPSIS) {
            return Ok((IndexItem::Ellipsis, rest));
        }
        if let Some(rest) = behind(tokens, NONE) {
            return Ok((IndexItem::NewAxis, rest));
        }
        if next_in(tokens, NP_NEWAXIS) {
            return newaxis(tokens);
        }
        if next_in(tokens, OPEN_BRACKET) {
            return self.list_item(levels, tokens);
        }
        self.part(levels, spot, tokens)
    }

    /// A slice with no start.
    fn open_slice<'t>(&self, levels: u8, tokens: Tokens<'t>) -> Read<'t, IndexItem>
        requires { Operands F.Fn self.now.operand.now (levels + 1) }
        ensures { Gives (with_rest item_of) result
            (read kind (open_slice (inside levels)) (tokens_of tokens.now)) }
    {
        let ((stop, step), rest) = self.slice(levels, tokens)?;
        Ok((IndexItem::Slice(None, stop, step), rest))
    }

    /// A list as an item.
    fn list_item<'t>(&self, levels: u8, tokens: Tokens<'t>) -> Read<'t, IndexItem>
        requires { Operands F.Fn self.now.operand.now (levels + 1) }
        ensures { Gives (with_rest item_of) result
            (read kind (list_item (inside levels)) (tokens_of tokens.now)) }
    {
        let (elements, rest) = self.list(levels, tokens)?;
        Ok((IndexItem::List(elements), rest))
    }

    /// An expression, or a slice that begins with one.
    #[tactic(auto, unfolding(nd_model::specs::Grammar::Cells::part))]
    fn part<'t>(&self, levels: u8, spot: Spot, tokens: Tokens<'t>) -> Read<'t, IndexItem>
        requires { Operands F.Fn self.now.operand.now (levels + 1) }
        ensures { Gives (with_rest item_of) result (read kind (part (spot_of spot) (inside levels))
            (tokens_of tokens.now)) }
    {
        let (first, rest) = self.expr(levels, spot, tokens)?;
        if next_in(rest, COLON) {
            let ((first, (stop, step)), rest) = pair(first, self.slice(levels, rest))?;
            return Ok((IndexItem::Slice(Some(first), stop, step), rest));
        }
        Ok((IndexItem::At(first), rest))
    }

    /// `:[expr][:[expr]]`: the stop and the step
    #[tactic(auto, unfolding(nd_model::specs::Grammar::Cells::slice))]
    fn slice<'t>(&self, levels: u8, tokens: Tokens<'t>) -> Read<'t, (Option<Expr>, Option<Expr>)>
        requires { Operands F.Fn self.now.operand.now (levels + 1) }
        ensures { Gives (with_rest bounds_of) result (read kind (slice (inside levels))
            (tokens_of tokens.now)) }
    {
        let rest = skip(tokens, COLON)?;
        let (stop, rest) = self.bound(levels, rest)?;
        pair(stop, self.step(levels, rest))
    }

    #[tactic(auto, unfolding(nd_model::specs::Grammar::Cells::bound_in))]
    fn bound<'t>(&self, levels: u8, tokens: Tokens<'t>) -> Read<'t, Option<Expr>>
        requires { Operands F.Fn self.now.operand.now (levels + 1) }
        ensures { Gives (with_rest bound_of) result (read kind (bound_in (inside levels))
            (tokens_of tokens.now)) }
    {
        if next_in(tokens, EXPR) {
            let (bound, rest) = self.expr(levels, Spot::Anywhere, tokens)?;
            return Ok((Some(bound), rest));
        }
        Ok((None, tokens))
    }

    #[tactic(auto, unfolding(nd_model::specs::Grammar::Cells::step_in))]
    fn step<'t>(&self, levels: u8, tokens: Tokens<'t>) -> Read<'t, Option<Expr>>
        requires { Operands F.Fn self.now.operand.now (levels + 1) }
        ensures { Gives (with_rest bound_of) result (read kind (step_in (inside levels))
            (tokens_of tokens.now)) }
    {
        match behind(tokens, COLON) {
            Some(rest) => self.bound(levels, rest),
            None => Ok((None, tokens)),
        }
    }

    /// `[elem, ..]`
    #[cycle(lists)]
    fn list<'t>(&self, levels: u8, tokens: Tokens<'t>) -> Read<'t, Vec<Element>>
        requires { Operands F.Fn self.now.operand.now levels }
        ensures { Gives (with_rest elements_in) result (read kind (list (under levels))
            (tokens_of tokens.now)) }
    {
        if levels == 0 {
            return Err(refuse(tokens, OPEN_BRACKET, Reason::TooDeep));
        }
        self.listed(levels - 1, tokens)
    }

    #[cycle(lists)]
    fn listed<'t>(&self, levels: u8, tokens: Tokens<'t>) -> Read<'t, Vec<Element>>
        requires { Operands F.Fn self.now.operand.now (levels + 1) }
        ensures { Gives (with_rest elements_in) result
            (read kind (between OPEN_BRACKET (mapped elements_of (elements (inside levels)))
            CLOSE_BRACKET) (tokens_of tokens.now)) }
    {
        let rest = skip(tokens, OPEN_BRACKET)?;
        let (all, rest) = self.elements(levels, rest)?;
        close(all, CLOSE_BRACKET, rest)
    }

    /// The elements of a list, perhaps none.
    #[tactic(auto, unfolding(nd_model::specs::Grammar::Cells::elements))]
    #[cycle(lists)]
    fn elements<'t>(&self, levels: u8, tokens: Tokens<'t>) -> Read<'t, Vec<Element>>
        requires { Operands F.Fn self.now.operand.now (levels + 1) }
        ensures { Gives (with_rest list_of_elements) result (read kind (elements (inside levels))
            (tokens_of tokens.now)) }
    {
        if next_in(tokens, ELEMENT) {
            return self.some_elements(levels, tokens);
        }
        Ok((Vec::new(self.alloc), tokens))
    }

    /// `elem {"," elem} [","]`
    #[cycle(lists)]
    fn some_elements<'t>(&self, levels: u8, tokens: Tokens<'t>) -> Read<'t, Vec<Element>>
        requires { Operands F.Fn self.now.operand.now (levels + 1) }
        ensures { Gives (with_rest list_of_elements) result
            (read kind (separated COMMA_MORE COMMA_LAST (element (inside levels))
            (element (inside levels))) (tokens_of tokens.now)) }
    {
        let (first, rest) = self.element(levels, tokens)?;
        let (all, rest) = lead(first, self.other_elements(levels, rest))?;
        Ok((all, behind_last(COMMA_LAST, rest)))
    }

    /// Any number of elements, each behind a comma.
    #[cycle(lists)]
    fn other_elements<'t>(&self, levels: u8, tokens: Tokens<'t>) -> Read<'t, Vec<Element>>
        requires { Operands F.Fn self.now.operand.now (levels + 1) }
        ensures { Gives (with_rest list_of_elements) result
            (read kind (Many COMMA_MORE (λ xs. xs)
            (behind_comma COMMA_MORE (element (inside levels)))) (tokens_of tokens.now)) }
    {
        let mut all = Vec::new(self.alloc);
        // from the first token on
        let (_, mut rest) = tokens.split_at(0);
        'more: while next_in(rest, COMMA_MORE) {
            let (more, after) = append(all, self.other_element(levels, rest))?;
            all = more;
            rest = after;
        }
        Ok((all, rest))
    }

    #[cycle(lists)]
    fn other_element<'t>(&self, levels: u8, tokens: Tokens<'t>) -> Read<'t, Element>
        requires { Operands F.Fn self.now.operand.now (levels + 1) }
        ensures { Gives (with_rest element_of) result
            (read kind (behind_comma COMMA_MORE (element (inside levels))) (tokens_of tokens.now)) }
    {
        let rest = skip(tokens, COMMA_MORE)?;
        self.element(levels, rest)
    }

    /// An element of a list.
    #[cycle(lists)]
    pub fn element<'t>(&self, levels: u8, tokens: Tokens<'t>) -> Read<'t, Element>
        requires { Operands F.Fn self.now.operand.now (levels + 1) }
        ensures { Gives (with_rest element_of) result (read kind (element (inside levels))
            (tokens_of tokens.now)) }
    {
        if next_in(tokens, OPEN_BRACKET) {
            let (elements, rest) = self.list(levels, tokens)?;
            return Ok((Element::Nested(elements), rest));
        }
        let (single, rest) = self.expr(levels, Spot::Anywhere, tokens)?;
        Ok((Element::Single(single), rest))
    }
}

/// A text in quotes that names a field.
fn field_name<'t>(alloc: Global, tokens: Tokens<'t>) -> Read<'t, Index>
    ensures { Gives (with_rest index_of) result (read kind field_name (tokens_of tokens.now)) }
{
    let (token, rest) = take(tokens, QUOTED)?;
    Ok((Index::Field(quoted_of(alloc, token)?), rest))
}

/// `()`
fn nothing<'t>(alloc: Global, levels: u8, tokens: Tokens<'t>) -> Read<'t, Vec<IndexItem>>
    ensures { Gives (with_rest items_in) result (read kind (nothing (under levels))
        (tokens_of tokens.now)) }
{
    if levels == 0 {
        return Err(refuse(tokens, OPEN_NONE, Reason::TooDeep));
    }
    no_items(alloc, tokens)
}

fn no_items<'t>(alloc: Global, tokens: Tokens<'t>) -> Read<'t, Vec<IndexItem>>
    ensures { Gives (with_rest items_in) result (read kind no_items (tokens_of tokens.now)) }
{
    let rest = skip(tokens, OPEN_NONE)?;
    let rest = skip(rest, CLOSE)?;
    Ok((Vec::new(alloc), rest))
}

/// `newaxis`, which is not called
#[tactic(auto, unfolding(nd_model::specs::Grammar::Cells::newaxis_name))]
fn newaxis_name<'t>(tokens: Tokens<'t>) -> Read<'t, IndexItem>
    ensures { Gives (with_rest item_of) result (read kind newaxis_name (tokens_of tokens.now)) }
{
    if let Some(rest) = behind(tokens, NEWAXIS) {
        return Ok((IndexItem::NewAxis, rest));
    }
    Err(refuse(tokens, NEWAXIS_CALLED, Reason::UnknownCall))
}

/// `np.newaxis`
#[tactic(auto, unfolding(nd_model::specs::Grammar::Cells::newaxis))]
fn newaxis<'t>(tokens: Tokens<'t>) -> Read<'t, IndexItem>
    ensures { Gives (with_rest item_of) result (read kind newaxis (tokens_of tokens.now)) }
{
    let rest = skip(tokens, NP_NEWAXIS)?;
    let rest = skip(rest, DOT)?;
    newaxis_name(rest)
}
