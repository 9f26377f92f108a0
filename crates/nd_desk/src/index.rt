//! `items_of`: the index of a part, as a line writes it.

ghost use Rattle.std.specs.Prelude.{◌≡◌, ◌∷◌, IfOk, is_some, option_copied, option_map};
ghost use Rattle.std.specs.List.{list_all};
ghost use Rattle.nd_model.specs.Book.Script.{integer_word};
ghost use Rattle.nd_model.specs.Indexing.Index.{is_number};
ghost use Rattle.nd_model.specs.Indexing.Selecting as model;
ghost use Rattle.nd_index.specs.Basic.Items as basic;
ghost use Rattle.nd_desk.specs.Lines.{bounds_behind, bounds_of, items_in};
ghost use Rattle.nd_desk.specs.Words.{bound_word, index_word, item_of_parts, item_word, slice_of};

use nd_index::basic::BasicItem;
use nd_script::words::{Numeral, split_part};
use std::alloc::{AllocError, Global};

// The first bound of a slice, and what follows the colon that ends it.
fn split_bound(text: &str) -> (&str, Option<&str>)
    ensures { bounds_of text.now ≡ result.0.now ∷ bounds_behind (option_copied result.1) }
{
    match text.split_once(':') {
        Some((bound, rest)) => (bound, Some(rest)),
        None => (text, None),
    }
}

// A bound of a slice, which may be left out.
fn bound_of(word: &str) -> Option<Option<i128>>
    ensures { result ≡ bound_word word.now }
{
    if word.is_empty() {
        return Some(None);
    }
    let number = i64::read(word)?;
    Some(Some(i128::from(number)))
}

fn number_item(word: &str) -> Option<BasicItem>
    ensures { option_map basic.item_of result ≡ option_map model.At (integer_word word.now) }
{
    let number = i64::read(word)?;
    Some(BasicItem::At(i128::from(number)))
}

// The slice of three bounds. The step may be left out with its colon.
fn slice_of(start: &str, stop: &str, step: &str) -> Option<BasicItem>
    ensures { option_map basic.item_of result
        ≡ slice_of (bound_word start.now) (bound_word stop.now) (bound_word step.now) }
{
    let start = bound_of(start)?;
    let stop = bound_of(stop)?;
    let step = bound_of(step)?;
    Some(BasicItem::Slice { start, stop, step })
}

// The slice with this start, and what stands behind its colon.
fn slice_item(start: &str, rest: &str) -> Option<BasicItem>
    ensures { option_map basic.item_of result
        ≡ item_of_parts (start.now ∷ bounds_of rest.now) }
{
    let (stop, behind) = split_bound(rest);
    let Some(rest) = behind else {
        return slice_of(start, stop, "");
    };
    match split_bound(rest) {
        (step, None) => slice_of(start, stop, step),
        (_, Some(_)) => None,
    }
}

// An item of an index: an integer, or a slice.
fn item_of(word: &str) -> Option<BasicItem>
    ensures { option_map basic.item_of result ≡ item_word word.now }
{
    let (first, behind) = split_bound(word);
    match behind {
        None => number_item(first),
        Some(rest) => slice_item(first, rest),
    }
}

/// Returns whether a word is an index: `3`, `1:5,::2`. It takes no memory.
pub(crate) fn is_index(word: &str) -> bool
    ensures { result ≡ is_some (index_word word.now) }
{
    let mut left = Some(word);
    while let Some(text) = left {
        let (part, behind) = split_part(text);
        if item_of(part).is_none() {
            return false;
        }
        left = behind;
    }
    true
}

/// Returns the items of an index, and none of a word that is no index.
pub(crate) fn items_of(alloc: Global, word: &str) -> Result<Vec<BasicItem>, AllocError>
    ensures { IfOk result (λ v. basic.items_of v.items ≡ items_in word.now) }
{
    let mut items = Vec::new(alloc);
    let mut left = Some(word);
    while let Some(text) = left {
        let (part, behind) = split_part(text);
        let Some(item) = item_of(part) else {
            return Ok(Vec::new(alloc));
        };
        items.push(item)?;
        left = behind;
    }
    Ok(items)
}

fn is_number(item: &BasicItem) -> bool
    ensures { result ≡ is_number (basic.item_of item.now) }
{
    matches!(item, BasicItem::At(_))
}

/// Returns whether all items are integers.
pub(crate) fn are_numbers(items: &[BasicItem]) -> bool
    ensures { result ≡ list_all is_number (basic.items_of items.now) }
{
    for item in items {
        if !is_number(item) {
            return false;
        }
    }
    true
}
