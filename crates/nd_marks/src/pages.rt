//! `Pages`: bits of byte offsets, in words of 64 and in pages of 512 words.
ghost use Rattle.std.specs.Prelude.{◌≡◌, ℕ, ◌+◌, ◌*◌, ◌^◌, ◌<◌, ◌≤◌, ◌||◌, ◌&&◌, nat_eq, length, slice_index, IsTrue, IfOk, OnOk, OnErr};
ghost use Rattle.nd_marks.specs.Marks.{has_bit, in_word, page_at, pages_of, word_at};

use std::alloc::{AllocError, Global};
use std::mem;

/// Bits by pages of 4 KB, each for 32,768 byte offsets. A page has words up to the last in which a bit
/// was set, by 64 at a time, and 512 at most.
pub(crate) type Pages = Vec<Vec<u64>>;

/// The most words of a page.
pub(crate) const WORDS: usize = 512;

/// The byte offsets for which a page has bits.
pub(crate) const PLACES: u128 = 32_768;

// A page grows by this many words at a time.
const MORE_WORDS: usize = 64;

// The entry of a page in the list of pages takes as much memory as this many words.
const WORDS_OF_ENTRY: usize = 3;

/// The word of this index in a page, 0 past the last.
fn word_in(words: &[u64], at: usize) -> u64
    ensures { result ≡ slice_index words.now at }
{
    match words.get(at) {
        Some(word) => *word,
        None => 0,
    }
}

/// Returns the words of the page of this index, none past the last page.
#[inline(always)]
pub(crate) fn page_of(pages: &[Vec<u64>], page: u128) -> &[u64]
    ensures { result.now ≡ page_at (pages_of pages.now) page }
{
    if page >= pages.len() as u128 {
        return &[];
    }
    pages[page as usize].as_slice()
}

/// Returns the word of this index, 0 where its page is not there.
pub(crate) fn word_of(pages: &[Vec<u64>], at: u128) -> u64
    ensures { result ≡ word_at (pages_of pages.now) at }
{
    word_in(
        page_of(pages, at / WORDS as u128),
        (at % WORDS as u128) as usize,
    )
}

/// The index of the first word from one on that has bits, or where the page ends.
fn skip_empty(words: &[u64], at: usize) -> usize
    ensures more { at ≤ result }
    ensures none { (k : ℕ) → at ≤ k → k < result → slice_index words.now k ≡ 0 }
{
    let mut next = at;
    while next < words.len() && words[next] == 0 {
        next += 1;
    }
    next
}

/// Returns the index of the next word that has bits, or that of the first word of the next page.
pub(crate) fn next_index(pages: &[Vec<u64>], at: u128) -> u128
    requires { at < 2 ^ 100 }
    ensures more { at < result }
    ensures near { result ≤ at + 512 }
    ensures none { (q : ℕ) → at < q → q < result → word_at (pages_of pages.now) q ≡ 0 }
{
    let page = at / WORDS as u128;
    let words = page_of(pages, page);
    let next = skip_empty(words, (at % WORDS as u128) as usize + 1);
    if next >= words.len().min(WORDS) {
        return (page + 1) * WORDS as u128;
    }
    page * WORDS as u128 + next as u128
}

/// Returns the memory that pages take, in words of 8 bytes. No promise depends on it.
pub(crate) fn size_in_words(pages: &[Vec<u64>]) -> usize {
    let mut size: usize = 0;
    for words in pages {
        size = size.saturating_add(words.len().saturating_add(WORDS_OF_ENTRY));
    }
    size
}

/// Appends pages that are not there, until there are `count` in the list.
fn extend_pages(pages: &mut Pages, count: u64) -> Result<(), AllocError>
    ensures same { (k : ℕ) → page_at (pages_of pages.new.items) k
        ≡ page_at (pages_of pages.old.items) k }
    ensures ok { OnOk result (count ≤ length pages.new.items) }
{
    let alloc = *pages.allocator();
    pages.reserve(count.saturating_sub(pages.len() as u64) as usize)?;
    for _ in pages.len() as u64..count {
        pages.push(Vec::new(alloc))?;
    }
    Ok(())
}

/// Appends words without bits to a page, until there are `count`.
fn fill_page(words: &mut Vec<u64>, count: usize) -> Result<(), AllocError>
    ensures same { (q : ℕ) → slice_index words.new.items q ≡ slice_index words.old.items q }
    ensures ok { OnOk result (count ≤ length words.new.items) }
{
    words.reserve(count.saturating_sub(words.len()))?;
    for _ in words.len()..count {
        words.push(0)?;
    }
    Ok(())
}

/// The number of words that a page grows to, so that it has `count`.
fn rounded_up(count: usize) -> usize
    ensures least { count ≤ result }
    ensures most { result < count + 64 }
{
    count.div_ceil(MORE_WORDS).saturating_mul(MORE_WORDS)
}

/// Makes the first `count` words of the page of this index. No bit is set.
fn new_page(pages: &mut Pages, page: u64, count: usize) -> Result<(), AllocError>
    requires { page < 2 ^ 60 }
    ensures same { (k q : ℕ) → slice_index (page_at (pages_of pages.new.items) k) q
        ≡ slice_index (page_at (pages_of pages.old.items) k) q }
    ensures there { OnOk result (page < length pages.new.items) }
    ensures room { OnOk result (count ≤ length (page_at (pages_of pages.new.items) page)) }
{
    extend_pages(pages, page + 1)?;
    fill_page(&mut pages[page as usize], rounded_up(count))?;
    Ok(())
}

/// Makes the first `count` words of the page of this index, as far as they are not there.
#[inline(always)]
fn open_page(pages: &mut Pages, page: u64, count: usize) -> Result<(), AllocError>
    requires some { 0 < count }
    requires near { page < 2 ^ 60 }
    ensures same { (k q : ℕ) → slice_index (page_at (pages_of pages.new.items) k) q
        ≡ slice_index (page_at (pages_of pages.old.items) k) q }
    ensures there { OnOk result (page < length pages.new.items) }
    ensures room { OnOk result (count ≤ length (page_at (pages_of pages.new.items) page)) }
{
    if page_of(pages, u128::from(page)).len() >= count {
        return Ok(());
    }
    new_page(pages, page, count)
}

/// Adds the bits of a word to the one of this index in a page, by one OR.
#[inline(always)]
fn put_word(words: &mut Vec<u64>, at: usize, word: u64)
    requires { at < length words.old.items }
    ensures len { length words.new.items ≡ length words.old.items }
    ensures bits { (q i : ℕ) → in_word (slice_index words.new.items q) i
        ≡ (in_word (slice_index words.old.items q) i || (nat_eq q at && in_word word i)) }
{
    words[at] = words[at] | word;
}

/// Adds the bits of a word to the one of this index. A word without bits asks for no page.
#[inline(always)]
pub(crate) fn add_word(pages: &mut Pages, at: u64, word: u64) -> Result<(), AllocError>
    ensures { OnOk result ((q i : ℕ) → in_word (word_at (pages_of pages.new.items) q) i
        ≡ (in_word (word_at (pages_of pages.old.items) q) i || (nat_eq q at && in_word word i))) }
{
    if word == 0 {
        return Ok(());
    }
    let page = at / WORDS as u64;
    let index = (at % WORDS as u64) as usize;
    open_page(pages, page, index + 1)?;
    put_word(&mut pages[page as usize], index, word);
    Ok(())
}

/// Adds the bits of another page, each word by one OR. A page of fewer words changes place with the
/// other first.
fn add_page(words: &mut Vec<u64>, mut more: Vec<u64>)
    ensures { (q i : ℕ) → in_word (slice_index words.new.items q) i
        ≡ (in_word (slice_index words.old.items q) i || in_word (slice_index more.items q) i) }
{
    if words.len() < more.len() {
        mem::swap(words, &mut more);
    }
    for at in 0..more.len() {
        put_word(words, at, more[at]);
    }
}

/// Adds the bits of other pages. A page that only the others have is moved. Where memory is wanted,
/// the bits stay as they were.
pub(crate) fn add_pages(pages: &mut Pages, mut more: Pages) -> Result<(), AllocError>
    ensures ok { OnOk result ((p : ℕ) → has_bit (pages_of pages.new.items) p
        ≡ (has_bit (pages_of pages.old.items) p || has_bit (pages_of more.items) p)) }
    ensures err { OnErr result ((p : ℕ) → has_bit (pages_of pages.new.items) p
        ≡ has_bit (pages_of pages.old.items) p) }
{
    if pages.is_empty() {
        *pages = more;
        return Ok(());
    }
    extend_pages(pages, more.len() as u64)?;
    while let Some(words) = more.pop() {
        add_page(&mut pages[more.len()], words);
    }
    Ok(())
}

/// Returns equal pages with memory of their own.
pub(crate) fn copy_pages(alloc: Global, pages: &[Vec<u64>]) -> Result<Pages, AllocError>
    ensures { IfOk result (λ copy. pages_of copy.items ≡ pages_of pages.now) }
{
    let mut copy = Vec::with_capacity(alloc, pages.len())?;
    for words in pages {
        copy.push(Vec::from_slice(alloc, words)?)?;
    }
    Ok(copy)
}

/// Returns true only where both are the same words.
fn are_equal_words(words: &[u64], others: &[u64]) -> bool
    ensures { IsTrue result → words.now ≡ others.now }
{
    words == others
}

/// Returns true only where both are the same pages.
pub(crate) fn are_equal_pages(pages: &[Vec<u64>], others: &[Vec<u64>]) -> bool
    ensures { IsTrue result → pages_of pages.now ≡ pages_of others.now }
{
    if pages.len() != others.len() {
        return false;
    }
    for at in 0..pages.len() {
        if !are_equal_words(&pages[at], &others[at]) {
            return false;
        }
    }
    true
}
