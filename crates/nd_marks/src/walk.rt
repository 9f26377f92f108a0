//! `Walk`: a walk over the byte offsets of a set, a range at a time.

ghost use Rattle.std.specs.Prelude.{◌≡◌, ℕ, ◌+◌, ◌-◌, ◌*◌, ◌^◌, ◌<◌, ◌≤◌, ◌&&◌, ◌++◌, [], false, true, length, min, nat_le, nat_lt, IfSome, MatchOption};
ghost use Rattle.std.specs.List.{filter};
ghost use Rattle.nd_model.specs.Arrays.Tuple.{count_up};
ghost use Rattle.nd_marks.specs.Kept.{IsNext, bits_left, grids_places, lines_left, places_in, rows_left};
ghost use Rattle.nd_marks.specs.Marks.{in_page, in_word, pages_of, Places};

use crate::grid::Grid;
use crate::pages::{PLACES, WORDS, page_of};
use crate::strip::Strip;
use std::marker::Model;

/// A range of byte offsets: `width` of them from one on.
#[derive(Clone, Copy)]
pub(crate) struct ByteRange {
    pub(crate) from: u128,
    pub(crate) width: u64,
}

impl ByteRange {
    /// Returns whether a byte offset is in the range.
    pub(crate) fn holds(&self, place: u128) -> bool
        ensures { result ≡ (nat_le self.now.from place
            && nat_lt place (self.now.from + self.now.width)) }
    {
        self.from <= place && place - self.from < u128::from(self.width)
    }
}

/// Bits of a word that are set, from one on, before another.
#[derive(Clone, Copy)]
pub(crate) struct SetBits {
    pub(crate) from: u64,
    pub(crate) to: u64,
}

/// A walk over the byte offsets of a set: over its rows, and then over the bits that are set. A
/// clause sees the list of those that are left. It takes no memory.
#[derive(Drop)]
pub(crate) struct Walk<'m> {
    // the rows of one line, with the number of the next row
    rows: Strip,
    row: u64,
    // the lines of one grid, with the number of the next line, and the number of the next grid
    grid: Grid,
    line: u64,
    grids: &'m [Grid],
    next: usize,
    // the bits from number `bit` on
    pages: &'m [Vec<u64>],
    bit: u128,
}

impl<'m> Model for Walk<'m> {
    ghost use Rattle.std.specs.Prelude.{List, ℕ};

    ghost Value = { List ℕ };

    ghost use Rattle.nd_marks.specs.Kept.{left_of};

    ghost view = { left_of };
}

/// The next row, `None` where none is left.
fn next_row(rows: &Strip, row: &mut u64) -> Option<ByteRange>
    ensures { MatchOption result ((rows_left rows.now row.old ≡ []) × (row.new ≡ row.old))
        (λ r. IsNext (rows_left rows.now row.old) r.from r.width (rows_left rows.now row.new)) }
{
    if *row >= rows.count() || rows.width() == 0 {
        return None;
    }
    let from = rows.start(*row);
    *row += 1;
    Some(ByteRange {
        from,
        width: rows.width(),
    })
}

/// Returns the next set bits of a word, from bit `bit` on. At the end of the word there are none.
pub(crate) fn next_set(word: u64, bit: u64) -> SetBits
    requires { bit < 64 }
    ensures order { (bit ≤ result.from) × ((result.from ≤ result.to) × ((result.to ≤ 64)
        × (bit < result.to))) }
    ensures unset { (i : ℕ) → bit ≤ i → i < result.from → in_word word i ≡ false }
    ensures set { (i : ℕ) → result.from ≤ i → i < result.to → in_word word i ≡ true }
    ensures end { result.to ≤ result.from → result.to ≡ 64 }
{
    let rest = word >> bit;
    if rest == 0 {
        return SetBits { from: 64, to: 64 };
    }
    let from = bit + u64::from(rest.trailing_zeros());
    let ones = (word >> from).trailing_ones();
    SetBits {
        from,
        to: from + u64::from(ones),
    }
}

/// The next bits of a page that are set, from bit `bit` on, in one word. At its end there are none.
#[inline(always)]
fn next_in_page(words: &[u64], bit: u64) -> SetBits
    requires { bit < 32768 }
    ensures order { (bit ≤ result.from) × ((result.from ≤ result.to) × (result.to ≤ 32768)) }
    ensures unset { (i : ℕ) → bit ≤ i → i < result.from → in_page words.now i ≡ false }
    ensures set { (i : ℕ) → result.from ≤ i → i < result.to → in_page words.now i ≡ true }
    ensures end { result.to ≤ result.from → result.to ≡ 32768 }
{
    let end = words.len().min(WORDS);
    let mut at = bit;
    while ((at / 64) as usize) < end {
        let low = at / 64 * 64;
        let set = next_set(words[(at / 64) as usize], at % 64);
        if set.from < set.to {
            return SetBits {
                from: low + set.from,
                to: low + set.to,
            };
        }
        at = low + 64;
    }
    SetBits {
        from: PLACES as u64,
        to: PLACES as u64,
    }
}

/// Returns the next bits that are set, from number `at` on, in one word, or `None` where no more are.
pub(crate) fn next_bits(pages: &[Vec<u64>], at: &mut u128) -> Option<ByteRange>
    ensures { MatchOption result ((bits_left (pages_of pages.now) at.old ≡ [])
        × (bits_left (pages_of pages.now) at.new ≡ []))
        (λ r. IsNext (bits_left (pages_of pages.now) at.old) r.from r.width
        (bits_left (pages_of pages.now) at.new)) }
{
    let end = pages.len() as u128 * PLACES;
    while *at < end {
        let page = *at / PLACES;
        let low = page * PLACES;
        let set = next_in_page(page_of(pages, page), (*at % PLACES) as u64);
        if set.from < set.to {
            *at = low + u128::from(set.to);
            return Some(ByteRange {
                from: low + u128::from(set.from),
                width: set.to - set.from,
            });
        }
        *at = low + PLACES;
    }
    None
}

/// The number of byte offsets in a grid, or the greatest number where there are more.
fn count_lines(grid: &Grid) -> u64
    ensures { result ≡ min (length (lines_left grid.now 0)) (2 ^ 64 - 1) }
{
    let rows = grid.strip().count().saturating_mul(grid.strip().width());
    grid.lines().saturating_mul(rows)
}

/// The number of byte offsets in grids, or `most` where there are more.
fn count_grids(grids: &[Grid], most: u64) -> u64
    ensures { result ≡ min (length (grids_places grids.now)) most }
{
    let mut count = 0;
    for grid in grids {
        count = count_lines(grid).saturating_add(count).min(most);
    }
    count
}

/// The number of bits of a page that are set.
fn count_page(words: &[u64]) -> u64
    ensures { result ≡ length (filter (in_page words.now) (count_up 0 32768)) }
{
    let mut count = 0;
    for at in 0..words.len().min(WORDS) {
        count += u64::from(words[at].count_ones());
    }
    count
}

/// The number of bits that are set, or `most` where there are more.
fn count_bits(pages: &[Vec<u64>], most: u64) -> u64
    ensures { result ≡ min (length (bits_left (pages_of pages.now) 0)) most }
{
    let mut count = 0;
    for page in pages {
        count = count_page(page.as_slice()).saturating_add(count).min(most);
    }
    count
}

/// The number of byte offsets in a set, or `most` where there are more.
pub(crate) fn count_places(last: &Grid, grids: &[Grid], pages: &[Vec<u64>], most: u64) -> u64
    ensures { result ≡ min (length (places_in
        (record { last = last.now; grids = grids.now; pages = pages_of pages.now }))) most }
{
    let rows = count_lines(last).saturating_add(count_grids(grids, most));
    rows.saturating_add(count_bits(pages, most)).min(most)
}

/// The next line, of which no row has been walked, `None` where none is left.
fn next_line(grid: &Grid, line: &mut u64) -> Option<Strip>
    ensures rows { MatchOption result ((lines_left grid.now line.old ≡ [])
        × (line.new ≡ line.old)) (λ s. lines_left grid.now line.old
        ≡ rows_left s 0 ++ lines_left grid.now line.new) }
    ensures step { IfSome result (λ s. (line.old < grid.now.lines)
        × (line.new ≡ line.old + 1)) }
{
    if *line >= grid.lines() {
        return None;
    }
    let rows = grid.line(*line);
    *line += 1;
    Some(rows)
}

impl<'m> Walk<'m> {
    /// A walk over some grids and bits.
    pub(crate) fn new(last: &Grid, grids: &'m [Grid], pages: &'m [Vec<u64>]) -> Walk<'m>
        ensures { result ≡ places_in
            (record { last = last.now; grids = grids.now; pages = pages_of pages.now }) }
    {
        Walk {
            rows: Strip::empty(),
            row: 0,
            grid: *last,
            line: 0,
            grids,
            next: 0,
            pages,
            bit: 0,
        }
    }

    /// The next range, at least one byte offset, or `None` where none is left.
    pub(crate) fn next(&mut self) -> Option<ByteRange>
        ensures { MatchOption result (self.old ≡ [])
            (λ r. IsNext self.old r.from r.width self.new) }
    {
        loop {
            if let Some(range) = next_row(&self.rows, &mut self.row) {
                return Some(range);
            }
            if let Some(rows) = next_line(&self.grid, &mut self.line) {
                self.rows = rows;
                self.row = 0;
                continue;
            }
            let Some(grid) = self.grids.get(self.next) else {
                return next_bits(self.pages, &mut self.bit);
            };
            // proof: the measure wants the count of lines to be below 2^64.
            let _lines = grid.lines();
            self.grid = *grid;
            self.line = 0;
            self.next += 1;
        }
    }
}
