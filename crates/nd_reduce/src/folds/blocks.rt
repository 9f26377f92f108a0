//! `least_block` and `greatest_block`: which block of contiguous numbers has the first extreme. Its
//! place is then found by a search through that block alone.
ghost use Rattle.std.specs.Prelude.{◌≡◌, ◌+◌, ◌*◌, ◌<◌, ◌≤◌, drop, length, int_lt, if◌then◌else◌};
ghost use Rattle.nd_model.specs.Arrays.Element.{size_of};
ghost use Rattle.nd_model.specs.Making.Reductions.{greater};
ghost use Rattle.nd_types.specs.Kinds.{kind_of};
ghost use Rattle.nd_reduce.specs.Folds.Blocks.{IsFirstBlock, block_in, first_index};
ghost use Rattle.nd_reduce.specs.Folds.Lanes.{numbers_in};

use crate::folds::native::{greatest_in, least_in};
use crate::folds::taking::number_in;
use nd_types::Kind;

// The bytes of a block.
const BLOCK: usize = 2048;

/// A block of contiguous numbers, with the best of them.
#[derive(Drop, Clone, Copy)]
pub(crate) struct Block {
    /// The index of its first number.
    pub(crate) from: usize,
    /// How many numbers it has.
    pub(crate) count: usize,
    /// The least or the greatest of its numbers.
    pub(crate) best: i128,
}

// The bytes from this index on.
#[inline(always)]
fn bytes_from(bytes: &[u8], index: usize) -> &[u8]
    requires { index ≤ length bytes.now }
    ensures { result.now ≡ drop index bytes.now }
{
    &bytes[index..]
}

// The block with the lesser number, the first one where they are equal.
#[inline(always)]
fn lesser_block(found: Block, next: Block) -> Block
    ensures { result ≡ (if int_lt next.best found.best then next else found) }
{
    if next.best < found.best { next } else { found }
}

// The block with the larger number, the first one where they are equal.
#[inline(always)]
fn larger_block(found: Block, next: Block) -> Block
    ensures { result ≡ (if greater next.best found.best then next else found) }
{
    if next.best > found.best { next } else { found }
}

/// Returns the block that has the first of the least among the first `count` numbers of a kind, of
/// which there is one at least.
pub(crate) fn least_block(kind: Kind, bytes: &[u8], count: usize) -> Block
    requires some { 0 < count }
    requires inside { count * size_of (kind_of kind) ≤ length bytes.now }
    ensures { IsFirstBlock int_lt (kind_of kind) bytes.now count
        result.from result.count result.best }
{
    let size = kind.size() as usize;
    let most = BLOCK / size;
    let mut done = most.min(count);
    let mut found = Block {
        from: 0,
        count: done,
        best: least_in(kind, bytes, done),
    };
    while done < count {
        let some = most.min(count - done);
        let next = Block {
            from: done,
            count: some,
            best: least_in(kind, bytes_from(bytes, done * size), some),
        };
        found = lesser_block(found, next);
        done += some;
    }
    found
}

/// Returns the block that has the first of the greatest among the first `count` numbers of a kind,
/// of which there is one at least.
pub(crate) fn greatest_block(kind: Kind, bytes: &[u8], count: usize) -> Block
    requires some { 0 < count }
    requires inside { count * size_of (kind_of kind) ≤ length bytes.now }
    ensures { IsFirstBlock greater (kind_of kind) bytes.now count
        result.from result.count result.best }
{
    let size = kind.size() as usize;
    let most = BLOCK / size;
    let mut done = most.min(count);
    let mut found = Block {
        from: 0,
        count: done,
        best: greatest_in(kind, bytes, done),
    };
    while done < count {
        let some = most.min(count - done);
        let next = Block {
            from: done,
            count: some,
            best: greatest_in(kind, bytes_from(bytes, done * size), some),
        };
        found = larger_block(found, next);
        done += some;
    }
    found
}

// The index of the first of `count` numbers that is this one, or `count` where none is.
#[inline(always)]
fn index_in(bytes: &[u8], kind: Kind, count: usize, number: i128) -> usize
    requires { count * size_of (kind_of kind) ≤ length bytes.now }
    ensures within { result ≤ count }
    ensures first { result ≡ first_index number (numbers_in (kind_of kind) bytes.now count) }
{
    for index in 0..count {
        if number_in(bytes, kind, index) == number {
            return index;
        }
    }
    count
}

// The index of the first of `count` numbers that is this one, by a loop specialised for the kind.
#[inline(never)]
fn index_of(kind: Kind, bytes: &[u8], count: usize, number: i128) -> usize
    requires { count * size_of (kind_of kind) ≤ length bytes.now }
    ensures within { result ≤ count }
    ensures first { result ≡ first_index number (numbers_in (kind_of kind) bytes.now count) }
{
    match kind {
        Kind::Bool => index_in(bytes, Kind::Bool, count, number),
        Kind::I8 => index_in(bytes, Kind::I8, count, number),
        Kind::I16 => index_in(bytes, Kind::I16, count, number),
        Kind::I32 => index_in(bytes, Kind::I32, count, number),
        Kind::I64 => index_in(bytes, Kind::I64, count, number),
        Kind::U8 => index_in(bytes, Kind::U8, count, number),
        Kind::U16 => index_in(bytes, Kind::U16, count, number),
        Kind::U32 => index_in(bytes, Kind::U32, count, number),
        Kind::U64 => index_in(bytes, Kind::U64, count, number),
    }
}

impl Block {
    /// Returns the index of the first number of the block that is its best one, counted from the
    /// first of all numbers.
    pub(crate) fn place(&self, kind: Kind, bytes: &[u8]) -> usize
        requires { (self.now.from + self.now.count) * size_of (kind_of kind) ≤ length bytes.now }
        ensures { result ≡ self.now.from + first_index self.now.best
            (block_in (kind_of kind) bytes.now self.now.from self.now.count) }
    {
        let behind = bytes_from(bytes, self.from * kind.size() as usize);
        self.from + index_of(kind, behind, self.count, self.best)
    }
}
