//! `Form`: how a list of byte offsets is kept: one by one, as rows, or as a mask over a line.
ghost use Rattle.std.specs.Prelude.{◌<◌, ◌≤◌, ◌^◌, length};
ghost use Rattle.std.specs.List.{All};
ghost use Rattle.nd_places.specs.Near.{IsNear};

use crate::line::StridedLine;
use nd_block::RawBlock;

/// Rows of elements: the byte offset at which each row begins, and the offsets of its elements from
/// there.
#[derive(Drop)]
pub struct Rows {
    pub starts: Vec<i64>,
    pub ways: Vec<i64>,
    ghost starts_near: { All IsNear starts.items },
    ghost ways_near: { All IsNear ways.items },
    ghost some: { 0 < length ways.items },
}

/// The elements of a line that a mask selects: a byte other than 0 is true.
#[derive(Drop)]
pub struct Trues {
    pub line: StridedLine,
    pub mask: RawBlock,
    ghost few: { length mask ≤ 2 ^ 24 },
}

/// How byte offsets are kept: one by one, as rows, or as a line and its mask.
#[derive(Drop)]
pub(crate) enum Form {
    Each(Vec<u64>),
    Rows(Rows),
    Trues(Trues),
}
