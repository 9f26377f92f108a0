//! `Spread`: the axes that an array of an index addresses, and its flat indices over them.
ghost use Rattle.std.specs.Prelude.{◌≡◌, ◌^◌, ◌≤◌, length};
ghost use Rattle.std.specs.List.{All};
ghost use Rattle.nd_model.specs.Arrays.Tuple.{elements_of};
ghost use Rattle.nd_index.specs.Advanced.IndexNumbers.{numbers_in};

use crate::advanced::index_numbers::IndexNumbers;
use nd_view::Shape;

/// The `axes` adjacent axes that an array addresses by flat indices. There are `count` of these, in
/// C order of `shape`.
#[derive(Drop)]
pub(crate) struct Spread<'t, 'i> {
    pub(crate) axes: usize,
    pub(crate) shape: Shape,
    pub(crate) count: u64,
    pub(crate) numbers: IndexNumbers<'t, 'i>,
    ghost all: { count ≡ length (numbers_in numbers) },
    ghost whole: { count ≡ elements_of shape.items },
    ghost few: { count ≤ 2 ^ 24 },
    ghost near: { All (λ k. k ≤ 2 ^ 32) (numbers_in numbers) },
}
