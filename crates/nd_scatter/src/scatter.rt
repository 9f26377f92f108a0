//! `Scatter`: a prepared assignment to the elements that an advanced index selects.
ghost use Rattle.std.specs.Prelude.{◌≡◌};
ghost use Rattle.nd_index.specs.Advanced.Chosen.{view_at};
ghost use Rattle.nd_scatter.specs.Ready.{IsPrepared};
ghost use Rattle.nd_scatter.specs.Scattered.{written_by};

use crate::writing::write_values;
use nd_block::RawBlock;
use nd_index::advanced::ChosenPlaces;
use nd_view::View;
use std::marker::Model;

/// An assignment that `prepare_scatter` prepared: writing it takes no memory. A clause sees the
/// selected elements, the bytes of the values, the bytes from one value to the next, and the length
/// of the block.
#[derive(Drop)]
pub struct Scatter<'p> {
    view: &'p View,
    places: &'p ChosenPlaces,
    // the values in the view's dtype; their step is 0 where one value is for all elements
    values: RawBlock,
    step: usize,
    // how many bytes the block has
    len: usize,
}

impl<'p> Model for Scatter<'p> {
    ghost use Rattle.nd_scatter.specs.Scattered.{Prepared};

    ghost Value = { Prepared };

    ghost use Rattle.nd_scatter.specs.Ready.{prepared_of, IsScatter};

    ghost view = { prepared_of };

    ghost invariant = { IsScatter };
}

impl<'p> Scatter<'p> {
    pub(crate) fn new(
        view: &'p View,
        places: &'p ChosenPlaces,
        values: RawBlock,
        step: usize,
        len: usize,
    ) -> Scatter<'p>
        requires { IsPrepared (view_at view.now places.now) values step len }
        ensures { result ≡ record {
          target = view_at view.now places.now;
          values = values;
          step = step;
          len = len;
        } }
    {
        Scatter {
            view,
            places,
            values,
            step,
            len,
        }
    }

    /// Writes the values to a block of the length that they were prepared for; any other block
    /// stays as it is. Where an element is selected twice, the last value in C order stays.
    ///
    /// After `x[[0, 0]] = [1, 2]` the first element of `x` is 2.
    pub fn write(&self, block: &mut RawBlock)
        ensures { block.new ≡ written_by self.now block.old }
    {
        if block.len() != self.len {
            return;
        }
        let (elem, places) = (self.view.elem(), &self.places.places);
        let bytes = block.as_mut_slice();
        write_values(bytes, elem, places, self.values.as_slice(), self.step);
    }
}
