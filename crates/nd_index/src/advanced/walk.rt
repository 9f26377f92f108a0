//! `NumberWalk`: reads the numbers of an array in C order, one at a time.
ghost use Rattle.std.specs.Prelude.{◌≡◌, ◌+◌, ◌^◌, ◌<◌, ◌≤◌, [], ◌∷◌, length, slice_index, MatchOption};
ghost use Rattle.nd_index.specs.Items.Items.{numbers_of};
ghost use Rattle.nd_index.specs.Advanced.Walks.{places_in};

use crate::items::IndexArray;
use nd_element::number_in;
use nd_types::Elem;
use nd_view::{Run, Runs};
use std::marker::Model;

/// A walk over the numbers of an array in C order. A clause sees the list of those that are left.
#[derive(Drop)]
pub(crate) struct NumberWalk<'i> {
    elem: Elem,
    bytes: &'i [u8],
    // the present run, how many of its elements are done, and the runs behind it
    run: Option<Run>,
    done: u64,
    runs: Runs<'i>,
}

impl<'i> Model for NumberWalk<'i> {
    ghost use Rattle.std.specs.Prelude.{List, ℤ};

    ghost Value = { List ℤ };

    ghost use Rattle.nd_index.specs.Advanced.Walks.{left_of, IsWalk};

    ghost view = { left_of };

    ghost invariant = { IsWalk };
}

// The byte offset of the next element of a run of which `done` are done, if one is left.
fn place_in(run: &Option<Run>, done: u64) -> Option<u64>
    ensures { MatchOption result (length (places_in run.now) ≤ done) (λ p.
        (done < length (places_in run.now)) × (p ≡ slice_index (places_in run.now) done)
        × (done + 1 < 2 ^ 64)) }
{
    let Some(run) = run else {
        return None;
    };
    if done < run.count() {
        Some(run.place(done))
    } else {
        None
    }
}

impl<'i> NumberWalk<'i> {
    /// Begins a walk over an array.
    pub(crate) fn new(array: &IndexArray<'i>) -> NumberWalk<'i>
        ensures { result ≡ numbers_of array.now }
    {
        NumberWalk {
            elem: *array.elem,
            bytes: array.bytes,
            run: None,
            done: 0,
            runs: array.view.runs(),
        }
    }

    /// Returns the next number, or `None` where none is left.
    pub(crate) fn next(&mut self) -> Option<i128>
        ensures { MatchOption result ((self.old ≡ []) × (self.new ≡ [])) (λ z. self.old
            ≡ z ∷ self.new) }
    {
        if let Some(place) = place_in(&self.run, self.done) {
            self.done += 1;
            return Some(number_in(self.bytes, place, self.elem));
        }
        let Some(run) = self.runs.next() else {
            return None;
        };
        // proof: the run has an element, by the clause of count().
        let _count = run.count();
        let number = number_in(self.bytes, run.start(), self.elem);
        self.run = Some(run);
        self.done = 1;
        Some(number)
    }
}
