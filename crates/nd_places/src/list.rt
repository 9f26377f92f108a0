//! `PlaceList`: the byte offsets of selected elements, in a compact form.
ghost use Rattle.std.specs.Prelude.{◌≡◌, [], IfOk, IfSome};
ghost use Rattle.nd_places.specs.Forms.{trues_on};
ghost use Rattle.nd_places.specs.Near.{rows_places};

use crate::form::{Form, Rows, Trues};
use crate::walk::PlaceWalk;
use std::alloc::AllocError;
use std::marker::Model;

// How many byte offsets are worked out at a time.
const MANY: usize = 512;

/// The byte offsets of elements in order, kept as rows or as a mask where that takes less memory. A
/// clause sees the list of them.
#[derive(Drop)]
pub struct PlaceList {
    form: Form,
}

impl Model for PlaceList {
    ghost use Rattle.std.specs.Prelude.{List, ℕ};

    ghost Value = { List ℕ };

    ghost use Rattle.nd_places.specs.Forms.{places_of};

    ghost view = { places_of };
}

impl PlaceList {
    /// Returns the list of these byte offsets.
    pub fn of_each(places: Vec<u64>) -> PlaceList
        ensures { result ≡ places.items }
    {
        PlaceList {
            form: Form::Each(places),
        }
    }

    /// Returns the list of the byte offsets of rows. Rows that start at 0 and 40, with offsets 0
    /// and 8, have `0 8 40 48`.
    pub fn of_rows(rows: Rows) -> PlaceList
        ensures { result ≡ rows_places rows.starts.items rows.ways.items }
    {
        PlaceList {
            form: Form::Rows(rows),
        }
    }

    /// Returns the list of the byte offsets that a mask selects. A line from 0 in steps of 8 with
    /// the mask `1 0 1` has `0 16`.
    pub fn of_trues(trues: Trues) -> PlaceList
        ensures { result ≡ trues_on trues.line 0 trues.mask }
    {
        PlaceList {
            form: Form::Trues(trues),
        }
    }

    /// Returns the line and the mask, where the list is kept as these.
    pub fn trues(&self) -> Option<&Trues>
        ensures { IfSome result (λ t. self.now ≡ trues_on t.now.line 0 t.now.mask) }
    {
        match &self.form {
            Form::Trues(trues) => Some(trues),
            Form::Each(_) | Form::Rows(_) => None,
        }
    }

    /// Begins a walk over the byte offsets.
    pub fn walk(&self) -> PlaceWalk<'_>
        ensures { result ≡ self.now }
    {
        PlaceWalk::new(&self.form)
    }

    /// Returns the byte offsets as a slice: the list's own where it has one, else `room`, which
    /// must be empty, filled with them.
    pub fn lend<'p>(&'p self, room: &'p mut Vec<u64>) -> Result<&'p [u64], AllocError>
        requires { room.old.items ≡ [] }
        ensures { IfOk result (λ places. places.now ≡ self.now) }
    {
        if let Form::Each(places) = &self.form {
            return Ok(places.as_slice());
        }
        let mut some = [0; MANY];
        let mut walk = self.walk();
        while let Some(part) = walk.next(&mut some) {
            room.extend_from_slice(part)?;
        }
        Ok(room.as_slice())
    }
}
