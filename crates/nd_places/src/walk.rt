//! `PlaceWalk`: a walk over byte offsets, a part at a time.
ghost use Rattle.std.specs.Prelude.{◌≡◌, ◌<◌, [], ◌+ℤ◌, drop, length, map, MatchOption};
ghost use Rattle.std.specs.List.{All};
ghost use Rattle.nd_places.specs.Forms.{places_in};
ghost use Rattle.nd_places.specs.Left.{IsNext, rows_left, trues_left};
ghost use Rattle.nd_places.specs.Near.{IsNear, place_on};

use crate::form::{Form, Rows, Trues};
use crate::line::near_place;
use crate::masks::write_true_places;
use std::marker::Model;

/// A walk over the byte offsets of a list in order. A clause sees the list of those that are left.
#[derive(Drop)]
pub struct PlaceWalk<'p> {
    form: &'p Form,
    // how many byte offsets, rows or bytes of a mask are done, and how many elements of the row
    // behind them
    done: usize,
    within: usize,
}

impl<'p> Model for PlaceWalk<'p> {
    ghost use Rattle.std.specs.Prelude.{List, ℕ};

    ghost Value = { List ℕ };

    ghost use Rattle.nd_places.specs.Left.{left_of, IsWalk};

    ghost view = { left_of };

    ghost invariant = { IsWalk };
}

// The next byte offsets of those kept one by one, at most `most`. `done` of them are taken.
fn next_each<'b>(places: &'b [u64], done: &mut usize, most: usize) -> Option<&'b [u64]>
    requires { 0 < most }
    ensures { MatchOption result ((drop done.old places.now ≡ []) × (drop done.new places.now ≡ []))
        (λ part. IsNext most (drop done.old places.now) part.now (drop done.new places.now)) }
{
    if *done >= places.len() {
        return None;
    }
    let end = *done + most.min(places.len() - *done);
    let part = &places[*done..end];
    *done = end;
    Some(part)
}

// Writes the byte offsets of the elements of a row.
fn write_row(out: &mut [u64], start: i64, ways: &[i64])
    requires each { length ways.now ≡ length out.old }
    requires start { IsNear start }
    requires near { All IsNear ways.now }
    ensures { out.new ≡ map (λ z. place_on (start +ℤ z)) ways.now }
{
    for (index, way) in ways.iter().enumerate() {
        out[index] = near_place(start + *way);
    }
}

// Writes the next byte offsets of rows, as many of one row as there is room for.
fn next_in_rows<'b>(
    rows: &Rows,
    done: &mut usize,
    within: &mut usize,
    room: &'b mut [u64],
) -> Option<&'b [u64]>
    requires within { within.old < length rows.now.ways.items }
    requires room { 0 < length room.old }
    ensures within { within.new < length rows.now.ways.items }
    ensures places { MatchOption result ((rows_left rows.now done.old within.old ≡ [])
        × (rows_left rows.now done.new within.new ≡ []))
        (λ part. IsNext (length room.old) (rows_left rows.now done.old within.old) part.now
        (rows_left rows.now done.new within.new)) }
{
    let (starts, ways) = (rows.starts.as_slice(), rows.ways.as_slice());
    if *done >= starts.len() {
        return None;
    }
    let count = room.len().min(ways.len() - *within);
    let end = *within + count;
    write_row(&mut room[..count], starts[*done], &ways[*within..end]);
    if end < ways.len() {
        *within = end;
    } else {
        *done += 1;
        *within = 0;
    }
    Some(&room[..count])
}

// Writes the next byte offsets that a mask selects into `room`. `done` bytes of the mask are looked
// at.
fn next_trues<'b>(trues: &Trues, done: &mut usize, room: &'b mut [u64]) -> Option<&'b [u64]>
    requires { 0 < length room.old }
    ensures { MatchOption result ((trues_left trues.now done.old ≡ [])
        × (trues_left trues.now done.new ≡ []))
        (λ part. IsNext (length room.old) (trues_left trues.now done.old) part.now
        (trues_left trues.now done.new)) }
{
    let mask = trues.mask.as_slice();
    let mut count = 0;
    while count == 0 && *done < mask.len() {
        let end = *done + room.len().min(mask.len() - *done);
        count = write_true_places(room, trues.line, *done as u64, &mask[*done..end]);
        *done = end;
    }
    if count == 0 {
        return None;
    }
    Some(&room[..count])
}

impl<'p> PlaceWalk<'p> {
    pub(crate) fn new(form: &'p Form) -> PlaceWalk<'p>
        ensures { result ≡ places_in form.now }
    {
        PlaceWalk {
            form,
            done: 0,
            within: 0,
        }
    }

    /// Returns the next byte offsets, at least one and at most as many as there is room for, or
    /// `None` where none is left. They lie in the room or in the list.
    pub fn next<'b>(&mut self, room: &'b mut [u64]) -> Option<&'b [u64]>
    where
        'p: 'b,
        requires { 0 < length room.old }
        ensures { MatchOption result ((self.old ≡ []) × (self.new ≡ []))
            (λ part. IsNext (length room.old) self.old part.now self.new) }
    {
        match self.form {
            Form::Each(places) => next_each(places.as_slice(), &mut self.done, room.len()),
            Form::Rows(rows) => next_in_rows(rows, &mut self.done, &mut self.within, room),
            Form::Trues(trues) => next_trues(trues, &mut self.done, room),
        }
    }
}
