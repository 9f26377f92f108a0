//! `find_way`: where a cell of a draft stands in the notebook, and how a merge comes to it.

ghost use Rattle.std.specs.Prelude.{◌≡◌, ◌<◌, ◌≤◌, ◌+◌, IsTrue, false, length, slice_index_or, string_bytes, bytes_eq, take, MatchOption};
ghost use Rattle.nd_model.specs.Book.Book.{is_label, no_cell};
ghost use Rattle.nd_schedule.specs.Cells.Source.{cell_of, cells_of};
ghost use Rattle.nd_schedule.specs.Schedule.Merge.{IsWay};

use crate::cells::KeptCell;
use crate::schedule::draft::Hint;
use std::rc::Rc;

/// How a merge comes to a cell of a draft.
#[derive(Clone, Copy)]
pub(crate) enum Way {
    /// It stands at this place with the same text, and none behind that is gone past yet.
    Kept(usize),
    /// It stands at this place with another text, and none behind that is gone past yet.
    Edited(usize),
    /// It stands at this place with the same text, and comes in elsewhere.
    Moved(usize),
    /// It stands nowhere with this text, or comes in elsewhere.
    New,
}

/// Whether an edit of the draft has moved the cell.
fn is_moved(hint: Hint) -> bool {
    match hint {
        Hint::At(_place) => false,
        Hint::Moved(_place) => true,
        Hint::New => false,
    }
}

/// The place that a hint names.
fn hinted_place(hint: Hint) -> Option<usize> {
    match hint {
        Hint::At(place) => Some(place),
        Hint::Moved(place) => Some(place),
        Hint::New => None,
    }
}

/// The place of the first cell with a label.
fn find_label(cells: &[Rc<KeptCell>], label: u64) -> Option<usize>
    ensures { MatchOption result (is_label label (cells_of cells.now) ≡ false)
        (λ k. (k < length cells.now)
        × ((slice_index_or (cells_of cells.now) k no_cell).label ≡ label)) }
{
    for k in 0..cells.len() {
        if cells[k].label == label {
            return Some(k);
        }
    }
    None
}

/// The place of a cell with a label, if there is one. The hint is tried first, and only saves the search.
fn find_old(cells: &[Rc<KeptCell>], hint: Hint, label: u64) -> Option<usize>
    ensures { MatchOption result (is_label label (cells_of cells.now) ≡ false)
        (λ k. (k < length cells.now)
        × ((slice_index_or (cells_of cells.now) k no_cell).label ≡ label)) }
{
    if let Some(k) = hinted_place(hint) {
        if k < cells.len() && cells[k].label == label {
            return Some(k);
        }
    }
    find_label(cells, label)
}

/// Whether two cells have the same text.
fn have_same_text(one: &KeptCell, other: &KeptCell) -> bool
    ensures { result ≡ bytes_eq (string_bytes one.now.text) (string_bytes other.now.text) }
{
    one.text.as_str() == other.text.as_str()
}

/// Whether a merge that has gone past the cells in front of a place may go past the cell at another.
fn is_in_line(hint: Hint, i: usize, k: usize) -> bool
    ensures { IsTrue result → i ≤ k }
{
    i <= k && !is_moved(hint)
}

/// How a cell comes to its place in a merge that has gone past the cells in front of a place.
pub(crate) fn find_way(cells: &[Rc<KeptCell>], cell: &KeptCell, hint: Hint, i: usize) -> Way
    ensures { IsWay i (cells_of cells.now) (cell_of cell.now) result }
{
    let Some(k) = find_old(cells, hint, cell.label) else {
        return Way::New;
    };
    match (have_same_text(cell, &cells[k]), is_in_line(hint, i, k)) {
        (true, true) => Way::Kept(k),
        (true, false) => Way::Moved(k),
        (false, true) => Way::Edited(k),
        (false, false) => Way::New,
    }
}

/// Whether two cells have the same label and the same text.
fn are_same(one: &KeptCell, other: &KeptCell) -> bool
    ensures { IsTrue result → cell_of one.now ≡ cell_of other.now }
{
    one.label == other.label && have_same_text(one, other)
}

/// The first place where a draft has another cell, or where the shorter of the two ends.
pub(crate) fn first_other(cells: &[Rc<KeptCell>], drafted: &[Rc<KeptCell>]) -> usize
    ensures within { result ≤ length cells.now }
    ensures there { result ≤ length drafted.now }
    ensures same { take result (cells_of cells.now) ≡ take result (cells_of drafted.now) }
{
    let count = cells.len().min(drafted.len());
    for k in 0..count {
        if !are_same(&cells[k], &drafted[k]) {
            return k;
        }
    }
    count
}
