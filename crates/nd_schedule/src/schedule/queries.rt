//! The queries of a notebook: its cells, and what their runs gave. They run no cell.

ghost use Rattle.std.specs.Prelude.{◌≡◌, ◌<◌, ◌≤◌, ◌+◌, Some, is_some, length, slice_get, slice_index_or, unwrap_or};
ghost use Rattle.nd_model.specs.Cells.Session.{lookup};
ghost use Rattle.nd_model.specs.Book.Renaming.{AreDistinct};
ghost use Rattle.nd_model.specs.Book.Book.{labels_of, no_cell, told_book};
ghost use Rattle.nd_model.specs.Book.Entries.{entry_at, record_at, session_before};
ghost use Rattle.nd_model.specs.Book.Scheduler.{told_of};
ghost use Rattle.nd_model.specs.Book.Notebook.{book_of};

use crate::schedule::notebook::Schedule;
use crate::schedule::runner::CellRunner;

impl<C: CellRunner> Schedule<C> {
    /// How many cells there are.
    pub fn count(&self) -> usize
        ensures { result ≡ length self.now.cells }
    {
        self.cells.len()
    }

    /// What the cells are run by.
    pub fn world(&self) -> &C::World
        ensures { C.given result.now ≡ self.now.given }
    {
        &self.world
    }

    /// The text of the cell at the place.
    pub fn text(&self, at: usize) -> &str
        requires { at < length self.now.cells }
        ensures { result.now ≡ (slice_index_or self.now.cells at no_cell).source }
    {
        self.cells[at].text.as_str()
    }

    /// The label of the cell at the place.
    pub fn label(&self, at: usize) -> u64
        requires { at < length self.now.cells }
        ensures { result ≡ (slice_index_or self.now.cells at no_cell).label }
    {
        self.cells[at].label
    }

    /// A fact, and no work: no two cells have the same label.
    pub fn distinctness(&self)
        ensures { AreDistinct (labels_of self.now.cells) }
    {
        let _ = &self.records;
    }

    /// What the run of the cell at the place gave. It takes no memory.
    pub fn record_at(&self, at: usize) -> &C::Record
        requires { at < length self.now.cells }
        ensures told { slice_get (told_book (book_of self.now)) at
            ≡ Some (told_of (C.recorded result.now) (session_before (book_of self.now) (at + 1))) }
        ensures recorded { C.recorded result.now
            ≡ record_at (book_of self.now).world (entry_at (book_of self.now) at) }
    {
        &self.records[at]
    }

    /// Whether a name is bound after the cell at the place, where its record tells it.
    fn bound_by(&self, at: usize, name: &str) -> Option<bool>
        requires { at < length self.now.cells }
        ensures { is_some (lookup name.now (session_before (book_of self.now) (at + 1)).names)
            ≡ unwrap_or result
            (is_some (lookup name.now (session_before (book_of self.now) at).names)) }
    {
        C::last_of(&self.records[at], name)
    }

    /// Whether a name is bound in the session before the cell at a place, or after the last one. It takes no memory.
    pub fn is_bound(&self, at: usize, name: &str) -> bool
        requires { at ≤ length self.now.cells }
        ensures { result
            ≡ is_some (lookup name.now (session_before (book_of self.now) at).names) }
    {
        for back in 0..at {
            if let Some(bound) = self.bound_by(at - 1 - back, name) {
                return bound;
            }
        }
        false
    }
}
