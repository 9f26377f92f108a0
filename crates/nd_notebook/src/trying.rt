//! `TriedCell`: what a cell gave that was tried, and stands in no notebook.

ghost use Rattle.std.specs.Prelude.{◌≡◌};
ghost use Rattle.nd_model.specs.Book.Notebook.{book_of};
ghost use Rattle.nd_notebook.specs.Queries.{result_of};
ghost use Rattle.nd_notebook.specs.Tried.{CountsTried, TellsTried, given_by, tried, tried_of};

use crate::edit::EditFault;
use crate::notebook::{MOST_SOURCE, Notebook};
use nd_cell::{CellResult, Meter, Record};

/// What a cell gave that was tried: the record of its run, which no notebook keeps.
#[derive(Drop)]
pub struct TriedCell {
    pub(crate) made: Record,
}

impl TriedCell {
    /// Returns what the cell gave: its text, its refusal and the files that it saved. It takes no
    /// memory.
    pub fn result(&self) -> &CellResult
        ensures { result_of result.now ≡ given_by self.now }
    {
        self.made.result()
    }
}

impl Notebook {
    /// Runs a cell as if it were inserted at a position, which may be behind the last one, and
    /// returns what it gives. The notebook is as it was; it may have 10,000 cells already.
    ///
    /// Behind the cell `x = 1` the text `print(x + 1)` gives `2`. Refused in this order: no such
    /// position (`NoCell`), a text of more than 65,536 bytes (`CellTooLong`), want of memory.
    pub fn try_cell(
        &self,
        meter: &mut Meter,
        at: usize,
        source: &str,
    ) -> Result<TriedCell, EditFault>
        ensures told { TellsTried (tried_of result) (tried at source.now (book_of self.now)) }
        ensures counts { CountsTried (tried_of result) meter.old meter.new }
    {
        let count = self.count();
        if count < at {
            return Err(EditFault::NoCell(at, count));
        }
        if source.len() > MOST_SOURCE {
            return Err(EditFault::CellTooLong);
        }
        let made = self.schedule.try_cell(meter, at, source)?;
        Ok(TriedCell { made })
    }
}
