//! `append`: puts a new cell behind the last one, where the session is kept and no record is replayed.

ghost use Rattle.std.specs.Prelude.{◌≡◌, ◌<◌, ◌≤◌, ◌+◌, ◌||◌, ℕ, IfOk, IsTrue, OnErr, OnOk, insert, length, map, nat_eq, string_bytes};
ghost use Rattle.std.specs.List.{All};
ghost use Rattle.std.specs.Vec.{vec_capacity};
ghost use Rattle.nd_model.specs.Book.Book as books;
ghost use Rattle.nd_model.specs.Book.Book.{is_label};
ghost use Rattle.nd_model.specs.Book.Entries.{entry_at, record_at};
ghost use Rattle.nd_model.specs.Book.Stale.{CountsStale};
ghost use Rattle.nd_model.specs.Book.Notebook.{book_of};
ghost use Rattle.nd_change.specs.Steps.{IsWordOf};
ghost use Rattle.nd_schedule.specs.Cells.Source.{sheet, cell_of};
ghost use Rattle.nd_schedule.specs.Schedule.Ran.{AreStale};
ghost use Rattle.nd_schedule.specs.Schedule.Snapshot.{IsSnapshot, StandsBefore};

use crate::cells::{KeptCell, make_room};
use crate::schedule::notebook::{Front, Schedule};
use crate::schedule::runner::CellRunner;
use crate::schedule::snapshots::{keep_end, put_fresh, take_end};
use crate::schedule::sweep::{New, run_cell};
use nd_meter::Meter;
use std::alloc::AllocError;
use std::rc::Rc;

/// Makes room for a new cell at a place, with its record and its word.
pub(crate) fn make_rooms<C: CellRunner>(
    cells: &mut Vec<Rc<KeptCell>>,
    records: &mut Vec<Rc<C::Record>>,
    words: &mut Vec<C::Word>,
    at: usize,
) -> Result<(), AllocError>
    ensures same_cells { cells.new.items ≡ cells.old.items }
    ensures same_records { records.new.items ≡ records.old.items }
    ensures same_words { words.new.items ≡ words.old.items }
    ensures cells { OnOk result (length cells.old.items + 1 ≤ vec_capacity cells.new) }
    ensures records { OnOk result (length records.old.items + 1 ≤ vec_capacity records.new) }
    ensures words { OnOk result (length words.old.items + 1 ≤ vec_capacity words.new) }
{
    make_room(cells, at, at, 1)?;
    make_room(records, at, at, 1)?;
    make_room(words, at, at, 1)
}

/// Puts a new cell at a place, with its record and its word, where there is room. It takes no memory.
pub(crate) fn put_one<C: CellRunner>(
    cells: &mut Vec<Rc<KeptCell>>,
    records: &mut Vec<Rc<C::Record>>,
    words: &mut Vec<C::Word>,
    at: usize,
    cell: Rc<KeptCell>,
    new: New<C>,
)
    requires at_cell { at ≤ length cells.old.items }
    requires at_record { at ≤ length records.old.items }
    requires at_word { at ≤ length words.old.items }
    requires cells { length cells.old.items + 1 ≤ vec_capacity cells.old }
    requires records { length records.old.items + 1 ≤ vec_capacity records.old }
    requires words { length words.old.items + 1 ≤ vec_capacity words.old }
    ensures cells { cells.new.items ≡ insert cells.old.items at cell }
    ensures records { records.new.items ≡ insert records.old.items at new.record }
    ensures words { words.new.items ≡ insert words.old.items at new.word }
{
    let New { record, word } = new;
    // never fails, since there is room
    let _cell = cells.insert(at, cell);
    let _record = records.insert(at, record);
    let _word = words.insert(at, word);
}

/// Puts a new cell at a place, with its record and its word. For want of memory all stay as they are.
fn put_new<C: CellRunner>(
    cells: &mut Vec<Rc<KeptCell>>,
    records: &mut Vec<Rc<C::Record>>,
    words: &mut Vec<C::Word>,
    at: usize,
    cell: Rc<KeptCell>,
    new: New<C>,
) -> Result<(), AllocError>
    requires cells { at ≤ length cells.old.items }
    requires records { at ≤ length records.old.items }
    requires words { at ≤ length words.old.items }
    ensures cells { OnOk result (cells.new.items ≡ insert cells.old.items at cell) }
    ensures records { OnOk result
        (records.new.items ≡ insert records.old.items at new.record) }
    ensures words { OnOk result (words.new.items ≡ insert words.old.items at new.word) }
    ensures same_cells { OnErr result (cells.new.items ≡ cells.old.items) }
    ensures same_records { OnErr result (records.new.items ≡ records.old.items) }
    ensures same_words { OnErr result (words.new.items ≡ words.old.items) }
{
    make_rooms::<C>(cells, records, words, at)?;
    put_one::<C>(cells, records, words, at, cell, new);
    Ok(())
}

impl<C: CellRunner> Schedule<C> {
    /// A session that is alike to the one behind the last cell. Snapshots that are missing in front of it are made.
    fn front_end(&mut self) -> Result<C::Session, AllocError>
        ensures same { self.new ≡ self.old }
        ensures session { IfOk result (λ s. StandsBefore (book_of self.old)
            (length self.old.cells) (C.session_of s)) }
    {
        let at = self.cells.len();
        if let Some(session) = take_end::<C>(self.alloc, &mut self.snapshots, at)? {
            return Ok(session);
        }
        let Front { session, fresh } = self.front_before(at)?;
        put_fresh::<C>(&mut self.snapshots, fresh, at);
        Ok(session)
    }

    /// Runs a new cell behind the last one.
    fn run_end(
        &self,
        meter: &mut Meter,
        source: &KeptCell,
        session: &mut C::Session,
    ) -> Result<New<C>, AllocError>
        requires session { StandsBefore (book_of self.now) (length self.now.cells)
            (C.session_of session.old) }
        requires label { source.now.label ≡ books.fresh_label self.now.cells }
        ensures made { IfOk result (λ n. C.recorded n.record.value
            ≡ record_at (book_of self.now).world (entry_at (book_of (sheet (insert
            self.now.cells (length self.now.cells) (cell_of source.now)) self.now.given))
            (length self.now.cells))) }
        ensures worded { IfOk result
            (λ n. IsWordOf C.covers n.word (C.recorded n.record.value)) }
        ensures session { OnOk result (StandsBefore (book_of (sheet (insert self.now.cells
            (length self.now.cells) (cell_of source.now)) self.now.given))
            (length self.now.cells + 1) (C.session_of session.new)) }
        ensures counts { CountsStale (book_of self.now) (book_of (sheet (insert self.now.cells
            (length self.now.cells) (cell_of source.now)) self.now.given)) meter.old meter.new }
    {
        run_cell::<C>(
            self.alloc,
            meter,
            source,
            &self.world,
            self.cells.len(),
            session,
        )
    }

    /// Puts a cell that has run behind the last one. For want of memory the notebook stays as it is.
    fn put_last(&mut self, cell: Rc<KeptCell>, next: usize, new: New<C>) -> Result<(), AllocError>
        requires label { cell.value.label ≡ books.fresh_label self.old.cells }
        requires next { (n : ℕ) → n < next
            → IsTrue (is_label n self.old.cells || nat_eq n cell.value.label) }
        requires made { C.recorded new.record.value
            ≡ record_at (book_of self.old).world (entry_at (book_of (sheet (insert
            self.old.cells (length self.old.cells) (cell_of cell.value)) self.old.given))
            (length self.old.cells)) }
        requires worded { IsWordOf C.covers new.word (C.recorded new.record.value) }
        ensures ok { OnOk result (self.new ≡ sheet (insert self.old.cells
            (length self.old.cells) (cell_of cell.value)) self.old.given) }
        ensures err { OnErr result (self.new ≡ self.old) }
    {
        let at = self.cells.len();
        put_new::<C>(
            &mut self.cells,
            &mut self.records,
            &mut self.words,
            at,
            cell,
            new,
        )?;
        self.least = next;
        Ok(())
    }

    /// Puts a new cell behind the last one, and gives its place. It is refused for want of memory alone.
    pub(crate) fn append(
        &mut self,
        meter: &mut Meter,
        cell: Rc<KeptCell>,
        next: usize,
    ) -> Result<Vec<usize>, AllocError>
        requires label { cell.value.label ≡ books.fresh_label self.old.cells }
        requires next { (n : ℕ) → n < next
            → IsTrue (is_label n self.old.cells || nat_eq n cell.value.label) }
        ensures ok { OnOk result (self.new ≡ sheet (insert self.old.cells
            (length self.old.cells) (cell_of cell.value)) self.old.given) }
        ensures err { OnErr result (self.new ≡ self.old) }
        ensures counts { CountsStale (book_of self.old) (book_of (sheet (insert self.old.cells
            (length self.old.cells) (cell_of cell.value)) self.old.given)) meter.old meter.new }
        ensures ran { IfOk result (λ v. AreStale (book_of self.old)
            (book_of (sheet (insert self.old.cells (length self.old.cells) (cell_of cell.value))
            self.old.given)) v.items) }
    {
        let mut ran = Vec::new(self.alloc);
        ran.push(self.cells.len())?;
        let mut session = self.front_end()?;
        let new = self.run_end(meter, &cell, &mut session)?;
        self.put_last(cell, next, new)?;
        keep_end::<C>(self.alloc, &mut self.snapshots, &self.records, &mut session);
        Ok(ran)
    }
}
