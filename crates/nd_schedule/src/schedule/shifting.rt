//! `move_cell`: moves a cell to another place, and sweeps over those around it.

ghost use Rattle.std.specs.Prelude.{◌≡◌, ◌<◌, ◌-◌, ℕ, List, IfOk, IfSome, MatchOption, OnErr, OnOk};
ghost use Rattle.std.specs.List.{All};
ghost use Rattle.std.specs.Result.{IsOk};
ghost use Rattle.std.specs.Prelude.{length, map, min, slice_index_or};
ghost use Rattle.nd_model.specs.Book.Records as kept;
ghost use Rattle.nd_model.specs.Cells.Running.{World};
ghost use Rattle.nd_model.specs.Book.Book.{Book, Cell, Move};
ghost use Rattle.nd_model.specs.Book.Entries.{entry_at, record_at};
ghost use Rattle.nd_model.specs.Book.Stale.{CountsStale, IsStale};
ghost use Rattle.nd_model.specs.Book.Notebook.{book_of, edited_sheet};
ghost use Rattle.nd_change.specs.Steps.{IsWordOf};
ghost use Rattle.nd_schedule.specs.Cells.Shared.{each_of};
ghost use Rattle.nd_schedule.specs.Schedule.Ran.{AreStale};
ghost use Rattle.nd_schedule.specs.Schedule.Snapshot.{IsNoted, StandsBefore};
ghost use Rattle.nd_schedule.specs.Schedule.Sweep.{AreFit, AreGathered, AreMoved, AreWords, IsKept, IsMoving, change_at, fit_at};

use crate::cells::move_item;
use crate::schedule::moving::{Moved, move_down, move_up};
use crate::schedule::notebook::{Front, Schedule, install};
use crate::schedule::noting::Noted;
use crate::schedule::runner::CellRunner;
use crate::schedule::snapshots::carry;
use crate::schedule::sweep::{New, SweepState};
use nd_meter::Meter;
use std::alloc::AllocError;
use std::rc::Rc;

/// Puts the record of a cell that was run in its place, if there is one. It takes no memory.
fn put_made<C: CellRunner>(
    records: &mut Vec<Rc<C::Record>>,
    words: &mut Vec<C::Word>,
    at: usize,
    made: Option<New<C>>,
)
    requires at { at < length records.old.items }
    requires many { length words.old.items ≡ length records.old.items }
    requires worded { IfSome made (λ n. IsWordOf C.covers n.word (C.recorded n.record.value)) }
    ensures there { (r x : kept.Record)
        → MatchOption made (slice_index_or (each_of C.recorded records.old.items) at r ≡ x)
        (λ n. C.recorded n.record.value ≡ x)
        → slice_index_or (each_of C.recorded records.new.items) at r ≡ x }
    ensures others { (k : ℕ) (r : kept.Record) → ¬ (k ≡ at)
        → slice_index_or (each_of C.recorded records.new.items) k r
        ≡ slice_index_or (each_of C.recorded records.old.items) k r }
    ensures words { AreWords C.covers words.old.items (each_of C.recorded records.old.items)
        → AreWords C.covers words.new.items (each_of C.recorded records.new.items) }
    ensures count { length records.new.items ≡ length records.old.items }
    ensures many { length words.new.items ≡ length words.old.items }
{
    if let Some(New { record, word }) = made {
        records[at] = record;
        words[at] = word;
    }
}

/// Puts what the sweeps around a cell gathered in its places, moves the record and the word of that cell, and gives what was noted. It
/// is never refused.
fn take_moved<C: CellRunner>(
    records: &mut Vec<Rc<C::Record>>,
    words: &mut Vec<C::Word>,
    moved: Moved<C>,
    from: usize,
    to: usize,
) -> Vec<Noted<C>>
    requires from { from < length records.old.items }
    requires to { to < length records.old.items }
    requires many { length words.old.items ≡ length records.old.items }
    requires between { AreFit C.covers (length records.old.items)
        (map (λ c. fit_at c.place (C.recorded c.record.value) c.word) moved.between.items) }
    requires behind { AreFit C.covers (length records.old.items)
        (map (λ c. fit_at c.place (C.recorded c.record.value) c.word) moved.behind.items) }
    requires worded { IfSome moved.made
        (λ n. IsWordOf C.covers n.word (C.recorded n.record.value)) }
    ensures kept { (old new : Book) (cells : List Cell) (given : World)
        → IsMoving old new from to cells (each_of C.recorded records.old.items) given
        → AreMoved old new from to
        (map (λ c. change_at c.place (C.recorded c.record.value)) moved.between.items)
        (map (λ c. change_at c.place (C.recorded c.record.value)) moved.behind.items)
        → MatchOption moved.made
        (record_at old.world (entry_at old from) ≡ record_at new.world (entry_at new to))
        (λ n. C.recorded n.record.value ≡ record_at new.world (entry_at new to))
        → AreWords C.covers words.old.items (each_of C.recorded records.old.items)
        → IsKept C.covers new (each_of C.recorded records.new.items) words.new.items }
    ensures noted { result ≡ moved.noted }
{
    let Moved {
        made,
        between,
        behind,
        noted,
    } = moved;
    install::<C>(records, words, between);
    install::<C>(records, words, behind);
    put_made::<C>(records, words, from, made);
    move_item(records, from, to);
    move_item(words, from, to);
    noted
}

/// What the sweeps around a cell gathered, where they came to their end. Their state is dropped.
fn hand_on<C: CellRunner>(
    done: Result<(), AllocError>,
    state: SweepState<C>,
    moved: Moved<C>,
) -> Result<Moved<C>, AllocError>
    ensures { IfOk result (λ m. IsOk done × (m ≡ moved)) }
{
    drop(state);
    done?;
    Ok(moved)
}

impl<C: CellRunner> Schedule<C> {
    /// Sweeps over the cells around one that moves.
    fn swept_moved(
        &self,
        meter: &mut Meter,
        from: usize,
        to: usize,
        session: C::Session,
    ) -> Result<Moved<C>, AllocError>
        requires from { from < length self.now.cells }
        requires to { to < length self.now.cells }
        requires other { ¬ (from ≡ to) }
        requires session { StandsBefore (book_of self.now) (min from to) (C.session_of session) }
        ensures gathered { IfOk result (λ m. AreGathered C.covers
            (λ n. C.recorded n.record.value) (λ n. n.word)
            (λ c. change_at c.place (C.recorded c.record.value))
            (λ c. fit_at c.place (C.recorded c.record.value) c.word)
            (book_of self.now) (book_of (edited_sheet (Move from to) self.now)) from to
            (length self.now.cells) m.made m.between.items m.behind.items) }
        ensures noted { IfOk result (λ m. All (λ n. IsNoted C.change_of C.kept_session
            (book_of self.now) (book_of (edited_sheet (Move from to) self.now))
            n.place n.now n.memo) m.noted.items) }
        ensures counts { CountsStale (book_of self.now)
            (book_of (edited_sheet (Move from to) self.now)) meter.old meter.new }
    {
        let mut state = self.begin(from.min(to), session);
        let mut moved = Moved::nothing(self.alloc);
        if from < to {
            let done = move_down::<C>(
                self.alloc,
                meter,
                &self.cells,
                &self.records,
                &self.words,
                &self.world,
                from,
                to,
                &self.snapshots,
                &mut state,
                &mut moved,
            );
            return hand_on::<C>(done, state, moved);
        }
        let done = move_up::<C>(
            self.alloc,
            meter,
            &self.cells,
            &self.records,
            &self.words,
            &self.world,
            from,
            to,
            &self.snapshots,
            &mut state,
            &mut moved,
        );
        hand_on::<C>(done, state, moved)
    }

    /// Moves the cell at the first place, so that it stands at the second afterwards, and returns the places of the cells that ran. It is
    /// refused for want of memory alone.
    pub fn move_cell(
        &mut self,
        meter: &mut Meter,
        from: usize,
        to: usize,
    ) -> Result<Vec<usize>, AllocError>
        requires from { from < length self.old.cells }
        requires to { to < length self.old.cells }
        ensures ok { OnOk result (self.new ≡ edited_sheet (Move from to) self.old) }
        ensures err { OnErr result (self.new ≡ self.old) }
        ensures counts { CountsStale (book_of self.old)
            (book_of (edited_sheet (Move from to) self.old)) meter.old meter.new }
        ensures ran { IfOk result (λ v. AreStale (book_of self.old)
            (book_of (edited_sheet (Move from to) self.old)) v.items) }
    {
        let mut ran = Vec::new(self.alloc);
        if from == to {
            return Ok(ran);
        }
        let first = from.min(to);
        let Front { session, fresh } = self.front_before(first)?;
        let moved = self.swept_moved(meter, from, to, session)?;
        match moved.note_ran(&mut ran, from, to) {
            Ok(()) => {}
            Err(refused) => {
                drop(moved);
                drop(fresh);
                return Err(refused);
            }
        }
        let noted = take_moved::<C>(&mut self.records, &mut self.words, moved, from, to);
        move_item(&mut self.cells, from, to);
        carry::<C>(self.alloc, &mut self.snapshots, fresh, noted, first);
        Ok(ran)
    }
}
