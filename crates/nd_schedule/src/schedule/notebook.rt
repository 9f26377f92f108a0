//! The notebook: a list of cells, and what is kept of running them.

ghost use Rattle.std.specs.Prelude.{◌≡◌, ◌<◌, ◌≤◌, ◌+◌, ◌-◌, ◌^◌, ◌++◌, ◌||◌, ℕ, IfOk, IsTrue, OnErr, OnOk, None, [], false, bytes_eq, nat_eq};
ghost use Rattle.std.specs.List.{All};
ghost use Rattle.std.specs.Result.{IsOk};
ghost use Rattle.std.specs.Prelude.{insert, length, map, min, remove, slice_index_or, slice_set, string_bytes};
ghost use Rattle.std.specs.Vec.{vec_capacity};
ghost use Rattle.nd_model.specs.Cells.Running as running;
ghost use Rattle.nd_model.specs.Book.Records as kept;
ghost use Rattle.nd_model.specs.Book.Book.{Book, is_label, no_cell, Change, Insert, Remove};
ghost use Rattle.nd_model.specs.Book.Book as books;
ghost use Rattle.nd_model.specs.Book.Entries.{entry_at, record_at, session_before, SharesFront};
ghost use Rattle.nd_model.specs.Book.Stale.{CountsStale};
ghost use Rattle.nd_model.specs.Book.Notebook.{Sheet, book_of, edited_sheet, world_in};
ghost use Rattle.nd_change.specs.Steps.{IsWordOf, IsWordOfChange};
ghost use Rattle.nd_schedule.specs.Cells.Labels.{AreUsed};
ghost use Rattle.nd_schedule.specs.Cells.Source.{sheet, cell_of, cells_of};
ghost use Rattle.nd_schedule.specs.Cells.Shared.{each_of};
ghost use Rattle.nd_schedule.specs.Schedule.Ran.{AreStale, shifted};
ghost use Rattle.nd_schedule.specs.declared.schedule.ran.Shift.TheVariants as shifts;
ghost use Rattle.nd_schedule.specs.Schedule.Snapshot.{IsNoted, IsSnapshot, StandsBefore, names_in};
ghost use Rattle.nd_schedule.specs.Schedule.Sweep.{AreChanged, AreFit, AreWords, CountsFront, IsAt, IsKept, IsOpen, change_at, changed, fit_at};

use crate::cells::{FreeLabel, KeptCell, fresh_label};
use crate::schedule::ending::{make_rooms, put_one};
use crate::schedule::noting::Noted;
use crate::schedule::ran::{Shift, note_places};
use crate::schedule::runner::CellRunner;
use crate::schedule::snapshots::{Snapshot, carry, nearest, replay_between, session_front};
use crate::schedule::sweep::{Changed, New, SweepState, run_again, run_new, sweep};
use crate::schedule::taking::{Edited, Swept, no_sweep, take_over, tell_places};
use nd_meter::Meter;
use std::alloc::{AllocError, Global};
use std::marker::Model;
use std::rc::Rc;

/// A list of cells, what they are run by, the record of each cell's run, beside it its word, and snapshots of some places.
#[derive(Drop)]
pub struct Schedule<C: CellRunner> {
    pub(crate) cells: Vec<Rc<KeptCell>>,
    pub(crate) world: C::World,
    pub(crate) records: Vec<Rc<C::Record>>,
    pub(crate) words: Vec<C::Word>,
    pub(crate) snapshots: Vec<Snapshot<C>>,
    // each number below it is the label of some cell
    pub(crate) least: usize,
    pub(crate) alloc: Global,
}

impl<C: CellRunner> Model for Schedule<C> {
    ghost Value = { Sheet };

    ghost view = { λ n. sheet (cells_of n.cells.items) (C.given n.world) };

    ghost invariant = { λ n. IsKept C.covers
        (book_of (sheet (cells_of n.cells.items) (C.given n.world)))
        (each_of C.recorded n.records.items) n.words.items
        × All (λ s. IsSnapshot (book_of (sheet (cells_of n.cells.items) (C.given n.world)))
        s.place (C.kept_session s.version) (map C.change_of s.pending.items))
        n.snapshots.items × AreUsed n.least (cells_of n.cells.items) };
}

/// Puts what is changed in its places. It takes no memory.
pub(crate) fn install<C: CellRunner>(
    records: &mut Vec<Rc<C::Record>>,
    words: &mut Vec<C::Word>,
    changes: Vec<Changed<C>>,
)
    requires many { length words.old.items ≡ length records.old.items }
    requires fit { AreFit C.covers (length records.old.items)
        (map (λ c. fit_at c.place (C.recorded c.record.value) c.word) changes.items) }
    ensures records { (k : ℕ) (r : kept.Record)
        → slice_index_or (each_of C.recorded records.new.items) k r
        ≡ changed (map (λ c. change_at c.place (C.recorded c.record.value)) changes.items) k
        (slice_index_or (each_of C.recorded records.old.items) k r) }
    ensures words { AreWords C.covers words.old.items (each_of C.recorded records.old.items)
        → AreWords C.covers words.new.items (each_of C.recorded records.new.items) }
    ensures records_room { vec_capacity records.new ≡ vec_capacity records.old }
    ensures words_room { vec_capacity words.new ≡ vec_capacity words.old }
    ensures count { length records.new.items ≡ length records.old.items }
    ensures many { length words.new.items ≡ length words.old.items }
{
    for change in changes {
        let Changed {
            place,
            record,
            word,
        } = change;
        records[place] = record;
        words[place] = word;
    }
}

/// Where an edit begins: a session that is alike to the one there, and snapshots that were made on the way.
#[derive(Drop)]
pub(crate) struct Front<C: CellRunner> {
    pub(crate) session: C::Session,
    pub(crate) fresh: Vec<Snapshot<C>>,
}

/// What a sweep behind a new cell gives.
#[derive(Drop)]
struct Grown<C: CellRunner> {
    new: New<C>,
    swept: Swept<C>,
}

/// What a sweep behind a new cell gives, and the snapshots that were made on the way.
#[derive(Drop)]
struct Added<C: CellRunner> {
    grown: Grown<C>,
    fresh: Vec<Snapshot<C>>,
}

/// A cell that stands nowhere yet, and a number below which each is the label of some cell, or its own.
#[derive(Drop)]
struct NewCell {
    cell: Rc<KeptCell>,
    next: usize,
}

/// What a sweep gathered, where it came to its end. The rest of its state is dropped.
fn gathered<C: CellRunner>(
    done: Result<(), AllocError>,
    state: SweepState<C>,
    noted: Vec<Noted<C>>,
) -> Result<Swept<C>, AllocError>
    ensures { IfOk result (λ s. IsOk done × (s.changed.items ≡ state.changed.items)
        × (s.noted.items ≡ noted.items)) }
{
    done?;
    Ok(Swept {
        changed: state.changed,
        noted,
    })
}

/// Makes room for a new cell at a place, with its record and its word, and adds the places of the cells that ran behind it.
fn make_places<C: CellRunner>(
    cells: &mut Vec<Rc<KeptCell>>,
    records: &mut Vec<Rc<C::Record>>,
    words: &mut Vec<C::Word>,
    at: usize,
    ran: &mut Vec<usize>,
    changed: &[Changed<C>],
) -> Result<(), AllocError>
    ensures same_cells { cells.new.items ≡ cells.old.items }
    ensures same_records { records.new.items ≡ records.old.items }
    ensures same_words { words.new.items ≡ words.old.items }
    ensures cells { OnOk result (length cells.old.items + 1 ≤ vec_capacity cells.new) }
    ensures records { OnOk result (length records.old.items + 1 ≤ vec_capacity records.new) }
    ensures words { OnOk result (length words.old.items + 1 ≤ vec_capacity words.new) }
    ensures places { OnOk result ((n : ℕ) → n + 1 < 2 ^ 64 → AreFit C.covers n
        (map (λ c. fit_at c.place (C.recorded c.record.value) c.word) changed.now)
        → ran.new.items
        ≡ ran.old.items ++ map (λ c. shifted shifts.Later c.place) changed.now) }
{
    make_rooms::<C>(cells, records, words, at)?;
    note_places::<C>(ran, changed, Shift::Later)
}

impl<C: CellRunner> Schedule<C> {
    /// A notebook without cells. It takes no memory.
    pub fn new(alloc: Global, world: C::World) -> Schedule<C>
        ensures { result ≡ sheet [] (C.given world) }
    {
        Schedule {
            cells: Vec::new(alloc),
            world,
            records: Vec::new(alloc),
            words: Vec::new(alloc),
            snapshots: Vec::new(alloc),
            least: 0,
            alloc,
        }
    }

    /// A session that is alike to the one before the cell at a place, or after the last one: from the last snapshot in front of it, by
    /// the records behind that. Its names may stand in another order.
    pub fn session_like(&self, at: usize) -> Result<C::Session, AllocError>
        requires { at ≤ length self.now.cells }
        ensures { IfOk result (λ s. StandsBefore (book_of self.now) at (C.session_of s)) }
    {
        let (from, mut session, _is_patched) = nearest::<C>(self.alloc, &self.snapshots, at)?;
        replay_between::<C>(&self.records, &mut session, from, at)?;
        Ok(session)
    }

    /// The names that are bound before the cell at a place, or after the last one, in the order in which they were bound first. The
    /// records tell it.
    pub fn names_before(&self, at: usize) -> Result<C::Order, AllocError>
        requires { at ≤ length self.now.cells }
        ensures { IfOk result
            (λ o. C.order_of o ≡ names_in (session_before (book_of self.now) at).names) }
    {
        let mut order = C::no_order(self.alloc);
        for k in 0..at {
            C::note_names(&self.records[k], &mut order)?;
        }
        Ok(order)
    }

    /// A session that is alike to the one before a place, and the snapshots that were missing in front of it.
    pub(crate) fn front_before(&self, at: usize) -> Result<Front<C>, AllocError>
        requires { at ≤ length self.now.cells }
        ensures session { IfOk result
            (λ f. StandsBefore (book_of self.now) at (C.session_of f.session)) }
        ensures fresh { IfOk result (λ f. All (λ s. IsSnapshot (book_of self.now) s.place
            (C.kept_session s.version) (map C.change_of s.pending.items)) f.fresh.items) }
    {
        let mut fresh = Vec::new(self.alloc);
        let session = session_front::<C>(
            self.alloc,
            &self.records,
            &self.snapshots,
            at,
            &mut fresh,
        )?;
        Ok(Front { session, fresh })
    }

    /// Sweeps over the cells from a place to the end, and gives what the sweep gathered.
    fn swept_behind(
        &self,
        meter: &mut Meter,
        world: &C::World,
        i: usize,
        now: usize,
        mut state: SweepState<C>,
    ) -> Result<Swept<C>, AllocError>
        requires order { i ≤ length self.now.cells }
        requires fits { now ≤ i + 1 }
        requires at { (new : Book) × (j : ℕ)
            × IsOpen (book_of self.now) new i j (world_in (C.given world.now))
            × IsAt (book_of self.now) new i j (C.change_of state.change)
            (C.session_of state.session) state.since }
        requires covered { IsWordOfChange C.covers state.word (C.change_of state.change) }
        ensures changed { IfOk result (λ s. (new : Book) (j from first : ℕ)
            → IsOpen (book_of self.now) new i j (world_in (C.given world.now))
            → IsAt (book_of self.now) new i j (C.change_of state.change)
            (C.session_of state.session) state.since → from ≤ i → j ≡ first + (i - from)
            → AreChanged (book_of self.now) new from first i
            (map (λ c. change_at c.place (C.recorded c.record.value)) state.changed.items)
            → AreChanged (book_of self.now) new from first (length self.now.cells)
            (map (λ c. change_at c.place (C.recorded c.record.value)) s.changed.items)) }
        ensures fit { IfOk result (λ s. AreFit C.covers (length self.now.cells)
            (map (λ c. fit_at c.place (C.recorded c.record.value) c.word) state.changed.items)
            → AreFit C.covers (length self.now.cells)
            (map (λ c. fit_at c.place (C.recorded c.record.value) c.word) s.changed.items)) }
        ensures noted { IfOk result (λ s. (new : Book)
            → IsOpen (book_of self.now) new i now (world_in (C.given world.now))
            → IsAt (book_of self.now) new i now (C.change_of state.change)
            (C.session_of state.session) state.since
            → All (λ n. IsNoted C.change_of C.kept_session
            (book_of self.now) new n.place n.now n.memo) s.noted.items) }
        ensures counts { (new : Book) (j before : ℕ)
            → IsOpen (book_of self.now) new i j (world_in (C.given world.now))
            → IsAt (book_of self.now) new i j (C.change_of state.change)
            (C.session_of state.session) state.since
            → CountsFront (book_of self.now) new j before meter.old
            → CountsStale (book_of self.now) new before meter.new }
    {
        let mut noted = Vec::new(self.alloc);
        let done = sweep::<C>(
            self.alloc,
            meter,
            &self.cells,
            &self.records,
            &self.words,
            world,
            i,
            self.cells.len(),
            now,
            &self.snapshots,
            &mut state,
            &mut noted,
        );
        gathered::<C>(done, state, noted)
    }

    /// Runs another cell in the place of one, and sweeps over those behind.
    fn swept(
        &self,
        meter: &mut Meter,
        at: usize,
        source: &KeptCell,
        session: C::Session,
    ) -> Result<Swept<C>, AllocError>
        requires at { at < length self.now.cells }
        requires session { StandsBefore (book_of self.now) at (C.session_of session) }
        requires label { source.now.label ≡ (slice_index_or self.now.cells at no_cell).label }
        requires other { bytes_eq (string_bytes source.now.text)
            (slice_index_or self.now.cells at no_cell).source ≡ false }
        ensures changed { IfOk result (λ s. AreChanged (book_of self.now)
            (book_of (sheet (slice_set self.now.cells at (cell_of source.now)) self.now.given)) at at
            (length self.now.cells)
            (map (λ c. change_at c.place (C.recorded c.record.value)) s.changed.items)) }
        ensures fit { IfOk result (λ s. AreFit C.covers (length self.now.cells)
            (map (λ c. fit_at c.place (C.recorded c.record.value) c.word) s.changed.items)) }
        ensures noted { IfOk result (λ s. All (λ n. IsNoted C.change_of C.kept_session
            (book_of self.now) (book_of (sheet (slice_set self.now.cells at (cell_of source.now))
            self.now.given)) n.place n.now n.memo) s.noted.items) }
        ensures counts { CountsStale (book_of self.now)
            (book_of (sheet (slice_set self.now.cells at (cell_of source.now)) self.now.given))
            meter.old meter.new }
    {
        let mut state = self.begin(at, session);
        let (before, world) = (self.record_at(at), &self.world);
        match run_again::<C>(self.alloc, meter, source, before, world, at, &mut state) {
            Ok(()) => {}
            Err(refused) => {
                drop(state);
                return Err(refused);
            }
        }
        self.swept_behind(meter, world, at + 1, at + 1, state)
    }

    /// A cell of another text, with the label of the one at the place.
    fn cell_with(&self, at: usize, text: &str) -> Result<Rc<KeptCell>, AllocError>
        requires { at < length self.now.cells }
        ensures label { IfOk result
            (λ c. c.value.label ≡ (slice_index_or self.now.cells at no_cell).label) }
        ensures text { IfOk result (λ c. string_bytes c.value.text ≡ text.now) }
    {
        let label = self.cells[at].label;
        let text = String::from_str(self.alloc, text)?;
        let cell = Rc::new(self.alloc, KeptCell { label, text })?;
        Ok(cell)
    }

    /// Makes a session for the place, runs another cell over it, and sweeps over those behind. The places of those that ran are told.
    fn swept_with(
        &self,
        meter: &mut Meter,
        at: usize,
        source: &KeptCell,
    ) -> Result<Edited<C>, AllocError>
        requires at { at < length self.now.cells }
        requires label { source.now.label ≡ (slice_index_or self.now.cells at no_cell).label }
        requires other { bytes_eq (string_bytes source.now.text)
            (slice_index_or self.now.cells at no_cell).source ≡ false }
        ensures changed { IfOk result (λ e. AreChanged (book_of self.now)
            (book_of (sheet (slice_set self.now.cells at (cell_of source.now)) self.now.given))
            at at (length self.now.cells)
            (map (λ c. change_at c.place (C.recorded c.record.value)) e.swept.changed.items)) }
        ensures fit { IfOk result (λ e. AreFit C.covers (length self.now.cells)
            (map (λ c. fit_at c.place (C.recorded c.record.value) c.word) e.swept.changed.items)) }
        ensures noted { IfOk result (λ e. All (λ n. IsNoted C.change_of C.kept_session
            (book_of self.now) (book_of (sheet (slice_set self.now.cells at (cell_of source.now))
            self.now.given)) n.place n.now n.memo) e.swept.noted.items) }
        ensures fresh { IfOk result (λ e. All (λ s. IsSnapshot (book_of self.now) s.place
            (C.kept_session s.version) (map C.change_of s.pending.items)) e.fresh.items) }
        ensures ran { IfOk result (λ e. e.ran.items
            ≡ map (λ c. shifted shifts.Stays c.place) e.swept.changed.items) }
        ensures counts { CountsStale (book_of self.now)
            (book_of (sheet (slice_set self.now.cells at (cell_of source.now)) self.now.given))
            meter.old meter.new }
    {
        let Front { session, fresh } = self.front_before(at)?;
        let swept = self.swept(meter, at, source, session)?;
        let ran = Vec::new(self.alloc);
        tell_places::<C>(Edited { swept, fresh, ran }, Shift::Stays)
    }

    /// Gives the cell at the place another text, and returns the places of the cells that ran. It is refused for want of memory alone.
    pub fn edit(
        &mut self,
        meter: &mut Meter,
        at: usize,
        text: &str,
    ) -> Result<Vec<usize>, AllocError>
        requires { at < length self.old.cells }
        ensures ok { OnOk result (self.new ≡ edited_sheet (Change at text.now) self.old) }
        ensures err { OnErr result (self.new ≡ self.old) }
        ensures counts { CountsStale (book_of self.old)
            (book_of (edited_sheet (Change at text.now) self.old)) meter.old meter.new }
        ensures ran { IfOk result (λ v. AreStale (book_of self.old)
            (book_of (edited_sheet (Change at text.now) self.old)) v.items) }
    {
        if text == self.text(at) {
            return Ok(Vec::new(self.alloc));
        }
        let cell = self.cell_with(at, text)?;
        let edited = self.swept_with(meter, at, &cell)?;
        self.cells[at] = cell;
        let ran = take_over::<C>(
            self.alloc,
            &mut self.records,
            &mut self.words,
            &mut self.snapshots,
            edited,
            at,
        );
        Ok(ran)
    }

    /// Sweeps over all cells, by other inputs or another rule.
    fn swept_over(&self, meter: &mut Meter, world: &C::World) -> Result<Swept<C>, AllocError>
        ensures changed { IfOk result (λ s. AreChanged (book_of self.now)
            (book_of (sheet self.now.cells (C.given world.now))) 0 0 (length self.now.cells)
            (map (λ c. change_at c.place (C.recorded c.record.value)) s.changed.items)) }
        ensures fit { IfOk result (λ s. AreFit C.covers (length self.now.cells)
            (map (λ c. fit_at c.place (C.recorded c.record.value) c.word) s.changed.items)) }
        ensures noted { IfOk result (λ s. All (λ n. IsNoted C.change_of C.kept_session
            (book_of self.now) (book_of (sheet self.now.cells (C.given world.now)))
            n.place n.now n.memo) s.noted.items) }
        ensures counts { CountsStale (book_of self.now)
            (book_of (sheet self.now.cells (C.given world.now))) meter.old meter.new }
    {
        let session = C::empty(self.alloc)?;
        let change = C::world_change(self.alloc, &self.world, world)?;
        let word = C::change_word(&change);
        let state = SweepState {
            change,
            word,
            session,
            since: 0,
            changed: Vec::new(self.alloc),
            shift: Shift::Stays,
        };
        self.swept_behind(meter, world, 0, 0, state)
    }

    /// Takes these inputs and this rule in the place of the present ones, and returns the places of the cells that ran. It is refused for
    /// want of memory alone.
    pub fn set_world(
        &mut self,
        meter: &mut Meter,
        world: C::World,
    ) -> Result<Vec<usize>, AllocError>
        ensures ok { OnOk result (self.new ≡ sheet self.old.cells (C.given world)) }
        ensures err { OnErr result (self.new ≡ self.old) }
        ensures counts { CountsStale (book_of self.old)
            (book_of (sheet self.old.cells (C.given world))) meter.old meter.new }
        ensures ran { IfOk result (λ v. AreStale (book_of self.old)
            (book_of (sheet self.old.cells (C.given world))) v.items) }
    {
        let swept = self.swept_over(meter, &world)?;
        let (fresh, ran) = (Vec::new(self.alloc), Vec::new(self.alloc));
        let edited = tell_places::<C>(Edited { swept, fresh, ran }, Shift::Stays)?;
        let ran = take_over::<C>(
            self.alloc,
            &mut self.records,
            &mut self.words,
            &mut self.snapshots,
            edited,
            0,
        );
        self.world = world;
        Ok(ran)
    }

    /// Sweeps over the cells behind one, without what that one did.
    fn swept_without(
        &self,
        meter: &mut Meter,
        at: usize,
        session: C::Session,
    ) -> Result<Swept<C>, AllocError>
        requires at { at < length self.now.cells }
        requires session { StandsBefore (book_of self.now) at (C.session_of session) }
        ensures changed { IfOk result (λ v. AreChanged (book_of self.now)
            (book_of (sheet (remove self.now.cells at) self.now.given)) (at + 1) at
            (length self.now.cells)
            (map (λ c. change_at c.place (C.recorded c.record.value)) v.changed.items)) }
        ensures fit { IfOk result (λ v. AreFit C.covers (length self.now.cells)
            (map (λ c. fit_at c.place (C.recorded c.record.value) c.word) v.changed.items)) }
        ensures noted { IfOk result (λ s. All (λ n. IsNoted C.change_of C.kept_session
            (book_of self.now) (book_of (sheet (remove self.now.cells at) self.now.given))
            n.place n.now n.memo) s.noted.items) }
        ensures counts { CountsStale (book_of self.now)
            (book_of (sheet (remove self.now.cells at) self.now.given)) meter.old meter.new }
    {
        let mut change = C::no_change(self.alloc);
        C::went(self.record_at(at), &session, &mut change)?;
        let word = C::change_word(&change);
        let state = SweepState {
            change,
            word,
            session,
            since: at + 1,
            changed: Vec::new(self.alloc),
            shift: Shift::Earlier,
        };
        self.swept_behind(meter, &self.world, at + 1, at, state)
    }

    /// Sweeps over the cells behind one, without what that one did. The places of those that ran are told. Behind the last cell there is
    /// nothing to do, and no memory is taken.
    fn swept_away(&self, meter: &mut Meter, at: usize) -> Result<Edited<C>, AllocError>
        requires { at < length self.now.cells }
        ensures changed { IfOk result (λ v. AreChanged (book_of self.now)
            (book_of (sheet (remove self.now.cells at) self.now.given)) (at + 1) at
            (length self.now.cells)
            (map (λ c. change_at c.place (C.recorded c.record.value)) v.swept.changed.items)) }
        ensures fit { IfOk result (λ v. AreFit C.covers (length self.now.cells)
            (map (λ c. fit_at c.place (C.recorded c.record.value) c.word) v.swept.changed.items)) }
        ensures noted { IfOk result (λ s. All (λ n. IsNoted C.change_of C.kept_session
            (book_of self.now) (book_of (sheet (remove self.now.cells at) self.now.given))
            n.place n.now n.memo) s.swept.noted.items) }
        ensures fresh { IfOk result (λ f. All (λ s. IsSnapshot (book_of self.now) s.place
            (C.kept_session s.version) (map C.change_of s.pending.items)) f.fresh.items) }
        ensures ran { IfOk result (λ e. e.ran.items
            ≡ map (λ c. shifted shifts.Earlier c.place) e.swept.changed.items) }
        ensures last { at + 1 ≡ length self.now.cells → IsOk result }
        ensures counts { CountsStale (book_of self.now)
            (book_of (sheet (remove self.now.cells at) self.now.given)) meter.old meter.new }
    {
        if self.cells.len() == at + 1 {
            return Ok(no_sweep::<C>(self.alloc));
        }
        let Front { session, fresh } = self.front_before(at)?;
        let swept = self.swept_without(meter, at, session)?;
        let ran = Vec::new(self.alloc);
        tell_places::<C>(Edited { swept, fresh, ran }, Shift::Earlier)
    }

    /// Takes the cell at the place out, and returns the places of the cells that ran. It is refused for want of memory alone, and at the
    /// last cell never.
    pub fn remove(&mut self, meter: &mut Meter, at: usize) -> Result<Vec<usize>, AllocError>
        requires { at < length self.old.cells }
        ensures ok { OnOk result (self.new ≡ edited_sheet (Remove at) self.old) }
        ensures err { OnErr result (self.new ≡ self.old) }
        ensures last { at + 1 ≡ length self.old.cells → IsOk result }
        ensures counts { CountsStale (book_of self.old)
            (book_of (edited_sheet (Remove at) self.old)) meter.old meter.new }
        ensures ran { IfOk result (λ v. AreStale (book_of self.old)
            (book_of (edited_sheet (Remove at) self.old)) v.items) }
    {
        let edited = self.swept_away(meter, at)?;
        let ran = take_over::<C>(
            self.alloc,
            &mut self.records,
            &mut self.words,
            &mut self.snapshots,
            edited,
            at,
        );
        self.least = self.least.min(self.cells[at].label as usize);
        let _cell = self.cells.remove(at);
        let _record = self.records.remove(at);
        let _word = self.words.remove(at);
        Ok(ran)
    }

    /// Runs a new cell before the one at a place, and sweeps over those from there on.
    fn swept_new(
        &self,
        meter: &mut Meter,
        at: usize,
        source: &KeptCell,
        session: C::Session,
    ) -> Result<Grown<C>, AllocError>
        requires at { at ≤ length self.now.cells }
        requires session { StandsBefore (book_of self.now) at (C.session_of session) }
        requires label { source.now.label ≡ books.fresh_label self.now.cells }
        ensures made { IfOk result (λ g. C.recorded g.new.record.value
            ≡ record_at (book_of self.now).world (entry_at
            (book_of (sheet (insert self.now.cells at (cell_of source.now)) self.now.given)) at)) }
        ensures worded { IfOk result
            (λ g. IsWordOf C.covers g.new.word (C.recorded g.new.record.value)) }
        ensures changed { IfOk result (λ g. AreChanged (book_of self.now)
            (book_of (sheet (insert self.now.cells at (cell_of source.now)) self.now.given)) at
            (at + 1) (length self.now.cells)
            (map (λ c. change_at c.place (C.recorded c.record.value)) g.swept.changed.items)) }
        ensures fit { IfOk result (λ g. AreFit C.covers (length self.now.cells)
            (map (λ c. fit_at c.place (C.recorded c.record.value) c.word) g.swept.changed.items)) }
        ensures noted { IfOk result (λ g. All (λ n. IsNoted C.change_of C.kept_session
            (book_of self.now) (book_of (sheet (insert self.now.cells at (cell_of source.now))
            self.now.given)) n.place n.now n.memo) g.swept.noted.items) }
        ensures counts { CountsStale (book_of self.now)
            (book_of (sheet (insert self.now.cells at (cell_of source.now)) self.now.given))
            meter.old meter.new }
    {
        let mut state = self.begin(at, session);
        let new = match run_new::<C>(self.alloc, meter, source, &self.world, at, &mut state) {
            Ok(new) => new,
            Err(refused) => {
                drop(state);
                return Err(refused);
            }
        };
        state.shift = Shift::Later;
        let swept = self.swept_behind(meter, &self.world, at, at + 1, state)?;
        Ok(Grown { new, swept })
    }

    /// Makes a session for the place, runs a new cell over it, and sweeps over the cells from there on.
    fn run_between(
        &self,
        meter: &mut Meter,
        at: usize,
        source: &KeptCell,
    ) -> Result<Added<C>, AllocError>
        requires at { at ≤ length self.now.cells }
        requires label { source.now.label ≡ books.fresh_label self.now.cells }
        ensures made { IfOk result (λ a. C.recorded a.grown.new.record.value
            ≡ record_at (book_of self.now).world (entry_at
            (book_of (sheet (insert self.now.cells at (cell_of source.now)) self.now.given)) at)) }
        ensures worded { IfOk result
            (λ a. IsWordOf C.covers a.grown.new.word (C.recorded a.grown.new.record.value)) }
        ensures changed { IfOk result (λ a. AreChanged (book_of self.now)
            (book_of (sheet (insert self.now.cells at (cell_of source.now)) self.now.given)) at
            (at + 1) (length self.now.cells)
            (map (λ c. change_at c.place (C.recorded c.record.value))
            a.grown.swept.changed.items)) }
        ensures fit { IfOk result (λ a. AreFit C.covers (length self.now.cells)
            (map (λ c. fit_at c.place (C.recorded c.record.value) c.word)
            a.grown.swept.changed.items)) }
        ensures noted { IfOk result (λ a. All (λ n. IsNoted C.change_of C.kept_session
            (book_of self.now) (book_of (sheet (insert self.now.cells at (cell_of source.now))
            self.now.given)) n.place n.now n.memo) a.grown.swept.noted.items) }
        ensures fresh { IfOk result (λ a. All (λ s. IsSnapshot (book_of self.now) s.place
            (C.kept_session s.version) (map C.change_of s.pending.items)) a.fresh.items) }
        ensures counts { CountsStale (book_of self.now)
            (book_of (sheet (insert self.now.cells at (cell_of source.now)) self.now.given))
            meter.old meter.new }
    {
        let Front { session, fresh } = self.front_before(at)?;
        let grown = self.swept_new(meter, at, source, session)?;
        Ok(Added { grown, fresh })
    }

    /// Puts a new cell in front of the one at the place, and returns the places of the cells that ran. It is refused for want of memory
    /// alone.
    fn insert_between(
        &mut self,
        meter: &mut Meter,
        at: usize,
        cell: Rc<KeptCell>,
        next: usize,
    ) -> Result<Vec<usize>, AllocError>
        requires at { at ≤ length self.old.cells }
        requires label { cell.value.label ≡ books.fresh_label self.old.cells }
        requires next { (n : ℕ) → n < next
            → IsTrue (is_label n self.old.cells || nat_eq n cell.value.label) }
        ensures ok { OnOk result (self.new ≡ sheet (insert self.old.cells at (cell_of cell.value))
            self.old.given) }
        ensures err { OnErr result (self.new ≡ self.old) }
        ensures counts { CountsStale (book_of self.old)
            (book_of (sheet (insert self.old.cells at (cell_of cell.value)) self.old.given))
            meter.old meter.new }
        ensures ran { IfOk result (λ v. AreStale (book_of self.old)
            (book_of (sheet (insert self.old.cells at (cell_of cell.value)) self.old.given))
            v.items) }
    {
        let mut ran = Vec::new(self.alloc);
        ran.push(at)?;
        let added = self.run_between(meter, at, &cell)?;
        match make_places::<C>(
            &mut self.cells,
            &mut self.records,
            &mut self.words,
            at,
            &mut ran,
            &added.grown.swept.changed,
        ) {
            Ok(()) => {}
            Err(refused) => {
                drop(added);
                drop(cell);
                return Err(refused);
            }
        }
        let Added { grown, fresh } = added;
        let Grown { new, swept } = grown;
        install::<C>(&mut self.records, &mut self.words, swept.changed);
        put_one::<C>(
            &mut self.cells,
            &mut self.records,
            &mut self.words,
            at,
            cell,
            new,
        );
        self.least = next;
        carry::<C>(self.alloc, &mut self.snapshots, fresh, swept.noted, at);
        Ok(ran)
    }

    /// A cell of a text, with a label that no other has.
    fn new_cell(&self, text: &str) -> Result<NewCell, AllocError>
        ensures label { IfOk result
            (λ v. v.cell.value.label ≡ books.fresh_label self.now.cells) }
        ensures text { IfOk result (λ v. string_bytes v.cell.value.text ≡ text.now) }
        ensures next { IfOk result (λ v. (n : ℕ) → n < v.next
            → IsTrue (is_label n self.now.cells || nat_eq n v.cell.value.label)) }
    {
        let FreeLabel { label, next } = fresh_label(self.alloc, &self.cells, self.least)?;
        let text = String::from_str(self.alloc, text)?;
        let cell = Rc::new(self.alloc, KeptCell { label, text })?;
        Ok(NewCell { cell, next })
    }

    /// Puts a new cell at the place, which may be behind the last one, and returns the places of the cells that ran. It is refused for want
    /// of memory alone.
    pub fn insert(
        &mut self,
        meter: &mut Meter,
        at: usize,
        text: &str,
    ) -> Result<Vec<usize>, AllocError>
        requires { at ≤ length self.old.cells }
        ensures ok { OnOk result (self.new ≡ edited_sheet (Insert at text.now) self.old) }
        ensures err { OnErr result (self.new ≡ self.old) }
        ensures counts { CountsStale (book_of self.old)
            (book_of (edited_sheet (Insert at text.now) self.old)) meter.old meter.new }
        ensures ran { IfOk result (λ v. AreStale (book_of self.old)
            (book_of (edited_sheet (Insert at text.now) self.old)) v.items) }
    {
        let NewCell { cell, next } = self.new_cell(text)?;
        if at == self.cells.len() {
            return self.append(meter, cell, next);
        }
        self.insert_between(meter, at, cell, next)
    }

    /// A sweep that stands at a place, where nothing is changed yet.
    pub(crate) fn begin(&self, at: usize, session: C::Session) -> SweepState<C>
        requires at { at ≤ length self.now.cells }
        requires session { StandsBefore (book_of self.now) at (C.session_of session) }
        ensures at { (new : Book) → SharesFront at (book_of self.now) new
            → (book_of self.now).world ≡ new.world
            → IsAt (book_of self.now) new at at (C.change_of result.change)
            (C.session_of result.session) result.since }
        ensures covered { IsWordOfChange C.covers result.word (C.change_of result.change) }
        ensures changed { result.changed.items ≡ [] }
        ensures none { (k : running.Key) → C.change_of result.change k ≡ None }
        ensures stands { StandsBefore (book_of self.now) at (C.session_of result.session) }
        ensures since { result.since ≡ at }
    {
        let change = C::no_change(self.alloc);
        let word = C::change_word(&change);
        SweepState {
            change,
            word,
            session,
            since: at,
            changed: Vec::new(self.alloc),
            shift: Shift::Stays,
        }
    }
}
