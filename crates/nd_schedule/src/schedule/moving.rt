//! `move_down` and `move_up`: the sweeps around a cell that moves.

ghost use Rattle.std.specs.Prelude.{◌≡◌, ◌<◌, ◌≤◌, ◌+◌, ◌-◌, ◌^◌, ◌++◌, ◌⊎◌, [], ℕ, IfOk, IfSome, MatchOption, OnOk, length, map, min};
ghost use Rattle.std.specs.Prelude.{string_bytes};
ghost use Rattle.std.specs.List.{All};
ghost use Rattle.nd_model.specs.Grammar.Reading.{reading};
ghost use Rattle.nd_model.specs.Cells.Cell.{cell, session_after};
ghost use Rattle.nd_model.specs.Cells.Footprint.{HasNone};
ghost use Rattle.nd_model.specs.Book.Records.{record_of, StillHolds};
ghost use Rattle.nd_model.specs.Book.Scheduler.{IsOfRun};
ghost use Rattle.nd_model.specs.Book.Stale.{CountsStale, IsStale};
ghost use Rattle.nd_model.specs.Book.Book.{Book};
ghost use Rattle.nd_model.specs.Book.Entries.{entry_at, record_at};
ghost use Rattle.nd_model.specs.Book.Notebook.{world_in};
ghost use Rattle.nd_change.specs.Steps.{Comes, IsWordOf, IsWordOfChange};
ghost use Rattle.nd_schedule.specs.Cells.Source.{cell_of, cells_of};
ghost use Rattle.nd_schedule.specs.Cells.Shared.{each_of};
ghost use Rattle.nd_schedule.specs.Schedule.Ran.{place_made, shifted};
ghost use Rattle.nd_schedule.specs.declared.schedule.ran.Shift.TheVariants as shifts;
ghost use Rattle.nd_schedule.specs.Schedule.Snapshot.{IsNoted, IsSnapshot};
ghost use Rattle.nd_schedule.specs.Schedule.Sweep.{
  AreFit,
  AreGathered,
  AreWords,
  CountsFront,
  IsAt,
  IsComing,
  IsMoving,
  IsPlace,
  IsRun,
  change_at,
  fit_at,
};

use crate::cells::KeptCell;
use crate::schedule::noting::Noted;
use crate::schedule::ran::{Shift, note_places};
use crate::schedule::runner::CellRunner;
use crate::schedule::snapshots::Snapshot;
use crate::schedule::sweep::{Changed, New, SweepState, come_to, run_new, sweep};
use nd_meter::Meter;
use std::alloc::{AllocError, Global};
use std::mem::swap;
use std::rc::Rc;

/// What the sweeps around a cell that moves give: the record of that cell, where it was run, and the records that are others between
/// its two places and behind them, and what was noted for the snapshots.
#[derive(Drop)]
pub(crate) struct Moved<C: CellRunner> {
    pub(crate) made: Option<New<C>>,
    pub(crate) between: Vec<Changed<C>>,
    pub(crate) behind: Vec<Changed<C>>,
    pub(crate) noted: Vec<Noted<C>>,
}

/// Adds the place of a cell that moved, where it was run.
fn note_made<C: CellRunner>(
    ran: &mut Vec<usize>,
    made: &Option<New<C>>,
    to: usize,
) -> Result<(), AllocError>
    ensures { OnOk result (ran.new.items ≡ ran.old.items ++ place_made made.now to) }
{
    if made.is_some() {
        ran.push(to)?;
    }
    Ok(())
}

impl<C: CellRunner> Moved<C> {
    /// What is gathered before a cell is gone past. It takes no memory.
    pub(crate) fn nothing(alloc: Global) -> Moved<C>
        ensures between { result.between.items ≡ [] }
        ensures noted { result.noted.items ≡ [] }
    {
        Moved {
            made: None,
            between: Vec::new(alloc),
            behind: Vec::new(alloc),
            noted: Vec::new(alloc),
        }
    }

    /// Keeps the record of the cell that moves, where it was run.
    fn keep_made(&mut self, made: Option<New<C>>)
        ensures made { self.new.made ≡ made }
        ensures between { self.new.between ≡ self.old.between }
        ensures noted { self.new.noted ≡ self.old.noted }
    {
        self.made = made;
    }

    /// Adds the places now of the cells that ran, around one that moved to a later place.
    fn note_down(&self, ran: &mut Vec<usize>, to: usize) -> Result<(), AllocError>
        requires between { (n : ℕ) × (n + 1 < 2 ^ 64) × AreFit C.covers n
            (map (λ c. fit_at c.place (C.recorded c.record.value) c.word) self.now.between.items) }
        requires behind { (n : ℕ) × (n + 1 < 2 ^ 64) × AreFit C.covers n
            (map (λ c. fit_at c.place (C.recorded c.record.value) c.word) self.now.behind.items) }
        ensures { OnOk result (ran.new.items
            ≡ ((ran.old.items ++ map (λ c. shifted shifts.Earlier c.place) self.now.between.items)
            ++ place_made self.now.made to)
            ++ map (λ c. shifted shifts.Stays c.place) self.now.behind.items) }
    {
        note_places::<C>(ran, &self.between, Shift::Earlier)?;
        note_made::<C>(ran, &self.made, to)?;
        note_places::<C>(ran, &self.behind, Shift::Stays)
    }

    /// Adds the places now of the cells that ran, around one that moved to an earlier place.
    fn note_up(&self, ran: &mut Vec<usize>, to: usize) -> Result<(), AllocError>
        requires between { (n : ℕ) × (n + 1 < 2 ^ 64) × AreFit C.covers n
            (map (λ c. fit_at c.place (C.recorded c.record.value) c.word) self.now.between.items) }
        requires behind { (n : ℕ) × (n + 1 < 2 ^ 64) × AreFit C.covers n
            (map (λ c. fit_at c.place (C.recorded c.record.value) c.word) self.now.behind.items) }
        ensures { OnOk result (ran.new.items
            ≡ ((ran.old.items ++ place_made self.now.made to)
            ++ map (λ c. shifted shifts.Later c.place) self.now.between.items)
            ++ map (λ c. shifted shifts.Stays c.place) self.now.behind.items) }
    {
        note_made::<C>(ran, &self.made, to)?;
        note_places::<C>(ran, &self.between, Shift::Later)?;
        note_places::<C>(ran, &self.behind, Shift::Stays)
    }

    /// Adds the places now of the cells that ran, around one that moved from a place to another.
    pub(crate) fn note_ran(
        &self,
        ran: &mut Vec<usize>,
        from: usize,
        to: usize,
    ) -> Result<(), AllocError>
        requires between { (n : ℕ) × (n + 1 < 2 ^ 64) × AreFit C.covers n
            (map (λ c. fit_at c.place (C.recorded c.record.value) c.word) self.now.between.items) }
        requires behind { (n : ℕ) × (n + 1 < 2 ^ 64) × AreFit C.covers n
            (map (λ c. fit_at c.place (C.recorded c.record.value) c.word) self.now.behind.items) }
        ensures down { OnOk result (from < to → ran.new.items
            ≡ ((ran.old.items ++ map (λ c. shifted shifts.Earlier c.place) self.now.between.items)
            ++ place_made self.now.made to)
            ++ map (λ c. shifted shifts.Stays c.place) self.now.behind.items) }
        ensures up { OnOk result (to ≤ from → ran.new.items
            ≡ ((ran.old.items ++ place_made self.now.made to)
            ++ map (λ c. shifted shifts.Later c.place) self.now.between.items)
            ++ map (λ c. shifted shifts.Stays c.place) self.now.behind.items) }
    {
        if from < to {
            return self.note_down(ran, to);
        }
        self.note_up(ran, to)
    }
}

/// Takes out what the cell at a place did, where a sweep stands.
pub(crate) fn leave<C: CellRunner>(
    alloc: Global,
    records: &[Rc<C::Record>],
    snapshots: &[Snapshot<C>],
    i: usize,
    state: &mut SweepState<C>,
) -> Result<(), AllocError>
    requires record { i < length records.now }
    requires fits { i + 1 < 2 ^ 64 }
    requires at { (old : Book) × (new : Book) × (j : ℕ)
        × IsRun old (each_of C.recorded records.now) × IsPlace old new i j
        × IsAt old new i j (C.change_of state.old.change) (C.session_of state.old.session)
        state.old.since }
    requires kept { (b : Book) → IsRun b (each_of C.recorded records.now)
        → All (λ s. IsSnapshot b s.place (C.kept_session s.version)
        (map C.change_of s.pending.items)) snapshots.now }
    ensures at { OnOk result ((old new : Book) (j : ℕ)
        → IsRun old (each_of C.recorded records.now) → IsPlace old new i j
        → IsAt old new i j (C.change_of state.old.change) (C.session_of state.old.session)
        state.old.since
        → IsAt old new (i + 1) j (C.change_of state.new.change)
        (C.session_of state.new.session) state.new.since) }
    ensures covered { OnOk result (IsWordOfChange C.covers state.new.word
        (C.change_of state.new.change)) }
    ensures changed { OnOk result (state.new.changed.items ≡ state.old.changed.items) }
{
    come_to::<C>(alloc, records, snapshots, i, state)?;
    C::went(&records[i], &state.session, &mut state.change)?;
    state.word = C::change_word(&state.change);
    state.since = i + 1;
    Ok(())
}

/// Puts a cell in over the session at hand: its record is replayed where it still holds, else the cell is run.
fn put_in<C: CellRunner>(
    alloc: Global,
    meter: &mut Meter,
    source: &KeptCell,
    made: &C::Record,
    world: &C::World,
    now: usize,
    state: &mut SweepState<C>,
) -> Result<Option<New<C>>, AllocError>
    requires none { HasNone source.now.label (C.session_of state.old.session) }
    requires of_run { IsOfRun source.now.label (reading (string_bytes source.now.text))
        (C.recorded made.now) }
    ensures after { OnOk result (C.session_of state.new.session
        ≡ session_after (cell source.now.label (reading (string_bytes source.now.text))
        (world_in (C.given world.now)) (C.session_of state.old.session))) }
    ensures comes { OnOk result (Comes (C.change_of state.old.change)
        (C.change_of state.new.change)
        (record_of source.now.label (reading (string_bytes source.now.text))
        (world_in (C.given world.now)) (C.session_of state.old.session))
        (C.session_of state.new.session)) }
    ensures made { IfOk result (λ o. MatchOption o
        (C.recorded made.now ≡ record_of source.now.label (reading (string_bytes source.now.text))
        (world_in (C.given world.now)) (C.session_of state.old.session))
        (λ n. C.recorded n.record.value
        ≡ record_of source.now.label (reading (string_bytes source.now.text))
        (world_in (C.given world.now)) (C.session_of state.old.session))) }
    ensures held { IfOk result (λ o. MatchOption o
        (StillHolds (C.recorded made.now) (C.session_of state.old.session)
        (world_in (C.given world.now)))
        (λ _. ¬ StillHolds (C.recorded made.now) (C.session_of state.old.session)
        (world_in (C.given world.now)))) }
    ensures worded { IfOk result (λ o. IfSome o
        (λ n. IsWordOf C.covers n.word (C.recorded n.record.value))) }
    ensures covered { OnOk result (IsWordOfChange C.covers state.new.word
        (C.change_of state.new.change)) }
    ensures since { OnOk result (state.new.since ≡ state.old.since) }
    ensures changed { OnOk result (state.new.changed.items ≡ state.old.changed.items) }
    ensures counts { (meter.new ≡ meter.old)
        ⊎ ((meter.new ≡ min (meter.old + 1) (2 ^ 64 - 1))
        × (¬ StillHolds (C.recorded made.now) (C.session_of state.old.session)
        (world_in (C.given world.now)))) }
{
    if C::still_holds(made, &state.session, world) {
        C::replay(made, &mut state.session)?;
        C::came(made, &state.session, &mut state.change)?;
        state.word = C::change_word(&state.change);
        return Ok(None);
    }
    let new = run_new::<C>(alloc, meter, source, world, now, state)?;
    Ok(Some(new))
}

/// Puts a cell that stood elsewhere before in front of the place where a sweep stands.
pub(crate) fn enter<C: CellRunner>(
    alloc: Global,
    meter: &mut Meter,
    records: &[Rc<C::Record>],
    snapshots: &[Snapshot<C>],
    source: &KeptCell,
    made: &C::Record,
    world: &C::World,
    i: usize,
    now: usize,
    state: &mut SweepState<C>,
) -> Result<Option<New<C>>, AllocError>
    requires within { i ≤ length records.now }
    requires at { (old : Book) × (new : Book) × (from : ℕ) × (j : ℕ)
        × IsComing old new from i j (each_of C.recorded records.now) (cell_of source.now)
        (C.recorded made.now) (world_in (C.given world.now))
        × IsAt old new i j (C.change_of state.old.change) (C.session_of state.old.session)
        state.old.since }
    requires kept { (b : Book) → IsRun b (each_of C.recorded records.now)
        → All (λ s. IsSnapshot b s.place (C.kept_session s.version)
        (map C.change_of s.pending.items)) snapshots.now }
    ensures at { OnOk result ((old new : Book) (from j : ℕ)
        → IsComing old new from i j (each_of C.recorded records.now) (cell_of source.now)
        (C.recorded made.now) (world_in (C.given world.now))
        → IsAt old new i j (C.change_of state.old.change) (C.session_of state.old.session)
        state.old.since
        → IsAt old new i (j + 1) (C.change_of state.new.change)
        (C.session_of state.new.session) state.new.since) }
    ensures made { IfOk result (λ o. (old new : Book) (from j : ℕ)
        → IsComing old new from i j (each_of C.recorded records.now) (cell_of source.now)
        (C.recorded made.now) (world_in (C.given world.now))
        → IsAt old new i j (C.change_of state.old.change) (C.session_of state.old.session)
        state.old.since
        → MatchOption o (C.recorded made.now ≡ record_at new.world (entry_at new j))
        (λ n. C.recorded n.record.value ≡ record_at new.world (entry_at new j))) }
    ensures stale { IfOk result (λ o. (old new : Book) (from j : ℕ)
        → IsComing old new from i j (each_of C.recorded records.now) (cell_of source.now)
        (C.recorded made.now) (world_in (C.given world.now))
        → IsAt old new i j (C.change_of state.old.change) (C.session_of state.old.session)
        state.old.since
        → MatchOption o (¬ IsStale old new (entry_at new j))
        (λ _. IsStale old new (entry_at new j))) }
    ensures worded { IfOk result (λ o. IfSome o
        (λ n. IsWordOf C.covers n.word (C.recorded n.record.value))) }
    ensures covered { OnOk result (IsWordOfChange C.covers state.new.word
        (C.change_of state.new.change)) }
    ensures changed { OnOk result (state.new.changed.items ≡ state.old.changed.items) }
    ensures counts { (old new : Book) (from j before : ℕ)
        → IsComing old new from i j (each_of C.recorded records.now) (cell_of source.now)
        (C.recorded made.now) (world_in (C.given world.now))
        → IsAt old new i j (C.change_of state.old.change) (C.session_of state.old.session)
        state.old.since
        → CountsFront old new j before meter.old → CountsFront old new (j + 1) before meter.new }
{
    come_to::<C>(alloc, records, snapshots, i, state)?;
    put_in::<C>(alloc, meter, source, made, world, now, state)
}

/// Sweeps over all cells behind one that moves to a later place.
pub(crate) fn move_down<C: CellRunner>(
    alloc: Global,
    meter: &mut Meter,
    cells: &[Rc<KeptCell>],
    records: &[Rc<C::Record>],
    words: &[C::Word],
    world: &C::World,
    from: usize,
    to: usize,
    snapshots: &[Snapshot<C>],
    state: &mut SweepState<C>,
    moved: &mut Moved<C>,
) -> Result<(), AllocError>
    requires down { from < to }
    requires to { to < length cells.now }
    requires records { length records.now ≡ length cells.now }
    requires places { length words.now ≡ length cells.now }
    requires at { (old : Book) × (new : Book)
        × IsMoving old new from to (cells_of cells.now) (each_of C.recorded records.now)
        (world_in (C.given world.now))
        × IsAt old new from from (C.change_of state.old.change) (C.session_of state.old.session)
        state.old.since }
    requires words { AreWords C.covers words.now (each_of C.recorded records.now) }
    requires covered { IsWordOfChange C.covers state.old.word (C.change_of state.old.change) }
    requires changed { state.old.changed.items ≡ [] }
    requires between { moved.old.between.items ≡ [] }
    requires noted { moved.old.noted.items ≡ [] }
    requires kept { (b : Book) → IsRun b (each_of C.recorded records.now)
        → All (λ s. IsSnapshot b s.place (C.kept_session s.version)
        (map C.change_of s.pending.items)) snapshots.now }
    ensures gathered { OnOk result ((old new : Book)
        → IsMoving old new from to (cells_of cells.now) (each_of C.recorded records.now)
        (world_in (C.given world.now))
        → IsAt old new from from (C.change_of state.old.change) (C.session_of state.old.session)
        state.old.since
        → AreGathered C.covers (λ n. C.recorded n.record.value) (λ n. n.word)
        (λ c. change_at c.place (C.recorded c.record.value))
        (λ c. fit_at c.place (C.recorded c.record.value) c.word)
        old new from to (length cells.now)
        moved.new.made moved.new.between.items moved.new.behind.items) }
    ensures noted { OnOk result ((old new : Book)
        → IsMoving old new from to (cells_of cells.now) (each_of C.recorded records.now)
        (world_in (C.given world.now))
        → IsAt old new from from (C.change_of state.old.change) (C.session_of state.old.session)
        state.old.since
        → All (λ n. IsNoted C.change_of C.kept_session old new n.place n.now n.memo)
        moved.new.noted.items) }
    ensures counts { (old new : Book)
        → IsMoving old new from to (cells_of cells.now) (each_of C.recorded records.now)
        (world_in (C.given world.now))
        → IsAt old new from from (C.change_of state.old.change) (C.session_of state.old.session)
        state.old.since
        → CountsStale old new meter.old meter.new }
{
    leave::<C>(alloc, records, snapshots, from, state)?;
    state.shift = Shift::Earlier;
    sweep::<C>(
        alloc,
        meter,
        cells,
        records,
        words,
        world,
        from + 1,
        to + 1,
        from,
        snapshots,
        state,
        &mut moved.noted,
    )?;
    swap(&mut moved.between, &mut state.changed);
    let made = enter::<C>(
        alloc,
        meter,
        records,
        snapshots,
        &cells[from],
        &records[from],
        world,
        to + 1,
        to,
        state,
    )?;
    moved.keep_made(made);
    state.shift = Shift::Stays;
    sweep::<C>(
        alloc,
        meter,
        cells,
        records,
        words,
        world,
        to + 1,
        cells.len(),
        to + 1,
        snapshots,
        state,
        &mut moved.noted,
    )?;
    swap(&mut moved.behind, &mut state.changed);
    Ok(())
}

/// Sweeps over all cells from the earlier place on to which one moves.
pub(crate) fn move_up<C: CellRunner>(
    alloc: Global,
    meter: &mut Meter,
    cells: &[Rc<KeptCell>],
    records: &[Rc<C::Record>],
    words: &[C::Word],
    world: &C::World,
    from: usize,
    to: usize,
    snapshots: &[Snapshot<C>],
    state: &mut SweepState<C>,
    moved: &mut Moved<C>,
) -> Result<(), AllocError>
    requires up { to < from }
    requires from { from < length cells.now }
    requires records { length records.now ≡ length cells.now }
    requires places { length words.now ≡ length cells.now }
    requires at { (old : Book) × (new : Book)
        × IsMoving old new from to (cells_of cells.now) (each_of C.recorded records.now)
        (world_in (C.given world.now))
        × IsAt old new to to (C.change_of state.old.change) (C.session_of state.old.session)
        state.old.since }
    requires words { AreWords C.covers words.now (each_of C.recorded records.now) }
    requires covered { IsWordOfChange C.covers state.old.word (C.change_of state.old.change) }
    requires changed { state.old.changed.items ≡ [] }
    requires between { moved.old.between.items ≡ [] }
    requires noted { moved.old.noted.items ≡ [] }
    requires kept { (b : Book) → IsRun b (each_of C.recorded records.now)
        → All (λ s. IsSnapshot b s.place (C.kept_session s.version)
        (map C.change_of s.pending.items)) snapshots.now }
    ensures gathered { OnOk result ((old new : Book)
        → IsMoving old new from to (cells_of cells.now) (each_of C.recorded records.now)
        (world_in (C.given world.now))
        → IsAt old new to to (C.change_of state.old.change) (C.session_of state.old.session)
        state.old.since
        → AreGathered C.covers (λ n. C.recorded n.record.value) (λ n. n.word)
        (λ c. change_at c.place (C.recorded c.record.value))
        (λ c. fit_at c.place (C.recorded c.record.value) c.word)
        old new from to (length cells.now)
        moved.new.made moved.new.between.items moved.new.behind.items) }
    ensures noted { OnOk result ((old new : Book)
        → IsMoving old new from to (cells_of cells.now) (each_of C.recorded records.now)
        (world_in (C.given world.now))
        → IsAt old new to to (C.change_of state.old.change) (C.session_of state.old.session)
        state.old.since
        → All (λ n. IsNoted C.change_of C.kept_session old new n.place n.now n.memo)
        moved.new.noted.items) }
    ensures counts { (old new : Book)
        → IsMoving old new from to (cells_of cells.now) (each_of C.recorded records.now)
        (world_in (C.given world.now))
        → IsAt old new to to (C.change_of state.old.change) (C.session_of state.old.session)
        state.old.since
        → CountsStale old new meter.old meter.new }
{
    let made = enter::<C>(
        alloc,
        meter,
        records,
        snapshots,
        &cells[from],
        &records[from],
        world,
        to,
        to,
        state,
    )?;
    moved.keep_made(made);
    state.shift = Shift::Later;
    sweep::<C>(
        alloc,
        meter,
        cells,
        records,
        words,
        world,
        to,
        from,
        to + 1,
        snapshots,
        state,
        &mut moved.noted,
    )?;
    swap(&mut moved.between, &mut state.changed);
    leave::<C>(alloc, records, snapshots, from, state)?;
    state.shift = Shift::Stays;
    sweep::<C>(
        alloc,
        meter,
        cells,
        records,
        words,
        world,
        from + 1,
        cells.len(),
        from + 1,
        snapshots,
        state,
        &mut moved.noted,
    )?;
    swap(&mut moved.behind, &mut state.changed);
    Ok(())
}
