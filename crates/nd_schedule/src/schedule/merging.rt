//! `merge_cell`: carries a change over the cells of a notebook up to one of a draft, and puts that one in its place.

ghost use Rattle.std.specs.Prelude.{◌≡◌, ◌<◌, ◌≤◌, ◌+◌, ℕ, IfOk, IfSome, MatchOption, OnOk, length, map};
ghost use Rattle.std.specs.List.{All};
ghost use Rattle.nd_model.specs.Book.Book.{Book};
ghost use Rattle.nd_model.specs.Book.Entries.{entry_at, record_at};
ghost use Rattle.nd_model.specs.Book.Stale.{IsStale};
ghost use Rattle.nd_model.specs.Book.Notebook.{world_in};
ghost use Rattle.nd_change.specs.Steps.{IsWordOf, IsWordOfChange};
ghost use Rattle.nd_schedule.specs.Cells.Source.{cell_of, cells_of};
ghost use Rattle.nd_schedule.specs.Cells.Shared.{each_of};
ghost use Rattle.nd_schedule.specs.Schedule.Merge.{AreMerged, IsFront, IsNext, IsPlaced};
ghost use Rattle.nd_schedule.specs.Schedule.Snapshot.{IsSnapshot};
ghost use Rattle.nd_schedule.specs.Schedule.Sweep.{AreWords, CountsFront, IsAt, IsPlace, IsRun};

use crate::cells::KeptCell;
use crate::schedule::draft::Hint;
use crate::schedule::matching::{Way, find_way};
use crate::schedule::moving::{enter, leave};
use crate::schedule::runner::CellRunner;
use crate::schedule::snapshots::Snapshot;
use crate::schedule::sweep::{New, SweepState, come_to, run_cell, run_new};
use nd_meter::Meter;
use std::alloc::{AllocError, Global};
use std::rc::Rc;

/// The record of a cell in its new place, with its word, whether the cell ran, and the place behind the last cell gone past.
#[derive(Drop)]
pub(crate) struct Placed<C: CellRunner> {
    pub(crate) record: Rc<C::Record>,
    pub(crate) word: C::Word,
    pub(crate) is_run: bool,
    pub(crate) behind: usize,
}

/// The records of the first cells of a draft, with their words, and the places of those that ran.
#[derive(Drop)]
pub(crate) struct Merged<C: CellRunner> {
    pub(crate) records: Vec<Rc<C::Record>>,
    pub(crate) words: Vec<C::Word>,
    pub(crate) ran: Vec<usize>,
}

/// Leaves the cells from a place up to another, which are gone or come in later.
fn leave_between<C: CellRunner>(
    alloc: Global,
    records: &[Rc<C::Record>],
    snapshots: &[Snapshot<C>],
    i: usize,
    to: usize,
    state: &mut SweepState<C>,
) -> Result<(), AllocError>
    requires order { i ≤ to }
    requires records { to ≤ length records.now }
    requires at { (old : Book) × (new : Book) × (j : ℕ)
        × IsRun old (each_of C.recorded records.now) × IsPlace old new i j
        × IsAt old new i j (C.change_of state.old.change) (C.session_of state.old.session)
        state.old.since }
    requires covered { IsWordOfChange C.covers state.old.word (C.change_of state.old.change) }
    requires kept { (b : Book) → IsRun b (each_of C.recorded records.now)
        → All (λ s. IsSnapshot b s.place (C.kept_session s.version)
        (map C.change_of s.pending.items)) snapshots.now }
    ensures at { OnOk result ((old new : Book) (j : ℕ)
        → IsRun old (each_of C.recorded records.now) → IsPlace old new i j
        → IsAt old new i j (C.change_of state.old.change) (C.session_of state.old.session)
        state.old.since
        → IsAt old new to j (C.change_of state.new.change)
        (C.session_of state.new.session) state.new.since) }
    ensures covered { OnOk result (IsWordOfChange C.covers state.new.word
        (C.change_of state.new.change)) }
{
    for k in i..to {
        leave::<C>(alloc, records, snapshots, k, state)?;
    }
    Ok(())
}

/// Runs the cell that comes next in the place of one that stands in the notebook before.
fn run_there<C: CellRunner>(
    alloc: Global,
    meter: &mut Meter,
    records: &[Rc<C::Record>],
    snapshots: &[Snapshot<C>],
    source: &KeptCell,
    world: &C::World,
    i: usize,
    now: usize,
    state: &mut SweepState<C>,
) -> Result<New<C>, AllocError>
    requires record { i < length records.now }
    requires at { (old : Book) × (new : Book)
        × IsNext old new i now (each_of C.recorded records.now) (cell_of source.now)
        (world_in (C.given world.now))
        × IsAt old new i now (C.change_of state.old.change) (C.session_of state.old.session)
        state.old.since }
    requires kept { (b : Book) → IsRun b (each_of C.recorded records.now)
        → All (λ s. IsSnapshot b s.place (C.kept_session s.version)
        (map C.change_of s.pending.items)) snapshots.now }
    ensures at { OnOk result ((old new : Book)
        → IsNext old new i now (each_of C.recorded records.now) (cell_of source.now)
        (world_in (C.given world.now))
        → IsAt old new i now (C.change_of state.old.change) (C.session_of state.old.session)
        state.old.since
        → IsAt old new (i + 1) (now + 1) (C.change_of state.new.change)
        (C.session_of state.new.session) state.new.since) }
    ensures made { IfOk result (λ n. (old new : Book)
        → IsNext old new i now (each_of C.recorded records.now) (cell_of source.now)
        (world_in (C.given world.now))
        → IsAt old new i now (C.change_of state.old.change) (C.session_of state.old.session)
        state.old.since
        → C.recorded n.record.value ≡ record_at new.world (entry_at new now)) }
    ensures worded { IfOk result (λ n. IsWordOf C.covers n.word (C.recorded n.record.value)) }
    ensures covered { OnOk result (IsWordOfChange C.covers state.new.word
        (C.change_of state.new.change)) }
    ensures counts { (old new : Book) (before : ℕ)
        → IsNext old new i now (each_of C.recorded records.now) (cell_of source.now)
        (world_in (C.given world.now))
        → IsStale old new (entry_at new now)
        → CountsFront old new now before meter.old
        → CountsFront old new (now + 1) before meter.new }
{
    come_to::<C>(alloc, records, snapshots, i, state)?;
    let new = run_cell::<C>(alloc, meter, source, world, now, &mut state.session)?;
    C::rerun(
        &records[i],
        &new.record,
        &state.session,
        world,
        &mut state.change,
    )?;
    state.word = C::change_word(&state.change);
    state.since = i + 1;
    Ok(new)
}

/// Goes past the cell that comes next, which stands in the notebook before with the same text: its record is kept, or it is run.
fn pass<C: CellRunner>(
    alloc: Global,
    meter: &mut Meter,
    records: &[Rc<C::Record>],
    snapshots: &[Snapshot<C>],
    words: &[C::Word],
    source: &KeptCell,
    world: &C::World,
    i: usize,
    now: usize,
    state: &mut SweepState<C>,
) -> Result<Option<New<C>>, AllocError>
    requires record { i < length records.now }
    requires word { i < length words.now }
    requires at { (old : Book) × (new : Book)
        × IsNext old new i now (each_of C.recorded records.now) (cell_of source.now)
        (world_in (C.given world.now)) × ((entry_at old i).cell ≡ cell_of source.now)
        × IsAt old new i now (C.change_of state.old.change) (C.session_of state.old.session)
        state.old.since }
    requires words { AreWords C.covers words.now (each_of C.recorded records.now) }
    requires covered { IsWordOfChange C.covers state.old.word (C.change_of state.old.change) }
    requires kept { (b : Book) → IsRun b (each_of C.recorded records.now)
        → All (λ s. IsSnapshot b s.place (C.kept_session s.version)
        (map C.change_of s.pending.items)) snapshots.now }
    ensures at { OnOk result ((old new : Book)
        → IsNext old new i now (each_of C.recorded records.now) (cell_of source.now)
        (world_in (C.given world.now)) → (entry_at old i).cell ≡ cell_of source.now
        → IsAt old new i now (C.change_of state.old.change) (C.session_of state.old.session)
        state.old.since
        → IsAt old new (i + 1) (now + 1) (C.change_of state.new.change)
        (C.session_of state.new.session) state.new.since) }
    ensures made { IfOk result (λ o. (old new : Book)
        → IsNext old new i now (each_of C.recorded records.now) (cell_of source.now)
        (world_in (C.given world.now)) → (entry_at old i).cell ≡ cell_of source.now
        → IsAt old new i now (C.change_of state.old.change) (C.session_of state.old.session)
        state.old.since
        → MatchOption o
        (record_at old.world (entry_at old i) ≡ record_at new.world (entry_at new now))
        (λ n. C.recorded n.record.value ≡ record_at new.world (entry_at new now))) }
    ensures stale { IfOk result (λ o. (old new : Book)
        → IsNext old new i now (each_of C.recorded records.now) (cell_of source.now)
        (world_in (C.given world.now)) → (entry_at old i).cell ≡ cell_of source.now
        → IsAt old new i now (C.change_of state.old.change) (C.session_of state.old.session)
        state.old.since
        → MatchOption o (¬ IsStale old new (entry_at new now))
        (λ _. IsStale old new (entry_at new now))) }
    ensures worded { IfOk result (λ o. IfSome o
        (λ n. IsWordOf C.covers n.word (C.recorded n.record.value))) }
    ensures covered { OnOk result (IsWordOfChange C.covers state.new.word
        (C.change_of state.new.change)) }
    ensures counts { (old new : Book) (before : ℕ)
        → IsNext old new i now (each_of C.recorded records.now) (cell_of source.now)
        (world_in (C.given world.now)) → (entry_at old i).cell ≡ cell_of source.now
        → IsAt old new i now (C.change_of state.old.change) (C.session_of state.old.session)
        state.old.since
        → CountsFront old new now before meter.old
        → CountsFront old new (now + 1) before meter.new }
{
    if C::are_apart(&words[i], &state.word) {
        return Ok(None);
    }
    let made = &records[i];
    if C::fits(made, &state.change) {
        C::keep(made, &mut state.change)?;
        state.word = C::change_word(&state.change);
        return Ok(None);
    }
    let new = run_there::<C>(
        alloc, meter, records, snapshots, source, world, i, now, state,
    )?;
    Ok(Some(new))
}

/// What a cell has in its new place: what its run gave, or else the record of its run before.
fn settle<C: CellRunner>(
    records: &[Rc<C::Record>],
    k: usize,
    made: Option<New<C>>,
    behind: usize,
) -> Result<Placed<C>, AllocError>
    requires record { k < length records.now }
    requires worded { IfSome made (λ n. IsWordOf C.covers n.word (C.recorded n.record.value)) }
    ensures placed { IfOk result (λ p. (old new : Book) (j : ℕ)
        → IsRun old (each_of C.recorded records.now)
        → MatchOption made
        (record_at old.world (entry_at old k) ≡ record_at new.world (entry_at new j))
        (λ n. C.recorded n.record.value ≡ record_at new.world (entry_at new j))
        → MatchOption made (¬ IsStale old new (entry_at new j))
        (λ _. IsStale old new (entry_at new j))
        → IsPlaced old new j (C.recorded p.record.value) p.is_run) }
    ensures worded { IfOk result (λ p. IsWordOf C.covers p.word (C.recorded p.record.value)) }
    ensures behind { IfOk result (λ p. p.behind ≡ behind) }
{
    if let Some(New { record, word }) = made {
        return Ok(Placed {
            record,
            word,
            is_run: true,
            behind,
        });
    }
    let record = records[k].clone()?;
    let word = C::word(&record);
    Ok(Placed {
        record,
        word,
        is_run: false,
        behind,
    })
}

/// Comes to a cell with the same text that is not gone past yet: those in front are left, and it is passed.
fn come_to_kept<C: CellRunner>(
    alloc: Global,
    meter: &mut Meter,
    records: &[Rc<C::Record>],
    snapshots: &[Snapshot<C>],
    words: &[C::Word],
    source: &KeptCell,
    world: &C::World,
    i: usize,
    k: usize,
    now: usize,
    state: &mut SweepState<C>,
) -> Result<Placed<C>, AllocError>
    requires order { i ≤ k }
    requires record { k < length records.now }
    requires word { k < length words.now }
    requires at { (old : Book) × (new : Book)
        × IsNext old new i now (each_of C.recorded records.now) (cell_of source.now)
        (world_in (C.given world.now)) × ((entry_at old k).cell ≡ cell_of source.now)
        × IsAt old new i now (C.change_of state.old.change) (C.session_of state.old.session)
        state.old.since }
    requires words { AreWords C.covers words.now (each_of C.recorded records.now) }
    requires covered { IsWordOfChange C.covers state.old.word (C.change_of state.old.change) }
    requires kept { (b : Book) → IsRun b (each_of C.recorded records.now)
        → All (λ s. IsSnapshot b s.place (C.kept_session s.version)
        (map C.change_of s.pending.items)) snapshots.now }
    ensures at { IfOk result (λ p. (old new : Book)
        → IsNext old new i now (each_of C.recorded records.now) (cell_of source.now)
        (world_in (C.given world.now)) → (entry_at old k).cell ≡ cell_of source.now
        → IsAt old new i now (C.change_of state.old.change) (C.session_of state.old.session)
        state.old.since
        → IsAt old new p.behind (now + 1) (C.change_of state.new.change)
        (C.session_of state.new.session) state.new.since) }
    ensures placed { IfOk result (λ p. (old new : Book)
        → IsNext old new i now (each_of C.recorded records.now) (cell_of source.now)
        (world_in (C.given world.now)) → (entry_at old k).cell ≡ cell_of source.now
        → IsAt old new i now (C.change_of state.old.change) (C.session_of state.old.session)
        state.old.since
        → IsPlaced old new now (C.recorded p.record.value) p.is_run) }
    ensures worded { IfOk result (λ p. IsWordOf C.covers p.word (C.recorded p.record.value)) }
    ensures behind { IfOk result (λ p. p.behind ≡ k + 1) }
    ensures covered { OnOk result (IsWordOfChange C.covers state.new.word
        (C.change_of state.new.change)) }
    ensures counts { (old new : Book) (before : ℕ)
        → IsNext old new i now (each_of C.recorded records.now) (cell_of source.now)
        (world_in (C.given world.now)) → (entry_at old k).cell ≡ cell_of source.now
        → IsAt old new i now (C.change_of state.old.change) (C.session_of state.old.session)
        state.old.since
        → CountsFront old new now before meter.old
        → CountsFront old new (now + 1) before meter.new }
{
    leave_between::<C>(alloc, records, snapshots, i, k, state)?;
    let made = pass::<C>(
        alloc, meter, records, snapshots, words, source, world, k, now, state,
    )?;
    settle::<C>(records, k, made, k + 1)
}

/// Comes to a cell with another text that is not gone past yet: those in front are left, and it is run.
fn come_to_edited<C: CellRunner>(
    alloc: Global,
    meter: &mut Meter,
    records: &[Rc<C::Record>],
    snapshots: &[Snapshot<C>],
    source: &KeptCell,
    world: &C::World,
    i: usize,
    k: usize,
    now: usize,
    state: &mut SweepState<C>,
) -> Result<Placed<C>, AllocError>
    requires order { i ≤ k }
    requires record { k < length records.now }
    requires at { (old : Book) × (new : Book)
        × IsNext old new i now (each_of C.recorded records.now) (cell_of source.now)
        (world_in (C.given world.now)) × IsStale old new (entry_at new now)
        × IsAt old new i now (C.change_of state.old.change) (C.session_of state.old.session)
        state.old.since }
    requires covered { IsWordOfChange C.covers state.old.word (C.change_of state.old.change) }
    requires kept { (b : Book) → IsRun b (each_of C.recorded records.now)
        → All (λ s. IsSnapshot b s.place (C.kept_session s.version)
        (map C.change_of s.pending.items)) snapshots.now }
    ensures at { IfOk result (λ p. (old new : Book)
        → IsNext old new i now (each_of C.recorded records.now) (cell_of source.now)
        (world_in (C.given world.now)) → IsStale old new (entry_at new now)
        → IsAt old new i now (C.change_of state.old.change) (C.session_of state.old.session)
        state.old.since
        → IsAt old new p.behind (now + 1) (C.change_of state.new.change)
        (C.session_of state.new.session) state.new.since) }
    ensures placed { IfOk result (λ p. (old new : Book)
        → IsNext old new i now (each_of C.recorded records.now) (cell_of source.now)
        (world_in (C.given world.now)) → IsStale old new (entry_at new now)
        → IsAt old new i now (C.change_of state.old.change) (C.session_of state.old.session)
        state.old.since
        → IsPlaced old new now (C.recorded p.record.value) p.is_run) }
    ensures worded { IfOk result (λ p. IsWordOf C.covers p.word (C.recorded p.record.value)) }
    ensures behind { IfOk result (λ p. p.behind ≡ k + 1) }
    ensures covered { OnOk result (IsWordOfChange C.covers state.new.word
        (C.change_of state.new.change)) }
    ensures counts { (old new : Book) (before : ℕ)
        → IsNext old new i now (each_of C.recorded records.now) (cell_of source.now)
        (world_in (C.given world.now)) → IsStale old new (entry_at new now)
        → IsAt old new i now (C.change_of state.old.change) (C.session_of state.old.session)
        state.old.since
        → CountsFront old new now before meter.old
        → CountsFront old new (now + 1) before meter.new }
{
    leave_between::<C>(alloc, records, snapshots, i, k, state)?;
    let new = run_there::<C>(
        alloc, meter, records, snapshots, source, world, k, now, state,
    )?;
    settle::<C>(records, k, Some(new), k + 1)
}

/// Comes to a cell with the same text that stood elsewhere before.
fn come_to_moved<C: CellRunner>(
    alloc: Global,
    meter: &mut Meter,
    records: &[Rc<C::Record>],
    snapshots: &[Snapshot<C>],
    source: &KeptCell,
    world: &C::World,
    i: usize,
    k: usize,
    now: usize,
    state: &mut SweepState<C>,
) -> Result<Placed<C>, AllocError>
    requires within { i ≤ length records.now }
    requires record { k < length records.now }
    requires at { (old : Book) × (new : Book)
        × IsNext old new i now (each_of C.recorded records.now) (cell_of source.now)
        (world_in (C.given world.now)) × ((entry_at old k).cell ≡ cell_of source.now)
        × IsAt old new i now (C.change_of state.old.change) (C.session_of state.old.session)
        state.old.since }
    requires kept { (b : Book) → IsRun b (each_of C.recorded records.now)
        → All (λ s. IsSnapshot b s.place (C.kept_session s.version)
        (map C.change_of s.pending.items)) snapshots.now }
    ensures at { IfOk result (λ p. (old new : Book)
        → IsNext old new i now (each_of C.recorded records.now) (cell_of source.now)
        (world_in (C.given world.now)) → (entry_at old k).cell ≡ cell_of source.now
        → IsAt old new i now (C.change_of state.old.change) (C.session_of state.old.session)
        state.old.since
        → IsAt old new p.behind (now + 1) (C.change_of state.new.change)
        (C.session_of state.new.session) state.new.since) }
    ensures placed { IfOk result (λ p. (old new : Book)
        → IsNext old new i now (each_of C.recorded records.now) (cell_of source.now)
        (world_in (C.given world.now)) → (entry_at old k).cell ≡ cell_of source.now
        → IsAt old new i now (C.change_of state.old.change) (C.session_of state.old.session)
        state.old.since
        → IsPlaced old new now (C.recorded p.record.value) p.is_run) }
    ensures worded { IfOk result (λ p. IsWordOf C.covers p.word (C.recorded p.record.value)) }
    ensures behind { IfOk result (λ p. p.behind ≡ i) }
    ensures covered { OnOk result (IsWordOfChange C.covers state.new.word
        (C.change_of state.new.change)) }
    ensures counts { (old new : Book) (before : ℕ)
        → IsNext old new i now (each_of C.recorded records.now) (cell_of source.now)
        (world_in (C.given world.now)) → (entry_at old k).cell ≡ cell_of source.now
        → IsAt old new i now (C.change_of state.old.change) (C.session_of state.old.session)
        state.old.since
        → CountsFront old new now before meter.old
        → CountsFront old new (now + 1) before meter.new }
{
    let made = &records[k];
    let made = enter::<C>(
        alloc, meter, records, snapshots, source, made, world, i, now, state,
    )?;
    settle::<C>(records, k, made, i)
}

/// Comes to a cell that stood nowhere before with this text, or is left or passed: it is run.
fn come_to_new<C: CellRunner>(
    alloc: Global,
    meter: &mut Meter,
    records: &[Rc<C::Record>],
    snapshots: &[Snapshot<C>],
    source: &KeptCell,
    world: &C::World,
    i: usize,
    now: usize,
    state: &mut SweepState<C>,
) -> Result<Placed<C>, AllocError>
    requires record { i ≤ length records.now }
    requires at { (old : Book) × (new : Book)
        × IsNext old new i now (each_of C.recorded records.now) (cell_of source.now)
        (world_in (C.given world.now))
        × IsAt old new i now (C.change_of state.old.change) (C.session_of state.old.session)
        state.old.since }
    requires kept { (b : Book) → IsRun b (each_of C.recorded records.now)
        → All (λ s. IsSnapshot b s.place (C.kept_session s.version)
        (map C.change_of s.pending.items)) snapshots.now }
    ensures at { IfOk result (λ p. (old new : Book)
        → IsNext old new i now (each_of C.recorded records.now) (cell_of source.now)
        (world_in (C.given world.now))
        → IsAt old new i now (C.change_of state.old.change) (C.session_of state.old.session)
        state.old.since
        → IsAt old new p.behind (now + 1) (C.change_of state.new.change)
        (C.session_of state.new.session) state.new.since) }
    ensures placed { IfOk result (λ p. (old new : Book)
        → IsNext old new i now (each_of C.recorded records.now) (cell_of source.now)
        (world_in (C.given world.now)) → IsStale old new (entry_at new now)
        → IsAt old new i now (C.change_of state.old.change) (C.session_of state.old.session)
        state.old.since
        → IsPlaced old new now (C.recorded p.record.value) p.is_run) }
    ensures worded { IfOk result (λ p. IsWordOf C.covers p.word (C.recorded p.record.value)) }
    ensures behind { IfOk result (λ p. p.behind ≡ i) }
    ensures covered { OnOk result (IsWordOfChange C.covers state.new.word
        (C.change_of state.new.change)) }
    ensures counts { (old new : Book) (before : ℕ)
        → IsNext old new i now (each_of C.recorded records.now) (cell_of source.now)
        (world_in (C.given world.now))
        → IsStale old new (entry_at new now)
        → CountsFront old new now before meter.old
        → CountsFront old new (now + 1) before meter.new }
{
    come_to::<C>(alloc, records, snapshots, i, state)?;
    let New { record, word } = run_new::<C>(alloc, meter, source, world, now, state)?;
    let is_run = true;
    Ok(Placed {
        record,
        word,
        is_run,
        behind: i,
    })
}

/// Comes to one cell of a draft, and leaves those before it that are gone past. Its record is kept, or it is run.
pub(crate) fn merge_cell<C: CellRunner>(
    alloc: Global,
    meter: &mut Meter,
    cells: &[Rc<KeptCell>],
    records: &[Rc<C::Record>],
    snapshots: &[Snapshot<C>],
    words: &[C::Word],
    cell: &KeptCell,
    hint: Hint,
    world: &C::World,
    i: usize,
    now: usize,
    state: &mut SweepState<C>,
) -> Result<Placed<C>, AllocError>
    requires cells { length cells.now ≤ length records.now }
    requires places { length cells.now ≤ length words.now }
    requires within { i ≤ length cells.now }
    requires at { (old : Book) × (new : Book)
        × IsNext old new i now (each_of C.recorded records.now) (cell_of cell.now)
        (world_in (C.given world.now)) × (old.cells ≡ cells_of cells.now)
        × IsAt old new i now (C.change_of state.old.change) (C.session_of state.old.session)
        state.old.since }
    requires words { AreWords C.covers words.now (each_of C.recorded records.now) }
    requires covered { IsWordOfChange C.covers state.old.word (C.change_of state.old.change) }
    requires kept { (b : Book) → IsRun b (each_of C.recorded records.now)
        → All (λ s. IsSnapshot b s.place (C.kept_session s.version)
        (map C.change_of s.pending.items)) snapshots.now }
    ensures at { IfOk result (λ p. (old new : Book)
        → IsNext old new i now (each_of C.recorded records.now) (cell_of cell.now)
        (world_in (C.given world.now)) → old.cells ≡ cells_of cells.now
        → IsAt old new i now (C.change_of state.old.change) (C.session_of state.old.session)
        state.old.since
        → IsAt old new p.behind (now + 1) (C.change_of state.new.change)
        (C.session_of state.new.session) state.new.since) }
    ensures placed { IfOk result (λ p. (old new : Book)
        → IsNext old new i now (each_of C.recorded records.now) (cell_of cell.now)
        (world_in (C.given world.now)) → old.cells ≡ cells_of cells.now
        → IsAt old new i now (C.change_of state.old.change) (C.session_of state.old.session)
        state.old.since
        → IsPlaced old new now (C.recorded p.record.value) p.is_run) }
    ensures worded { IfOk result (λ p. IsWordOf C.covers p.word (C.recorded p.record.value)) }
    ensures behind { IfOk result (λ p. p.behind ≤ length cells.now) }
    ensures covered { OnOk result (IsWordOfChange C.covers state.new.word
        (C.change_of state.new.change)) }
    ensures counts { (old new : Book) (before : ℕ)
        → IsNext old new i now (each_of C.recorded records.now) (cell_of cell.now)
        (world_in (C.given world.now)) → old.cells ≡ cells_of cells.now
        → IsAt old new i now (C.change_of state.old.change) (C.session_of state.old.session)
        state.old.since
        → CountsFront old new now before meter.old
        → CountsFront old new (now + 1) before meter.new }
{
    match find_way(cells, cell, hint, i) {
        Way::Kept(k) => {
            come_to_kept::<C>(
                alloc, meter, records, snapshots, words, cell, world, i, k, now, state,
            )
        }
        Way::Edited(k) => {
            come_to_edited::<C>(
                alloc, meter, records, snapshots, cell, world, i, k, now, state,
            )
        }
        Way::Moved(k) => come_to_moved::<C>(
            alloc, meter, records, snapshots, cell, world, i, k, now, state,
        ),
        Way::New => come_to_new::<C>(alloc, meter, records, snapshots, cell, world, i, now, state),
    }
}

/// Puts what a cell has behind that of the cells in front of it.
pub(crate) fn put_behind<C: CellRunner>(
    merged: &mut Merged<C>,
    placed: Placed<C>,
    now: usize,
) -> Result<(), AllocError>
    requires { IsWordOf C.covers placed.word (C.recorded placed.record.value) }
    ensures { OnOk result ((old new : Book) → now < length new.cells
        → IsPlaced old new now (C.recorded placed.record.value) placed.is_run
        → AreMerged C.covers old new now (each_of C.recorded merged.old.records.items)
        merged.old.words.items merged.old.ran.items
        → AreMerged C.covers old new (now + 1) (each_of C.recorded merged.new.records.items)
        merged.new.words.items merged.new.ran.items) }
{
    merged.records.push(placed.record)?;
    merged.words.push(placed.word)?;
    if placed.is_run {
        merged.ran.push(now)?;
    }
    Ok(())
}

/// What no cells have yet, with room for the records and words of `room` cells.
fn with_room<C: CellRunner>(alloc: Global, room: usize) -> Result<Merged<C>, AllocError>
    ensures { IfOk result (λ m. (old new : Book)
        → AreMerged C.covers old new 0 (each_of C.recorded m.records.items)
        m.words.items m.ran.items) }
{
    Ok(Merged {
        records: Vec::with_capacity(alloc, room)?,
        words: Vec::with_capacity(alloc, room)?,
        ran: Vec::new(alloc),
    })
}

/// Puts in what the first cells have, as they have it in the notebook before.
fn copy_front<C: CellRunner>(
    records: &[Rc<C::Record>],
    count: usize,
    merged: &mut Merged<C>,
) -> Result<(), AllocError>
    requires { count ≤ length records.now }
    ensures { OnOk result ((old new : Book)
        → IsRun old (each_of C.recorded records.now) → IsFront old new count
        → AreMerged C.covers old new 0 (each_of C.recorded merged.old.records.items)
        merged.old.words.items merged.old.ran.items
        → AreMerged C.covers old new count (each_of C.recorded merged.new.records.items)
        merged.new.words.items merged.new.ran.items) }
{
    for k in 0..count {
        let placed = settle::<C>(records, k, None, k + 1)?;
        put_behind::<C>(merged, placed, k)?;
    }
    Ok(())
}

/// What the first cells have, as they have it in the notebook before. There is room for the others.
pub(crate) fn copied<C: CellRunner>(
    alloc: Global,
    records: &[Rc<C::Record>],
    count: usize,
    room: usize,
) -> Result<Merged<C>, AllocError>
    requires within { count ≤ length records.now }
    requires room { count ≤ room }
    ensures { IfOk result (λ m. (old new : Book)
        → IsRun old (each_of C.recorded records.now) → IsFront old new count
        → AreMerged C.covers old new count (each_of C.recorded m.records.items)
        m.words.items m.ran.items) }
{
    let mut merged = with_room::<C>(alloc, room)?;
    copy_front::<C>(records, count, &mut merged)?;
    Ok(merged)
}
