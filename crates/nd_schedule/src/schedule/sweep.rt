//! `sweep`: carries a change over the cells behind an edit, runs those whose records do not fit it, and notes it for the snapshots.

ghost use Rattle.std.specs.Prelude.{◌≡◌, ◌<◌, ◌≤◌, ◌+◌, ◌-◌, ◌^◌, ◌++◌, ◌∷◌, ◌⊎◌, [], ℕ, IfOk, IfSome, None, OnOk, length, map, min, slice_index_or};
ghost use Rattle.std.specs.Prelude.{string_bytes};
ghost use Rattle.std.specs.List.{All};
ghost use Rattle.nd_model.specs.Grammar.Reading.{reading};
ghost use Rattle.nd_model.specs.Cells.Cell.{cell, session_after};
ghost use Rattle.nd_model.specs.Cells.Footprint.{HasNone};
ghost use Rattle.nd_model.specs.Cells.Running.{Key};
ghost use Rattle.nd_model.specs.Book.Records.{record_of};
ghost use Rattle.nd_model.specs.Book.Stale.{CountsStale};
ghost use Rattle.nd_model.specs.Book.Book.{Book};
ghost use Rattle.nd_model.specs.Book.Notebook.{world_in};
ghost use Rattle.nd_schedule.specs.Cells.Source.{cells_of};
ghost use Rattle.nd_schedule.specs.Cells.Shared.{each_of};
ghost use Rattle.nd_change.specs.Steps.{Comes, Follows, IsWordOf, IsWordOfChange};
ghost use Rattle.nd_schedule.specs.Schedule.Snapshot.{IsChangeAt, IsNoted, IsSnapshot};
ghost use Rattle.nd_schedule.specs.Schedule.Apart.{AreApart};
ghost use Rattle.nd_schedule.specs.Schedule.Sweep.{AreChanged, AreFit, AreWords, CountsFront, IsAt, IsAtHand, IsFrame, IsPlace, IsRun, change_at, fit_at};

use crate::cells::KeptCell;
use crate::schedule::noting::{Noted, note};
use crate::schedule::ran::Shift;
use crate::schedule::runner::CellRunner;
use crate::schedule::snapshots::{MOST_KEYS, Snapshot, last_up_to, replay_one, session_from};
use nd_meter::Meter;
use std::alloc::{AllocError, Global};
use std::rc::Rc;

/// A cell that has another record now, with its word.
#[derive(Drop)]
pub struct Changed<C: CellRunner> {
    pub(crate) place: usize,
    pub(crate) record: Rc<C::Record>,
    pub(crate) word: C::Word,
}

/// How far a sweep has come: the change there with its word, a session some cells in front, and the records that are others now.
#[derive(Drop)]
pub struct SweepState<C: CellRunner> {
    pub(crate) change: C::Change,
    pub(crate) word: C::Word,
    pub(crate) session: C::Session,
    pub(crate) since: usize,
    pub(crate) changed: Vec<Changed<C>>,
    // where the cells stand that it comes to, for what is told of their runs
    pub(crate) shift: Shift,
}

/// Brings the session at hand to the place where the sweep stands, by replays.
fn catch_up<C: CellRunner>(
    records: &[Rc<C::Record>],
    session: &mut C::Session,
    since: usize,
    to: usize,
) -> Result<(), AllocError>
    requires since { since ≤ to }
    requires to { to ≤ length records.now }
    requires at { (old : Book) × (new : Book) × (j : ℕ)
        × IsRun old (each_of C.recorded records.now) × IsPlace old new to j
        × IsAtHand old new to j (C.session_of session.old) since }
    ensures { OnOk result ((old new : Book) (j : ℕ)
        → IsRun old (each_of C.recorded records.now) → IsPlace old new to j
        → IsAtHand old new to j (C.session_of session.old) since
        → IsAtHand old new to j (C.session_of session.new) to) }
{
    for k in since..to {
        replay_one::<C>(&records[k], session)?;
    }
    Ok(())
}

/// The last snapshot in front of the place where the sweep stands. There is none where the session at hand is as near, or the change has
/// too many keys.
fn find_nearer<C: CellRunner>(
    snapshots: &[Snapshot<C>],
    i: usize,
    state: &SweepState<C>,
) -> Option<usize>
    ensures within { IfSome result (λ k. k < length snapshots.now) }
    ensures up_to { IfSome result
        (λ k. slice_index_or (map (λ s. s.place) snapshots.now) k 0 ≤ i) }
{
    if C::change_count(&state.change) > MOST_KEYS {
        return None;
    }
    let k = last_up_to::<C>(snapshots, i)?;
    if snapshots[k].place > state.since {
        Some(k)
    } else {
        None
    }
}

/// A session for the place where the sweep stands: the nearer snapshot, brought to the place, with the change put over it. There is none
/// where no snapshot is nearer, or the change cannot be put over a session.
fn nearer<C: CellRunner>(
    alloc: Global,
    records: &[Rc<C::Record>],
    snapshots: &[Snapshot<C>],
    i: usize,
    state: &SweepState<C>,
) -> Result<Option<C::Session>, AllocError>
    requires within { i ≤ length records.now }
    requires run { (b : Book) × IsRun b (each_of C.recorded records.now) }
    requires kept { (b : Book) → IsRun b (each_of C.recorded records.now)
        → All (λ s. IsSnapshot b s.place (C.kept_session s.version)
        (map C.change_of s.pending.items)) snapshots.now }
    ensures { IfOk result (λ o. IfSome o (λ s. (old new : Book) (j : ℕ)
        → IsRun old (each_of C.recorded records.now) → IsPlace old new i j
        → IsChangeAt old new i j (C.change_of state.now.change)
        → IsAtHand old new i j (C.session_of s) i)) }
{
    let Some(k) = find_nearer::<C>(snapshots, i, state) else {
        return Ok(None);
    };
    let Some(mut session) = session_from::<C>(alloc, records, &snapshots[k], i)? else {
        return Ok(None);
    };
    if !C::patch(&state.change, &mut session)? {
        return Ok(None);
    }
    Ok(Some(session))
}

/// Brings the session at hand to the place where the sweep stands: takes a nearer one, or replays the records since. It replays too where
/// memory is wanting for a nearer one.
pub(crate) fn come_to<C: CellRunner>(
    alloc: Global,
    records: &[Rc<C::Record>],
    snapshots: &[Snapshot<C>],
    i: usize,
    state: &mut SweepState<C>,
) -> Result<(), AllocError>
    requires within { i ≤ length records.now }
    requires at { (old : Book) × (new : Book) × (j : ℕ)
        × IsRun old (each_of C.recorded records.now) × IsPlace old new i j
        × IsAt old new i j (C.change_of state.old.change) (C.session_of state.old.session)
        state.old.since }
    requires kept { (b : Book) → IsRun b (each_of C.recorded records.now)
        → All (λ s. IsSnapshot b s.place (C.kept_session s.version)
        (map C.change_of s.pending.items)) snapshots.now }
    ensures at { OnOk result ((old new : Book) (j : ℕ)
        → IsRun old (each_of C.recorded records.now) → IsPlace old new i j
        → IsAt old new i j (C.change_of state.old.change) (C.session_of state.old.session)
        state.old.since
        → IsAt old new i j (C.change_of state.new.change) (C.session_of state.new.session) i) }
    ensures since { OnOk result (state.new.since ≡ i) }
    ensures change { state.new.change ≡ state.old.change }
    ensures word { state.new.word ≡ state.old.word }
    ensures changed { state.new.changed.items ≡ state.old.changed.items }
{
    if let Ok(Some(session)) = nearer::<C>(alloc, records, snapshots, i, state) {
        state.session = session;
    } else {
        catch_up::<C>(records, &mut state.session, state.since, i)?;
    }
    state.since = i;
    Ok(())
}

/// The record of a run, with its word.
#[derive(Drop)]
pub(crate) struct New<C: CellRunner> {
    pub(crate) record: Rc<C::Record>,
    pub(crate) word: C::Word,
}

/// Runs a text under a label over a session. The place of its cell is told where runs are told of. After want of memory the session is
/// only fit to be dropped.
// proof: with a second clause the first is cheaper to meet.
pub(crate) fn run_text<C: CellRunner>(
    meter: &mut Meter,
    session: &mut C::Session,
    world: &C::World,
    label: u64,
    text: &str,
    now: usize,
) -> Result<C::Record, AllocError>
    requires none { HasNone label (C.session_of session.old) }
    requires place { now < 2 ^ 64 }
    ensures made { IfOk result
        (λ r. C.recorded r ≡ record_of label (reading text.now) (world_in (C.given world.now))
        (C.session_of session.old)) }
    ensures after { OnOk result (C.session_of session.new
        ≡ session_after (cell label (reading text.now) (world_in (C.given world.now))
        (C.session_of session.old))) }
    ensures counted { meter.new ≡ min (meter.old + 1) (2 ^ 64 - 1) }
{
    let began = meter.begin(now);
    let made = C::run(meter, session, world, label, text);
    meter.end(now, began);
    made
}

/// Runs a cell over a session, and gives its record. Its place now is told where runs are told of. After want of memory the session is only fit to be dropped.
// proof: with a second clause the first is cheaper to meet.
pub(crate) fn run_cell<C: CellRunner>(
    alloc: Global,
    meter: &mut Meter,
    source: &KeptCell,
    world: &C::World,
    now: usize,
    session: &mut C::Session,
) -> Result<New<C>, AllocError>
    requires none { HasNone source.now.label (C.session_of session.old) }
    requires place { now < 2 ^ 64 }
    ensures after { OnOk result (C.session_of session.new
        ≡ session_after (cell source.now.label (reading (string_bytes source.now.text))
        (world_in (C.given world.now)) (C.session_of session.old))) }
    ensures made { IfOk result (λ n. C.recorded n.record.value
        ≡ record_of source.now.label (reading (string_bytes source.now.text))
        (world_in (C.given world.now)) (C.session_of session.old)) }
    ensures worded { IfOk result (λ n. IsWordOf C.covers n.word (C.recorded n.record.value)) }
    ensures counted { meter.new ≡ min (meter.old + 1) (2 ^ 64 - 1) }
{
    let text = source.text.as_str();
    let made = run_text::<C>(meter, session, world, source.label, text, now)?;
    let word = C::word(&made);
    let record = Rc::new(alloc, made)?;
    Ok(New { record, word })
}

/// Runs a cell over the session at hand, where another run of it stands in the notebook before.
pub(crate) fn run_again<C: CellRunner>(
    alloc: Global,
    meter: &mut Meter,
    source: &KeptCell,
    before: &C::Record,
    world: &C::World,
    i: usize,
    state: &mut SweepState<C>,
) -> Result<(), AllocError>
    requires none { HasNone source.now.label (C.session_of state.old.session) }
    requires fits { i + 1 < 2 ^ 64 }
    ensures after { OnOk result (C.session_of state.new.session
        ≡ session_after (cell source.now.label (reading (string_bytes source.now.text))
        (world_in (C.given world.now)) (C.session_of state.old.session))) }
    ensures follows { OnOk result (Follows (C.change_of state.old.change)
        (C.change_of state.new.change) (C.recorded before.now)
        (record_of source.now.label (reading (string_bytes source.now.text))
        (world_in (C.given world.now)) (C.session_of state.old.session))
        (C.session_of state.new.session) (world_in (C.given world.now))) }
    ensures since { OnOk result (state.new.since ≡ i + 1) }
    ensures word { OnOk result (IsWordOfChange C.covers state.new.word
        (C.change_of state.new.change)) }
    ensures changed { OnOk result
        (map (λ c. change_at c.place (C.recorded c.record.value)) state.new.changed.items
        ≡ map (λ c. change_at c.place (C.recorded c.record.value)) state.old.changed.items
        ++ change_at i (record_of source.now.label (reading (string_bytes source.now.text))
        (world_in (C.given world.now)) (C.session_of state.old.session)) ∷ []) }
    ensures fit { OnOk result ((n : ℕ) → i < n → AreFit C.covers n
        (map (λ c. fit_at c.place (C.recorded c.record.value) c.word) state.old.changed.items)
        → AreFit C.covers n
        (map (λ c. fit_at c.place (C.recorded c.record.value) c.word) state.new.changed.items)) }
    ensures counted { meter.new ≡ min (meter.old + 1) (2 ^ 64 - 1) }
{
    let now = state.shift.place(i);
    let New { record, word } = run_cell::<C>(alloc, meter, source, world, now, &mut state.session)?;
    C::rerun(before, &record, &state.session, world, &mut state.change)?;
    state.word = C::change_word(&state.change);
    state.since = i + 1;
    state.changed.push(Changed {
        place: i,
        record,
        word,
    })?;
    Ok(())
}

/// Runs a new cell over the session at hand.
// proof: with a second clause the first is cheaper to meet.
pub(crate) fn run_new<C: CellRunner>(
    alloc: Global,
    meter: &mut Meter,
    source: &KeptCell,
    world: &C::World,
    now: usize,
    state: &mut SweepState<C>,
) -> Result<New<C>, AllocError>
    requires none { HasNone source.now.label (C.session_of state.old.session) }
    requires place { now < 2 ^ 64 }
    ensures after { OnOk result (C.session_of state.new.session
        ≡ session_after (cell source.now.label (reading (string_bytes source.now.text))
        (world_in (C.given world.now)) (C.session_of state.old.session))) }
    ensures comes { IfOk result (λ n. Comes (C.change_of state.old.change)
        (C.change_of state.new.change) (C.recorded n.record.value) (C.session_of state.new.session)) }
    ensures made { IfOk result (λ n. C.recorded n.record.value
        ≡ record_of source.now.label (reading (string_bytes source.now.text))
        (world_in (C.given world.now)) (C.session_of state.old.session)) }
    ensures worded { IfOk result (λ n. IsWordOf C.covers n.word (C.recorded n.record.value)) }
    ensures word { OnOk result (IsWordOfChange C.covers state.new.word
        (C.change_of state.new.change)) }
    ensures since { OnOk result (state.new.since ≡ state.old.since) }
    ensures changed { OnOk result (state.new.changed.items ≡ state.old.changed.items) }
    ensures counted { meter.new ≡ min (meter.old + 1) (2 ^ 64 - 1) }
{
    let new = run_cell::<C>(alloc, meter, source, world, now, &mut state.session)?;
    C::came(&new.record, &state.session, &mut state.change)?;
    state.word = C::change_word(&state.change);
    Ok(new)
}

/// Goes past one cell: its record is kept, or the cell is run.
fn visit<C: CellRunner>(
    alloc: Global,
    meter: &mut Meter,
    cells: &[Rc<KeptCell>],
    records: &[Rc<C::Record>],
    snapshots: &[Snapshot<C>],
    world: &C::World,
    i: usize,
    state: &mut SweepState<C>,
) -> Result<(), AllocError>
    requires cell { i < length cells.now }
    requires record { i < length records.now }
    requires at { (old : Book) × (new : Book) × (j : ℕ)
        × IsFrame old new i j (i + 1) (cells_of cells.now) (each_of C.recorded records.now)
        (world_in (C.given world.now))
        × IsAt old new i j (C.change_of state.old.change) (C.session_of state.old.session)
        state.old.since }
    requires kept { (b : Book) → IsRun b (each_of C.recorded records.now)
        → All (λ s. IsSnapshot b s.place (C.kept_session s.version)
        (map C.change_of s.pending.items)) snapshots.now }
    ensures at { OnOk result ((old new : Book) (j : ℕ)
        → IsFrame old new i j (i + 1) (cells_of cells.now) (each_of C.recorded records.now)
        (world_in (C.given world.now))
        → IsAt old new i j (C.change_of state.old.change) (C.session_of state.old.session)
        state.old.since
        → IsAt old new (i + 1) (j + 1) (C.change_of state.new.change)
        (C.session_of state.new.session) state.new.since) }
    ensures covered { OnOk result (IsWordOfChange C.covers state.new.word
        (C.change_of state.new.change)) }
    ensures changed { OnOk result ((old new : Book) (j from first : ℕ)
        → IsFrame old new i j (i + 1) (cells_of cells.now) (each_of C.recorded records.now)
        (world_in (C.given world.now))
        → IsAt old new i j (C.change_of state.old.change) (C.session_of state.old.session)
        state.old.since → from ≤ i → j ≡ first + (i - from)
        → AreChanged old new from first i
        (map (λ c. change_at c.place (C.recorded c.record.value)) state.old.changed.items)
        → AreChanged old new from first (i + 1)
        (map (λ c. change_at c.place (C.recorded c.record.value)) state.new.changed.items)) }
    ensures fit { OnOk result ((n : ℕ) → i < n → AreFit C.covers n
        (map (λ c. fit_at c.place (C.recorded c.record.value) c.word) state.old.changed.items)
        → AreFit C.covers n
        (map (λ c. fit_at c.place (C.recorded c.record.value) c.word) state.new.changed.items)) }
    ensures counts { (old new : Book) (j before : ℕ)
        → IsFrame old new i j (i + 1) (cells_of cells.now) (each_of C.recorded records.now)
        (world_in (C.given world.now))
        → IsAt old new i j (C.change_of state.old.change) (C.session_of state.old.session)
        state.old.since
        → CountsFront old new j before meter.old → CountsFront old new (j + 1) before meter.new }
{
    let made = &records[i];
    if C::fits(made, &state.change) {
        C::keep(made, &mut state.change)?;
        state.word = C::change_word(&state.change);
        return Ok(());
    }
    come_to::<C>(alloc, records, snapshots, i, state)?;
    run_again::<C>(alloc, meter, &cells[i], made, world, i, state)
}

/// The first of some cells that meets the change, by their words, or the end. None is looked at where the change has nothing left.
fn first_met<C: CellRunner>(
    words: &[C::Word],
    from: usize,
    to: usize,
    state: &SweepState<C>,
) -> usize
    requires order { from ≤ to }
    requires places { to ≤ length words.now }
    ensures order { from ≤ result }
    ensures within { result ≤ to }
    ensures apart { ((key : Key) → C.change_of state.now.change key ≡ None)
        ⊎ AreApart C.covers words.now state.now.word from result }
{
    if C::is_empty(&state.change) {
        return to;
    }
    for k in from..to {
        if !C::are_apart(&words[k], &state.word) {
            return k;
        }
    }
    to
}

/// Goes past the cells from a place up to another, from one that meets the change to the next. Once the change has nothing left, no cell is
/// looked at.
fn sweep_between<C: CellRunner>(
    alloc: Global,
    meter: &mut Meter,
    cells: &[Rc<KeptCell>],
    records: &[Rc<C::Record>],
    words: &[C::Word],
    world: &C::World,
    i: usize,
    to: usize,
    snapshots: &[Snapshot<C>],
    state: &mut SweepState<C>,
) -> Result<(), AllocError>
    requires order { i ≤ to }
    requires cells { to ≤ length cells.now }
    requires records { to ≤ length records.now }
    requires places { to ≤ length words.now }
    requires at { (old : Book) × (new : Book) × (j : ℕ)
        × IsFrame old new i j to (cells_of cells.now) (each_of C.recorded records.now)
        (world_in (C.given world.now))
        × IsAt old new i j (C.change_of state.old.change) (C.session_of state.old.session)
        state.old.since }
    requires words { AreWords C.covers words.now (each_of C.recorded records.now) }
    requires covered { IsWordOfChange C.covers state.old.word (C.change_of state.old.change) }
    requires kept { (b : Book) → IsRun b (each_of C.recorded records.now)
        → All (λ s. IsSnapshot b s.place (C.kept_session s.version)
        (map C.change_of s.pending.items)) snapshots.now }
    ensures at { OnOk result ((old new : Book) (j : ℕ)
        → IsFrame old new i j to (cells_of cells.now) (each_of C.recorded records.now)
        (world_in (C.given world.now))
        → IsAt old new i j (C.change_of state.old.change) (C.session_of state.old.session)
        state.old.since
        → IsAt old new to (j + (to - i)) (C.change_of state.new.change)
        (C.session_of state.new.session) state.new.since) }
    ensures covered { OnOk result (IsWordOfChange C.covers state.new.word
        (C.change_of state.new.change)) }
    ensures changed { OnOk result ((old new : Book) (j from first : ℕ)
        → IsFrame old new i j to (cells_of cells.now) (each_of C.recorded records.now)
        (world_in (C.given world.now))
        → IsAt old new i j (C.change_of state.old.change) (C.session_of state.old.session)
        state.old.since → from ≤ i → j ≡ first + (i - from)
        → AreChanged old new from first i
        (map (λ c. change_at c.place (C.recorded c.record.value)) state.old.changed.items)
        → AreChanged old new from first to
        (map (λ c. change_at c.place (C.recorded c.record.value)) state.new.changed.items)) }
    ensures fit { OnOk result ((n : ℕ) → to ≤ n → AreFit C.covers n
        (map (λ c. fit_at c.place (C.recorded c.record.value) c.word) state.old.changed.items)
        → AreFit C.covers n
        (map (λ c. fit_at c.place (C.recorded c.record.value) c.word) state.new.changed.items)) }
    ensures counted { OnOk result ((old new : Book) (j before : ℕ)
        → IsFrame old new i j to (cells_of cells.now) (each_of C.recorded records.now)
        (world_in (C.given world.now))
        → IsAt old new i j (C.change_of state.old.change) (C.session_of state.old.session)
        state.old.since
        → CountsFront old new j before meter.old
        → CountsFront old new (j + (to - i)) before meter.new) }
    ensures counts { (old new : Book) (j before : ℕ)
        → IsFrame old new i j to (cells_of cells.now) (each_of C.recorded records.now)
        (world_in (C.given world.now))
        → IsAt old new i j (C.change_of state.old.change) (C.session_of state.old.session)
        state.old.since
        → CountsFront old new j before meter.old → CountsStale old new before meter.new }
{
    let mut at = first_met::<C>(words, i, to, state);
    while at < to {
        visit::<C>(alloc, meter, cells, records, snapshots, world, at, state)?;
        at = first_met::<C>(words, at + 1, to, state);
    }
    Ok(())
}

/// Goes past the cells from a place up to another. Where a snapshot stands, the change there is noted with the place now.
pub(crate) fn sweep<C: CellRunner>(
    alloc: Global,
    meter: &mut Meter,
    cells: &[Rc<KeptCell>],
    records: &[Rc<C::Record>],
    words: &[C::Word],
    world: &C::World,
    i: usize,
    to: usize,
    now: usize,
    snapshots: &[Snapshot<C>],
    state: &mut SweepState<C>,
    noted: &mut Vec<Noted<C>>,
) -> Result<(), AllocError>
    requires order { i ≤ to }
    requires fits { now + (to - i) < 2 ^ 64 }
    requires cells { to ≤ length cells.now }
    requires records { to ≤ length records.now }
    requires places { to ≤ length words.now }
    requires at { (old : Book) × (new : Book) × (j : ℕ)
        × IsFrame old new i j to (cells_of cells.now) (each_of C.recorded records.now)
        (world_in (C.given world.now))
        × IsAt old new i j (C.change_of state.old.change) (C.session_of state.old.session)
        state.old.since }
    requires words { AreWords C.covers words.now (each_of C.recorded records.now) }
    requires covered { IsWordOfChange C.covers state.old.word (C.change_of state.old.change) }
    requires kept { (b : Book) → IsRun b (each_of C.recorded records.now)
        → All (λ s. IsSnapshot b s.place (C.kept_session s.version)
        (map C.change_of s.pending.items)) snapshots.now }
    ensures at { OnOk result ((old new : Book) (j : ℕ)
        → IsFrame old new i j to (cells_of cells.now) (each_of C.recorded records.now)
        (world_in (C.given world.now))
        → IsAt old new i j (C.change_of state.old.change) (C.session_of state.old.session)
        state.old.since
        → IsAt old new to (j + (to - i)) (C.change_of state.new.change)
        (C.session_of state.new.session) state.new.since) }
    ensures covered { OnOk result (IsWordOfChange C.covers state.new.word
        (C.change_of state.new.change)) }
    ensures changed { OnOk result ((old new : Book) (j from first : ℕ)
        → IsFrame old new i j to (cells_of cells.now) (each_of C.recorded records.now)
        (world_in (C.given world.now))
        → IsAt old new i j (C.change_of state.old.change) (C.session_of state.old.session)
        state.old.since → from ≤ i → j ≡ first + (i - from)
        → AreChanged old new from first i
        (map (λ c. change_at c.place (C.recorded c.record.value)) state.old.changed.items)
        → AreChanged old new from first to
        (map (λ c. change_at c.place (C.recorded c.record.value)) state.new.changed.items)) }
    ensures fit { OnOk result ((n : ℕ) → to ≤ n → AreFit C.covers n
        (map (λ c. fit_at c.place (C.recorded c.record.value) c.word) state.old.changed.items)
        → AreFit C.covers n
        (map (λ c. fit_at c.place (C.recorded c.record.value) c.word) state.new.changed.items)) }
    ensures noted { OnOk result ((old new : Book)
        → IsFrame old new i now to (cells_of cells.now) (each_of C.recorded records.now)
        (world_in (C.given world.now))
        → IsAt old new i now (C.change_of state.old.change) (C.session_of state.old.session)
        state.old.since
        → All (λ n. IsNoted C.change_of C.kept_session old new n.place n.now n.memo) noted.old.items
        → All (λ n. IsNoted C.change_of C.kept_session old new n.place n.now n.memo)
        noted.new.items) }
    ensures counted { OnOk result ((old new : Book) (j before : ℕ)
        → IsFrame old new i j to (cells_of cells.now) (each_of C.recorded records.now)
        (world_in (C.given world.now))
        → IsAt old new i j (C.change_of state.old.change) (C.session_of state.old.session)
        state.old.since
        → CountsFront old new j before meter.old
        → CountsFront old new (j + (to - i)) before meter.new) }
    ensures counts { (old new : Book) (j before : ℕ)
        → IsFrame old new i j to (cells_of cells.now) (each_of C.recorded records.now)
        (world_in (C.given world.now))
        → IsAt old new i j (C.change_of state.old.change) (C.session_of state.old.session)
        state.old.since
        → CountsFront old new j before meter.old → CountsStale old new before meter.new }
{
    let mut at = i;
    for snapshot in snapshots {
        let place = snapshot.place;
        if place < at || to < place {
            continue;
        }
        sweep_between::<C>(
            alloc, meter, cells, records, words, world, at, place, snapshots, state,
        )?;
        let is_end = place == records.len();
        let is_there = state.since == place;
        note::<C>(
            place,
            now + (place - i),
            is_end,
            is_there,
            &state.change,
            &mut state.session,
            noted,
        );
        at = place;
    }
    sweep_between::<C>(
        alloc, meter, cells, records, words, world, at, to, snapshots, state,
    )
}
