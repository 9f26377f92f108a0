//! `merge`: comes to the cells of a draft one by one, and gathers what they have, and what it notes of the snapshots.

ghost use Rattle.std.specs.Prelude.{◌≡◌, ◌≤◌, ℕ, IfOk, OnOk, length, map};
ghost use Rattle.std.specs.List.{All};
ghost use Rattle.std.specs.Result.{IsOk};
ghost use Rattle.nd_model.specs.Book.Book.{Book};
ghost use Rattle.nd_model.specs.Book.Stale.{CountsStale};
ghost use Rattle.nd_model.specs.Book.Notebook.{book_of, world_in};
ghost use Rattle.nd_change.specs.Steps.{IsWordOfChange};
ghost use Rattle.nd_schedule.specs.Cells.Source.{cells_of, sheet};
ghost use Rattle.nd_schedule.specs.Cells.Shared.{each_of};
ghost use Rattle.nd_schedule.specs.Schedule.Merge.{AreMerged, IsFront, IsMerge};
ghost use Rattle.nd_schedule.specs.Schedule.Snapshot.{IsNoted, IsSnapshot};
ghost use Rattle.nd_schedule.specs.Schedule.Sweep.{AreWords, CountsFront, IsAt, IsRun};

use crate::cells::KeptCell;
use crate::schedule::draft::{Draft, Hint};
use crate::schedule::merging::{Merged, copied, merge_cell, put_behind};
use crate::schedule::notebook::Schedule;
use crate::schedule::noting::Noted;
use crate::schedule::runner::CellRunner;
use crate::schedule::snapshots::{Snapshot, first_behind};
use crate::schedule::stopping::stop_at;
use crate::schedule::sweep::SweepState;
use nd_meter::Meter;
use std::alloc::{AllocError, Global};
use std::rc::Rc;

/// What a merge gives: what the cells of a draft have, and what it noted for the snapshots.
#[derive(Drop)]
pub(crate) struct Outcome<C: CellRunner> {
    pub(crate) merged: Merged<C>,
    pub(crate) noted: Vec<Noted<C>>,
}

/// Comes to all cells of a draft from a place on. Where a snapshot stands that it comes to, the change there is noted.
fn merge_from<C: CellRunner>(
    alloc: Global,
    meter: &mut Meter,
    cells: &[Rc<KeptCell>],
    records: &[Rc<C::Record>],
    words: &[C::Word],
    drafted: &[Rc<KeptCell>],
    hints: &[Hint],
    world: &C::World,
    snapshots: &[Snapshot<C>],
    from: usize,
    state: &mut SweepState<C>,
    merged: &mut Merged<C>,
    noted: &mut Vec<Noted<C>>,
) -> Result<(), AllocError>
    requires cells { length cells.now ≤ length records.now }
    requires places { length cells.now ≤ length words.now }
    requires hints { length hints.now ≡ length drafted.now }
    requires within { from ≤ length cells.now }
    requires there { from ≤ length drafted.now }
    requires at { (old : Book) × (new : Book)
        × IsMerge old new (cells_of cells.now) (cells_of drafted.now)
        (each_of C.recorded records.now) (world_in (C.given world.now))
        × IsAt old new from from (C.change_of state.old.change) (C.session_of state.old.session)
        state.old.since }
    requires words { AreWords C.covers words.now (each_of C.recorded records.now) }
    requires covered { IsWordOfChange C.covers state.old.word (C.change_of state.old.change) }
    requires kept { (b : Book) → IsRun b (each_of C.recorded records.now)
        → All (λ s. IsSnapshot b s.place (C.kept_session s.version)
        (map C.change_of s.pending.items)) snapshots.now }
    ensures merged { OnOk result ((old new : Book)
        → IsMerge old new (cells_of cells.now) (cells_of drafted.now)
        (each_of C.recorded records.now) (world_in (C.given world.now))
        → IsAt old new from from (C.change_of state.old.change) (C.session_of state.old.session)
        state.old.since
        → AreMerged C.covers old new from (each_of C.recorded merged.old.records.items)
        merged.old.words.items merged.old.ran.items
        → AreMerged C.covers old new (length new.cells)
        (each_of C.recorded merged.new.records.items)
        merged.new.words.items merged.new.ran.items) }
    ensures noted { OnOk result ((old new : Book)
        → IsMerge old new (cells_of cells.now) (cells_of drafted.now)
        (each_of C.recorded records.now) (world_in (C.given world.now))
        → IsAt old new from from (C.change_of state.old.change) (C.session_of state.old.session)
        state.old.since
        → All (λ n. IsNoted C.change_of C.kept_session old new n.place n.now n.memo) noted.old.items
        → All (λ n. IsNoted C.change_of C.kept_session old new n.place n.now n.memo)
        noted.new.items) }
    ensures counts { (old new : Book) (before : ℕ)
        → IsMerge old new (cells_of cells.now) (cells_of drafted.now)
        (each_of C.recorded records.now) (world_in (C.given world.now))
        → IsAt old new from from (C.change_of state.old.change) (C.session_of state.old.session)
        state.old.since
        → CountsFront old new from before meter.old → CountsStale old new before meter.new }
{
    let mut i = from;
    let mut next = first_behind::<C>(snapshots, from);
    for j in from..drafted.len() {
        let (cell, hint) = (&drafted[j], hints[j]);
        let placed = merge_cell::<C>(
            alloc, meter, cells, records, snapshots, words, cell, hint, world, i, j, state,
        )?;
        i = placed.behind;
        put_behind::<C>(merged, placed, j)?;
        next = stop_at::<C>(records, snapshots, next, i, j + 1, state, noted);
    }
    Ok(())
}

/// What a merge gathered, where it came to its end. The rest of its state is dropped.
fn gathered<C: CellRunner>(
    done: Result<(), AllocError>,
    state: SweepState<C>,
    merged: Merged<C>,
    noted: Vec<Noted<C>>,
) -> Result<Outcome<C>, AllocError>
    ensures { IfOk result (λ m. IsOk done × (m.merged.records.items ≡ merged.records.items)
        × (m.merged.words.items ≡ merged.words.items) × (m.merged.ran.items ≡ merged.ran.items)
        × (m.noted.items ≡ noted.items)) }
{
    drop(state);
    done?;
    Ok(Outcome { merged, noted })
}

impl<C: CellRunner> Schedule<C> {
    /// Comes to the cells of a draft from a place on, where those in front are as before. It gives what all have, and what it noted.
    pub(crate) fn merge(
        &self,
        meter: &mut Meter,
        draft: &Draft,
        world: &C::World,
        from: usize,
        mut state: SweepState<C>,
    ) -> Result<Outcome<C>, AllocError>
        requires within { from ≤ length self.now.cells }
        requires front { IsFront (book_of self.now)
            (book_of (sheet draft.now (C.given world.now))) from }
        requires at { IsAt (book_of self.now) (book_of (sheet draft.now (C.given world.now)))
            from from (C.change_of state.change) (C.session_of state.session) state.since }
        requires covered { IsWordOfChange C.covers state.word (C.change_of state.change) }
        ensures merged { IfOk result (λ m. AreMerged C.covers (book_of self.now)
            (book_of (sheet draft.now (C.given world.now))) (length draft.now)
            (each_of C.recorded m.merged.records.items) m.merged.words.items m.merged.ran.items) }
        ensures noted { IfOk result (λ m. All (λ n. IsNoted C.change_of C.kept_session
            (book_of self.now) (book_of (sheet draft.now (C.given world.now)))
            n.place n.now n.memo) m.noted.items) }
        ensures counts { CountsStale (book_of self.now)
            (book_of (sheet draft.now (C.given world.now))) meter.old meter.new }
    {
        let mut merged = copied::<C>(self.alloc, &self.records, from, draft.cells.len())?;
        let mut noted = Vec::new(self.alloc);
        let done = merge_from::<C>(
            self.alloc,
            meter,
            &self.cells,
            &self.records,
            &self.words,
            &draft.cells,
            &draft.hints,
            world,
            &self.snapshots,
            from,
            &mut state,
            &mut merged,
            &mut noted,
        );
        gathered::<C>(done, state, merged, noted)
    }
}
