//! `replace_cells`: takes the cells of a draft, and runs those that are stale then.

ghost use Rattle.std.specs.Prelude.{◌≡◌, ◌≤◌, IfOk, OnErr, OnOk, length, map, take};
ghost use Rattle.std.specs.List.{All};
ghost use Rattle.nd_model.specs.Book.Stale.{CountsStale};
ghost use Rattle.nd_model.specs.Book.Notebook.{book_of};
ghost use Rattle.nd_schedule.specs.Cells.Source.{sheet};
ghost use Rattle.nd_schedule.specs.Cells.Shared.{each_of};
ghost use Rattle.nd_schedule.specs.Schedule.Merge.{AreMerged};
ghost use Rattle.nd_schedule.specs.Schedule.Ran.{AreStale};
ghost use Rattle.nd_schedule.specs.Schedule.Snapshot.{IsNoted, IsSnapshot};

use crate::schedule::draft::Draft;
use crate::schedule::gathering::Outcome;
use crate::schedule::matching::first_other;
use crate::schedule::merging::Merged;
use crate::schedule::notebook::{Front, Schedule};
use crate::schedule::noting::Noted;
use crate::schedule::ran::Shift;
use crate::schedule::runner::CellRunner;
use crate::schedule::snapshots::{Snapshot, carry};
use crate::schedule::sweep::SweepState;
use nd_meter::Meter;
use std::alloc::AllocError;

/// What the cells of a draft have, what was noted, and the snapshots that were made on the way to the first that is another.
#[derive(Drop)]
struct Replaced<C: CellRunner> {
    merged: Merged<C>,
    noted: Vec<Noted<C>>,
    fresh: Vec<Snapshot<C>>,
}

impl<C: CellRunner> Schedule<C> {
    /// What the cells of a draft have, of which the first are as they were.
    fn merged_behind(
        &self,
        meter: &mut Meter,
        draft: &Draft,
        front: usize,
    ) -> Result<Replaced<C>, AllocError>
        requires within { front ≤ length self.now.cells }
        requires there { front ≤ length draft.now }
        requires same { take front self.now.cells ≡ take front draft.now }
        ensures merged { IfOk result (λ r. AreMerged C.covers (book_of self.now)
            (book_of (sheet draft.now self.now.given)) (length draft.now)
            (each_of C.recorded r.merged.records.items) r.merged.words.items r.merged.ran.items) }
        ensures noted { IfOk result (λ r. All (λ n. IsNoted C.change_of C.kept_session
            (book_of self.now) (book_of (sheet draft.now self.now.given))
            n.place n.now n.memo) r.noted.items) }
        ensures fresh { IfOk result (λ r. All (λ s. IsSnapshot (book_of self.now) s.place
            (C.kept_session s.version) (map C.change_of s.pending.items)) r.fresh.items) }
        ensures counts { CountsStale (book_of self.now) (book_of (sheet draft.now self.now.given))
            meter.old meter.new }
    {
        let Front { session, fresh } = self.front_before(front)?;
        let state = self.begin(front, session);
        let Outcome { merged, noted } = self.merge(meter, draft, &self.world, front, state)?;
        Ok(Replaced {
            merged,
            noted,
            fresh,
        })
    }

    /// Takes the cells of a draft in the place of the present ones, and returns the places of the cells that ran. It is refused for want
    /// of memory alone.
    pub fn replace_cells(
        &mut self,
        meter: &mut Meter,
        draft: Draft,
    ) -> Result<Vec<usize>, AllocError>
        ensures ok { OnOk result (self.new ≡ sheet draft self.old.given) }
        ensures err { OnErr result (self.new ≡ self.old) }
        ensures counts { CountsStale (book_of self.old) (book_of (sheet draft self.old.given))
            meter.old meter.new }
        ensures ran { IfOk result (λ v. AreStale (book_of self.old)
            (book_of (sheet draft self.old.given)) v.items) }
    {
        let front = first_other(&self.cells, &draft.cells);
        if front == self.cells.len() && front == draft.cells.len() {
            return Ok(Vec::new(self.alloc));
        }
        let Replaced {
            merged,
            noted,
            fresh,
        } = self.merged_behind(meter, &draft, front)?;
        self.cells = draft.cells;
        self.least = draft.least;
        self.records = merged.records;
        self.words = merged.words;
        carry::<C>(self.alloc, &mut self.snapshots, fresh, noted, front);
        Ok(merged.ran)
    }

    /// What the cells of a draft have by other inputs or another rule.
    fn merged_over(
        &self,
        meter: &mut Meter,
        draft: &Draft,
        world: &C::World,
    ) -> Result<Outcome<C>, AllocError>
        ensures merged { IfOk result (λ m. AreMerged C.covers (book_of self.now)
            (book_of (sheet draft.now (C.given world.now))) (length draft.now)
            (each_of C.recorded m.merged.records.items) m.merged.words.items m.merged.ran.items) }
        ensures noted { IfOk result (λ m. All (λ n. IsNoted C.change_of C.kept_session
            (book_of self.now) (book_of (sheet draft.now (C.given world.now)))
            n.place n.now n.memo) m.noted.items) }
        ensures counts { CountsStale (book_of self.now)
            (book_of (sheet draft.now (C.given world.now))) meter.old meter.new }
    {
        let session = C::empty(self.alloc)?;
        let change = C::world_change(self.alloc, &self.world, world)?;
        let word = C::change_word(&change);
        let state = SweepState {
            change,
            word,
            session,
            since: 0,
            changed: Vec::new(self.alloc),
            shift: Shift::Stays,
        };
        self.merge(meter, draft, world, 0, state)
    }

    /// Takes the cells of a draft, inputs and a rule in the place of the present ones, and returns the places of the cells that ran. It is
    /// refused for want of memory alone.
    pub fn replace(
        &mut self,
        meter: &mut Meter,
        draft: Draft,
        world: C::World,
    ) -> Result<Vec<usize>, AllocError>
        ensures ok { OnOk result (self.new ≡ sheet draft (C.given world)) }
        ensures err { OnErr result (self.new ≡ self.old) }
        ensures counts { CountsStale (book_of self.old) (book_of (sheet draft (C.given world)))
            meter.old meter.new }
        ensures ran { IfOk result (λ v. AreStale (book_of self.old)
            (book_of (sheet draft (C.given world))) v.items) }
    {
        let Outcome { merged, noted } = self.merged_over(meter, &draft, &world)?;
        self.cells = draft.cells;
        self.least = draft.least;
        self.world = world;
        self.records = merged.records;
        self.words = merged.words;
        let fresh = Vec::new(self.alloc);
        carry::<C>(self.alloc, &mut self.snapshots, fresh, noted, 0);
        Ok(merged.ran)
    }
}
