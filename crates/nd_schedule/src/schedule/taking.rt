//! `take_over`: puts what an edit gathered in its places, with the places of the cells that ran.

ghost use Rattle.std.specs.Prelude.{◌≡◌, ◌<◌, ◌+◌, ◌^◌, ◌++◌, ℕ, IfOk, [], length, map, slice_index_or};
ghost use Rattle.std.specs.List.{All};
ghost use Rattle.std.specs.Result.{IsOk};
ghost use Rattle.std.specs.Vec.{vec_capacity};
ghost use Rattle.nd_model.specs.Book.Book.{Book};
ghost use Rattle.nd_model.specs.Book.Records as kept;
ghost use Rattle.nd_schedule.specs.Cells.Shared.{each_of};
ghost use Rattle.nd_schedule.specs.Schedule.Ran.{shifted};
ghost use Rattle.nd_schedule.specs.Schedule.Snapshot.{IsBehind, IsNoted, IsSnapshot};
ghost use Rattle.nd_schedule.specs.Schedule.Sweep.{AreFit, AreWords, change_at, changed, fit_at};

use crate::schedule::notebook::install;
use crate::schedule::noting::Noted;
use crate::schedule::ran::{Shift, note_places};
use crate::schedule::runner::CellRunner;
use crate::schedule::snapshots::{Snapshot, carry};
use crate::schedule::sweep::Changed;
use std::alloc::{AllocError, Global};
use std::rc::Rc;

/// What a sweep gives: the records that are others now, and what it noted for the snapshots.
#[derive(Drop)]
pub(crate) struct Swept<C: CellRunner> {
    pub(crate) changed: Vec<Changed<C>>,
    pub(crate) noted: Vec<Noted<C>>,
}

/// What an edit takes: what its sweep gave, snapshots that were made on the way, and the places of the cells that ran.
#[derive(Drop)]
pub(crate) struct Edited<C: CellRunner> {
    pub(crate) swept: Swept<C>,
    pub(crate) fresh: Vec<Snapshot<C>>,
    pub(crate) ran: Vec<usize>,
}

/// What an edit takes behind which there is no cell. It takes no memory.
pub(crate) fn no_sweep<C: CellRunner>(alloc: Global) -> Edited<C>
    ensures changed { result.swept.changed.items ≡ [] }
    ensures noted { result.swept.noted.items ≡ [] }
    ensures fresh { result.fresh.items ≡ [] }
    ensures ran { result.ran.items ≡ [] }
{
    let swept = Swept {
        changed: Vec::new(alloc),
        noted: Vec::new(alloc),
    };
    Edited {
        swept,
        fresh: Vec::new(alloc),
        ran: Vec::new(alloc),
    }
}

/// Adds the places now of the cells that the sweep of an edit ran.
pub(crate) fn tell_places<C: CellRunner>(
    mut edited: Edited<C>,
    shift: Shift,
) -> Result<Edited<C>, AllocError>
    ensures swept { IfOk result (λ e. e.swept ≡ edited.swept) }
    ensures fresh { IfOk result (λ e. e.fresh ≡ edited.fresh) }
    ensures places { IfOk result (λ e. (n : ℕ) → n + 1 < 2 ^ 64 → AreFit C.covers n
        (map (λ c. fit_at c.place (C.recorded c.record.value) c.word) edited.swept.changed.items)
        → e.ran.items
        ≡ edited.ran.items ++ map (λ c. shifted shift c.place) edited.swept.changed.items) }
    ensures none { edited.swept.changed.items ≡ [] → IsOk result }
{
    note_places::<C>(&mut edited.ran, &edited.swept.changed, shift)?;
    Ok(edited)
}

/// Puts what an edit takes in its places, and gives the places of the cells that ran. It is never refused.
pub(crate) fn take_over<C: CellRunner>(
    alloc: Global,
    records: &mut Vec<Rc<C::Record>>,
    words: &mut Vec<C::Word>,
    snapshots: &mut Vec<Snapshot<C>>,
    edited: Edited<C>,
    front: usize,
) -> Vec<usize>
    requires many { length words.old.items ≡ length records.old.items }
    requires fit { AreFit C.covers (length records.old.items)
        (map (λ c. fit_at c.place (C.recorded c.record.value) c.word) edited.swept.changed.items) }
    ensures records { (k : ℕ) (r : kept.Record)
        → slice_index_or (each_of C.recorded records.new.items) k r
        ≡ changed (map (λ c. change_at c.place (C.recorded c.record.value))
        edited.swept.changed.items) k
        (slice_index_or (each_of C.recorded records.old.items) k r) }
    ensures words { AreWords C.covers words.old.items (each_of C.recorded records.old.items)
        → AreWords C.covers words.new.items (each_of C.recorded records.new.items) }
    ensures records_room { vec_capacity records.new ≡ vec_capacity records.old }
    ensures words_room { vec_capacity words.new ≡ vec_capacity words.old }
    ensures count { length records.new.items ≡ length records.old.items }
    ensures many { length words.new.items ≡ length words.old.items }
    ensures snapshots { (old new : Book) → IsBehind old new front
        → All (λ n. IsNoted C.change_of C.kept_session old new n.place n.now n.memo)
        edited.swept.noted.items
        → All (λ s. IsSnapshot old s.place (C.kept_session s.version)
        (map C.change_of s.pending.items)) edited.fresh.items
        → All (λ s. IsSnapshot old s.place (C.kept_session s.version)
        (map C.change_of s.pending.items)) snapshots.old.items
        → All (λ s. IsSnapshot new s.place (C.kept_session s.version)
        (map C.change_of s.pending.items)) snapshots.new.items }
    ensures ran { result ≡ edited.ran }
{
    let Edited { swept, fresh, ran } = edited;
    install::<C>(records, words, swept.changed);
    carry::<C>(alloc, snapshots, fresh, swept.noted, front);
    ran
}
