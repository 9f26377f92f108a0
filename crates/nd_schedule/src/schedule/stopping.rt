//! `stop_at`: where a merge comes to a snapshot, it notes the change there.

ghost use Rattle.std.specs.Prelude.{◌≡◌, ◌≤◌, length};
ghost use Rattle.std.specs.List.{All};
ghost use Rattle.nd_model.specs.Book.Book.{Book};
ghost use Rattle.nd_schedule.specs.Schedule.Snapshot.{IsNoted};
ghost use Rattle.nd_schedule.specs.Schedule.Sweep.{IsAt, IsPlace};

use crate::schedule::noting::{Noted, note};
use crate::schedule::runner::CellRunner;
use crate::schedule::snapshots::Snapshot;
use crate::schedule::sweep::SweepState;
use std::rc::Rc;

/// The index of the first snapshot, from an index on, that does not stand in front of a place.
fn find_from<C: CellRunner>(snapshots: &[Snapshot<C>], from: usize, place: usize) -> usize
    requires { from ≤ length snapshots.now }
    ensures { result ≤ length snapshots.now }
{
    for k in from..snapshots.len() {
        if snapshots[k].place >= place {
            return k;
        }
    }
    snapshots.len()
}

/// Notes the change where a merge has come to a snapshot. It gives the index of the next snapshot.
pub(crate) fn stop_at<C: CellRunner>(
    records: &[Rc<C::Record>],
    snapshots: &[Snapshot<C>],
    next: usize,
    i: usize,
    now: usize,
    state: &mut SweepState<C>,
    noted: &mut Vec<Noted<C>>,
) -> usize
    requires { next ≤ length snapshots.now }
    ensures next { result ≤ length snapshots.now }
    ensures at { (old new : Book)
        → IsAt old new i now (C.change_of state.old.change) (C.session_of state.old.session)
        state.old.since
        → IsAt old new i now (C.change_of state.new.change) (C.session_of state.new.session)
        state.new.since }
    ensures change { state.new.change ≡ state.old.change }
    ensures word { state.new.word ≡ state.old.word }
    ensures noted { (old new : Book) → IsPlace old new i now
        → IsAt old new i now (C.change_of state.old.change) (C.session_of state.old.session)
        state.old.since
        → All (λ n. IsNoted C.change_of C.kept_session old new n.place n.now n.memo) noted.old.items
        → All (λ n. IsNoted C.change_of C.kept_session old new n.place n.now n.memo)
        noted.new.items }
{
    let k = find_from::<C>(snapshots, next, i);
    if k == snapshots.len() || snapshots[k].place != i {
        return k;
    }
    let is_end = i == records.len();
    let is_there = state.since == i;
    note::<C>(
        i,
        now,
        is_end,
        is_there,
        &state.change,
        &mut state.session,
        noted,
    );
    k + 1
}
