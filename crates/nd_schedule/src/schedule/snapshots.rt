//! `Snapshot`: a session that is kept, with the changes that are still to be put over it.

ghost use Rattle.std.specs.Prelude.{◌≡◌, ◌<◌, ◌≤◌, ◌+◌, ◌-◌, ℕ, IfOk, IfSome, IsTrue, OnOk, length, map, slice_index_or, take};
ghost use Rattle.std.specs.List.{All};
ghost use Rattle.nd_model.specs.Cells.Footprint.{HasNone, found, with_effects};
ghost use Rattle.nd_model.specs.Cells.Running.{Key, World};
ghost use Rattle.nd_model.specs.Book.Book.{Book, labels_of};
ghost use Rattle.nd_model.specs.Book.Renaming.{AreDistinct};
ghost use Rattle.nd_schedule.specs.Cells.Shared.{each_of};
ghost use Rattle.nd_schedule.specs.Schedule.Snapshot.{
  IsBehind,
  IsChangeAt,
  IsNoted,
  IsSnapshot,
  StandsBefore,
};
ghost use Rattle.nd_schedule.specs.Schedule.Sweep.{IsRun};

use crate::schedule::noting::{Memo, Noted};
use crate::schedule::runner::CellRunner;
use std::alloc::{AllocError, Global};
use std::rc::Rc;

/// How many cells lie between two snapshots at least.
const DISTANCE: usize = 32;

/// How many snapshots a notebook keeps.
const MOST_SNAPSHOTS: usize = 64;

/// How many records in front of a snapshot are asked for what they wrote.
const MOST_ASKED: usize = 256;

/// How many changes a snapshot keeps that are not put over it yet.
const MOST_PENDING: usize = 64;

/// How many cells lie at least between a snapshot over which many changes are put and the one in front of it. Fewer are soon replayed.
const MOST_REPLAYED: usize = 512;

/// How many bytes a snapshot takes for itself at most that is dropped once its changes are many. More are written by cells that are not
/// soon replayed.
const MOST_DROPPED_BYTES: u64 = 1 << 20;

/// How many names, inputs and blocks a change has at most that is put over a session. Of more, to replay records is cheaper.
pub(crate) const MOST_KEYS: usize = 64;

/// How many bytes all snapshots of a notebook may take for themselves.
const MOST_BYTES: u64 = 1 << 26;

/// How many bytes a change has at most that is put over a snapshot in the middle. To copy more takes longer than to replay records.
pub(crate) const MOST_PUT_BYTES: u64 = 1 << 22;

/// How many bytes a pending change may have until it is put over its snapshot.
const MOST_PENDING_BYTES: u64 = 1 << 16;

/// How many cells lie between two snapshots of a notebook of this many cells, where no edit made one.
pub(crate) fn distance(count: usize) -> usize {
    DISTANCE.max(count / MOST_SNAPSHOTS)
}

/// A session that is kept, and the changes that lead from it to the one before its place. It takes for itself the blocks to which the
/// cells in front of it wrote, back to the snapshot before it: their bytes are its cost.
#[derive(Drop)]
pub struct Snapshot<C: CellRunner> {
    pub(crate) place: usize,
    pub(crate) version: C::Version,
    pub(crate) pending: Vec<C::Change>,
    pub(crate) cost: u64,
}

/// A session with all pending changes of a snapshot put over it, or none where one of them cannot be.
fn thawed<C: CellRunner>(
    alloc: Global,
    snapshot: &Snapshot<C>,
) -> Result<Option<C::Session>, AllocError>
    ensures { IfOk result (λ o. IfSome o (λ s. (b : Book)
        → IsSnapshot b snapshot.now.place (C.kept_session snapshot.now.version)
        (map C.change_of snapshot.now.pending.items)
        → StandsBefore b snapshot.now.place (C.session_of s))) }
{
    let mut session = C::thaw(alloc, &snapshot.version)?;
    for change in &snapshot.pending {
        if !C::patch(change, &mut session)? {
            return Ok(None);
        }
    }
    Ok(Some(session))
}

/// Keeps a session in the place of a snapshot's, where changes are pending. For want of memory the snapshot stays as it is.
fn renew<C: CellRunner>(snapshot: &mut Snapshot<C>, session: &mut C::Session)
    ensures same { C.session_of session.new ≡ C.session_of session.old }
    ensures place { snapshot.new.place ≡ snapshot.old.place }
    ensures snapshot { (b : Book)
        → StandsBefore b snapshot.old.place (C.session_of session.old)
        → IsSnapshot b snapshot.old.place (C.kept_session snapshot.old.version)
        (map C.change_of snapshot.old.pending.items)
        → IsSnapshot b snapshot.new.place (C.kept_session snapshot.new.version)
        (map C.change_of snapshot.new.pending.items) }
{
    if snapshot.pending.is_empty() {
        return;
    }
    let Ok(version) = C::freeze(session) else {
        return;
    };
    snapshot.version = version;
    snapshot.pending.clear();
}

/// Puts the pending changes over a snapshot, and gives the session: none where they cannot be put over it.
fn refreshed<C: CellRunner>(
    alloc: Global,
    snapshot: &mut Snapshot<C>,
) -> Result<Option<C::Session>, AllocError>
    ensures place { snapshot.new.place ≡ snapshot.old.place }
    ensures session { IfOk result (λ o. IfSome o (λ s. (b : Book)
        → IsSnapshot b snapshot.old.place (C.kept_session snapshot.old.version)
        (map C.change_of snapshot.old.pending.items)
        → StandsBefore b snapshot.old.place (C.session_of s))) }
    ensures snapshot { (b : Book)
        → IsSnapshot b snapshot.old.place (C.kept_session snapshot.old.version)
        (map C.change_of snapshot.old.pending.items)
        → IsSnapshot b snapshot.new.place (C.kept_session snapshot.new.version)
        (map C.change_of snapshot.new.pending.items) }
{
    let Some(mut session) = thawed::<C>(alloc, snapshot)? else {
        return Ok(None);
    };
    renew::<C>(snapshot, &mut session);
    Ok(Some(session))
}

/// The last snapshot whose place is not behind this one.
pub(crate) fn last_up_to<C: CellRunner>(snapshots: &[Snapshot<C>], at: usize) -> Option<usize>
    ensures within { IfSome result (λ k. k < length snapshots.now) }
    ensures up_to { IfSome result
        (λ k. slice_index_or (map (λ s. s.place) snapshots.now) k 0 ≤ at) }
{
    for back in 0..snapshots.len() {
        let k = snapshots.len() - 1 - back;
        if snapshots[k].place <= at {
            return Some(k);
        }
    }
    None
}

/// The last place up to this one that has a snapshot, or 0, a session that is alike to the one before it, and whether changes were put
/// over the snapshot for that.
pub(crate) fn nearest<C: CellRunner>(
    alloc: Global,
    snapshots: &[Snapshot<C>],
    at: usize,
) -> Result<(usize, C::Session, bool), AllocError>
    ensures place { IfOk result (λ r. r.0 ≤ at) }
    ensures session { IfOk result (λ r. (b : Book)
        → All (λ s. IsSnapshot b s.place (C.kept_session s.version)
        (map C.change_of s.pending.items)) snapshots.now
        → StandsBefore b r.0 (C.session_of r.1)) }
{
    for back in 0..snapshots.len() {
        let snapshot = &snapshots[snapshots.len() - 1 - back];
        if snapshot.place <= at {
            if let Some(session) = thawed::<C>(alloc, snapshot)? {
                return Ok((snapshot.place, session, !snapshot.pending.is_empty()));
            }
        }
    }
    let session = C::empty(alloc)?;
    Ok((0, session, false))
}

/// Does to the session what a record that still holds says. After want of memory the session is only fit to be dropped.
// proof: two clauses are cheaper to meet in a loop than the one of the trait.
pub(crate) fn replay_one<C: CellRunner>(
    made: &C::Record,
    session: &mut C::Session,
) -> Result<(), AllocError>
    requires none { HasNone (C.recorded made.now).label (C.session_of session.old) }
    requires reads { (i : World) × ((k : Key) → IsTrue ((C.recorded made.now).read k)
        → (C.recorded made.now).values k ≡ Some (found (C.session_of session.old) i k)) }
    ensures { OnOk result (C.session_of session.new
        ≡ with_effects (C.recorded made.now).label (C.recorded made.now).effects
        (C.session_of session.old)) }
{
    C::replay(made, session)
}

/// Replays the records of the cells from a place up to another.
pub(crate) fn replay_between<C: CellRunner>(
    records: &[Rc<C::Record>],
    session: &mut C::Session,
    from: usize,
    to: usize,
) -> Result<(), AllocError>
    requires order { from ≤ to }
    requires within { to ≤ length records.now }
    requires run { (b : Book) × IsRun b (each_of C.recorded records.now)
        × StandsBefore b from (C.session_of session.old) }
    ensures { OnOk result ((b : Book) → IsRun b (each_of C.recorded records.now)
        → StandsBefore b from (C.session_of session.old)
        → StandsBefore b to (C.session_of session.new)) }
{
    for k in from..to {
        replay_one::<C>(&records[k], session)?;
    }
    Ok(())
}

/// A session that is alike to the one before a place, made from a snapshot in front of it. There is none where one of the changes of the
/// snapshot cannot be put over it.
pub(crate) fn session_from<C: CellRunner>(
    alloc: Global,
    records: &[Rc<C::Record>],
    snapshot: &Snapshot<C>,
    at: usize,
) -> Result<Option<C::Session>, AllocError>
    requires order { snapshot.now.place ≤ at }
    requires within { at ≤ length records.now }
    requires run { (b : Book) × IsRun b (each_of C.recorded records.now)
        × IsSnapshot b snapshot.now.place (C.kept_session snapshot.now.version)
        (map C.change_of snapshot.now.pending.items) }
    ensures { IfOk result (λ o. IfSome o (λ s. (b : Book)
        → IsRun b (each_of C.recorded records.now)
        → IsSnapshot b snapshot.now.place (C.kept_session snapshot.now.version)
        (map C.change_of snapshot.now.pending.items)
        → StandsBefore b at (C.session_of s))) }
{
    let Some(mut session) = thawed::<C>(alloc, snapshot)? else {
        return Ok(None);
    };
    replay_between::<C>(records, &mut session, snapshot.place, at)?;
    Ok(Some(session))
}

/// The index of the first snapshot that is behind a place.
pub(crate) fn first_behind<C: CellRunner>(snapshots: &[Snapshot<C>], place: usize) -> usize
    ensures { result ≤ length snapshots.now }
{
    match last_up_to::<C>(snapshots, place) {
        Some(k) => k + 1,
        None => 0,
    }
}

/// Keeps the session before a place as its snapshot, if that is due. Where memory is wanting it is not kept.
fn keep_at<C: CellRunner>(
    alloc: Global,
    snapshots: &mut Vec<Snapshot<C>>,
    session: &mut C::Session,
    place: usize,
    cost: u64,
    is_due: bool,
)
    ensures same { C.session_of session.new ≡ C.session_of session.old }
    ensures snapshots { (b : Book) → place ≤ length b.cells
        → StandsBefore b place (C.session_of session.old)
        → All (λ s. IsSnapshot b s.place (C.kept_session s.version)
        (map C.change_of s.pending.items)) snapshots.old.items
        → All (λ s. IsSnapshot b s.place (C.kept_session s.version)
        (map C.change_of s.pending.items)) snapshots.new.items }
{
    if !is_due {
        return;
    }
    let Ok(version) = C::freeze(session) else {
        return;
    };
    let pending = Vec::new(alloc);
    let _room = snapshots.push(Snapshot {
        place,
        version,
        pending,
        cost,
    });
}

/// How many bytes the blocks of other cells have to which the cells from a place up to another wrote. Where these are many, the last of
/// them are asked.
fn cost_between<C: CellRunner>(
    records: &[Rc<C::Record>],
    session: &C::Session,
    from: usize,
    to: usize,
) -> u64
    requires { to ≤ length records.now }
{
    let first = from.max(to.saturating_sub(MOST_ASKED)).min(to);
    C::written_size(&records[first..to], session)
}

/// Whether a snapshot next in front of a place saves more than replays. It does not where its cost is large and lies in blocks to which
/// the cell at the place writes: that one copies them whether there is a snapshot or not.
fn is_worth<C: CellRunner>(
    records: &[Rc<C::Record>],
    session: &C::Session,
    cost: u64,
    at: usize,
) -> bool {
    let first = at.min(records.len());
    let end = at.saturating_add(1).min(records.len());
    cost <= MOST_PUT_BYTES || cost > C::written_size(&records[first..end], session)
}

/// The place in front of an edit where a snapshot is made, if the last one is far: else the place of that.
fn stop_before(from: usize, at: usize) -> usize
    requires { from ≤ at }
    ensures behind { from ≤ result }
    ensures within { result ≤ at }
{
    if at - from <= DISTANCE {
        return from;
    }
    from.max(at - at % DISTANCE)
}

/// A session that is alike to the one before a place. Where the last snapshot in front is far, one is made on the way, and one that was
/// patched is made anew.
pub(crate) fn session_front<C: CellRunner>(
    alloc: Global,
    records: &[Rc<C::Record>],
    snapshots: &[Snapshot<C>],
    at: usize,
    fresh: &mut Vec<Snapshot<C>>,
) -> Result<C::Session, AllocError>
    requires within { at ≤ length records.now }
    requires run { (b : Book) × IsRun b (each_of C.recorded records.now)
        × All (λ s. IsSnapshot b s.place (C.kept_session s.version)
        (map C.change_of s.pending.items)) snapshots.now }
    ensures session { IfOk result (λ h. (b : Book) → IsRun b (each_of C.recorded records.now)
        → All (λ s. IsSnapshot b s.place (C.kept_session s.version)
        (map C.change_of s.pending.items)) snapshots.now
        → StandsBefore b at (C.session_of h)) }
    ensures fresh { (b : Book) → IsRun b (each_of C.recorded records.now)
        → All (λ s. IsSnapshot b s.place (C.kept_session s.version)
        (map C.change_of s.pending.items)) snapshots.now
        → All (λ s. IsSnapshot b s.place (C.kept_session s.version)
        (map C.change_of s.pending.items)) fresh.old.items
        → All (λ s. IsSnapshot b s.place (C.kept_session s.version)
        (map C.change_of s.pending.items)) fresh.new.items }
{
    let (from, mut session, is_patched) = nearest::<C>(alloc, snapshots, at)?;
    keep_at::<C>(alloc, fresh, &mut session, from, 0, is_patched);
    let stop = stop_before(from, at);
    replay_between::<C>(records, &mut session, from, stop)?;
    let cost = cost_between::<C>(records, &session, from, stop);
    let is_due = from < stop && is_worth::<C>(records, &session, cost, at);
    keep_at::<C>(alloc, fresh, &mut session, stop, cost, is_due);
    replay_between::<C>(records, &mut session, stop, at)?;
    Ok(session)
}

/// Puts the pending changes over a snapshot, where that is due. The answer says whether it stays.
fn unburden<C: CellRunner>(alloc: Global, snapshot: &mut Snapshot<C>, is_due: bool) -> bool
    ensures place { snapshot.new.place ≡ snapshot.old.place }
    ensures snapshot { (b : Book)
        → IsSnapshot b snapshot.old.place (C.kept_session snapshot.old.version)
        (map C.change_of snapshot.old.pending.items)
        → IsSnapshot b snapshot.new.place (C.kept_session snapshot.new.version)
        (map C.change_of snapshot.new.pending.items) }
{
    if !is_due {
        return true;
    }
    match refreshed::<C>(alloc, snapshot) {
        Ok(Some(_session)) => true,
        _ => false,
    }
}

/// Adds a change to those that are pending, and brings the snapshot to its place now. A change with nothing in it is not kept. The answer
/// says whether the snapshot stays.
fn add_pending<C: CellRunner>(snapshot: &mut Snapshot<C>, now: usize, change: C::Change) -> bool
    ensures { IsTrue result → (old new : Book) → AreDistinct (labels_of old.cells)
        → AreDistinct (labels_of new.cells)
        → IsChangeAt old new snapshot.old.place now (C.change_of change)
        → IsSnapshot old snapshot.old.place (C.kept_session snapshot.old.version)
        (map C.change_of snapshot.old.pending.items)
        → IsSnapshot new snapshot.new.place (C.kept_session snapshot.new.version)
        (map C.change_of snapshot.new.pending.items) }
{
    if C::is_empty(&change) {
        snapshot.place = now;
        return true;
    }
    match snapshot.pending.push(change) {
        Ok(()) => {
            snapshot.place = now;
            true
        }
        Err(_refused) => false,
    }
}

/// Whether the records from the last snapshot in front up to this one are soon replayed.
fn is_soon_replayed<C: CellRunner>(snapshot: &Snapshot<C>, from: usize) -> bool {
    snapshot.cost <= MOST_DROPPED_BYTES && snapshot.place.saturating_sub(from) < MOST_REPLAYED
}

/// Adds to a snapshot behind an edit the change that is noted of its place. A change of many bytes is put over it. So are changes that
/// have become many: no edit has used the snapshot since the first of them. Where its records are soon replayed from the last snapshot in
/// front, whose place is `from`, it is dropped in place of that. The answer says whether it stays.
fn put_behind<C: CellRunner>(
    alloc: Global,
    snapshot: &mut Snapshot<C>,
    now: usize,
    change: C::Change,
    from: usize,
) -> bool
    ensures { IsTrue result → (old new : Book) → AreDistinct (labels_of old.cells)
        → AreDistinct (labels_of new.cells)
        → IsChangeAt old new snapshot.old.place now (C.change_of change)
        → IsSnapshot old snapshot.old.place (C.kept_session snapshot.old.version)
        (map C.change_of snapshot.old.pending.items)
        → IsSnapshot new snapshot.new.place (C.kept_session snapshot.new.version)
        (map C.change_of snapshot.new.pending.items) }
{
    let is_large = C::change_size(&change) > MOST_PENDING_BYTES;
    if !add_pending::<C>(snapshot, now, change) {
        return false;
    }
    let are_many = snapshot.pending.len() > MOST_PENDING;
    if are_many && is_soon_replayed::<C>(snapshot, from) {
        return false;
    }
    unburden::<C>(alloc, snapshot, is_large || are_many)
}

/// Brings a snapshot behind an edit to its place now: with the change that is noted of it, or made of the session that is noted. The
/// answer says whether it stays.
fn bring_along<C: CellRunner>(
    alloc: Global,
    snapshot: &mut Snapshot<C>,
    now: usize,
    memo: Memo<C::Change, C::Version>,
    from: usize,
) -> bool
    ensures { IsTrue result → (old new : Book) → AreDistinct (labels_of old.cells)
        → AreDistinct (labels_of new.cells)
        → IsNoted C.change_of C.kept_session old new snapshot.old.place now memo
        → IsSnapshot old snapshot.old.place (C.kept_session snapshot.old.version)
        (map C.change_of snapshot.old.pending.items)
        → IsSnapshot new snapshot.new.place (C.kept_session snapshot.new.version)
        (map C.change_of snapshot.new.pending.items) }
{
    match memo {
        Memo::Change(change) => put_behind::<C>(alloc, snapshot, now, change, from),
        Memo::Session(made) => {
            snapshot.place = now;
            snapshot.version = made;
            snapshot.pending.clear();
            true
        }
    }
}

/// Puts a snapshot in front of an edit among the others, in the place of one of the same place. Where memory is wanting it is dropped.
fn put_in_front<C: CellRunner>(
    snapshots: &mut Vec<Snapshot<C>>,
    snapshot: Snapshot<C>,
    front: usize,
)
    ensures { (old new : Book) → IsBehind old new front
        → IsSnapshot old snapshot.place (C.kept_session snapshot.version)
        (map C.change_of snapshot.pending.items)
        → All (λ s. IsSnapshot new s.place (C.kept_session s.version)
        (map C.change_of s.pending.items)) snapshots.old.items
        → All (λ s. IsSnapshot new s.place (C.kept_session s.version)
        (map C.change_of s.pending.items)) snapshots.new.items }
{
    if snapshot.place > front {
        return;
    }
    let behind = first_behind::<C>(snapshots, snapshot.place);
    if behind > 0 && snapshots[behind - 1].place == snapshot.place {
        let mut renewed = snapshot;
        renewed.cost = snapshots[behind - 1].cost;
        snapshots[behind - 1] = renewed;
        return;
    }
    let _room = snapshots.insert(behind, snapshot);
}

/// How many bytes the snapshots take for themselves, but for the last one.
fn total_cost<C: CellRunner>(snapshots: &[Snapshot<C>]) -> u64 {
    let mut total: u64 = 0;
    for k in 0..snapshots.len().saturating_sub(1) {
        total = total.saturating_add(snapshots[k].cost);
    }
    total
}

/// How far it is from the snapshot in front of one to the snapshot behind it.
fn gap_at<C: CellRunner>(snapshots: &[Snapshot<C>], k: usize) -> usize
    requires { k < length snapshots.now }
{
    let front = if k > 0 { snapshots[k - 1].place } else { 0 };
    let behind = if k + 1 < snapshots.len() {
        snapshots[k + 1].place
    } else {
        snapshots[k].place
    };
    behind.saturating_sub(front)
}

/// The snapshot that can best be missed: the one in the smallest gap, of all where they are many, else of those that take bytes for
/// themselves. The last one stays, and so does the one next in front of a place.
fn find_spare<C: CellRunner>(snapshots: &[Snapshot<C>], front: usize) -> Option<usize>
    ensures { IfSome result (λ k. k < length snapshots.now) }
{
    let are_many = snapshots.len() > MOST_SNAPSHOTS;
    let near = last_up_to::<C>(snapshots, front);
    let mut spare: Option<usize> = None;
    let mut least = usize::MAX;
    for k in 0..snapshots.len().saturating_sub(1) {
        let gap = gap_at::<C>(snapshots, k);
        if (are_many || snapshots[k].cost > 0) && near != Some(k) && gap < least {
            spare = Some(k);
            least = gap;
        }
    }
    spare
}

/// Raises the cost of a snapshot, if there is one at the index.
fn raise_cost<C: CellRunner>(snapshots: &mut Vec<Snapshot<C>>, k: usize, cost: u64)
    ensures snapshots { (b : Book) → All (λ s. IsSnapshot b s.place (C.kept_session s.version)
        (map C.change_of s.pending.items)) snapshots.old.items
        → All (λ s. IsSnapshot b s.place (C.kept_session s.version)
        (map C.change_of s.pending.items)) snapshots.new.items }
    ensures count { length snapshots.new.items ≡ length snapshots.old.items }
{
    if k < snapshots.len() {
        snapshots[k].cost = cost.max(snapshots[k].cost);
    }
}

/// Whether the snapshots are too many, or take too many bytes for themselves.
fn are_too_many<C: CellRunner>(snapshots: &[Snapshot<C>]) -> bool {
    snapshots.len() > MOST_SNAPSHOTS || total_cost::<C>(snapshots) > MOST_BYTES
}

/// Drops snapshots until those that stay are few enough. They stay spread over the notebook, and so does the one next in front of a
/// place.
fn thin<C: CellRunner>(snapshots: &mut Vec<Snapshot<C>>, front: usize)
    ensures { (b : Book) → All (λ s. IsSnapshot b s.place (C.kept_session s.version)
        (map C.change_of s.pending.items)) snapshots.old.items
        → All (λ s. IsSnapshot b s.place (C.kept_session s.version)
        (map C.change_of s.pending.items)) snapshots.new.items }
{
    while are_too_many::<C>(snapshots) {
        let Some(k) = find_spare::<C>(snapshots, front) else {
            return;
        };
        let gone = snapshots.remove(k);
        raise_cost::<C>(snapshots, k, gone.cost);
    }
}

/// The place of the last snapshot, or 0.
fn last_place<C: CellRunner>(snapshots: &[Snapshot<C>]) -> usize {
    match snapshots.last() {
        Some(last) => last.place,
        None => 0,
    }
}

/// Takes out the last snapshot, where it stands at this place, near the one in front of it.
fn take_out<C: CellRunner>(snapshots: &mut Vec<Snapshot<C>>, at: usize) -> Option<Snapshot<C>>
    ensures place { IfSome result (λ s. s.place ≡ at) }
    ensures taken { IfSome result (λ s. (b : Book)
        → All (λ s. IsSnapshot b s.place (C.kept_session s.version)
        (map C.change_of s.pending.items)) snapshots.old.items
        → IsSnapshot b s.place (C.kept_session s.version) (map C.change_of s.pending.items)) }
    ensures snapshots { (b : Book) → All (λ s. IsSnapshot b s.place (C.kept_session s.version)
        (map C.change_of s.pending.items)) snapshots.old.items
        → All (λ s. IsSnapshot b s.place (C.kept_session s.version)
        (map C.change_of s.pending.items)) snapshots.new.items }
{
    if snapshots.is_empty() {
        return None;
    }
    let last = snapshots.len() - 1;
    let gap = at.saturating_sub(last_place::<C>(&snapshots[..last]));
    if snapshots[last].place != at || gap >= distance(at) {
        return None;
    }
    Some(snapshots.remove(last))
}

/// Takes the snapshot at the end out, unless it stays, and gives its session, which then has its blocks alone. There is none where no such
/// snapshot stands there.
pub(crate) fn take_end<C: CellRunner>(
    alloc: Global,
    snapshots: &mut Vec<Snapshot<C>>,
    at: usize,
) -> Result<Option<C::Session>, AllocError>
    ensures session { IfOk result (λ o. IfSome o (λ h. (b : Book)
        → All (λ s. IsSnapshot b s.place (C.kept_session s.version)
        (map C.change_of s.pending.items)) snapshots.old.items
        → StandsBefore b at (C.session_of h))) }
    ensures snapshots { (b : Book) → All (λ s. IsSnapshot b s.place (C.kept_session s.version)
        (map C.change_of s.pending.items)) snapshots.old.items
        → All (λ s. IsSnapshot b s.place (C.kept_session s.version)
        (map C.change_of s.pending.items)) snapshots.new.items }
{
    let Some(end) = take_out::<C>(snapshots, at) else {
        return Ok(None);
    };
    thawed::<C>(alloc, &end)
}

/// How many bytes a snapshot behind all records takes for itself: none, where the next cell takes it out.
fn end_cost<C: CellRunner>(
    snapshots: &[Snapshot<C>],
    records: &[Rc<C::Record>],
    session: &C::Session,
) -> u64 {
    let count = records.len();
    let from = last_place::<C>(snapshots);
    if count.saturating_sub(from) < distance(count) {
        return 0;
    }
    cost_between::<C>(records, session, from, count)
}

/// Keeps the session behind all records as the last snapshot. Where memory is wanting it is not kept.
pub(crate) fn keep_end<C: CellRunner>(
    alloc: Global,
    snapshots: &mut Vec<Snapshot<C>>,
    records: &[Rc<C::Record>],
    session: &mut C::Session,
)
    ensures { (b : Book) → length records.now ≤ length b.cells
        → StandsBefore b (length records.now) (C.session_of session.old)
        → All (λ s. IsSnapshot b s.place (C.kept_session s.version)
        (map C.change_of s.pending.items)) snapshots.old.items
        → All (λ s. IsSnapshot b s.place (C.kept_session s.version)
        (map C.change_of s.pending.items)) snapshots.new.items }
{
    // what stands here is thawed and kept anew with each cell that is added behind the last one
    let _unsettled = C::settle(session);
    let cost = end_cost::<C>(snapshots, records, session);
    keep_at::<C>(alloc, snapshots, session, records.len(), cost, true);
    thin::<C>(snapshots, records.len());
}

/// Puts fresh snapshots in front of an edit among the others, and drops some where all take too many bytes.
pub(crate) fn put_fresh<C: CellRunner>(
    snapshots: &mut Vec<Snapshot<C>>,
    fresh: Vec<Snapshot<C>>,
    front: usize,
)
    ensures { (old new : Book) → IsBehind old new front
        → All (λ s. IsSnapshot old s.place (C.kept_session s.version)
        (map C.change_of s.pending.items)) fresh.items
        → All (λ s. IsSnapshot new s.place (C.kept_session s.version)
        (map C.change_of s.pending.items)) snapshots.old.items
        → All (λ s. IsSnapshot new s.place (C.kept_session s.version)
        (map C.change_of s.pending.items)) snapshots.new.items }
{
    if fresh.is_empty() {
        return;
    }
    for made in fresh {
        put_in_front::<C>(snapshots, made, front);
    }
    thin::<C>(snapshots, front);
}

/// How many snapshots, from the first on, are not behind a place.
fn count_front<C: CellRunner>(snapshots: &[Snapshot<C>], front: usize) -> usize
    ensures within { result ≤ length snapshots.now }
    ensures front { (k : ℕ) → k < result
        → slice_index_or (map (λ s. s.place) snapshots.now) k 0 ≤ front }
{
    for k in 0..snapshots.len() {
        if snapshots[k].place > front {
            return k;
        }
    }
    snapshots.len()
}

/// The index of the first snapshot, from an index on, that stands at a place.
fn find_at<C: CellRunner>(snapshots: &[Snapshot<C>], from: usize, place: usize) -> Option<usize>
    ensures order { IfSome result (λ k. from ≤ k) }
    ensures within { IfSome result (λ k. k < length snapshots.now) }
    ensures place { IfSome result
        (λ k. slice_index_or (map (λ s. s.place) snapshots.now) k 0 ≡ place) }
{
    for k in from..snapshots.len() {
        if snapshots[k].place == place {
            return Some(k);
        }
    }
    None
}

/// Brings the snapshots behind an edit to their places now, each as it is noted. Those that are not noted are dropped. Those in front stay
/// where they lie: `count` tells how many.
fn carry_noted<C: CellRunner>(
    alloc: Global,
    snapshots: &mut Vec<Snapshot<C>>,
    count: usize,
    noted: Vec<Noted<C>>,
)
    requires { count ≤ length snapshots.old.items }
    ensures { (old new : Book) → AreDistinct (labels_of old.cells)
        → AreDistinct (labels_of new.cells)
        → All (λ n. IsNoted C.change_of C.kept_session old new n.place n.now n.memo) noted.items
        → All (λ s. IsSnapshot new s.place (C.kept_session s.version)
        (map C.change_of s.pending.items)) (take count snapshots.old.items)
        → All (λ s. IsSnapshot old s.place (C.kept_session s.version)
        (map C.change_of s.pending.items)) snapshots.old.items
        → All (λ s. IsSnapshot new s.place (C.kept_session s.version)
        (map C.change_of s.pending.items)) snapshots.new.items }
{
    let mut stay = count;
    let mut next = count;
    for note in noted {
        let Some(k) = find_at::<C>(snapshots, next, note.place) else {
            drop(note);
            continue;
        };
        let from = last_place::<C>(&snapshots[..stay]);
        if bring_along::<C>(alloc, &mut snapshots[k], note.now, note.memo, from) {
            snapshots.swap(stay, k);
            stay += 1;
        }
        next = k + 1;
    }
    snapshots.truncate(stay);
}

/// Brings the snapshots to the notebook behind an edit. Those in front stay, and those that a sweep noted get its change; the others
/// are dropped. The fresh ones in front come in.
pub(crate) fn carry<C: CellRunner>(
    alloc: Global,
    snapshots: &mut Vec<Snapshot<C>>,
    fresh: Vec<Snapshot<C>>,
    noted: Vec<Noted<C>>,
    front: usize,
)
    ensures { (old new : Book) → IsBehind old new front
        → All (λ n. IsNoted C.change_of C.kept_session old new n.place n.now n.memo) noted.items
        → All (λ s. IsSnapshot old s.place (C.kept_session s.version)
        (map C.change_of s.pending.items)) fresh.items
        → All (λ s. IsSnapshot old s.place (C.kept_session s.version)
        (map C.change_of s.pending.items)) snapshots.old.items
        → All (λ s. IsSnapshot new s.place (C.kept_session s.version)
        (map C.change_of s.pending.items)) snapshots.new.items }
{
    let count = count_front::<C>(snapshots, front);
    carry_noted::<C>(alloc, snapshots, count, noted);
    put_fresh::<C>(snapshots, fresh, front);
}
