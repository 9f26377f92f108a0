//! `note`: what a sweep notes where a snapshot is kept: the change there, or the session that stands there now.

ghost use Rattle.std.specs.Prelude.{◌≡◌, ◌≤◌, ℕ, IfSome, IsTrue, length};
ghost use Rattle.std.specs.List.{All};
ghost use Rattle.nd_model.specs.Book.Book.{Book};
ghost use Rattle.nd_schedule.specs.Schedule.Snapshot.{IsChangeAt, IsNoted, StandsBefore};

use crate::schedule::runner::CellRunner;
use crate::schedule::snapshots::{MOST_KEYS, MOST_PUT_BYTES};

/// What a sweep brings along for a snapshot: the change at its place, or the session that stands there now.
#[derive(Drop)]
pub(crate) enum Memo<D, V> {
    Change(D),
    Session(V),
}

/// What a sweep notes where a snapshot is kept: its place before the edit and now, and the change or the session there.
#[derive(Drop)]
pub(crate) struct Noted<C: CellRunner> {
    pub(crate) place: usize,
    pub(crate) now: usize,
    pub(crate) memo: Memo<C::Change, C::Version>,
}

/// The session at hand, to be kept as a snapshot. There is none where it stands elsewhere, or memory is wanting.
fn session_memo<C: CellRunner>(
    session: &mut C::Session,
    is_there: bool,
) -> Option<Memo<C::Change, C::Version>>
    ensures same { C.session_of session.new ≡ C.session_of session.old }
    ensures memo { IfSome result (λ n. (old new : Book) (place now : ℕ)
        → now ≤ length new.cells
        → (IsTrue is_there → StandsBefore new now (C.session_of session.old))
        → IsNoted C.change_of C.kept_session old new place now n) }
{
    if !is_there {
        return None;
    }
    match C::freeze(session) {
        Ok(version) => Some(Memo::Session(version)),
        Err(_refused) => None,
    }
}

/// The change, to be put over a snapshot later. There is none where memory is wanting.
fn change_memo<C: CellRunner>(change: &C::Change) -> Option<Memo<C::Change, C::Version>>
    ensures { IfSome result (λ n. (old new : Book) (place now : ℕ)
        → IsChangeAt old new place now (C.change_of change.now)
        → IsNoted C.change_of C.kept_session old new place now n) }
{
    match C::share(change) {
        Ok(shared) => Some(Memo::Change(shared)),
        Err(_refused) => None,
    }
}

/// What is noted where a snapshot is kept: the change there. In place of one with many keys it is the session at hand, if that stands
/// there. A change of many bytes is noted at the end alone.
fn find_memo<C: CellRunner>(
    change: &C::Change,
    session: &mut C::Session,
    is_there: bool,
    is_end: bool,
) -> Option<Memo<C::Change, C::Version>>
    ensures same { C.session_of session.new ≡ C.session_of session.old }
    ensures memo { IfSome result (λ n. (old new : Book) (place now : ℕ)
        → IsChangeAt old new place now (C.change_of change.now)
        → (IsTrue is_there → StandsBefore new now (C.session_of session.old))
        → IsNoted C.change_of C.kept_session old new place now n) }
{
    if !is_end && C::change_size(change) > MOST_PUT_BYTES {
        return None;
    }
    if C::change_count(change) > MOST_KEYS {
        return session_memo::<C>(session, is_there);
    }
    change_memo::<C>(change)
}

/// Notes the change where a snapshot is kept, or the session at hand. Where neither is to be had, the snapshot is dropped.
pub(crate) fn note<C: CellRunner>(
    place: usize,
    now: usize,
    is_end: bool,
    is_there: bool,
    change: &C::Change,
    session: &mut C::Session,
    noted: &mut Vec<Noted<C>>,
)
    ensures same { C.session_of session.new ≡ C.session_of session.old }
    ensures noted { (old new : Book) → IsChangeAt old new place now (C.change_of change.now)
        → (IsTrue is_there → StandsBefore new now (C.session_of session.old))
        → All (λ n. IsNoted C.change_of C.kept_session old new n.place n.now n.memo) noted.old.items
        → All (λ n. IsNoted C.change_of C.kept_session old new n.place n.now n.memo)
        noted.new.items }
{
    let Some(memo) = find_memo::<C>(change, session, is_there, is_end) else {
        return;
    };
    let _room = noted.push(Noted { place, now, memo });
}
