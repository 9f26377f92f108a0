//! What runs cells: the contract that a sweep asks of the layer below it.

ghost use Rattle.std.specs.Prelude.{◌≡◌, ℕ, Bool, List, ◌+◌, ◌-◌, ◌^◌, ◌↔◌, min, IfOk, IsTrue, OnOk, None, is_some, unwrap_or, []};
ghost use Rattle.nd_model.specs.Cells.Session as sessions;
ghost use Rattle.nd_model.specs.Cells.Session.{lookup};
ghost use Rattle.nd_model.specs.Cells.Running as running;
ghost use Rattle.nd_model.specs.Grammar.Reading.{reading};
ghost use Rattle.nd_model.specs.Cells.Cell.{cell, session_after};
ghost use Rattle.nd_model.specs.Cells.Footprint.{HasNone, replayed, with_effects};
ghost use Rattle.nd_model.specs.Book.Records.{record_of, StillHolds};
ghost use Rattle.nd_model.specs.Book.Records as records;
ghost use Rattle.nd_model.specs.Book.Notebook.{Setting, world_in};
ghost use Rattle.nd_change.specs.Change as deltas;
ghost use Rattle.nd_change.specs.Change.{Fits};
ghost use Rattle.nd_change.specs.Steps.{Comes, Follows, IsPutOver, IsWordOf, IsWordOfChange, Keeps, Leaves};
ghost use Rattle.nd_model.specs.Book.Sessions.{IsOnce};
ghost use Rattle.nd_schedule.specs.Schedule.Snapshot.{names_in};

use nd_meter::Meter;
use std::alloc::{AllocError, Global};
use std::rc::Rc;

/// Sessions, records of the runs of cells over them, and changes.
pub trait CellRunner: Drop {
    type Session: Drop;

    type Record: Drop;

    type World: Drop;

    type Change: Drop;

    type Word: Drop;

    type Version: Drop;

    type Order: Drop;

    // what they stand for in the definitions
    ghost session_of: { Self.Session → sessions.Session };

    ghost recorded: { Self.Record → records.Record };

    ghost given: { Self.World → Setting };

    ghost change_of: { Self.Change → deltas.Change };

    ghost kept_session: { Self.Version → sessions.Session };

    ghost order_of: { Self.Order → List (List ℕ) };

    // the keys that a word covers
    ghost covers: { Self.Word → running.Key → Bool };

    /// A session with no names.
    fn empty(alloc: Global) -> Result<Self::Session, AllocError>
        ensures { IfOk result (λ s. session_of s ≡ sessions.no_session) };

    /// Runs a cell of this label over a session, and counts the run. After want of memory the session is only fit to be dropped.
    fn run(
        meter: &mut Meter,
        session: &mut Self::Session,
        world: &Self::World,
        label: u64,
        text: &str,
    ) -> Result<Self::Record, AllocError>
        requires { HasNone label (session_of session.old) }
        ensures made { IfOk result
            (λ r. recorded r ≡ record_of label (reading text.now) (world_in (given world.now))
            (session_of session.old)) }
        ensures after { OnOk result
            (session_of session.new
            ≡ session_after (cell label (reading text.now) (world_in (given world.now))
            (session_of session.old))) }
        ensures counted { meter.new ≡ min (meter.old + 1) (2 ^ 64 - 1) };

    /// Whether a record may stand for a run of its cell over the session, by the inputs and the rule.
    fn still_holds(made: &Self::Record, session: &Self::Session, world: &Self::World) -> bool
        requires { HasNone (recorded made.now).label (session_of session.now) }
        ensures { IsTrue result
            ↔ StillHolds (recorded made.now) (session_of session.now)
            (world_in (given world.now)) };

    /// Does to the session what the record says that the run did. After want of memory the session is only fit to be dropped.
    fn replay(made: &Self::Record, session: &mut Self::Session) -> Result<(), AllocError>
        requires { (i : running.World)
            × StillHolds (recorded made.now) (session_of session.old) i }
        ensures { OnOk result
            (session_of session.new
            ≡ with_effects (recorded made.now).label (recorded made.now).effects
            (session_of session.old)) };

    /// What the run did to a name at last: it bound it, or unbound it; none where it did neither.
    fn last_of(made: &Self::Record, name: &str) -> Option<bool>
        ensures { (names : sessions.Names)
            → is_some (lookup name.now (replayed (recorded made.now).effects.events names))
            ≡ unwrap_or result (is_some (lookup name.now names)) };

    /// A change with nothing in it. It takes no memory.
    fn no_change(alloc: Global) -> Self::Change
        ensures { (k : running.Key) → change_of result k ≡ None };

    /// What other inputs and another rule change, by themselves.
    fn world_change(
        alloc: Global,
        old: &Self::World,
        new: &Self::World,
    ) -> Result<Self::Change, AllocError>
        ensures { IfOk result (λ c. (s : sessions.Session) → deltas.IsOver (change_of c) s
            (world_in (given old.now)) s (world_in (given new.now))) };

    /// A word that covers what the run read and did.
    fn word(made: &Self::Record) -> Self::Word
        ensures { IsWordOf covers result (recorded made.now) };

    /// A word that covers the change. It takes the same time for each change.
    fn change_word(change: &Self::Change) -> Self::Word
        ensures { IsWordOfChange covers result (change_of change.now) };

    /// Whether no key is covered by both words. It may say no where none is.
    fn are_apart(one: &Self::Word, other: &Self::Word) -> bool
        ensures { IsTrue result → (k : running.Key) → IsTrue (covers one.now k)
            → ¬ IsTrue (covers other.now k) };

    /// Whether each key that the run read is outside of the change, or is now what the run found there. It asks no session.
    fn fits(made: &Self::Record, change: &Self::Change) -> bool
        ensures { IsTrue result ↔ Fits (change_of change.now) (recorded made.now) };

    /// Takes from the change what a run overwrites that is in both notebooks.
    fn keep(made: &Self::Record, change: &mut Self::Change) -> Result<(), AllocError>
        ensures { OnOk result
            (Keeps (change_of change.old) (change_of change.new) (recorded made.now)) };

    /// Adds to the change where a run does other things now than before. The session is the one behind the run now.
    fn rerun(
        before: &Self::Record,
        made: &Self::Record,
        session: &Self::Session,
        world: &Self::World,
        change: &mut Self::Change,
    ) -> Result<(), AllocError>
        ensures { OnOk result
            (Follows (change_of change.old) (change_of change.new) (recorded before.now)
            (recorded made.now) (session_of session.now) (world_in (given world.now))) };

    /// Adds to the change what a run did whose cell is gone. The session is the one in its place now.
    fn went(
        before: &Self::Record,
        session: &Self::Session,
        change: &mut Self::Change,
    ) -> Result<(), AllocError>
        ensures { OnOk result
            (Leaves (change_of change.old) (change_of change.new) (recorded before.now)
            (session_of session.now)) };

    /// Adds to the change what a run did whose cell is new. The session is the one behind it.
    fn came(
        made: &Self::Record,
        session: &Self::Session,
        change: &mut Self::Change,
    ) -> Result<(), AllocError>
        ensures { OnOk result
            (Comes (change_of change.old) (change_of change.new) (recorded made.now)
            (session_of session.now)) };

    /// Makes a session cheaper to keep and to thaw, where that is due. It stays as it is, for want of memory too.
    fn settle(session: &mut Self::Session) -> Result<(), AllocError>
        ensures { session_of session.new ≡ session_of session.old };

    /// The session as it is now, to be kept.
    fn freeze(session: &mut Self::Session) -> Result<Self::Version, AllocError>
        ensures kept { IfOk result (λ v. kept_session v ≡ session_of session.old) }
        ensures same { session_of session.new ≡ session_of session.old };

    /// A session as it was kept.
    fn thaw(alloc: Global, version: &Self::Version) -> Result<Self::Session, AllocError>
        ensures { IfOk result (λ s. session_of s ≡ kept_session version.now) };

    /// Whether the change has nothing in it. It may say no where it has nothing.
    fn is_empty(change: &Self::Change) -> bool
        ensures { IsTrue result → (k : running.Key) → change_of change.now k ≡ None };

    /// How many names, inputs and blocks the change has. No answer of the schedule depends on it.
    fn change_count(change: &Self::Change) -> usize;

    /// How many bytes the blocks of the change have. No answer of the schedule depends on it.
    fn change_size(change: &Self::Change) -> u64;

    /// How many bytes the blocks of other cells have that these runs wrote to. The session is the one behind them. No answer of the
    /// schedule depends on it.
    fn written_size(records: &[Rc<Self::Record>], session: &Self::Session) -> u64;

    /// A copy of the change. The two may share what they hold until one of them changes.
    fn share(change: &Self::Change) -> Result<Self::Change, AllocError>
        ensures { IfOk result (λ c. change_of c ≡ change_of change.now) };

    /// Puts a change over a session, and says whether it could. It may say no where a base comes in that is not whole in the change.
    /// After a no, and after want of memory, the session is only fit to be dropped.
    fn patch(change: &Self::Change, session: &mut Self::Session) -> Result<bool, AllocError>
        ensures over { IfOk result (λ could. IsTrue could → IsPutOver (change_of change.now)
            (session_of session.old) (session_of session.new)) }
        ensures once { IfOk result
            (λ could. IsTrue could → IsOnce (session_of session.new).names) };

    /// The order of no names. It takes no memory.
    fn no_order(alloc: Global) -> Self::Order
        ensures { order_of result ≡ [] };

    /// Adds to the order of names what a run binds and unbinds.
    fn note_names(made: &Self::Record, order: &mut Self::Order) -> Result<(), AllocError>
        ensures { OnOk result ((names : sessions.Names) → names_in names ≡ order_of order.old
            → names_in (replayed (recorded made.now).effects.events names)
            ≡ order_of order.new) };
}
