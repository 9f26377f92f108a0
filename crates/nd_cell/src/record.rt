//! `Record`: what a run of a cell read, did and gave.

ghost use Rattle.std.specs.Prelude.{◌≡◌, ◌↔◌, IfOk, IsTrue, OnOk, is_some, option_map, string_bytes, unwrap_or};
ghost use Rattle.nd_change.specs.Change.{Fits};
ghost use Rattle.nd_change.specs.Steps.{Comes, Follows, IsWordOf, Keeps, Leaves};
ghost use Rattle.nd_model.specs.Cells.Footprint.{HasNone, replayed, with_effects};
ghost use Rattle.nd_model.specs.Book.Records.{StillHolds};
ghost use Rattle.nd_model.specs.Cells.Running as running;
ghost use Rattle.nd_model.specs.Cells.Session.{Names, collected};
ghost use Rattle.nd_model.specs.Cells.Cell.{ended_under, session_after};
ghost use Rattle.nd_session.specs.Session.Change.{change_of};
ghost use Rattle.nd_session.specs.Session.Changes.{is_bound};
ghost use Rattle.nd_session.specs.Session.Filter.{covers};
ghost use Rattle.nd_session.specs.Session.Kept.{thawed, version_of};
ghost use Rattle.nd_session.specs.Session.Live.{live};
ghost use Rattle.nd_session.specs.Session.Order.{names_in};
ghost use Rattle.nd_session.specs.Inputs.Values.{inputs_of, rule_of, world_of};
ghost use Rattle.nd_cell.specs.Records.{EndsRun, record_at_end, recorded, with_reads};
ghost use Rattle.nd_cell.specs.Results.{ended_of, refusal_of, saves_of};

use crate::result::CellResult;
use indexmap::IndexMap;
use nd_session::session::{
    CellRule, Change, Changes, Inputs, KeyFilter, NameOrder, OutOfMemory, Reads, Session, Version,
};
use std::marker::Model;
use std::mem::replace;
use std::rc::Rc;

/// The record of a cell's run: what it read, with what it found there, what it did to the session,
/// and what it gave.
///
/// The record of `print(x[0])` has the name `x`, and the bytes of one element. It still holds where
/// an edit before the cell changed `x[1]`, and not where that changed `x[0]`.
#[derive(Drop)]
pub struct Record {
    reads: Reads,
    changes: Changes,
    result: Rc<CellResult>,
}

impl Model for Record {
    ghost use Rattle.nd_cell.specs.Records.{RecordData};

    ghost Value = { RecordData };

    ghost use Rattle.std.specs.Prelude.{option_map, string_bytes};
    ghost use Rattle.nd_cell.specs.Results.{refusal_of, saves_of};

    ghost view = { λ r. record {
      reads = r.reads;
      changes = r.changes;
      text = string_bytes r.result.value.text;
      refusal = option_map refusal_of r.result.value.refusal;
      saves = saves_of r.result.value.saves.entries;
    } };

    ghost use Rattle.nd_cell.specs.Records.{IsOfRun};

    ghost invariant = { λ r. IsOfRun (record {
      reads = r.reads;
      changes = r.changes;
      text = string_bytes r.result.value.text;
      refusal = option_map refusal_of r.result.value.refusal;
      saves = saves_of r.result.value.saves.entries;
    }) };
}

/// Ends a run that began with a snapshot. A refused one under `Atomic` saves nothing, and its
/// session is that of the snapshot again.
fn end_by(rule: CellRule, session: &mut Session, before: Version, gives: CellResult) -> CellResult
    ensures { ended_of result (live session.new) ≡ with_reads (live session.new).read
        (ended_under (rule_of rule) (thawed before) (ended_of gives (live session.old))) }
{
    if gives.refusal.is_none() {
        drop(before);
        return gives;
    }
    match rule {
        CellRule::Python => {
            drop(before);
            gives
        }
        CellRule::Atomic => {
            let alloc = session.allocator();
            let refused = replace(session, Session::resume(alloc, before));
            drop(refused);
            CellResult {
                text: gives.text,
                refusal: gives.refusal,
                saves: IndexMap::new(alloc),
            }
        }
    }
}

impl Record {
    /// Returns the record of a run that began with a snapshot, came to a session, and gave this
    /// result. The session then is the one that the rule leaves.
    pub(crate) fn of_run(
        session: &mut Session,
        before: Version,
        inputs: &Inputs,
        rule: CellRule,
        gives: CellResult,
    ) -> Result<Record, OutOfMemory>
        requires { EndsRun (version_of before) (world_of (inputs_of inputs.now.entries) rule)
            (ended_under (rule_of rule) (thawed before) (ended_of gives (live session.old))) }
        ensures recorded { IfOk result (λ r. recorded r
            ≡ record_at_end (version_of before) (world_of (inputs_of inputs.now.entries) rule)
            (ended_under (rule_of rule) (thawed before) (ended_of gives (live session.old)))) }
        ensures after { OnOk result (collected (running.session_of (live session.new))
            ≡ session_after (ended_under (rule_of rule) (thawed before)
            (ended_of gives (live session.old)))) }
    {
        let alloc = session.allocator();
        let is_refused = gives.refusal.is_some();
        let reads = match Reads::new(alloc, session.seen(), &before, inputs, rule, is_refused) {
            Ok(reads) => reads,
            Err(memory) => {
                drop(before);
                drop(gives);
                return Err(memory);
            }
        };
        let gives = end_by(rule, session, before, gives);
        let changes = match Changes::new(alloc, session) {
            Ok(changes) => changes,
            Err(memory) => {
                drop(reads);
                drop(gives);
                return Err(memory);
            }
        };
        match Rc::new(alloc, gives) {
            Ok(result) => Ok(Record {
                reads,
                changes,
                result,
            }),
            Err(refused) => {
                drop(reads);
                drop(changes);
                Err(refused.into())
            }
        }
    }

    /// Returns what the run gave.
    pub fn result(&self) -> &CellResult
        ensures text { string_bytes result.now.text ≡ self.now.text }
        ensures refusal { option_map refusal_of result.now.refusal ≡ self.now.refusal }
        ensures saves { saves_of result.now.saves.entries ≡ self.now.saves }
    {
        self.result.as_ref()
    }

    /// Returns whether the record may stand for a run of its cell over a session, by these inputs
    /// and this rule: all that it read is unchanged. It takes no memory.
    pub fn still_holds(&self, session: &Session, inputs: &Inputs, rule: CellRule) -> bool
        ensures { IsTrue result ↔ StillHolds (recorded self.now)
            (running.session_of (live session.now))
            (world_of (inputs_of inputs.now.entries) rule) }
    {
        !session.has_label(self.changes.label()) && self.reads.agree(session, inputs, rule)
    }

    /// Returns whether the record still holds, where no bound value lies in a block of the cell's
    /// label.
    pub fn agrees(&self, session: &Session, inputs: &Inputs, rule: CellRule) -> bool
        requires { HasNone (recorded self.now).label (running.session_of (live session.now)) }
        ensures { IsTrue result ↔ StillHolds (recorded self.now)
            (running.session_of (live session.now))
            (world_of (inputs_of inputs.now.entries) rule) }
    {
        self.reads.agree(session, inputs, rule)
    }

    /// Returns what the run last did to a name: true where it bound it, false where it unbound it,
    /// `None` where it did neither. After `x = 1` and `del x` it is false for `x`. It takes no
    /// memory.
    pub fn last_of(&self, name: &str) -> Option<bool>
        ensures { (names : Names)
            → is_bound name.now (replayed (recorded self.now).effects.events names)
            ≡ unwrap_or result (is_bound name.now names) }
    {
        self.changes.last_of(name)
    }

    /// Does to a session what the run did to its own, where the record still holds. The session
    /// then is that after a run of the cell, which gives `result`.
    ///
    /// No byte of a block is copied, except those that were written. After want of memory the
    /// session may only be dropped.
    pub fn replay(&self, session: &mut Session) -> Result<(), OutOfMemory>
        requires { (i : running.World)
            × StillHolds (recorded self.now) (running.session_of (live session.old)) i }
        ensures { OnOk result (collected (running.session_of (live session.new))
            ≡ with_effects (recorded self.now).label (recorded self.now).effects
            (running.session_of (live session.old))) }
    {
        session.soundness();
        session.redo(&self.changes)?;
        Ok(())
    }

    /// Returns a filter of all keys that the run read, and of those at which it did something. It
    /// takes no memory.
    pub fn filter(&self) -> KeyFilter
        ensures { IsWordOf covers result (recorded self.now) }
    {
        KeyFilter::of_run(&self.reads, &self.changes)
    }

    /// Returns whether each key that the run read is outside of a change, or is now what the run
    /// found there. No session is asked, and no memory is taken.
    ///
    /// A run of `print(x[0])` fits a change of `x[1]` alone.
    pub fn fits(&self, change: &Change) -> bool
        ensures { IsTrue result ↔ Fits (change_of change.now) (recorded self.now) }
    {
        change.fits(&self.reads)
    }

    /// Takes from a change what the run overwrites, where it is in both notebooks. After want of
    /// memory the change may only be dropped.
    pub fn keep(&self, change: &mut Change) -> Result<(), OutOfMemory>
        ensures keeps { OnOk result
            (Keeps (change_of change.old) (change_of change.new) (recorded self.now)) }
        ensures fewer { OnOk result ((k : running.Key)
            → IsTrue (is_some (change_of change.new k))
            → IsTrue (is_some (change_of change.old k))) }
    {
        change.keep(&self.changes)?;
        Ok(())
    }

    /// Adds to a change what this run did and another run of the cell did before it. The session is
    /// the one behind this run. After want of memory the change may only be dropped.
    pub fn follow(
        &self,
        before: &Record,
        session: &Session,
        change: &mut Change,
    ) -> Result<(), OutOfMemory>
        ensures { OnOk result ((world : running.World) → Follows (change_of change.old)
            (change_of change.new) (recorded before.now) (recorded self.now)
            (collected (running.session_of (live session.now))) world) }
    {
        change.follow(&before.changes, &self.changes, session)?;
        Ok(())
    }

    /// Adds to a change what the run did, whose cell is gone. The session is the one in its place.
    /// After want of memory the change may only be dropped.
    pub fn leave(&self, session: &Session, change: &mut Change) -> Result<(), OutOfMemory>
        ensures { OnOk result
            (Leaves (change_of change.old) (change_of change.new) (recorded self.now)
            (collected (running.session_of (live session.now)))) }
    {
        change.leave(&self.changes, session)?;
        Ok(())
    }

    /// Adds to a change what the run did, whose cell is new. The session is the one behind it.
    /// After want of memory the change may only be dropped.
    pub fn come(&self, session: &Session, change: &mut Change) -> Result<(), OutOfMemory>
        ensures { OnOk result
            (Comes (change_of change.old) (change_of change.new) (recorded self.now)
            (collected (running.session_of (live session.now)))) }
    {
        change.come(&self.changes, session)?;
        Ok(())
    }

    /// Adds to an order of names what the run bound and unbound. After want of memory the order may
    /// only be dropped.
    pub fn note_names(&self, order: &mut NameOrder) -> Result<(), OutOfMemory>
        ensures { OnOk result ((names : Names) → names_in names ≡ order.old
            → names_in (replayed (recorded self.now).effects.events names) ≡ order.new) }
    {
        order.note(&self.changes)?;
        Ok(())
    }

    /// Returns what the run read, with what it found there.
    pub fn reads(&self) -> &Reads
        ensures { result.now ≡ self.now.reads }
    {
        &self.reads
    }

    /// Returns what the run did to its session.
    pub fn changes(&self) -> &Changes
        ensures { result.now ≡ self.now.changes }
    {
        &self.changes
    }
}
