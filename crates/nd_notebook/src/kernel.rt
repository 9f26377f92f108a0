//! `SessionRunner`: the cells of a notebook, run by evaluation over a session.

ghost use Rattle.nd_model.specs.Cells.Session.{collected};
ghost use Rattle.nd_model.specs.Cells.Running as running;
ghost use Rattle.nd_session.specs.Session.Filter as filters;
ghost use Rattle.nd_session.specs.Session.Kept.{version_of};
ghost use Rattle.nd_session.specs.Session.Live.{live};
ghost use Rattle.nd_session.specs.Inputs.Values.{given_of, rule_of};
ghost use Rattle.nd_cell.specs.Records.{recorded};
ghost use Rattle.nd_notebook.specs.Sharing.{changed_in};

use crate::shared_change::SharedChange;
use crate::world::World;
use nd_cell::{Meter, Record, run_cell};
use nd_schedule::schedule::CellRunner;
use nd_session::session::{Base, Change, KeyFilter, NameOrder, Session, Version};
use std::alloc::{AllocError, Global};
use std::rc::Rc;

/// Whether one of some runs wrote to a block of another cell.
fn is_written_by(runs: &[Rc<Record>], base: Base) -> bool {
    for run in runs {
        if run.changes().writes_to(base) {
            return true;
        }
    }
    false
}

/// How many bytes the blocks of other cells have to which a run wrote, and none of some earlier runs
/// did.
fn written_bytes(made: &Record, earlier: &[Rc<Record>], session: &Session) -> u64 {
    let changes = made.changes();
    let mut bytes: u64 = 0;
    for place in 0..changes.written_count() {
        let base = changes.written_at(place);
        if !is_written_by(earlier, base) {
            bytes = bytes.saturating_add(session.bytes(base).len() as u64);
        }
    }
    bytes
}

/// Runs cells over sessions of shared blocks. Two sessions count as equal where they are so up to
/// unreachable blocks.
#[derive(Drop)]
pub struct SessionRunner;

impl CellRunner for SessionRunner {
    type Session = Session;

    type Record = Record;

    type World = World;

    // shared, so that it is noted for many snapshots at the cost of one
    type Change = SharedChange;

    type Word = KeyFilter;

    // shared, so that a snapshot is moved as a pointer
    type Version = Rc<Version>;

    type Order = NameOrder;

    ghost session_of = { λ s. collected (running.session_of (live s)) };

    ghost recorded = { λ r. recorded r };

    ghost given = { λ w. record { inputs = given_of w.inputs.entries; rule = rule_of w.rule } };

    ghost change_of = { λ c. changed_in c };

    ghost kept_session = { λ v. collected (version_of v.value) };

    ghost order_of = { λ o. o };

    ghost covers = { λ w k. filters.covers w k };

    fn empty(alloc: Global) -> Result<Session, AllocError> {
        Ok(Session::new(alloc))
    }

    fn run(
        meter: &mut Meter,
        session: &mut Session,
        world: &World,
        label: u64,
        text: &str,
    ) -> Result<Record, AllocError> {
        match run_cell(meter, session, &world.inputs, world.rule, label, text) {
            Ok(made) => Ok(made),
            Err(memory) => Err(memory.into()),
        }
    }

    fn still_holds(made: &Record, session: &Session, world: &World) -> bool {
        made.agrees(session, &world.inputs, world.rule)
    }

    fn replay(made: &Record, session: &mut Session) -> Result<(), AllocError> {
        match made.replay(session) {
            Ok(()) => Ok(()),
            Err(memory) => Err(memory.into()),
        }
    }

    fn last_of(made: &Record, name: &str) -> Option<bool> {
        made.last_of(name)
    }

    fn no_change(alloc: Global) -> SharedChange {
        SharedChange::nothing(alloc)
    }

    fn world_change(alloc: Global, old: &World, new: &World) -> Result<SharedChange, AllocError> {
        match Change::of_world(alloc, &old.inputs, old.rule, &new.inputs, new.rule) {
            Ok(change) => Ok(SharedChange::new(alloc, change)?),
            Err(memory) => Err(memory.into()),
        }
    }

    fn word(made: &Record) -> KeyFilter {
        made.filter()
    }

    fn change_word(change: &SharedChange) -> KeyFilter {
        match &change.held {
            Some(held) => held.as_ref().filter(),
            None => Change::new(change.alloc).filter(),
        }
    }

    fn are_apart(one: &KeyFilter, other: &KeyFilter) -> bool {
        one.is_apart(other)
    }

    fn fits(made: &Record, change: &SharedChange) -> bool {
        match &change.held {
            Some(held) => made.fits(held.as_ref()),
            None => made.fits(&Change::new(change.alloc)),
        }
    }

    fn keep(made: &Record, change: &mut SharedChange) -> Result<(), AllocError> {
        let mut held = change.take()?;
        let own = Rc::make_mut(&mut held)?;
        made.keep(own)?;
        change.held = Some(held);
        Ok(())
    }

    fn rerun(
        before: &Record,
        made: &Record,
        session: &Session,
        _world: &World,
        change: &mut SharedChange,
    ) -> Result<(), AllocError> {
        let mut held = change.take()?;
        let own = Rc::make_mut(&mut held)?;
        made.follow(before, session, own)?;
        change.held = Some(held);
        Ok(())
    }

    fn went(
        before: &Record,
        session: &Session,
        change: &mut SharedChange,
    ) -> Result<(), AllocError> {
        let mut held = change.take()?;
        let own = Rc::make_mut(&mut held)?;
        before.leave(session, own)?;
        change.held = Some(held);
        Ok(())
    }

    fn came(made: &Record, session: &Session, change: &mut SharedChange) -> Result<(), AllocError> {
        let mut held = change.take()?;
        let own = Rc::make_mut(&mut held)?;
        made.come(session, own)?;
        change.held = Some(held);
        Ok(())
    }

    fn settle(session: &mut Session) -> Result<(), AllocError> {
        match session.settle_early() {
            Ok(()) => Ok(()),
            Err(memory) => Err(memory.into()),
        }
    }

    fn freeze(session: &mut Session) -> Result<Rc<Version>, AllocError> {
        match session.freeze() {
            Ok(version) => Ok(Rc::new(session.allocator(), version)?),
            Err(memory) => Err(memory.into()),
        }
    }

    fn thaw(alloc: Global, version: &Rc<Version>) -> Result<Session, AllocError> {
        match Session::thaw(alloc, version.as_ref()) {
            Ok(session) => Ok(session),
            Err(memory) => Err(memory.into()),
        }
    }

    fn is_empty(change: &SharedChange) -> bool {
        match &change.held {
            Some(held) => held.as_ref().is_empty(),
            None => true,
        }
    }

    fn change_count(change: &SharedChange) -> usize {
        match &change.held {
            Some(held) => held.as_ref().count(),
            None => 0,
        }
    }

    fn change_size(change: &SharedChange) -> u64 {
        match &change.held {
            Some(held) => held.as_ref().weight(),
            None => 0,
        }
    }

    fn written_size(records: &[Rc<Record>], session: &Session) -> u64 {
        let mut size: u64 = 0;
        for k in 0..records.len() {
            size = size.saturating_add(written_bytes(&records[k], &records[..k], session));
        }
        size
    }

    fn share(change: &SharedChange) -> Result<SharedChange, AllocError> {
        change.share()
    }

    fn patch(change: &SharedChange, session: &mut Session) -> Result<bool, AllocError> {
        match &change.held {
            Some(held) => Ok(held.as_ref().patch(session)?),
            None => Ok(Change::new(change.alloc).patch(session)?),
        }
    }

    fn no_order(alloc: Global) -> NameOrder {
        NameOrder::new(alloc)
    }

    fn note_names(made: &Record, order: &mut NameOrder) -> Result<(), AllocError> {
        match made.note_names(order) {
            Ok(()) => Ok(()),
            Err(memory) => Err(memory.into()),
        }
    }
}
