//! `NameOrder`: names in the order in which cells bind them.

ghost use Rattle.std.specs.Prelude.{◌≡◌, [], ◌∷◌, OnOk, map, ◌<◌, Some, length, slice_get};
ghost use Rattle.std.specs.Rc.{rc_str_bytes};
ghost use Rattle.nd_heap.specs.Values.{entries_of};
ghost use Rattle.nd_model.specs.Cells.Footprint.{replayed};
ghost use Rattle.nd_model.specs.Cells.Session as model;
ghost use Rattle.nd_session.specs.Session.Order.{IsOrderBehind, names_in};
ghost use Rattle.nd_trace.specs.Events.{event_of};

use crate::session::changes::Changes;
use indexmap::IndexMap;
use nd_heap::OutOfMemory;
use nd_trace::Event;
use std::alloc::Global;
use std::marker::Model;
use std::rc::RcStr;

/// The names that are bound behind a cell, in order.
///
/// Behind `x = 1`, `y = 2` and `x = 3` they are `x` and `y`.
#[derive(Drop)]
pub struct NameOrder {
    names: IndexMap<RcStr, ()>,
}

impl Model for NameOrder {
    ghost use Rattle.std.specs.Prelude.{List, ℕ};

    ghost Value = { List (List ℕ) };

    ghost use Rattle.nd_heap.specs.Values.{entries_of};
    ghost use Rattle.nd_session.specs.Session.Order.{names_in};

    ghost view = { λ o. names_in (entries_of (λ u. u) o.names.entries) };
}

impl NameOrder {
    /// Returns the order of no names, which takes no memory.
    pub fn new(alloc: Global) -> NameOrder
        ensures { result ≡ [] }
    {
        NameOrder {
            names: IndexMap::new(alloc),
        }
    }

    /// Goes past a cell: a name that it bound and that is there keeps its position, a new one goes
    /// last, and one that it unbound is gone.
    pub fn note(&mut self, changes: &Changes) -> Result<(), OutOfMemory>
        ensures { OnOk result ((names : model.Names) → names_in names ≡ self.old
            → names_in (replayed changes.now.events names) ≡ self.new) }
    {
        note_events(&mut self.names, &changes.events)?;
        Ok(())
    }

    /// Returns how many names there are.
    pub fn len(&self) -> usize
        ensures { result ≡ length self.now }
    {
        self.names.len()
    }

    /// Returns the name at a position, from 0.
    pub fn name_at(&self, place: usize) -> &str
        requires { place < length self.now }
        ensures { slice_get self.now place ≡ Some result.now }
    {
        let Some((name, _)) = self.names.get_index(place) else {
            unreachable!();
        };
        name.as_str()
    }
}

/// Notes a name, which keeps its position where it is there.
fn note_bound(names: &mut IndexMap<RcStr, ()>, name: &RcStr) -> Result<(), OutOfMemory>
    ensures { OnOk result (entries_of (λ u. u) names.new.entries
        ≡ model.bind (rc_str_bytes name.now) tt (entries_of (λ u. u) names.old.entries)) }
{
    let key = name.clone()?;
    names.insert(key, ())?;
    Ok(())
}

/// Takes a name out.
fn note_unbound(names: &mut IndexMap<RcStr, ()>, name: &str)
    ensures { entries_of (λ u. u) names.new.entries
        ≡ model.unbind name.now (entries_of (λ u. u) names.old.entries) }
{
    // proof: where the name is among them, by the clause of get_index_of().
    let _ = names.get_index_of(name);
    names.shift_remove(name);
}

/// Notes a name that an event binds, or takes out one that it unbinds.
fn note_event(names: &mut IndexMap<RcStr, ()>, event: &Event) -> Result<(), OutOfMemory>
    ensures { OnOk result (IsOrderBehind (names_in (entries_of (λ u. u) names.old.entries))
        (event_of event.now ∷ []) (names_in (entries_of (λ u. u) names.new.entries))) }
{
    match event {
        Event::Binds(name, _) => {
            note_bound(names, name)?;
            Ok(())
        }
        Event::Unbinds(name) => {
            note_unbound(names, name.as_str());
            Ok(())
        }
    }
}

/// Goes past events.
fn note_events(names: &mut IndexMap<RcStr, ()>, events: &[Event]) -> Result<(), OutOfMemory>
    ensures { OnOk result (IsOrderBehind (names_in (entries_of (λ u. u) names.old.entries))
        (map event_of events.now) (names_in (entries_of (λ u. u) names.new.entries))) }
{
    for event in events {
        note_event(names, event)?;
    }
    Ok(())
}
