//! `SharedChange`: a change that the snapshots behind an edit share.

ghost use Rattle.std.specs.Prelude.{◌≡◌, IfOk, None, OnErr};
ghost use Rattle.nd_session.specs.Session.Change.{change_of};
ghost use Rattle.nd_notebook.specs.Sharing.{changed_in};

use nd_session::session::Change;
use std::alloc::{AllocError, Global};
use std::rc::Rc;

/// A change that copies share, until one of them gets another. One with nothing in it takes no memory.
#[derive(Drop)]
pub struct SharedChange {
    pub(crate) held: Option<Rc<Change>>,
    pub(crate) alloc: Global,
}

impl SharedChange {
    /// Returns a change with nothing in it.
    pub(crate) fn nothing(alloc: Global) -> SharedChange
        ensures { changed_in result ≡ (λ _. None) }
    {
        SharedChange { held: None, alloc }
    }

    /// Returns a change that nobody shares yet.
    pub(crate) fn new(alloc: Global, change: Change) -> Result<SharedChange, AllocError>
        ensures { IfOk result (λ c. changed_in c ≡ change_of change) }
    {
        let held = Rc::new(alloc, change)?;
        Ok(SharedChange {
            held: Some(held),
            alloc,
        })
    }

    /// Returns an equal change, which shares what this one holds.
    pub(crate) fn share(&self) -> Result<SharedChange, AllocError>
        ensures { IfOk result (λ c. changed_in c ≡ changed_in self.now) }
    {
        let held = match &self.held {
            Some(held) => Some(held.clone()?),
            None => None,
        };
        Ok(SharedChange {
            held,
            alloc: self.alloc,
        })
    }

    /// Takes out what the change holds, so that it may be changed: nothing is left in this one.
    pub(crate) fn take(&mut self) -> Result<Rc<Change>, AllocError>
        ensures { IfOk result (λ held. change_of held.value ≡ changed_in self.old) }
    {
        match self.held.take() {
            Some(held) => Ok(held),
            None => Ok(Rc::new(self.alloc, Change::new(self.alloc))?),
        }
    }
}
