//! `Shift`: where a cell stands behind an edit, and so the places of the cells that the edit ran.

ghost use Rattle.std.specs.Prelude.{◌≡◌, ℕ, ◌<◌, ◌+◌, ◌^◌, ◌++◌, [], OnOk, map};
ghost use Rattle.std.specs.Result.{IsOk};
ghost use Rattle.nd_schedule.specs.Schedule.Ran.{shifted};
ghost use Rattle.nd_schedule.specs.Schedule.Sweep.{AreFit, fit_at};

use crate::schedule::runner::CellRunner;
use crate::schedule::sweep::Changed;
use std::alloc::AllocError;

/// Where a cell stands behind an edit, seen from its place before.
#[derive(Clone, Copy)]
pub enum Shift {
    Stays,
    /// One place later: a cell came in before it.
    Later,
    /// One place earlier: a cell before it is gone.
    Earlier,
}

impl Shift {
    /// The place now of a cell that stood at another before.
    pub(crate) fn place(self, before: usize) -> usize
        ensures { before + 1 < 2 ^ 64 → result ≡ shifted self before }
    {
        match self {
            Shift::Stays => before,
            Shift::Later => before.saturating_add(1),
            Shift::Earlier => before.saturating_sub(1),
        }
    }
}

/// Adds the places now of cells that have other records.
pub(crate) fn note_places<C: CellRunner>(
    ran: &mut Vec<usize>,
    changed: &[Changed<C>],
    shift: Shift,
) -> Result<(), AllocError>
    ensures places { OnOk result ((n : ℕ) → n + 1 < 2 ^ 64 → AreFit C.covers n
        (map (λ c. fit_at c.place (C.recorded c.record.value) c.word) changed.now)
        → ran.new.items
        ≡ ran.old.items ++ map (λ c. shifted shift c.place) changed.now) }
    ensures none { changed.now ≡ [] → IsOk result }
{
    for k in 0..changed.len() {
        ran.push(shift.place(changed[k].place))?;
    }
    Ok(())
}
