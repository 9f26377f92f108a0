//! `Schedule::try_cell`: what a cell would give that stands nowhere.

ghost use Rattle.std.specs.Prelude.{◌≡◌, ◌≤◌, ℕ, IfOk, OnErr, OnOk, length};
ghost use Rattle.nd_model.specs.Book.Book.{Insert};
ghost use Rattle.nd_model.specs.Book.Entries.{entry_at, record_at};
ghost use Rattle.nd_model.specs.Book.Notebook.{book_of, edited_sheet};
ghost use Rattle.nd_model.specs.Book.Stale.{counted};

use crate::cells::fresh_label;
use crate::schedule::notebook::Schedule;
use crate::schedule::runner::CellRunner;
use crate::schedule::sweep::run_text;
use nd_meter::Meter;
use std::alloc::AllocError;

impl<C: CellRunner> Schedule<C> {
    /// Runs a cell as if it were inserted at the place, which may be behind the last one, and gives its record. It is refused for want
    /// of memory alone.
    pub fn try_cell(
        &self,
        meter: &mut Meter,
        at: usize,
        text: &str,
    ) -> Result<C::Record, AllocError>
        requires { at ≤ length self.now.cells }
        ensures made { IfOk result (λ r. C.recorded r ≡ record_at (book_of self.now).world
            (entry_at (book_of (edited_sheet (Insert at text.now) self.now)) at)) }
        ensures counts { OnOk result (meter.new ≡ counted 1 meter.old) }
        ensures err_counts { OnErr result
            ((runs : ℕ) × (runs ≤ 1) × (meter.new ≡ counted runs meter.old)) }
    {
        let free = fresh_label(self.alloc, &self.cells, self.least)?;
        let mut session = self.session_like(at)?;
        run_text::<C>(meter, &mut session, &self.world, free.label, text, at)
    }
}
