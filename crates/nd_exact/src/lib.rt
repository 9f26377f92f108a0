//! Laws of the definitions from their other side: `stale_runs` says that a stale cell has to run.
#![tactic(auto)]

ghost use Rattle.nd_exact.specs.Need.{
  HoldsIsNotStale,
  KeptIsItsRecord,
  NeedsRunIsStale,
  NoFewerRuns,
  NotStaleHolds,
  RecordIsKept,
  StaleNeedsRun,
  StaleRuns,
};
ghost use Rattle.nd_exact.specs.Reads.{ReadsAreFinite};

pub mod answers;
pub mod reads;
pub mod scripts;
pub mod writes;

/// Each cell has its record of the run before, whichever place it stands at now.
pub fn record_is_kept()
    ensures { RecordIsKept }
{}

/// No cell has another record: it is that of the cell with the same label, whose text is the same.
pub fn kept_is_its_record()
    ensures { KeptIsItsRecord }
{}

/// A stale cell has no record of the run before that still holds.
pub fn stale_needs_run()
    ensures { StaleNeedsRun }
{}

/// A cell of which no record still holds is stale, where no base of its label is in the session.
pub fn needs_run_is_stale()
    ensures { NeedsRunIsStale }
{}

/// A cell is not stale where the record of its run before still holds.
pub fn holds_is_not_stale()
    ensures { HoldsIsNotStale }
{}

/// A cell that is not stale has a record that still holds, where no base of its label is in the
/// session.
pub fn not_stale_holds()
    ensures { NotStaleHolds }
{}

/// Each pass that gives what running all cells gives runs each stale cell.
pub fn stale_runs()
    ensures { StaleRuns }
{}

/// No such pass runs fewer cells than are stale.
pub fn no_fewer_runs()
    ensures { NoFewerRuns }
{}

/// A cell reads finitely many keys.
pub fn reads_are_finite()
    ensures { ReadsAreFinite }
{}
