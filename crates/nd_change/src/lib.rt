//! Laws of changes: what an edit may have changed behind each cell, where a record still holds, and
//! when two sessions are alike.
#![tactic(auto)]

ghost use Rattle.nd_change.specs.Change.{ByName, GoesOn, HoldsOver, Overwrites, Passes};
ghost use Rattle.nd_change.specs.Snapshots.{
  AlikeReplays,
  AlikeRuns,
  NothingLeft,
  OverAlike,
  Patches,
};
ghost use Rattle.nd_change.specs.Whole.{
  ComesWhole,
  FollowsWhole,
  KeepsWhole,
  LeavesWhole,
  PutsWhole,
};

/// A run comes to the bases of other cells by names alone: where it reads a length or a byte of one,
/// or binds a value in one, it found under some name a value in that base.
pub fn by_name()
    ensures { ByName }
{}

/// A record holds over the session now just where it fits the change: each key that it read is
/// outside of the change, or is now what the run found there.
pub fn holds_over()
    ensures { HoldsOver }
{}

/// A step of the change is the change behind two runs, one run and none, or one that is in both.
pub fn goes_on()
    ensures { GoesOn }
{}

/// A run that is in both notebooks takes from the change what it overwrites.
pub fn overwrites()
    ensures { Overwrites }
{}

/// Past a run that is disjoint from the change the record holds, and the change stays as it is.
pub fn passes()
    ensures { Passes }
{}

/// Where the change has nothing, the two sessions are alike.
pub fn nothing_left()
    ensures { NothingLeft }
{}

/// Over alike sessions a cell has the same record, and leaves alike sessions.
pub fn alike_runs()
    ensures { AlikeRuns }
{}

/// A record that holds over one of two alike sessions holds over the other, and leaves alike
/// sessions.
pub fn alike_replays()
    ensures { AlikeReplays }
{}

/// A snapshot of the run before with the change put over it is alike to the session now.
pub fn patches()
    ensures { Patches }
{}

/// A change that is over two sessions is over alike ones.
pub fn over_alike()
    ensures { OverAlike }
{}

/// Behind a run that is in both notebooks, a change that has bases whole loses the names that the
/// run touches and the bases that it made. The bytes that it wrote go into the others.
pub fn keeps_whole()
    ensures { KeepsWhole }
{}

/// Behind two runs of a cell, a change that has bases whole gets what stands now at the names and
/// bases that either changed.
pub fn follows_whole()
    ensures { FollowsWhole }
{}

/// Behind a run whose cell is gone it gets what stands now at the names and bases that the run
/// changed.
pub fn leaves_whole()
    ensures { LeavesWhole }
{}

/// Behind a run whose cell is new it gets what stands now at the names and bases that the run
/// changed.
pub fn comes_whole()
    ensures { ComesWhole }
{}

/// A session that a change with whole bases was put over is alike to each over which the change is.
pub fn puts_whole()
    ensures { PutsWhole }
{}
