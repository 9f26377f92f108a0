//! Assignments to the elements of a view, as NumPy makes them: [`assign`] converts, broadcasts and
//! writes a value, [`prepare`] does all but the write.
#![tactic(auto)]

ghost use Rattle.nd_assign.specs.AssignedPlaces.{AssignedPlaces};

mod assignment;
mod columns;
mod gapless;
mod grid;
mod kernel;
mod moved;
mod pairs;
mod preparation;
mod rewriting;
mod shape;
mod source;
mod stretch;
mod structures;
mod views;
mod walk;
mod whole_run;
mod within;

pub use assignment::Assignment;
pub use preparation::prepare;
pub use shape::fits;
pub use source::{AssignedValue, assign};
pub use walk::Walk;

/// A law: which byte offsets an assignment writes.
pub fn assigned_places()
    ensures { AssignedPlaces }
{}
