//! `Walk`: a walk over the byte offsets of a view, in runs no longer than asked for.
ghost use Rattle.std.specs.Prelude.{◌≡◌, ◌<◌, ◌≤◌, ◌++◌, length, None};
ghost use Rattle.std.specs.List.{concat};
ghost use Rattle.nd_assign.specs.Walks.{places_in};

use nd_view::{Run, Runs, View};
use std::marker::Model;

/// A walk over the byte offsets of a view in C order. A clause sees the list of those that are
/// left.
#[derive(Drop)]
pub struct Walk<'v> {
    // what is left of the run that the walk is in, and the runs behind it
    ahead: Option<Run>,
    runs: Runs<'v>,
}

impl<'v> Model for Walk<'v> {
    ghost use Rattle.std.specs.Prelude.{List, ℕ};

    ghost Value = { List ℕ };

    ghost use Rattle.nd_assign.specs.Walks.{left_of};

    ghost view = { left_of };
}

// Takes out the run that a walk is in.
fn take_run(ahead: &mut Option<Run>, runs: &mut Runs<'_>) -> Run
    requires { 0 < length (places_in ahead.old ++ concat runs.old) }
    ensures split { places_in ahead.old ++ concat runs.old ≡ result ++ concat runs.new }
    ensures none { ahead.new ≡ None }
{
    if let Some(run) = ahead.take() {
        return run;
    }
    let Some(run) = runs.next() else {
        unreachable!();
    };
    run
}

impl<'v> Walk<'v> {
    /// Begins a walk over a view.
    pub fn new(view: &'v View) -> Walk<'v>
        ensures { result ≡ view.now.places }
    {
        Walk {
            ahead: None,
            runs: view.runs(),
        }
    }

    /// Returns the next byte offsets: those that lie one step apart, and at most `most` of them.
    pub fn next(&mut self, most: u64) -> Run
        requires left { 0 < length self.old }
        requires most { 0 < most }
        ensures split { self.old ≡ result ++ self.new }
        ensures few { length result ≤ most }
    {
        let run = take_run(&mut self.ahead, &mut self.runs);
        let count = run.count();
        if count <= most {
            return run;
        }
        self.ahead = Some(run.part(most, count - most));
        run.part(0, most)
    }
}
